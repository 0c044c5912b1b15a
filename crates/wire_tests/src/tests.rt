//! Tables of words, bytes and bodies.
mod answers;
mod hosts;
mod requests;
mod words;
