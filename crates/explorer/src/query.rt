//! `query`: the answer of a store, from its rows in memory or in a scratch file.
pub mod spilled;
pub mod store;
