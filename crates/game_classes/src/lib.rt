//! What the tags of a text say of its game (PGN 8.1).
#![tactic(auto)]

mod bytes;
mod event;
mod rating;
mod site;
mod steps;
mod tags;
mod time;

pub use steps::classes;
pub use tags::start_text;
