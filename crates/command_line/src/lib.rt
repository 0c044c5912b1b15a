//! The command line: what words ask for.
#![tactic(auto)]

mod app;
mod command;
pub mod laws;
mod words;

pub use command::Command;
pub use words::{UsageError, parse_words};
