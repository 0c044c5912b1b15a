//! A batch of texts, replayed and counted: which texts are accepted, why others are refused, and the rows of the games.
#![tactic(auto)]

mod accepting;
mod kept_game;
mod keyed_board;
pub mod laws;
mod ranges;
mod reading;
mod singles;
mod step;
mod steps;
mod tallying;

pub use tallying::{Tallying, tally};
