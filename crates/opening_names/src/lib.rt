//! Names of openings, by the positions that they lead to: a book is read from a file, and names the
//! positions of an answer.
#![tactic(auto)]

mod book;
pub mod laws;
mod lent;
mod line;
mod names;
mod pieces;
mod places;
mod tidy_key;
mod words;

pub use book::Book;
pub use lent::{LentNaming, lend_names, lend_naming, lend_player_naming};
pub use names::{name_moves, naming, player_naming};
