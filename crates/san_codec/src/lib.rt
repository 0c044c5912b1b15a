//! Moves of standard algebraic notation (PGN 8.2.3), read and written in a position whose legal
//! moves are at hand, or read on a board.
#![tactic(auto)]

mod board_reader;
mod grammar;
pub mod laws;
mod named_squares;
mod reader;
mod writer;

pub use board_reader::read_on;
pub use reader::read;
pub use writer::write;
