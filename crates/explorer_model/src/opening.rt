//! Openings, what an answer names by them, and what may be wrong with a file of openings.
use crate::list::Items;
use crate::text::Name;
use thiserror::Error;

/// The name of an opening, with its code in the Encyclopaedia of Chess Openings, as `B00`.
#[derive(Clone, Debug, Drop)]
pub struct Opening {
    pub eco: Name,
    pub name: Name,
}

/// What openings an answer shows: `whole` is that of the line that leads to the position asked for,
/// and `moves` has one for each move of the answer's list, or none.
#[derive(Debug, Drop)]
pub struct Naming {
    pub whole: Option<Opening>,
    pub moves: Items<Option<Opening>>,
}

/// What is wrong with a line of a file of openings.
#[derive(Clone, Copy, Debug, PartialEq, Eq)]
pub enum BookCause {
    /// It has not just two tabs.
    NotThree,
    /// The code or the name is not UTF-8.
    NotUtf8,
    /// It has more than 64 moves.
    TooLong,
    /// A word is no move in its turn.
    BadMove,
}

/// The first faulty line of a file of openings; lines count from 1.
#[derive(Clone, Copy, Debug, PartialEq, Eq, Error)]
#[error("openings line {line} {cause}")]
pub struct BookFault {
    pub line: u32,
    pub cause: BookCause,
}
