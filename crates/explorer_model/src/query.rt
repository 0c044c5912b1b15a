//! What a query asks for.
use crate::archive::{Month, Moves};
use crate::chess::Position;
use thiserror::Error;

/// Which games a query counts.
#[derive(Clone, Copy, Debug)]
pub struct Filter {
    /// In the order of `Speed`.
    pub speeds: [bool; 6],
    /// From the group of the least ratings to that of the greatest.
    pub groups: [bool; 9],
    /// The first month that is counted, if there is one.
    pub since: Option<Month>,
    /// The last month that is counted, if there is one.
    pub until: Option<Month>,
}

/// What is asked: a position, which games count, and how much of the answer is wanted.
#[derive(Debug, Drop)]
pub struct Query {
    pub root: Position,
    pub plays: Moves,
    /// The position that `plays` lead to from `root`.
    pub at: Position,
    pub filter: Filter,
    /// The most moves that the answer has.
    pub moves: u32,
    /// The most games that are listed by rating.
    pub top: u8,
    /// The most games that are listed by month.
    pub recent: u8,
    pub history: bool,
}

/// The parameters of a query, in the order in which they are judged.
#[derive(Clone, Copy, Debug, PartialEq, Eq)]
pub enum Parameter {
    Variant,
    Fen,
    Play,
    Speeds,
    Ratings,
    Since,
    Until,
    Moves,
    TopGames,
    RecentGames,
    History,
}

/// The first parameter whose value is malformed, or that is given twice.
#[derive(Clone, Copy, Debug, PartialEq, Eq, Error)]
#[error("malformed parameter {name}")]
pub struct BadParameter {
    pub name: Parameter,
}
