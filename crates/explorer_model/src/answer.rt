//! What is found for a query.
use crate::archive::{Bytes, Classes, Month};
use crate::chess::Move;
use crate::list::Items;

/// How many games White won, were drawn and Black won.
#[derive(Clone, Copy, Debug, Default, PartialEq, Eq)]
pub struct Totals {
    pub white: u64,
    pub draws: u64,
    pub black: u64,
}

/// A game that an answer shows, with the move that it played in the position asked for.
#[derive(Debug, Drop)]
pub struct Listed {
    pub next: Move,
    pub classes: Classes,
}

/// A move that was played in the position asked for. `average` is the mean rating of the players
/// who played it, rounded down, and `game` the game where there is just one.
#[derive(Debug, Drop)]
pub struct MoveLine {
    pub next: Move,
    pub san: Bytes,
    pub average: u32,
    pub totals: Totals,
    pub game: Option<Listed>,
}

/// The games of one month.
#[derive(Debug, Drop)]
pub struct MonthLine {
    pub month: Month,
    pub totals: Totals,
}

/// The answer to a query. `history` is there where the query asks for it.
#[derive(Debug, Drop)]
pub struct Found {
    pub totals: Totals,
    pub moves: Items<MoveLine>,
    pub top: Items<Listed>,
    pub recent: Items<Listed>,
    pub history: Option<Items<MonthLine>>,
}
