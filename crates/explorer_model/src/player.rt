//! A player's games: what is asked of them, and what is found.
use crate::answer::{Listed, Totals};
use crate::archive::Bytes;
use crate::chess::{Color, Move};
use crate::list::Items;
use crate::query::{Parameter, Query};
use crate::text::Name;
use thiserror::Error;

/// Whose games are asked for, and what of them. The query has all rating groups, lists no games by
/// rating and has no history.
#[derive(Debug, Drop)]
pub struct PlayerQuery {
    /// The case of ASCII letters does not count.
    pub player: Name,
    /// The side that the player has.
    pub color: Color,
    /// Rated games, casual games.
    pub modes: [bool; 2],
    pub query: Query,
}

/// A move that was played in the position asked for. `average` is the mean rating of those who
/// played against the player, rounded down, and `game` the game where there is just one.
#[derive(Debug, Drop)]
pub struct PlayerLine {
    pub next: Move,
    pub san: Bytes,
    pub average: u32,
    pub totals: Totals,
    pub game: Option<Listed>,
}

/// The answer to a query for a player's games.
#[derive(Debug, Drop)]
pub struct PlayerFound {
    pub totals: Totals,
    pub moves: Items<PlayerLine>,
    pub recent: Items<Listed>,
}

/// The parameters of a query for a player's games. They are judged in the order player, color,
/// variant, fen, play, speeds, modes, since, until, moves, recentGames.
#[derive(Clone, Copy, Debug, PartialEq, Eq)]
pub enum PlayerParameter {
    Player,
    Color,
    Modes,
    /// One that queries for all games have too.
    Common(Parameter),
}

/// The first parameter whose value is malformed or missing, or that is given twice.
#[derive(Clone, Copy, Debug, PartialEq, Eq, Error)]
#[error("malformed parameter {name}")]
pub struct BadPlayerParameter {
    pub name: PlayerParameter,
}
