//! What one row counts.
ghost use Rattle.std.specs.Prelude.{◌≡◌};

use explorer_model::archive::{Group, Month, Speed};
use explorer_model::chess::Move;
use packed_keys::PositionKey;

/// What the games of one row have in common.
#[derive(Clone, Copy, Debug, PartialEq, Eq, PartialOrd, Ord)]
pub struct RowKey {
    /// The key of a position that the game visits.
    pub key: PositionKey,
    /// The move that follows there, or None where the game ends there.
    pub next: Option<Move>,
    pub month: Month,
    pub speed: Speed,
    pub group: Group,
}
