//! What a block keeps of a row beside its key.
ghost use Rattle.std.specs.Prelude.{◌≤◌};

use explorer_model::archive::{Group, Month, Outcome, Speed};
use explorer_model::chess::Move;

/// One row of a block. Its fields stand by their sizes, so that it takes 24 bytes.
#[derive(Clone, Copy, Debug)]
pub struct Mark {
    /// The number of the row's one game.
    pub number: u32,
    /// The rating of the side to move.
    pub rating: u16,
    /// The sum of both ratings.
    pub sum: u16,
    pub month: Month,
    pub group: Group,
    pub next: Option<Move>,
    pub speed: Speed,
    /// How the row's one game ended, or None where the row stands whole.
    pub outcome: Option<Outcome>,
    /// How many bytes the key has in common with the key before it, all that it has.
    pub shared: u8,
    pub ghost in_key: { shared ≤ 34 },
}

const _: () = prove!(size_of::<Mark>() == 24);
