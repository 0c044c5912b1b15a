//! Rows of a position.
ghost use Rattle.std.specs.Prelude.{◌≡◌};
ghost use Rattle.row_sums.specs.Hits.{hit_as};

use explorer_model::archive::Month;
use explorer_model::chess::Move;
use segment_blocks::HeldRow;
use tally_rows::counts_of;

/// A row of the position that is asked for, as its block holds it.
#[derive(Clone, Copy, Debug)]
pub struct Hit<'a> {
    pub row: HeldRow<'a>,
    /// The number of the first game of the row's segment.
    pub first: u32,
}

impl Hit<'_> {
    /// The move that follows in the row's games, or None where they end.
    #[tactic(auto, unfolding(tally_rows::specs::Row::row_of))]
    pub fn next(&self) -> Option<Move>
        ensures { result ≡ (hit_as self.now).row.next }
    {
        match &self.row {
            HeldRow::Game(game) => game.row_key.next,
            HeldRow::Whole(row) => row.next,
        }
    }

    /// The month of the row's games.
    #[tactic(auto, unfolding(tally_rows::specs::Row::row_of))]
    pub fn month(&self) -> Month
        ensures { result ≡ (hit_as self.now).row.month }
    {
        match &self.row {
            HeldRow::Game(game) => game.row_key.month,
            HeldRow::Whole(row) => row.month,
        }
    }

    /// How many of the row's games White won, were drawn and Black won.
    #[tactic(auto, unfolding(tally_rows::specs::Row::row_of))]
    pub fn outcomes(&self) -> (u32, u32, u32)
        ensures white { result.0 ≡ (hit_as self.now).row.white }
        ensures draws { result.1 ≡ (hit_as self.now).row.draws }
        ensures black { result.2 ≡ (hit_as self.now).row.black }
    {
        match &self.row {
            HeldRow::Game(game) => counts_of(game.outcome),
            HeldRow::Whole(row) => (row.white, row.draws, row.black),
        }
    }

    /// The sum of the ratings of those who played the row's move.
    #[tactic(auto, unfolding(tally_rows::specs::Row::row_of))]
    pub fn ratings(&self) -> u64
        ensures { result ≡ (hit_as self.now).row.ratings }
    {
        match &self.row {
            HeldRow::Game(game) => {
                if game.row_key.next.is_some() {
                    u64::from(game.rating)
                } else {
                    0
                }
            }
            HeldRow::Whole(row) => row.ratings,
        }
    }
}
