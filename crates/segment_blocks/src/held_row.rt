//! Rows as blocks hold them.
ghost use Rattle.std.specs.Prelude.{◌≡◌, ◌<◌, ◌^◌, IfSome, IsSome};
ghost use Rattle.segment_blocks.specs.HeldRow.{row_in};
ghost use Rattle.tally_rows.specs.declared.single.Single.{Single};
ghost use Rattle.tally_rows.specs.Row.{row_of, row_key_of};

use crate::single_game::single_in;
use tally_rows::{PositionKey, Row, RowKey, Single};

/// A row as a block holds it, which is cheap to pass on.
#[derive(Clone, Copy, Debug)]
pub enum HeldRow<'a> {
    /// The row of one game.
    Game(Single),
    /// Any row.
    Whole(&'a Row),
}

impl<'a> HeldRow<'a> {
    /// The key of the row's position.
    #[tactic(auto, unfolding(tally_rows::specs::Row::row_of))]
    pub fn key(&self) -> &PositionKey
        ensures { result.now ≡ (row_in self.now).key }
    {
        match self {
            HeldRow::Game(game) => &game.row_key.key,
            HeldRow::Whole(row) => &row.key,
        }
    }

    /// What the row's games have in common.
    #[tactic(auto, unfolding(tally_rows::specs::Row::row_of))]
    pub fn row_key(&self) -> RowKey
        ensures { result ≡ row_key_of (row_in self.now) }
    {
        match self {
            HeldRow::Game(game) => game.row_key,
            HeldRow::Whole(row) => row.row_key(),
        }
    }

    /// The row by itself.
    pub fn to_row(&self) -> Row
        ensures { result ≡ row_in self.now }
    {
        match self {
            HeldRow::Game(game) => Row::of(game),
            HeldRow::Whole(row) => row.copy(),
        }
    }

    /// The row's one game, or None where the row is of no one game.
    pub fn game(&self) -> Option<Single>
        ensures game { IfSome result (λ game. row_in self.now ≡ row_of game) }
        ensures some { (game : Single) → game.rating < 2 ^ 16 → row_in self.now ≡ row_of game
            → IsSome result }
    {
        match self {
            HeldRow::Game(game) => Some(*game),
            HeldRow::Whole(row) => single_in(row),
        }
    }
}
