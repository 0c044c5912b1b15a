//! Rows of games that stand later.
ghost use Rattle.std.specs.Prelude.{◌≡◌, ◌++◌, ◌∷◌, [], OnOk};
ghost use Rattle.segment_blocks.specs.HeldRow.{row_in};
ghost use Rattle.segment_blocks.specs.PackedRows.{AreInOrder};
ghost use Rattle.segment_merge.specs.Room.{HasRoom};
ghost use Rattle.tally_rows.specs.Row.{row_of, shifted_row};

use segment_blocks::{HeldRow, PackedRows};
use std::alloc::{AllocError, Global};
use tally_rows::{Row, Single};

/// Puts a row of games whose numbers are greater by `by` behind the others. A row of one game stays
/// in its packed form.
pub fn push_shifted(
    alloc: Global,
    packed: &mut PackedRows,
    held: &HeldRow<'_>,
    by: u32,
) -> Result<(), AllocError>
    requires room { HasRoom by (row_in held.now) }
    requires in_order { AreInOrder (packed.old.rows ++ shifted_row by (row_in held.now) ∷ []) }
    ensures { OnOk result (packed.new.rows
        ≡ packed.old.rows ++ shifted_row by (row_in held.now) ∷ []) }
{
    match held {
        HeldRow::Game(game) => packed.push_held(alloc, &HeldRow::Game(shifted_game(game, by))),
        HeldRow::Whole(row) => packed.push_whole(alloc, shift_row(row, by)),
    }
}

/// The same row of games whose numbers are greater by `by`.
#[tactic(auto, unfolding(tally_rows::specs::Row::shifted_row))]
pub fn shift_row(row: &Row, by: u32) -> Row
    requires { HasRoom by row.now }
    ensures { result ≡ shifted_row by row.now }
{
    Row {
        key: row.key,
        next: row.next,
        month: row.month,
        speed: row.speed,
        group: row.group,
        white: row.white,
        draws: row.draws,
        black: row.black,
        ratings: row.ratings,
        top: row.top.shifted(by),
        recent: row.recent.shifted(by),
    }
}

/// The game, with a number that is greater by `by`. A game that ends here is listed nowhere, so
/// that its number may stay.
fn shifted_game(game: &Single, by: u32) -> Single
    requires { HasRoom by (row_of game.now) }
    ensures { row_of result ≡ shifted_row by (row_of game.now) }
{
    if game.row_key.next.is_none() {
        return *game;
    }
    Single {
        number: game.number + by,
        ..*game
    }
}
