//! Rows of games that stand later.
ghost use Rattle.std.specs.Prelude.{◌≡◌, ◌+◌, ◌<◌, ◌^◌, IfSome, IsTrue};
ghost use Rattle.std.specs.List.{All};
ghost use Rattle.tally_rows.specs.Row.{shifted_row};

use best_lists::Entry;
use tally_rows::Row;

/// The same row of games whose numbers are greater by `by`, or None where one has no room.
#[tactic(auto, unfolding(tally_rows::specs::Row::shifted_row))]
pub fn moved_row(row: &Row, by: u32) -> Option<Row>
    ensures { IfSome result (λ moved. moved ≡ shifted_row by row.now) }
{
    if !have_room(row.top.entries(), by) || !have_room(row.recent.entries(), by) {
        return None;
    }
    Some(Row {
        key: row.key,
        next: row.next,
        month: row.month,
        speed: row.speed,
        group: row.group,
        white: row.white,
        draws: row.draws,
        black: row.black,
        ratings: row.ratings,
        top: row.top.shifted(by),
        recent: row.recent.shifted(by),
    })
}

/// Whether the number of each entry can be greater by `by`.
fn have_room(entries: &[Entry], by: u32) -> bool
    ensures { IsTrue result → All (λ entry. entry.number + by < 2 ^ 32) entries.now }
{
    for entry in entries {
        if entry.number.checked_add(by).is_none() {
            return false;
        }
    }
    true
}
