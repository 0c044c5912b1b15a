//! The best games of rows.
ghost use Rattle.std.specs.Prelude.{◌≡◌, ◌+◌, ◌<◌, ◌^◌, ◌++◌, List, map, IfOk, IsTrue};
ghost use Rattle.std.specs.List.{All};
ghost use Rattle.best_lists.specs.Entry.{moved_by};
ghost use Rattle.best_lists.specs.declared.entry.Entry.{Entry};
ghost use Rattle.explorer_model.specs.Best.{best};
ghost use Rattle.row_sums.specs.Hits.{NumberedRow, IsSound, AreSound, hit_as};
ghost use Rattle.row_sums.specs.Listing.{AreBestOf};
ghost use Rattle.tally_rows.specs.Row.{row_of};
ghost use Rattle.tally_rows.specs.declared.row.Row.{Row};

use crate::hits::Hit;
use best_lists::{Best4, ByMonth, ByRating, Entry, Ranking};
use segment_blocks::HeldRow;
use std::alloc::{AllocError, Global};
use tally_rows::{Row, Single, month_number};

/// A ranking by which rows list their best games.
pub trait ListsGames: Ranking {
    ghost list: { Row → List Entry };

    /// The list of a row.
    fn of_row(row: &Row) -> &Best4<Self>
        ensures { result.now ≡ list row.now };

    /// The list of a row of one game.
    fn of_game(game: &Single) -> Best4<Self>
        ensures { result ≡ list (row_of game.now) };

    ghost has_room: { (hit : NumberedRow) → IsSound hit
        → All (λ entry. entry.number + hit.first < 2 ^ 32) (list hit.row) };
}

impl ListsGames for ByRating {
    ghost list = { λ row. row.top };

    ghost has_room = { λ hit sound. sound.top };

    fn of_row(row: &Row) -> &Best4<ByRating> {
        &row.top
    }

    #[tactic(auto, unfolding(tally_rows::specs::Row::row_of))]
    fn of_game(game: &Single) -> Best4<ByRating> {
        if game.row_key.next.is_some() {
            Best4::one(game.sum, game.number)
        } else {
            Best4::empty()
        }
    }
}

impl ListsGames for ByMonth {
    ghost list = { λ row. row.recent };

    ghost has_room = { λ hit sound. sound.recent };

    fn of_row(row: &Row) -> &Best4<ByMonth> {
        &row.recent
    }

    #[tactic(auto, unfolding(tally_rows::specs::Row::row_of))]
    fn of_game(game: &Single) -> Best4<ByMonth> {
        if game.row_key.next.is_some() {
            Best4::one(month_number(game.row_key.month), game.number)
        } else {
            Best4::empty()
        }
    }
}

/// The best games of all the rows by a ranking, and rows that list them.
pub fn best_of<'a, O: ListsGames>(
    alloc: Global,
    hits: &[Hit<'a>],
) -> Result<(Best4<O>, Vec<Hit<'a>>), AllocError>
    requires { AreSound (map hit_as hits.now) }
    ensures { IfOk result (λ found. AreBestOf O.before O.list
        (map hit_as hits.now) (map hit_as hits.now) (map hit_as found.1.items) found.0) }
{
    let mut best = Best4::empty();
    let mut rows = Vec::new(alloc);
    for hit in hits {
        if !row_adds_nothing(&best, hit) {
            best = with_row(&best, hit);
            rows.push(*hit)?;
        }
    }
    Ok((best, rows))
}

/// Whether the list is seen to stay as it is with the row's list.
fn row_adds_nothing<O: ListsGames>(list: &Best4<O>, hit: &Hit) -> bool
    requires { All (λ entry. entry.number + hit.now.first < 2 ^ 32) (O.list (hit_as hit.now).row) }
    ensures { IsTrue result → best O.before 4
        (list.now ++ map (moved_by hit.now.first) (O.list (hit_as hit.now).row)) ≡ list.now }
{
    match &hit.row {
        HeldRow::Game(game) => stays(list, &O::of_game(game), hit.first),
        HeldRow::Whole(row) => stays(list, O::of_row(row), hit.first),
    }
}

/// The best of the list and of the row's list.
fn with_row<O: ListsGames>(list: &Best4<O>, hit: &Hit) -> Best4<O>
    requires { All (λ entry. entry.number + hit.now.first < 2 ^ 32) (O.list (hit_as hit.now).row) }
    ensures { result ≡ best O.before 4
        (list.now ++ map (moved_by hit.now.first) (O.list (hit_as hit.now).row)) }
{
    match &hit.row {
        HeldRow::Game(game) => list.join(&O::of_game(game).shifted(hit.first)),
        HeldRow::Whole(row) => list.join(&O::of_row(row).shifted(hit.first)),
    }
}

/// Whether a list is seen to stay as it is: the row lists nothing, or the list has four entries and
/// the row's best one is not before the last of them.
fn stays<O: Ranking>(list: &Best4<O>, of_row: &Best4<O>, first: u32) -> bool
    requires { All (λ entry. entry.number + first < 2 ^ 32) of_row.now }
    ensures { IsTrue result
        → best O.before 4 (list.now ++ map (moved_by first) of_row.now) ≡ list.now }
{
    let (own, others) = (list.entries(), of_row.entries());
    if others.is_empty() {
        return true;
    }
    if own.len() < 4 {
        return false;
    }
    let head = &others[0];
    let last = &own[3];
    let best = Entry {
        rank: head.rank,
        number: head.number + first,
    };
    !O::is_before(&best, last)
}
