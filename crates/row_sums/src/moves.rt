//! The moves of rows, with what their games add up to.
ghost use Rattle.std.specs.Prelude.{◌≡◌, ◌+◌, ◌≤◌, ◌<◌, ◌^◌, map, length, IfOk, OnOk};
ghost use Rattle.std.specs.List.{All};
ghost use Rattle.std.specs.Ordering.{is_lt};
ghost use Rattle.explorer_model.specs.Best.{best};
ghost use Rattle.explorer_model.specs.Counting.{total};
ghost use Rattle.best_lists.specs.Entry.{moved_by};
ghost use Rattle.row_sums.specs.Groups.{changed_at};
ghost use Rattle.row_sums.specs.GroupSums.{HasRoomFor, sum_with, no_sum, move_number, shown_with};
ghost use Rattle.row_sums.specs.Hits.{hit_as, AreSound, IsSound};
ghost use Rattle.row_sums.specs.MoveSums.{sum_as, before_as_sum};
ghost use Rattle.row_sums.specs.Sums.{moves_in, before_by_total};

use crate::best_games::ListsGames;
use crate::groups::Places;
use crate::hits::Hit;
use crate::totals::with_games;
use best_lists::{ByRating, Entry};
use explorer_model::answer::Totals;
use explorer_model::chess::Move;
use fen_uci::write_uci;
use segment_blocks::HeldRow;
use std::alloc::{AllocError, Global};
use std::cmp::Ordering;

/// What the `top` lists of a move's rows show: no game, one, or more.
#[derive(Clone, Copy, Debug)]
pub enum Shown {
    Nothing,
    One(Entry),
    Several,
}

/// A move with the totals of the games that play it, and the sum of their players' ratings.
#[derive(Clone, Copy, Debug)]
pub struct MoveSum {
    pub next: Move,
    pub totals: Totals,
    pub ratings: u64,
    pub shown: Shown,
}

/// The sums of the moves that are listed first, at most `most`: by the greater total, then by the
/// lesser text of UCI.
pub fn first_moves(alloc: Global, hits: &[Hit], most: u32) -> Result<Vec<MoveSum>, AllocError>
    requires { AreSound (map hit_as hits.now) }
    ensures { IfOk result (λ sums. sums.items ≡ map (sum_as (map hit_as hits.now))
        (best (before_by_total (map hit_as hits.now)) most (moves_in (map hit_as hits.now)))) }
{
    let mut sums = sums_of_moves(alloc, hits)?;
    sums.sort_unstable_by(
        |a, b|
            ensures { is_lt result ≡ before_as_sum a.now b.now }
        { order_of(a, b) },
    );
    sums.truncate(most as usize);
    Ok(sums)
}

/// The sums of each move of the rows, as they first come.
fn sums_of_moves(alloc: Global, hits: &[Hit]) -> Result<Vec<MoveSum>, AllocError>
    requires { AreSound (map hit_as hits.now) }
    ensures { IfOk result (λ sums. sums.items
        ≡ map (sum_as (map hit_as hits.now)) (moves_in (map hit_as hits.now))) }
{
    let mut places = Places::new(alloc);
    let mut sums = Vec::new(alloc);
    for hit in hits {
        if let Some(next) = hit.next() {
            let place = places.place_of(move_number(next), sums.len())?;
            add_hit(&mut sums, place, next, hit)?;
        }
    }
    Ok(sums)
}

/// Adds the row to the sum at the place, or behind the last one to a sum of its own.
fn add_hit(sums: &mut Vec<MoveSum>, place: usize, next: Move, hit: &Hit) -> Result<(), AllocError>
    requires room { All (λ sum. HasRoomFor sum (hit_as hit.now)) sums.old.items }
    requires alone { HasRoomFor (no_sum next) (hit_as hit.now) }
    requires sound { IsSound (hit_as hit.now) }
    requires place { place ≤ length sums.old.items }
    ensures { OnOk result (sums.new.items ≡ changed_at (sum_with (hit_as hit.now))
        (sum_with (hit_as hit.now) (no_sum next)) place sums.old.items) }
{
    if place < sums.len() {
        let sum = sums[place];
        sums[place] = with_hit(&sum, hit);
    } else {
        sums.push(with_hit(&MoveSum::of_no_game(next), hit))?;
    }
    Ok(())
}

impl MoveSum {
    fn of_no_game(next: Move) -> MoveSum
        ensures { result ≡ no_sum next }
    {
        MoveSum {
            next,
            totals: Totals::default(),
            ratings: 0,
            shown: Shown::Nothing,
        }
    }
}

/// The sum with the games of the row.
fn with_hit(sum: &MoveSum, hit: &Hit) -> MoveSum
    requires room { HasRoomFor sum.now (hit_as hit.now) }
    requires sound { IsSound (hit_as hit.now) }
    ensures { result ≡ sum_with (hit_as hit.now) sum.now }
{
    MoveSum {
        next: sum.next,
        totals: with_games(&sum.totals, hit),
        ratings: sum.ratings + hit.ratings(),
        shown: with_row(sum.shown, hit),
    }
}

/// What is shown with the entries of the row.
#[tactic(auto, unfolding(tally_rows::specs::Row::row_of))]
fn with_row(shown: Shown, hit: &Hit) -> Shown
    requires { All (λ entry. entry.number + hit.now.first < 2 ^ 32) (hit_as hit.now).row.top }
    ensures { result ≡ shown_with shown (map (moved_by hit.now.first) (hit_as hit.now).row.top) }
{
    match (shown, &hit.row) {
        (Shown::Several, _) => shown,
        (_, HeldRow::Game(game)) => with_entries(
            shown,
            ByRating::of_game(game).entries(),
            hit.first,
        ),
        (_, HeldRow::Whole(row)) => with_entries(shown, row.top.entries(), hit.first),
    }
}

/// What is shown with the entries of a batch whose first game has the number `first`.
fn with_entries(shown: Shown, entries: &[Entry], first: u32) -> Shown
    requires { All (λ entry. entry.number + first < 2 ^ 32) entries.now }
    ensures { result ≡ shown_with shown (map (moved_by first) entries.now) }
{
    match (shown, entries) {
        (_, []) => shown,
        (Shown::Nothing, [entry]) => Shown::One(Entry {
            rank: entry.rank,
            number: entry.number + first,
        }),
        _ => Shown::Several,
    }
}

/// How two moves are listed.
fn order_of(a: &MoveSum, b: &MoveSum) -> Ordering
    ensures { is_lt result ≡ before_as_sum a.now b.now }
{
    match total(&b.totals).cmp(&total(&a.totals)) {
        Ordering::Equal => write_uci(a.next)
            .as_slice()
            .cmp(write_uci(b.next).as_slice()),
        unequal => unequal,
    }
}

/// All games of the totals, in a type that holds any sum of three `u64`.
fn total(totals: &Totals) -> u128
    ensures { result ≡ total totals.now }
{
    u128::from(totals.white) + u128::from(totals.draws) + u128::from(totals.black)
}

/// A number that tells the move apart from all others.
fn move_number(next: Move) -> u32
    ensures { result ≡ move_number next }
{
    let promotion = match next.promotion {
        Some(role) => u32::from(role.index()) + 1,
        None => 0,
    };
    4096 * promotion + 64 * u32::from(next.from.index) + u32::from(next.to.index)
}
