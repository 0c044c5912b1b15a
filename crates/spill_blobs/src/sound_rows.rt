//! Whether rows are those that games can have.
ghost use Rattle.std.specs.Prelude.{◌≡◌, ◌<◌, ◌≤◌, ◌↔◌, ◌^◌, ℕ, Bool, List, map, length, IsTrue, IfOk, IfSome, min, sum_by};
ghost use Rattle.std.specs.List.{AllByRecursion, Contains};
ghost use Rattle.std.specs.Ordering.{is_lt};
ghost use Rattle.std.specs.List.Sorted.{IsStrictlySortedBy};
ghost use Rattle.best_lists.specs.Ranking.{before_by_rating, before_by_month};
ghost use Rattle.explorer_model.specs.declared.chess.Position.{Position as Place};
ghost use Rattle.explorer_model.specs.Chess.{IsValid};
ghost use Rattle.explorer_model.specs.Tidy.{IsTidyKey};
ghost use Rattle.spill_blobs.specs.SoundRows.{games_of, listed_of, AreLegalMoves, AreSound, IsCounted, IsListOf, IsSoundRow};
ghost use Rattle.tally_rows.specs.RowKey.{row_order};
ghost use Rattle.tally_rows.specs.Row.{row_key_of};

use crate::distinct::{are_recents_different, are_tops_different};
use best_lists::Entry;
use explorer_model::chess::{Move, Position};
use legal_moves::board::Board;
use segment_blocks::order_of_row_keys;
use std::alloc::{AllocError, Global};
use tally_rows::Row;

/// The greatest rating.
const RATING_LIMIT: u64 = 4000;

/// Whether rows of a position are those that `n` games can have.
pub fn are_sound(alloc: Global, at: &Position, n: u32, rows: &[Row]) -> Result<bool, AllocError>
    requires valid { IsValid at.now }
    requires keyed { AllByRecursion (λ row. IsTidyKey at.now row.key) rows.now }
    ensures { IfOk result (λ sound. IsTrue sound ↔ AreSound at.now n rows.now) }
{
    let board = Board::of_valid(*at);
    if !are_in_order(rows) || !is_each_sound(board.legal().as_slice(), n, rows) {
        return Ok(false);
    }
    if !are_at_most(rows, n) || !are_tops_different(alloc, n, rows)? {
        return Ok(false);
    }
    are_recents_different(alloc, n, rows)
}

/// Whether each row stands before those behind it.
fn are_in_order(rows: &[Row]) -> bool
    ensures { IsTrue result ↔ IsStrictlySortedBy row_order (map row_key_of rows.now) }
{
    for next in 1..rows.len() {
        if !stands_before(&rows[next - 1], &rows[next]) {
            return false;
        }
    }
    true
}

/// Whether a row stands before another one.
fn stands_before(row: &Row, other: &Row) -> bool
    ensures { result ≡ is_lt (row_order (row_key_of row.now) (row_key_of other.now)) }
{
    order_of_row_keys(&row.row_key(), &other.row_key()).is_lt()
}

/// Whether the rows count at most `n` games.
fn are_at_most(rows: &[Row], n: u32) -> bool
    ensures { IsTrue result ↔ sum_by games_of rows.now ≤ n }
{
    let mut left = u64::from(n);
    for row in rows {
        let games = games_in(row);
        if games > left {
            return false;
        }
        left -= games;
    }
    true
}

/// How many games a row counts.
fn games_in(row: &Row) -> u64
    ensures games { result ≡ games_of row.now }
    ensures few { result < 2 ^ 34 }
{
    let (white, draws, black) = (row.white, row.draws, row.black);
    u64::from(white) + u64::from(draws) + u64::from(black)
}

/// Whether each row by itself is sound, where these are the legal moves.
fn is_each_sound(moves: &[Move], n: u32, rows: &[Row]) -> bool
    ensures { (at : Place) → AreLegalMoves at moves.now
        → AllByRecursion (λ row. IsTidyKey at row.key) rows.now
        → IsTrue result ↔ AllByRecursion (IsSoundRow at n) rows.now }
{
    for row in rows {
        if !is_sound_row(moves, n, row) {
            return false;
        }
    }
    true
}

/// Whether a row is sound, where these are the legal moves.
fn is_sound_row(moves: &[Move], n: u32, row: &Row) -> bool
    ensures { (at : Place) → AreLegalMoves at moves.now → IsTidyKey at row.now.key
        → IsTrue result ↔ IsSoundRow at n row.now }
{
    if !is_counted(row) {
        return false;
    }
    if !is_legal_in(moves, row.next) {
        return false;
    }
    is_listed(n, row)
}

/// Whether a row counts some game, and its ratings are no more than those of its games.
fn is_counted(row: &Row) -> bool
    ensures { IsTrue result ↔ IsCounted row.now }
{
    let games = games_in(row);
    if games == 0 || row.ratings > RATING_LIMIT * games {
        return false;
    }
    row.next.is_some() || row.ratings == 0
}

/// Whether a move is one of these, where there is one.
fn is_legal_in(moves: &[Move], next: Option<Move>) -> bool
    ensures { IsTrue result ↔ IfSome next (λ m. Contains moves.now m) }
{
    match next {
        None => true,
        Some(step) => moves.contains(&step),
    }
}

/// Whether a row lists as many games as it has to, with numbers below `n`.
fn is_listed(n: u32, row: &Row) -> bool
    ensures { IsTrue result ↔ (IsListOf before_by_rating n (listed_of row.now) row.now.top
        × IsListOf before_by_month n (listed_of row.now) row.now.recent) }
{
    let count = if row.next.is_some() { games_in(row) } else { 0 };
    let is_top = is_list_of(row.top.entries(), n, count);
    let is_recent = is_list_of(row.recent.entries(), n, count);
    is_top && is_recent
}

/// Whether a list has the lesser of 4 and `count` entries, with numbers below `n`.
fn is_list_of(entries: &[Entry], n: u32, count: u64) -> bool
    ensures { IsTrue result ↔ ((length entries.now ≡ min 4 count)
        × AllByRecursion (λ entry. entry.number < n) entries.now) }
{
    if entries.len() as u64 != count.min(4) {
        return false;
    }
    entries.iter().all(|entry| entry.number < n)
}
