//! The answer to a query, from rows.
ghost use Rattle.std.specs.Prelude.{◌≡◌, ℕ, ◌+◌, ◌≤◌, ◌<◌, ◌^◌, List, map, take, length, cond, IfOk, Some, None};
ghost use Rattle.std.specs.Arc.{arc_value};
ghost use Rattle.std.specs.List.{All, AllByRecursion, sum_by};
ghost use Rattle.explorer_model.specs.declared.archive.Batch.{Batch};
ghost use Rattle.explorer_model.specs.Chess.{IsValid, Legal};
ghost use Rattle.explorer_model.specs.Finds.{IsFound};
ghost use Rattle.explorer_model.specs.Spans.{Covers};
ghost use Rattle.explorer_model.specs.Tidy.{IsTidyKey};
ghost use Rattle.row_sums.specs.Hits.{hit_as, look_limit, AreSound};
ghost use Rattle.lookup.specs.Hits.{games_counted, rows_from};
ghost use Rattle.lookup.specs.Lines.{IsPutTogether};
ghost use Rattle.lookup.specs.Parts.{IsPart, parts_in, journal_of};
ghost use Rattle.lookup.specs.SegmentRows.{row_steps};
ghost use Rattle.row_sums.specs.Sums.{history_in, moves_in};
ghost use Rattle.segment_blocks.specs.Segment.{CountedSpan};
ghost use Rattle.tally_rows.specs.Cover.{passes_row_key};

use crate::laws::{parts_recount, picked_rows_are_sound, tracks_tell_legal_moves};
use crate::lines::lines_of;
use crate::segment_rows::rows_of_segments;
use best_lists::{ByMonth, ByRating, Entry};
use explorer_model::answer::{Found, MonthLine};
use explorer_model::list::Items;
use explorer_model::query::Query;
use legal_moves::board::Board;
use legal_moves::laws::tidy_is_determined;
use packed_keys::{PositionKey, pack};
use row_sums::{
    Games, Hit, best_of, first_moves, history_of, listed_by_month, listed_by_rating, totals_of,
};
use segment_blocks::{Segment, Steps};
use std::alloc::{AllocError, Global};
use std::sync::Arc;
use std::sync::ledger::Ledger;

/// What is found in the journal that at most 64 segments cover, by their rows alone. With r rows of the
/// position a segment takes the steps of `rows_at`, r and one.
pub fn look_segments<L: Ledger>(
    alloc: Global,
    segments: &[Arc<Segment>],
    query: &Query,
    steps: &mut Steps<L>,
) -> Result<Found, AllocError>
    requires valid { IsValid query.now.at }
    requires top { query.now.top ≤ 4 }
    requires recent { query.now.recent ≤ 4 }
    requires few { length segments.now ≤ 64 }
    ensures found { IfOk result (λ found. (journal : List Batch)
        → Covers (map (λ segment. segment.span) (map arc_value segments.now)) journal
        → IsFound journal query.now found) }
    ensures cost { (key : List ℕ) (digits : CountedSpan → ℕ) → IsTidyKey query.now.at key
        → All (λ segment. segment.blocks < 2 ^ digits segment) (map arc_value segments.now)
        → steps.new ≤ steps.old + sum_by (row_steps key digits) (map arc_value segments.now) }
{
    // law: a position has one tidy form, so one key
    tidy_is_determined();
    let (board, key) = board_and_key(query);
    let hits = rows_of_segments(alloc, segments, &key, &query.filter, steps)?;
    found_of(alloc, &board, &key, segments, query, hits.as_slice())
}

/// The position that is asked for, and the key of its rows.
pub fn board_and_key(query: &Query) -> (Board, PositionKey)
    requires { IsValid query.now.at }
    ensures board { result.0 ≡ query.now.at }
    ensures key { IsTidyKey query.now.at result.1 }
{
    let Some(board) = Board::of(&query.at) else {
        unreachable!()
    };
    let key = pack(&board.tidy().position());
    (board, key)
}

/// What is found in the journal of the segments, of their rows that the filter takes.
fn found_of(
    alloc: Global,
    board: &Board,
    key: &PositionKey,
    segments: &[Arc<Segment>],
    query: &Query,
    hits: &[Hit],
) -> Result<Found, AllocError>
    requires board { board.now ≡ query.now.at }
    requires key { IsTidyKey query.now.at key.now }
    requires valid { IsValid query.now.at }
    requires top { query.now.top ≤ 4 }
    requires recent { query.now.recent ≤ 4 }
    requires games { games_counted (parts_in segments.now) ≤ look_limit }
    requires parts { AllByRecursion IsPart (parts_in segments.now) }
    requires rows { map hit_as hits.now
        ≡ rows_from key.now (passes_row_key query.now.filter) 0 (parts_in segments.now) }
    ensures { IfOk result (λ found. IsFound (journal_of (parts_in segments.now)) query.now found) }
{
    // laws: what is made of rows is what is found; rows tell legal moves, and are sound
    parts_recount();
    tracks_tell_legal_moves();
    picked_rows_are_sound();
    found_in(alloc, board, &segments, query, hits)
}

/// Puts an answer together.
pub fn found_in<G: Games>(
    alloc: Global,
    board: &Board,
    games: &G,
    query: &Query,
    hits: &[Hit],
) -> Result<Found, AllocError>
    requires board { board.now ≡ query.now.at }
    requires sound { AreSound (map hit_as hits.now) }
    requires legal { AllByRecursion (λ m. Legal board.now m) (moves_in (map hit_as hits.now)) }
    ensures { IfOk result
        (λ found. IsPutTogether query.now (G.classes games.now) (map hit_as hits.now) found) }
{
    let sums = first_moves(alloc, hits, query.moves)?;
    let moves = lines_of(alloc, board, games, hits, sums.as_slice())?;
    let (top, rows) = best_of::<ByRating>(alloc, hits)?;
    let entries = first(top.entries(), query.top);
    let top = listed_by_rating(alloc, games, rows.as_slice(), entries)?;
    let (recent, rows) = best_of::<ByMonth>(alloc, hits)?;
    let entries = first(recent.entries(), query.recent);
    let recent = listed_by_month(alloc, games, rows.as_slice(), entries)?;
    Ok(Found {
        totals: totals_of(hits),
        moves: Items::from_vec(moves),
        top: Items::from_vec(top),
        recent: Items::from_vec(recent),
        history: asked_history(alloc, hits, query.history)?,
    })
}

/// The first `most` entries, or all where they are fewer.
fn first(entries: &[Entry], most: u8) -> &[Entry]
    ensures { result.now ≡ take most entries.now }
{
    &entries[..entries.len().min(usize::from(most))]
}

/// A line for each month of the rows, if they are asked for.
fn asked_history(
    alloc: Global,
    hits: &[Hit],
    asked: bool,
) -> Result<Option<Items<MonthLine>>, AllocError>
    requires { AreSound (map hit_as hits.now) }
    ensures { IfOk result (λ history. history
        ≡ cond asked (Some (history_in (map hit_as hits.now))) None) }
{
    if asked {
        Ok(Some(Items::from_vec(history_of(alloc, hits)?)))
    } else {
        Ok(None)
    }
}
