//! An answer about a player, from the rows of single games.
ghost use Rattle.std.specs.Prelude.{◌≡◌, ◌≤◌, map, take, length, IfOk};
ghost use Rattle.std.specs.Arc.{arc_value};
ghost use Rattle.std.specs.List.{AllByRecursion};
ghost use Rattle.explorer_model.specs.Chess.{IsValid, Legal};
ghost use Rattle.explorer_model.specs.Players.{IsPlayerFound};
ghost use Rattle.player_lookup.specs.Made.{AreLatestOf, IsMadeOf, moves_listed};
ghost use Rattle.player_lookup.specs.Seen.{AreKept};
ghost use Rattle.published_index.specs.Cover.{journal_of};
ghost use Rattle.row_sums.specs.Hits.{hit_as, AreSound};
ghost use Rattle.row_sums.specs.Listing.{classes_in};

use crate::lines::lines_of;
use best_lists::{ByMonth, Entry};
use explorer_model::answer::Listed;
use explorer_model::laws::classes_of_games_are_sound;
use explorer_model::list::Items;
use explorer_model::player::{PlayerFound, PlayerQuery};
use legal_moves::board::Board;
use lookup::laws::found_moves_are_legal;
use row_sums::{Hit, best_of, first_moves, listed_by_month, totals_of};
use segment_blocks::Segment;
use std::alloc::{AllocError, Global};
use std::sync::Arc;

/// What is found in the journal of the segments, of the rows of the games that the query wants.
pub fn found_of(
    alloc: Global,
    board: &Board,
    segments: &[Arc<Segment>],
    query: &PlayerQuery,
    hits: &[Hit],
) -> Result<PlayerFound, AllocError>
    requires board { board.now ≡ query.now.query.at }
    requires valid { IsValid query.now.query.at }
    requires recent { query.now.query.recent ≤ 4 }
    requires few { length (classes_in (map arc_value segments.now)) ≤ 16777216 }
    requires kept { AreKept query.now (map arc_value segments.now) (map hit_as hits.now) }
    ensures { IfOk result (IsPlayerFound (journal_of (map arc_value segments.now)) query.now) }
{
    // laws: what tags say of games is sound, and what games play is legal
    classes_of_games_are_sound();
    found_moves_are_legal();
    found_in(alloc, board, segments, query, hits)
}

/// Puts an answer together.
fn found_in(
    alloc: Global,
    board: &Board,
    segments: &[Arc<Segment>],
    query: &PlayerQuery,
    hits: &[Hit],
) -> Result<PlayerFound, AllocError>
    requires board { board.now ≡ query.now.query.at }
    requires sound { AreSound (map hit_as hits.now) }
    requires legal { AllByRecursion (λ m. Legal board.now m)
        (moves_listed query.now (map hit_as hits.now)) }
    ensures { IfOk result
        (IsMadeOf query.now (classes_in (map arc_value segments.now)) (map hit_as hits.now)) }
{
    let sums = first_moves(alloc, hits, query.query.moves)?;
    let moves = lines_of(alloc, board, segments, sums.as_slice())?;
    let recent = recent_games(alloc, segments, hits, query.query.recent)?;
    Ok(PlayerFound {
        totals: totals_of(hits),
        moves: Items::from_vec(moves),
        recent: Items::from_vec(recent),
    })
}

/// The latest games of the rows, at most `most`.
fn recent_games(
    alloc: Global,
    segments: &[Arc<Segment>],
    hits: &[Hit],
    most: u8,
) -> Result<Vec<Listed>, AllocError>
    requires { AreSound (map hit_as hits.now) }
    ensures { IfOk result (λ listed. AreLatestOf (classes_in (map arc_value segments.now))
        (map hit_as hits.now) most listed.items) }
{
    let (recent, rows) = best_of::<ByMonth>(alloc, hits)?;
    listed_by_month(
        alloc,
        &segments,
        rows.as_slice(),
        first(recent.entries(), most),
    )
}

/// The first `most` entries, or all where they are fewer.
fn first(entries: &[Entry], most: u8) -> &[Entry]
    ensures { result.now ≡ take most entries.now }
{
    &entries[..entries.len().min(usize::from(most))]
}
