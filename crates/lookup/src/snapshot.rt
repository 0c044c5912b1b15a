//! Answers from the published list.
ghost use Rattle.std.specs.Prelude.{ℕ, ◌+◌, ◌≤◌, ◌<◌, ◌^◌, List, IfOk};
ghost use Rattle.std.specs.List.{All, sum_by};
ghost use Rattle.explorer_model.specs.Chess.{IsValid};
ghost use Rattle.explorer_model.specs.Finds.{IsFound};
ghost use Rattle.explorer_model.specs.Tidy.{IsTidyKey};
ghost use Rattle.lookup.specs.SegmentRows.{row_steps};
ghost use Rattle.published_index.specs.Cover.{journal_of};
ghost use Rattle.segment_blocks.specs.Segment.{CountedSpan};

use crate::answer::look_segments;
use explorer_model::answer::Found;
use explorer_model::query::Query;
use published_index::Snapshot;
use segment_blocks::Steps;
use std::alloc::{AllocError, Global};
use std::sync::ledger::Ledger;

/// What is found in the snapshot's journal, by the rows of its segments alone. With r rows of the
/// position a segment takes the steps of `rows_at`, r and one.
pub fn look<L: Ledger>(
    alloc: Global,
    snapshot: &Snapshot,
    query: &Query,
    steps: &mut Steps<L>,
) -> Result<Found, AllocError>
    requires valid { IsValid query.now.at }
    requires top { query.now.top ≤ 4 }
    requires recent { query.now.recent ≤ 4 }
    ensures found { IfOk result (λ found. IsFound (journal_of snapshot.now) query.now found) }
    ensures cost { (key : List ℕ) (digits : CountedSpan → ℕ) → IsTidyKey query.now.at key
        → All (λ segment. segment.blocks < 2 ^ digits segment) snapshot.now
        → steps.new ≤ steps.old + sum_by (row_steps key digits) snapshot.now }
{
    look_segments(alloc, snapshot.segments(), query, steps)
}
