//! The rows of one position in segments.
ghost use Rattle.std.specs.Prelude.{◌≡◌, ℕ, ◌+◌, ◌≤◌, ◌<◌, ◌^◌, ◌++◌, ◌∷◌, [], map, filter, length, IfOk, OnOk};
ghost use Rattle.std.specs.Arc.{arc_value};
ghost use Rattle.std.specs.List.{All, AllByRecursion, sum_by};
ghost use Rattle.row_sums.specs.Hits.{hit_as, look_limit};
ghost use Rattle.lookup.specs.Hits.{rows_from, games_counted};
ghost use Rattle.lookup.specs.Parts.{IsPart, parts_in};
ghost use Rattle.lookup.specs.SegmentRows.{row_steps};
ghost use Rattle.segment_blocks.specs.HeldRow.{row_in};
ghost use Rattle.segment_blocks.specs.Segment.{CountedSpan, IsSegment};
ghost use Rattle.segment_blocks.specs.Walk.{has_key};
ghost use Rattle.tally_rows.specs.Cover.{passes_row_key};
ghost use Rattle.tally_rows.specs.Row.{row_key_of};

use explorer_model::query::Filter;
use packed_keys::PositionKey;
use row_sums::{Hit, takes};
use segment_blocks::{HeldRow, Segment, Steps};
use std::alloc::{AllocError, Global};
use std::sync::Arc;
use std::sync::ledger::Ledger;

/// The segments' rows of the position with the key that the filter takes.
pub fn rows_of_segments<'a, L: Ledger>(
    alloc: Global,
    segments: &'a [Arc<Segment>],
    key: &PositionKey,
    wanted: &Filter,
    steps: &mut Steps<L>,
) -> Result<Vec<Hit<'a>>, AllocError>
    requires { length segments.now ≤ 64 }
    ensures rows { IfOk result (λ hits. map hit_as hits.items
        ≡ rows_from key.now (passes_row_key wanted.now) 0 (parts_in segments.now)) }
    ensures parts { IfOk result (λ _. AllByRecursion IsPart (parts_in segments.now)) }
    ensures games { IfOk result (λ _. games_counted (parts_in segments.now) ≤ look_limit) }
    ensures cost { (digits : CountedSpan → ℕ)
        → All (λ segment. segment.blocks < 2 ^ digits segment) (map arc_value segments.now)
        → steps.new ≤ steps.old
        + sum_by (row_steps key.now digits) (map arc_value segments.now) }
{
    let mut hits = Vec::new(alloc);
    let mut first = 0;
    for segment in segments {
        add_rows(&mut hits, segment, first, key, wanted, steps)?;
        first += segment.games();
    }
    Ok(hits)
}

/// Adds the segment's rows of the key that the filter takes. Each row passed is a step, and so is
/// the end.
fn add_rows<'a, L: Ledger>(
    hits: &mut Vec<Hit<'a>>,
    segment: &'a Segment,
    first: u32,
    key: &PositionKey,
    wanted: &Filter,
    steps: &mut Steps<L>,
) -> Result<(), AllocError>
    ensures rows { OnOk result (map hit_as hits.new.items
        ≡ map hit_as hits.old.items
        ++ map (λ row. record { row = row; first = first })
        (filter (λ row. passes_row_key wanted.now (row_key_of row))
        (filter (has_key key.now) segment.now.rows))) }
    ensures segment { IsSegment segment.now }
    ensures cost { (digits : CountedSpan → ℕ) → segment.now.blocks < 2 ^ digits segment.now
        → steps.new ≤ steps.old + row_steps key.now digits segment.now }
{
    // A segment's rows are the tally of its texts.
    let _span = segment.span();
    let mut walk = segment.rows_at(key, steps);
    while let Some(row) = walk.advance(steps) {
        add_row(hits, row, first, wanted)?;
    }
    Ok(())
}

/// Adds the row, if the filter takes it.
pub fn add_row<'a>(
    hits: &mut Vec<Hit<'a>>,
    row: HeldRow<'a>,
    first: u32,
    wanted: &Filter,
) -> Result<(), AllocError>
    ensures { OnOk result (map hit_as hits.new.items
        ≡ map hit_as hits.old.items
        ++ map (λ row. record { row = row; first = first })
        (filter (λ row. passes_row_key wanted.now (row_key_of row)) (row_in row.entry ∷ []))) }
{
    if takes(wanted, &row.row_key()) {
        hits.push(Hit { row, first })?;
    }
    Ok(())
}
