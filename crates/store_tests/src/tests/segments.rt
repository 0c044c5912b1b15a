//! Batches as segments.
ghost use Rattle.std.specs.Prelude.{◌≡◌, ◌+◌, ◌<◌, ◌≤◌};

use super::{one_game, segment_of, tally_of_batch};
use explorer_model::chess::Move;
use explorer_model::square::Square;
use segment_blocks::{RowWalk, Segment, Steps};
use std::alloc::{AllocError, Global};
use std::marker::Brand;
use std::sync::Arc;
use std::sync::ledger::{Blank, Ledger};
use std::test::Fail;
use std::thread::join;
use tally_rows::{PositionKey, Row, Tally};

/// Whether a walk at the key gives the rows that have it, and then none.
fn is_filtered<L: Ledger>(segment: &Segment, rows: &[Row], key: &PositionKey, blank: Blank) -> bool
    requires name { blank.name ≡ L.name }
    requires parts { blank.parts ≡ L.parts }
    requires some { 0 < L.parts }
{
    let mut steps = Steps::<L>::new(blank);
    let mut walk = segment.rows_at(key, &mut steps);
    for row in rows {
        if row.key == *key && !gives(&mut walk, row, &mut steps) {
            return false;
        }
    }
    walk.next(&mut steps).is_none()
}

/// Whether the walk's next row is this one.
fn gives<L: Ledger>(walk: &mut RowWalk<'_>, row: &Row, steps: &mut Steps<L>) -> bool {
    match walk.next(steps) {
        Some(next) => next == *row,
        None => false,
    }
}

/// Whether no row has the key. Three digits are enough for fewer than eight blocks, and the answer
/// is one step more.
fn has_no_row<L: Ledger>(segment: &Segment, key: &PositionKey, steps: &mut Steps<L>) -> bool
    requires { segment.now.blocks < 8 }
    ensures { steps.new ≤ steps.old + 132 }
{
    segment.rows_at(key, steps).next(steps).is_none()
}

fn is_absent_by<L: Ledger>(segment: &Segment, key: &PositionKey, blank: Blank) -> bool
    requires blocks { segment.now.blocks < 8 }
    requires name { blank.name ≡ L.name }
    requires parts { blank.parts ≡ L.parts }
    requires some { 0 < L.parts }
{
    let mut steps = Steps::<L>::new(blank);
    has_no_row(segment, key, &mut steps)
}

/// Whether a walk at the key gives what a plain filter of the rows gives.
pub(super) fn is_walked(segment: &Segment, rows: &[Row], key: &PositionKey) -> bool {
    is_filtered::<Brand>(segment, rows, key, Blank::new(1))
}

/// Whether no row of a segment of few blocks has the key.
fn is_absent(segment: &Segment, key: &PositionKey) -> bool {
    segment.block_count() < 8 && is_absent_by::<Brand>(segment, key, Blank::new(1))
}

/// The rows of a tally, each by itself.
pub(super) fn rows_in(alloc: Global, tally: &Tally) -> Result<Vec<Row>, AllocError> {
    let mut rows = Vec::new(alloc);
    for part in tally.row_parts() {
        for row in part {
            rows.push(row.to_row())?;
        }
    }
    Ok(rows)
}

/// How many rows have the move e4.
fn count_with_e4(rows: &[Row]) -> usize {
    let e4 = Some(Move {
        from: Square { index: 12 },
        to: Square { index: 28 },
        promotion: None,
    });
    rows.iter().filter(|row| row.next == e4).count()
}

#[test]
fn segment_gives_what_a_plain_filter_of_the_tally_gives(rt: HostRuntime) -> Result<(), Fail> {
    let tally = tally_of_batch(&rt, rt.alloc(), 150)?;
    let segment = segment_of(rt.alloc(), 0, tally_of_batch(&rt, rt.alloc(), 150)?)?;
    let rows = rows_in(rt.alloc(), &tally)?;
    let rows = rows.as_slice();
    // The start and e4 in 150 months, e5 and c5 in 75 each: three full blocks and one of 66 rows.
    assert_eq!(rt; (count_with_e4(rows), rows.len()), (150, 450));
    assert_eq!(rt; (segment.games(), segment.block_count()), (512, 4));
    for row in rows {
        assert!(rt; is_walked(&segment, rows, &row.key), "at {:?}", row.key);
    }
    // Below all rows, between two of them, and above all.
    let mut between = rows[0].key;
    between[33] ^= 1;
    for absent in [[0; 34], between, [255; 34]] {
        assert!(rt; is_absent(&segment, &absent), "at {absent:?}");
    }
    Ok(())
}

#[test]
fn segment_goes_through_threads(rt: HostRuntime) -> Result<(), Fail> {
    let segment = Arc::new(rt.alloc(), one_game(&rt, rt.alloc(), 7, "1. e4 e5")?)?;
    let share = Arc::try_clone(&segment)?;
    let (games, first) = join(&rt, move || share.games(), move || segment.span().first);
    assert_eq!(rt; (games, first), (1, 7));
    Ok(())
}
