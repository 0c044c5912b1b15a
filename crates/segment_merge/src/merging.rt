//! Rows of two sides in one.
ghost use Rattle.std.specs.Prelude.{◌≡◌, ◌+◌, ◌<◌, ◌++◌, Some, IfOk, OnOk, length};
ghost use Rattle.segment_blocks.specs.PackedRows.{AreInOrder};
ghost use Rattle.segment_merge.specs.Merged.{merged, next_order};

use crate::side::Side;
use segment_blocks::{PackedRows, Steps, order_of_row_keys};
use std::alloc::{AllocError, Global};
use std::cmp::Ordering;
use std::sync::ledger::Ledger;

/// The rows of both sides in their order, those with the same five parts put together.
pub fn merge_rows<L: Ledger>(
    alloc: Global,
    left: Side<'_>,
    right: Side<'_>,
    steps: &mut Steps<L>,
) -> Result<PackedRows, AllocError>
    requires left_in_order { AreInOrder left }
    requires right_in_order { AreInOrder right }
    ensures { IfOk result (λ packed. packed.rows ≡ merged left.entry right.entry) }
{
    let mut left = left;
    let mut right = right;
    let mut packed = PackedRows::new(alloc);
    while let Some(order) = order_of(&left, &right) {
        push_next(alloc, order, &mut left, &mut right, &mut packed, steps)?;
        left.push_both(&mut right, &mut packed, steps)?;
    }
    Ok(packed)
}

/// Moves the next row of both sides, which stand so: the lesser one, or both put together where they
/// have the same five parts.
fn push_next<L: Ledger>(
    alloc: Global,
    order: Ordering,
    left: &mut Side<'_>,
    right: &mut Side<'_>,
    packed: &mut PackedRows,
    steps: &mut Steps<L>,
) -> Result<(), AllocError>
    requires order { next_order left.old right.old ≡ Some order }
    requires in_order { AreInOrder (packed.old.rows ++ merged left.old right.old) }
    ensures whole { OnOk result (packed.new.rows ++ merged left.new right.new
        ≡ packed.old.rows ++ merged left.old right.old) }
    ensures fewer { OnOk result (length left.new + length right.new
        < length left.old + length right.old) }
{
    match order {
        Ordering::Less => left.push_next(alloc, packed, steps),
        Ordering::Greater => right.push_next(alloc, packed, steps),
        Ordering::Equal => {
            let (Some(first), Some(second)) = (left.take(steps), right.take(steps)) else {
                return Ok(());
            };
            packed.push_whole(alloc, first.combine(&second))
        }
    }
}

/// How the next rows of both sides stand, or None where both sides have ended. A side that has
/// ended stands behind the other.
fn order_of(left: &Side<'_>, right: &Side<'_>) -> Option<Ordering>
    ensures { result ≡ next_order left.now right.now }
{
    match (left.row_key(), right.row_key()) {
        (Some(first), Some(second)) => Some(order_of_row_keys(&first, &second)),
        (Some(_), None) => Some(Ordering::Less),
        (None, Some(_)) => Some(Ordering::Greater),
        (None, None) => None,
    }
}
