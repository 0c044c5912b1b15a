//! Rows of two places moved behind others, the lesser one first.
ghost use Rattle.std.specs.Prelude.{◌≡◌, ◌<◌, List, ℕ, Some, IsTrue, take, length};
ghost use Rattle.segment_blocks.specs.declared.until.Until.{Until};
ghost use Rattle.segment_blocks.specs.Block.{block_limit, IsBlock};
ghost use Rattle.segment_blocks.specs.Both.{AreLanes, HaveSameTerms, HasMovedFirst};
ghost use Rattle.segment_blocks.specs.Encoded.{row_key_at, rows_of};
ghost use Rattle.segment_blocks.specs.Moving.{next_row_key, IfOn, IsLeast};
ghost use Rattle.segment_blocks.specs.Place.{rows_left, IsPlace};
ghost use Rattle.segment_blocks.specs.Prefix.{common_len};
ghost use Rattle.tally_rows.specs.declared.row_key.RowKey.{RowKey};
ghost use Rattle.tally_rows.specs.RowKey.{row_order};

use crate::block_cursor::{Place, row_key_at};
use crate::encoded_rows::{EncodedRows, shared_len};
use crate::key_order::{order_at_a_key, order_behind};
use crate::lane::Lanes;
use crate::mark::Mark;
use std::alloc::AllocError;
use std::cmp::Ordering;
use tally_rows::PositionKey;

/// Moves the lesser of the next rows of two places behind others, the last of which has the key
/// `last`, if it has its least of bytes in common with it. Says whether another one can move.
#[inline(always)]
pub fn move_first(
    left: &mut Place<'_>,
    right: &mut Place<'_>,
    lanes: &mut Lanes,
    rows: &mut EncodedRows,
    last: &mut PositionKey,
) -> Result<bool, AllocError>
    requires left_filled { IsPlace left.old }
    requires right_filled { IsPlace right.old }
    requires lanes { AreLanes last.old lanes.old left.old right.old }
    ensures left_filled { IsPlace left.new }
    ensures right_filled { IsPlace right.new }
    ensures terms { HaveSameTerms lanes.old lanes.new }
    ensures lanes { IfOn result (AreLanes last.new lanes.new left.new right.new) }
    ensures moved { (first : List ℕ) (left_until right_until : Until)
        → IsBlock first last.old rows.old → length (rows_of rows.old first) < block_limit
        → IsLeast left_until last.old lanes.old.least → IsLeast right_until last.old lanes.old.least
        → HasMovedFirst first left_until right_until lanes.old last.new
        (rows_left left.old) (rows_left left.new) (rows_left right.old) (rows_left right.new)
        rows.old rows.new }
{
    let (order, both) = order_of_places(left, right, lanes);
    match order {
        Ordering::Less => {
            if lanes.left.shared < lanes.least {
                return Ok(false);
            }
            let on = left.push_own(lanes.left, rows, last)?;
            if !on {
                return Ok(false);
            }
            lanes.right.shared = both;
            Ok(left.follow(&mut lanes.left, last))
        }
        Ordering::Greater => {
            if lanes.right.shared < lanes.least {
                return Ok(false);
            }
            let on = right.push_own(lanes.right, rows, last)?;
            if !on {
                return Ok(false);
            }
            lanes.left.shared = both;
            Ok(right.follow(&mut lanes.right, last))
        }
        Ordering::Equal => Ok(false),
    }
}

/// How the next rows of two places stand, and how many bytes their keys begin with alike. The key
/// that has more bytes in common with the last one stands first; only where both have as many they
/// are compared, from there on.
#[inline(always)]
fn order_of_places(left: &Place<'_>, right: &Place<'_>, lanes: &Lanes) -> (Ordering, u8)
    requires left_filled { IsPlace left.now }
    requires right_filled { IsPlace right.now }
    requires lanes { (last : List ℕ) × AreLanes last lanes.now left.now right.now }
    ensures order { (a b : RowKey) → next_row_key (rows_left left.now) ≡ Some a
        → next_row_key (rows_left right.now) ≡ Some b → result.0 ≡ row_order a b }
    ensures shared { result.1 ≡ common_len left.now.before right.now.before }
{
    if lanes.right.shared < lanes.left.shared {
        return (Ordering::Less, lanes.right.shared);
    }
    if lanes.left.shared < lanes.right.shared {
        return (Ordering::Greater, lanes.left.shared);
    }
    order_from(left, right, lanes)
}

/// The same where both keys have as many bytes in common with the last one. Kept apart, since the
/// numbers are mostly different.
#[inline(never)]
fn order_from(left: &Place<'_>, right: &Place<'_>, lanes: &Lanes) -> (Ordering, u8)
    requires left_filled { IsPlace left.now }
    requires right_filled { IsPlace right.now }
    requires left_own { IsTrue left.now.is_own }
    requires right_own { IsTrue right.now.is_own }
    requires same { take lanes.now.left.shared left.now.before
        ≡ take lanes.now.left.shared right.now.before }
    ensures order { (a b : RowKey) → next_row_key (rows_left left.now) ≡ Some a
        → next_row_key (rows_left right.now) ≡ Some b → result.0 ≡ row_order a b }
    ensures shared { result.1 ≡ common_len left.now.before right.now.before }
{
    let (a, b) = (left.before.key(), right.before.key());
    let shared = shared_len(a, b, lanes.left.shared);
    let order = match order_behind(a, b, shared) {
        Ordering::Equal => order_at_same_key(left, right),
        order => order,
    };
    (order, shared)
}

/// How the next rows of two places stand, which have the same key.
fn order_at_same_key(left: &Place<'_>, right: &Place<'_>) -> Ordering
    requires left_filled { IsPlace left.now }
    requires right_filled { IsPlace right.now }
    requires left_own { IsTrue left.now.is_own }
    requires right_own { IsTrue right.now.is_own }
    requires same { left.now.before ≡ right.now.before }
    ensures { (a b : RowKey) → next_row_key (rows_left left.now) ≡ Some a
        → next_row_key (rows_left right.now) ≡ Some b → result ≡ row_order a b }
{
    let Some((a, _lefts)) = left.marks.split_first() else {
        return order_with_whole(left, right);
    };
    let Some((b, _rights)) = right.marks.split_first() else {
        return order_with_whole(left, right);
    };
    let (Some(_first), Some(_second)) = (a.outcome, b.outcome) else {
        return order_with_whole(left, right);
    };
    order_of_marks(a, b)
}

/// The same where one of both rows may stand whole. Kept apart, since few rows do.
#[inline(never)]
fn order_with_whole(left: &Place<'_>, right: &Place<'_>) -> Ordering
    requires left_filled { IsPlace left.now }
    requires right_filled { IsPlace right.now }
    requires left_own { IsTrue left.now.is_own }
    requires right_own { IsTrue right.now.is_own }
    requires same { left.now.before ≡ right.now.before }
    ensures { (a b : RowKey) → next_row_key (rows_left left.now) ≡ Some a
        → next_row_key (rows_left right.now) ≡ Some b → result ≡ row_order a b }
{
    let Some(first) = left.next_row_key() else {
        return Ordering::Equal;
    };
    let Some(second) = right.next_row_key() else {
        return Ordering::Equal;
    };
    order_at_a_key(&first, &second)
}

/// How the rows of two marks of one game stand at the same key, whichever it is.
#[inline(always)]
fn order_of_marks(a: &Mark, b: &Mark) -> Ordering
    ensures { (key : List ℕ)
        → result ≡ row_order (row_key_at key a.now) (row_key_at key b.now) }
{
    order_at_a_key(&row_key_at([0; 34], a), &row_key_at([0; 34], b))
}
