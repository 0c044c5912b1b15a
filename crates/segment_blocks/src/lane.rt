//! How rows of a place move behind others.
ghost use Rattle.std.specs.Prelude.{◌≡◌, IfSome};
ghost use Rattle.segment_blocks.specs.Both.{AreLanesOf};
ghost use Rattle.segment_blocks.specs.Moving.{IsLane};
ghost use Rattle.segment_blocks.specs.Place.{rows_left, IsPlace};

use crate::block_cursor::Place;
use crate::encoded_rows::shared_len;
use crate::key_order::order_behind;
use crate::until::Until;
use tally_rows::PositionKey;

/// With which numbers rows of a walk move behind others, and where the walk ends.
#[derive(Clone, Copy, Debug)]
pub struct Terms<'a> {
    /// By how much their numbers are greater.
    pub by: u32,
    pub until: &'a Until,
}

/// How the next row of a place moves behind others.
#[derive(Clone, Copy, Debug)]
pub struct Lane {
    /// By how much its number is greater.
    pub by: u32,
    /// How many bytes its key has in common with the last one.
    pub shared: u8,
}

/// How the next rows of two places move behind others.
#[derive(Clone, Copy, Debug)]
pub struct Lanes {
    pub left: Lane,
    pub right: Lane,
    /// How many bytes a key has in common with the last one, at least, so that it moves.
    pub least: u8,
}

/// How the next rows of two places move behind others, the last of which has the key `last`, once
/// their keys are made, or None where none moves.
#[inline(always)]
pub fn lanes_of(
    last: &PositionKey,
    left: &mut Place<'_>,
    right: &mut Place<'_>,
    terms: (Terms<'_>, Terms<'_>),
) -> Option<Lanes>
    requires left_filled { IsPlace left.old }
    requires right_filled { IsPlace right.old }
    ensures left_filled { IsPlace left.new }
    ensures right_filled { IsPlace right.new }
    ensures left_rows { rows_left left.new ≡ rows_left left.old }
    ensures right_rows { rows_left right.new ≡ rows_left right.old }
    ensures lanes { IfSome result (λ lanes.
        AreLanesOf last.now terms.entry.0 terms.entry.1 lanes left.new right.new) }
{
    let left_least = terms.0.until.least(last)?;
    let right_least = terms.1.until.least(last)?;
    let left_lane = lane_of(last, left, terms.0.by)?;
    let right_lane = lane_of(last, right, terms.1.by)?;
    Some(Lanes {
        left: left_lane,
        right: right_lane,
        least: left_least.max(right_least),
    })
}

/// The same of one place.
#[inline(always)]
fn lane_of(last: &PositionKey, place: &mut Place<'_>, by: u32) -> Option<Lane>
    requires { IsPlace place.old }
    ensures filled { IsPlace place.new }
    ensures rows { rows_left place.new ≡ rows_left place.old }
    ensures by { IfSome result (λ lane. lane.by ≡ by) }
    ensures lane { IfSome result (λ lane. IsLane last.now lane place.new) }
{
    let _told = place.make_ready(place.is_own)?;
    let shared = shared_len(last, place.before.key(), 0);
    if order_behind(last, place.before.key(), shared).is_gt() {
        return None;
    }
    Some(Lane { by, shared })
}
