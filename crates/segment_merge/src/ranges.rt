//! Ranges of keys, merged side by side.
ghost use Rattle.std.specs.Prelude.{◌≡◌, ◌+◌, ◌≤◌, ◌<◌, Ok, IfOk, length, map, slice_get};
ghost use Rattle.segment_blocks.specs.PackedRows.{AreInOrder};
ghost use Rattle.segment_blocks.specs.Segment.{CanJoin, segment_limit};
ghost use Rattle.segment_merge.specs.Merging.{IsMergeOf, merged_in_range};
ghost use Rattle.segment_merge.specs.Ranges.{AreRising, IsNotAbove, begin_of, rows_in_range};
ghost use Rattle.tally_rows.specs.Row.{shifted_row};

use crate::merging::merge_rows;
use crate::side::Side;
use outside::Gate;
use segment_blocks::{PackedRows, Segment, Steps};
use side_by_side::{Workers, all_made, map_taken};
use std::alloc::{AllocError, Global};
use std::marker::Brand;
use std::sync::ledger::{Blank, Ledger};
use std::thread::Threads;
use tally_rows::PositionKey;

/// How many ranges there are at most for each of several workers. Equal ranges take different times; a
/// leaf that is done with one takes the next, so that at the end none waits long for another.
const RANGES_OF_WORKER: usize = 8;

/// How many blocks a range has in the mean, at least. The last block of a range is not full.
const BLOCKS_OF_RANGE: usize = 16;

/// The segment of both spans, made by as many leaves as there are workers, side by side. Each leaf
/// goes through the gate once, and then merges the rows of one range of keys after another, as long
/// as one is left. No key is in two ranges.
pub fn merge<R: Threads + Sync, G: Gate>(
    rt: &R,
    alloc: Global,
    left: &Segment,
    right: &Segment,
    workers: usize,
    gate: &G,
) -> Result<Segment, AllocError>
    requires spans { CanJoin left.now right.now }
    requires some_workers { 1 ≤ workers }
    requires few_workers { workers ≤ 16 }
    ensures { IfOk result (λ segment. IsMergeOf left.now right.now segment) }
{
    let workers = Workers { count: workers };
    // That each side is a segment, its span tells.
    let _left = left.span();
    let _right = right.span();
    let larger = larger_of(left, right);
    let keys = cut_keys(alloc, larger, count_ranges(workers, larger.block_count()))?;
    let keys = keys.as_slice();
    let enter = |leaf: usize|
        requires { leaf < 16 }
    {
        gate.pass(leaf + 1);
    };
    let range = |n: usize| -> Result<PackedRows, AllocError>
        requires { CanJoin left.now right.now }
        ensures { IfOk result (λ packed. packed.rows
            ≡ merged_in_range keys.entry.now n left.entry.now right.entry.now) }
    { merge_range(alloc, left, right, keys, n) };
    let results = map_taken(rt, alloc, workers.count, keys.len() + 1, &enter, &range)?;
    let parts = all_made(alloc, results)?;
    Segment::of_both(alloc, left, right, parts)
}

/// The side that has more blocks.
fn larger_of<'a>(left: &'a Segment, right: &'a Segment) -> &'a Segment {
    if left.block_count() < right.block_count() {
        right
    } else {
        left
    }
}

/// In how many ranges so many workers merge, where the larger side has so many blocks. One worker
/// merges all rows in one.
fn count_ranges(workers: Workers, blocks: usize) -> usize
    ensures { 1 ≤ result }
{
    if workers.count == 1 {
        1
    } else {
        (workers.count * RANGES_OF_WORKER).min(1 + blocks / BLOCKS_OF_RANGE)
    }
}

/// Keys that part the blocks of a segment in so many ranges, of which the first are the longest. Any
/// rising keys serve.
fn cut_keys(alloc: Global, segment: &Segment, ranges: usize) -> Result<Vec<PositionKey>, AllocError>
    requires { 1 ≤ ranges }
    ensures count { IfOk result (λ keys. length keys.items + 1 ≡ ranges) }
    ensures rising { IfOk result (λ keys. AreRising keys.items) }
{
    cut_keys_in::<Brand>(alloc, segment, ranges, Blank::new(1))
}

/// The same, with a ledger for its steps.
fn cut_keys_in<L: Ledger>(
    alloc: Global,
    segment: &Segment,
    ranges: usize,
    blank: Blank,
) -> Result<Vec<PositionKey>, AllocError>
    requires ranges { 1 ≤ ranges }
    requires name { blank.name ≡ L.name }
    requires parts { blank.parts ≡ L.parts }
    requires some { 0 < L.parts }
    ensures count { IfOk result (λ keys. length keys.items + 1 ≡ ranges) }
    ensures rising { IfOk result (λ keys. AreRising keys.items) }
{
    let mut steps = Steps::<L>::new(blank);
    let blocks = segment.block_count();
    let mut keys = Vec::with_capacity(alloc, ranges)?;
    let mut last = [0u8; 34];
    for part in 1..ranges {
        let block = blocks.saturating_sub(left_from(blocks, part, ranges));
        let key = segment.first_key(block, &mut steps);
        let next = later_key(last, key.unwrap_or([255; 34]));
        keys.push(next)?;
        last = next;
    }
    Ok(keys)
}

/// How many of so many blocks are in the ranges from the one of this number on: the share of the
/// ranges that are left, squared. So the last ranges are short, and at the end no leaf waits long for
/// another.
fn left_from(blocks: usize, range: usize, count: usize) -> usize
    requires { 1 ≤ count }
{
    let ranges = count.saturating_sub(range);
    blocks.saturating_mul(ranges).saturating_mul(ranges) / count / count
}

/// The key, where it is not below the one before it.
fn later_key(before: PositionKey, key: PositionKey) -> PositionKey
    ensures { IsNotAbove before result }
{
    if key.cmp(&before).is_gt() {
        key
    } else {
        before
    }
}

/// The rows of both segments in range `n` between the keys, merged.
fn merge_range(
    alloc: Global,
    left: &Segment,
    right: &Segment,
    keys: &[PositionKey],
    n: usize,
) -> Result<PackedRows, AllocError>
    requires { CanJoin left.now right.now }
    ensures { IfOk result (λ packed. packed.rows ≡ merged_in_range keys.now n left.now right.now) }
{
    merge_range_in::<Brand>(alloc, left, right, keys, n, Blank::new(1))
}

/// The same, with a ledger for its steps.
fn merge_range_in<L: Ledger>(
    alloc: Global,
    left: &Segment,
    right: &Segment,
    keys: &[PositionKey],
    n: usize,
    blank: Blank,
) -> Result<PackedRows, AllocError>
    requires spans { CanJoin left.now right.now }
    requires name { blank.name ≡ L.name }
    requires parts { blank.parts ≡ L.parts }
    requires some { 0 < L.parts }
    ensures { IfOk result (λ packed. packed.rows ≡ merged_in_range keys.now n left.now right.now) }
{
    let mut steps = Steps::<L>::new(blank);
    let first = side_within(left, keys, n, 0, &mut steps);
    let second = side_within(right, keys, n, left.games(), &mut steps);
    merge_rows(alloc, first, second, &mut steps)
}

/// The rows of a segment in range `n` between the keys, whose games have numbers that are greater by
/// `by`.
fn side_within<'a, L: Ledger>(
    segment: &'a Segment,
    keys: &[PositionKey],
    n: usize,
    by: u32,
    steps: &mut Steps<L>,
) -> Side<'a>
    requires { by + length segment.now.classes ≤ segment_limit }
    ensures rows { result ≡ map (shifted_row by) (rows_in_range keys.now n segment.now.rows) }
    ensures in_order { AreInOrder result }
{
    // That the rows are in order, and have room, the segment's span tells.
    let _span = segment.span();
    let walk = segment.rows_within(begin_of(keys, n), end_of(keys, n), steps);
    Side::new(walk, by)
}

/// The key at which range `n` begins.
fn begin_of(keys: &[PositionKey], n: usize) -> Option<PositionKey>
    ensures { result ≡ begin_of keys.now n }
{
    if n > 0 {
        keys.get(n - 1).copied()
    } else {
        None
    }
}

/// The key before which range `n` ends.
fn end_of(keys: &[PositionKey], n: usize) -> Option<PositionKey>
    ensures { result ≡ slice_get keys.now n }
{
    keys.get(n).copied()
}
