//! Two segments as one.
ghost use Rattle.std.specs.Prelude.{◌≡◌, ◌<◌};

use super::{BATCH, merge_both, one_game, segment_of, tally_of_batch};
use best_lists::Entry;
use outside::{FreeGate, Gate};
use segment_blocks::{Segment, Steps};
use std::alloc::Global;
use std::marker::Brand;
use std::process::Abort;
use std::sync::atomic::{AtomicU64, Ordering};
use std::sync::ledger::{Blank, Ledger};
use std::test::Fail;
use std::thread::{Threads, yield_now};

/// A gate that marks each leaf and counts how often it is passed. It holds leaf 1, which has taken its
/// first range, until leaf 2 has come, or a million turns are over.
#[derive(Drop)]
struct HoldingGate {
    leaves: AtomicU64,
    passes: AtomicU64,
}

impl HoldingGate {
    fn new() -> HoldingGate {
        HoldingGate {
            leaves: AtomicU64::new(0),
            passes: AtomicU64::new(0),
        }
    }
}

impl Gate for HoldingGate {
    fn pass(&self, leaf: usize) {
        if leaf == 1 {
            for _ in 0..1_000_000u32 {
                if self.leaves.load(Ordering::SeqCst) & 4 == 4 {
                    // Leaf 2 has come while leaf 1 was here: both are marked.
                    self.leaves.fetch_or(1, Ordering::SeqCst);
                    break;
                }
                yield_now();
            }
        }
        self.passes.fetch_add(1, Ordering::SeqCst);
        self.leaves.fetch_or(1u64 << (leaf % 64), Ordering::SeqCst);
    }
}

/// The segment of two games with other second moves, merged by two workers.
fn merged_games<R: Threads + Sync>(
    rt: &R,
    alloc: Global,
    gate: &HoldingGate,
) -> Result<Segment, Fail> {
    let left = one_game(rt, alloc, 0, "1. e4 e5")?;
    let right = one_game(rt, alloc, 1, "1. e4 c5")?;
    merge_both(rt, alloc, &left, &right, 2, gate)
}

/// How many rows a segment has in which White won one game, those in which it won two, and all.
fn rows_by_wins<L: Ledger>(segment: &Segment, blank: Blank) -> (usize, usize, usize)
    requires name { blank.name ≡ L.name }
    requires parts { blank.parts ≡ L.parts }
    requires some { 0 < L.parts }
{
    let mut steps = Steps::<L>::new(blank);
    let (mut one, mut two, mut all) = (0usize, 0usize, 0usize);
    let mut rows = segment.rows_within(None, None, &mut steps);
    while let Some(held) = rows.advance(&mut steps) {
        let wins = held.to_row().white;
        one = one.saturating_add(usize::from(wins == 1));
        two = two.saturating_add(usize::from(wins == 2));
        all = all.saturating_add(1);
    }
    (one, two, all)
}

/// How often the rows of a segment list game 0, game 1, and any game.
fn listed_games<L: Ledger>(segment: &Segment, blank: Blank) -> (usize, usize, usize)
    requires name { blank.name ≡ L.name }
    requires parts { blank.parts ≡ L.parts }
    requires some { 0 < L.parts }
{
    let mut steps = Steps::<L>::new(blank);
    let (mut first, mut second, mut all) = (0usize, 0usize, 0usize);
    let mut rows = segment.rows_within(None, None, &mut steps);
    while let Some(held) = rows.advance(&mut steps) {
        let row = held.to_row();
        let listed = row.top.entries();
        first = first.saturating_add(count_of(0, listed));
        second = second.saturating_add(count_of(1, listed));
        all = all.saturating_add(listed.len());
    }
    (first, second, all)
}

/// How often a game stands among others.
fn count_of(number: u32, among: &[Entry]) -> usize {
    among.iter().filter(|entry| entry.number == number).count()
}

#[test]
fn two_leaves_of_a_merge_run_at_once(rt: HostRuntime) -> Result<(), Fail> {
    let gate = HoldingGate::new();
    let both = merged_games(&rt, rt.alloc(), &gate)?;
    // The mark of both, and leaves 1 and 2.
    assert_eq!(rt; gate.leaves.load(Ordering::SeqCst), 0b111);
    assert_eq!(rt;
        (both.span().first, both.span().count, both.games()),
        (0, 2, 2)
    );
    // The start with e4 counts both games; e4 with e5 and with c5, and the two last positions.
    assert_eq!(rt; rows_by_wins::<Brand>(&both, Blank::new(1)), (4, 1, 5));
    // The start lists games 0 and 1, e4 lists game 0 with e5 and game 1 with c5.
    assert_eq!(rt; listed_games::<Brand>(&both, Blank::new(1)), (2, 2, 4));
    Ok(())
}

/// Whether both segments have the same rows.
fn have_same_rows<L: Ledger>(a: &Segment, b: &Segment, blank: Blank) -> bool
    requires name { blank.name ≡ L.name }
    requires parts { blank.parts ≡ L.parts }
    requires some { 0 < L.parts }
{
    let mut steps = Steps::<L>::new(blank);
    let mut rows = a.rows_within(None, None, &mut steps);
    let mut others = b.rows_within(None, None, &mut steps);
    while let Some(row) = rows.advance(&mut steps) {
        match others.advance(&mut steps) {
            Some(other) if row.to_row() == other.to_row() => {}
            _ => return false,
        }
    }
    others.advance(&mut steps).is_none()
}

/// Whether both segments have games of the same ids.
fn have_same_games(a: &Segment, b: &Segment) -> bool {
    if a.games() != b.games() {
        return false;
    }
    for n in 0..a.games() {
        if a.classes(n).id != b.classes(n).id {
            return false;
        }
    }
    true
}

/// Whether both segments have the same span, games and rows.
fn are_same(a: &Segment, b: &Segment) -> bool {
    a.span() == b.span() && have_same_games(a, b) && have_same_rows::<Brand>(a, b, Blank::new(1))
}

/// Asserts that the merge of both is the same for every number of workers, each of which is a leaf.
pub(super) fn assert_equal_merges<R: Threads + Abort + Sync>(
    rt: &R,
    alloc: Global,
    left: &Segment,
    right: &Segment,
) -> Result<(), Fail> {
    let alone = merge_both(rt, alloc, left, right, 1, &FreeGate)?;
    assert_eq!(rt; alone.games(), 1024);
    for (workers, leaves) in [(1, 0x2), (2, 0x6), (8, 0x1fe), (16, 0x1fffe)] {
        let gate = HoldingGate::new();
        let both = merge_both(rt, alloc, left, right, workers, &gate)?;
        assert_eq!(rt; gate.passes.load(Ordering::SeqCst), workers as u64);
        assert_eq!(rt; gate.leaves.load(Ordering::SeqCst) & !1, leaves);
        assert!(rt; are_same(&both, &alone), "with {workers} workers");
    }
    Ok(())
}

#[test]
fn merges_are_equal_where_a_key_fills_many_blocks(rt: HostRuntime) -> Result<(), Fail> {
    // Each game has a month of its own, so the start fills four blocks.
    let left = segment_of(rt.alloc(), 0, tally_of_batch(&rt, rt.alloc(), BATCH)?)?;
    let right = segment_of(rt.alloc(), 1, tally_of_batch(&rt, rt.alloc(), BATCH)?)?;
    assert_eq!(rt; (left.block_count(), right.block_count()), (12, 12));
    // Four keys in up to 64 ranges: most of the ranges are empty.
    assert_equal_merges(&rt, rt.alloc(), &left, &right)
}
