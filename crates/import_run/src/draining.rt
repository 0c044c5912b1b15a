//! Neighbours of a published list become one until none are due.
ghost use Rattle.std.specs.Prelude.{◌≤◌};
ghost use Rattle.import_run.specs.Alone.{DrainsAlone};

use crate::merging::{Merging, merge_due, merge_due_beside};
use disk_model::Disk;
use ingest_desk::{Ingest, MergeDesk};
use published_index::Index;
use side_by_side::Workers;
use std::alloc::Global;
use std::sync::Wait;
use std::thread::Threads;

/// What draining came to.
#[derive(Clone, Copy, Debug, PartialEq, Eq)]
pub struct Drained {
    /// How many jobs were installed: each has made the list one shorter.
    pub jobs: u64,
    pub end: DrainEnd,
}

/// How draining ended.
#[derive(Clone, Copy, Debug, PartialEq, Eq)]
pub enum DrainEnd {
    /// No neighbours are due.
    Idle,
    /// Others changed the list first.
    Gone,
    OutOfMemory,
}

/// Merges neighbours that are due until there are none, where nobody else stores or merges. A change
/// that is held is published before.
pub fn drain_alone<D: Disk, J: Index, R: Wait + Threads + Sync>(
    rt: &R,
    alloc: Global,
    ingest: &mut Ingest<D, J>,
    workers: usize,
) -> Drained
    requires some_workers { 1 ≤ workers }
    requires few_workers { workers ≤ 16 }
    ensures { DrainsAlone ingest.old ingest.new result }
{
    let workers = Workers { count: workers };
    // The list of an ingest is short, so that the jobs can be counted.
    let _before = ingest.batches();
    let mut jobs = 0;
    'draining: loop {
        match merge_due(rt, alloc, ingest, workers) {
            Merging::Joined => jobs += 1,
            Merging::Left(end) => return Drained { jobs, end },
        }
    }
}

/// Merges neighbours that are due, one job after another, until none are due, until others have
/// changed the list first, or until memory is wanting. It merges without the lock, and waits for it
/// before and behind. A change that is held is published before. Nothing can be stored at the desk.
pub fn drain<D: Disk, J: Index, R: Wait + Threads + Sync>(
    rt: &R,
    alloc: Global,
    desk: &MergeDesk<D, J>,
    workers: usize,
) -> Drained
    requires some_workers { 1 ≤ workers }
    requires few_workers { workers ≤ 16 }
{
    let workers = Workers { count: workers };
    let mut jobs = 0u64;
    for _ in rt.forever() {
        match merge_due_beside(rt, alloc, desk, workers) {
            Merging::Joined => jobs = jobs.saturating_add(1),
            Merging::Left(end) => return Drained { jobs, end },
        }
    }
    unreachable!()
}
