//! Neighbours of a published list that are due become one.
ghost use Rattle.std.specs.Prelude.{◌≡◌, IfOk, IfSome};
ghost use Rattle.segment_blocks.specs.Segment.{CanJoin, IsSegment};
ghost use Rattle.segment_merge.specs.Merging.{IsMergeOf};
ghost use Rattle.import_run.specs.Upkeep.{Finds, Merges, StoresSame, merging_by};

use crate::draining::DrainEnd;
use disk_model::Disk;
use ingest_desk::{Ingest, InstallFault, Job, MergeDesk};
use outside::FreeGate;
use published_index::{Index, Note};
use segment_blocks::Segment;
use segment_merge::merge;
use side_by_side::Workers;
use std::alloc::{AllocError, Global};
use std::sync::Wait;
use std::thread::Threads;

/// What one step of merging came to.
#[derive(Clone, Copy, Debug, PartialEq, Eq)]
pub enum Merging {
    /// Two neighbours have become one.
    Joined,
    /// All neighbours were left as they are.
    Left(DrainEnd),
}

/// Has the last neighbours that are due become one, if there are any, where nobody else stores or
/// merges. What is held is published before.
pub fn merge_due<D: Disk, J: Index, R: Wait + Threads + Sync>(
    rt: &R,
    alloc: Global,
    ingest: &mut Ingest<D, J>,
    workers: Workers,
) -> Merging
    ensures merges { Merges result ingest.old.index ingest.new.index }
    ensures same { StoresSame ingest.old ingest.new }
{
    let Ok(found) = next_job(rt, ingest) else {
        return Merging::Left(DrainEnd::OutOfMemory);
    };
    let Some(job) = found else {
        return Merging::Left(DrainEnd::Idle);
    };
    let Ok(segment) = merge_job(rt, alloc, &job, workers) else {
        return Merging::Left(DrainEnd::OutOfMemory);
    };
    merging_of(ingest.install(rt, alloc, job, segment))
}

/// The same at a desk that others use too. It merges without the lock, and waits for it before and
/// behind.
pub(crate) fn merge_due_beside<D: Disk, J: Index, R: Wait + Threads + Sync>(
    rt: &R,
    alloc: Global,
    desk: &MergeDesk<D, J>,
    workers: Workers,
) -> Merging {
    let Ok(found) = desk.next_job(rt) else {
        return Merging::Left(DrainEnd::OutOfMemory);
    };
    let Some(job) = found else {
        return Merging::Left(DrainEnd::Idle);
    };
    let Ok(segment) = merge_job(rt, alloc, &job, workers) else {
        return Merging::Left(DrainEnd::OutOfMemory);
    };
    merging_of(desk.install(rt, alloc, job, segment))
}

/// The last neighbours of the list that are to become one, once what is held is published.
fn next_job<D: Disk, J: Index, R: Wait>(
    rt: &R,
    ingest: &mut Ingest<D, J>,
) -> Result<Option<Job<J>>, AllocError>
    ensures joins { IfOk result (λ found. IfSome found (λ job. CanJoin job.left job.right)) }
    ensures finds { IfOk result (λ found. Finds found ingest.old.index ingest.new.index) }
    ensures same { StoresSame ingest.old ingest.new }
{
    let _note = ingest.catch_up(rt)?;
    let _batches = ingest.batches();
    ingest.pick()
}

/// The segment that the two of a job become.
fn merge_job<J: Index, R: Threads + Sync>(
    rt: &R,
    alloc: Global,
    job: &Job<J>,
    workers: Workers,
) -> Result<Segment, AllocError>
    requires join { CanJoin job.now.left job.now.right }
    ensures merges { IfOk result (λ segment. IsMergeOf job.now.left job.now.right segment) }
    ensures left { IsSegment job.now.left }
{
    let (left, right) = (job.left(), job.right());
    // That the left one is a segment, its span tells.
    let _left = left.span();
    merge(rt, alloc, left, right, workers.count, &FreeGate)
}

/// What a step came to, by whether the segment that it merged was installed.
fn merging_of<J: Index>(answer: Result<Note<J>, InstallFault>) -> Merging
    ensures { result ≡ merging_by answer }
{
    match answer {
        Ok(_note) => Merging::Joined,
        Err(InstallFault::Gone { .. }) => Merging::Left(DrainEnd::Gone),
        Err(InstallFault::OutOfMemory) => Merging::Left(DrainEnd::OutOfMemory),
    }
}
