//! A desk for one who merges: nothing can be stored there.
ghost use Rattle.std.specs.Prelude.{◌≡◌, IfOk, IfSome};
ghost use Rattle.explorer_model.specs.Journal.{IsSound};
ghost use Rattle.explorer_model.specs.Timeline.{both};
ghost use Rattle.ingest_desk.specs.Jobs.{AreToJoin, StandsIn};

use crate::fault::InstallFault;
use crate::ingest::{Desk, Ingest};
use crate::job::Job;
use disk_model::Disk;
use published_index::{Index, Note};
use segment_blocks::Segment;
use std::alloc::{AllocError, Global};
use std::sync::{MutexGuard, Wait};

/// A desk, lent to one who merges. It takes the lock for each of its steps, and waits for it.
#[derive(Drop)]
pub struct MergeDesk<'a, D: Disk, J: Index> {
    desk: &'a Desk<D, J>,
}

impl<'a, D: Disk, J: Index> MergeDesk<'a, D, J> {
    /// The steps of merging at a desk.
    pub fn of(desk: &'a Desk<D, J>) -> Self {
        MergeDesk { desk }
    }

    /// The last neighbours of the list of which the left one has at most twice as many games as the
    /// right one. A change that is held is published before.
    pub fn next_job<R: Wait>(&self, rt: &R) -> Result<Option<Job<J>>, AllocError>
        ensures { IfOk result (λ found. IfSome found (λ job. AreToJoin job.left job.right)) }
    {
        let mut ingest = self.desk.lock(rt);
        let found = next_job(rt, &mut ingest);
        MutexGuard::unlock(ingest);
        found
    }

    /// Puts the segment of a job's two in their place, where they still stand as neighbours. A change
    /// that is held is published before. The note has the journal in which they stand.
    pub fn install<R: Wait>(
        &self,
        rt: &R,
        alloc: Global,
        job: Job<J>,
        merged: Segment,
    ) -> Result<Note<J>, InstallFault>
        requires { merged.span ≡ both job.left.span job.right.span }
        ensures sound { IfOk result IsSound }
        ensures stands { IfOk result (λ note. StandsIn note merged.span) }
    {
        let mut ingest = self.desk.lock(rt);
        let answer = install(rt, alloc, &mut ingest, job, merged);
        MutexGuard::unlock(ingest);
        answer
    }
}

/// The next job of an ingest, once what is held is published.
fn next_job<D: Disk, J: Index, R: Wait>(
    rt: &R,
    ingest: &mut Ingest<D, J>,
) -> Result<Option<Job<J>>, AllocError>
    ensures { IfOk result (λ found. IfSome found (λ job. AreToJoin job.left job.right)) }
{
    let _note = ingest.catch_up(rt)?;
    ingest.pick()
}

/// Installs the segment of a job's two.
fn install<D: Disk, J: Index, R: Wait>(
    rt: &R,
    alloc: Global,
    ingest: &mut Ingest<D, J>,
    job: Job<J>,
    merged: Segment,
) -> Result<Note<J>, InstallFault>
    requires { merged.span ≡ both job.left.span job.right.span }
    ensures sound { IfOk result IsSound }
    ensures stands { IfOk result (λ note. StandsIn note merged.span) }
{
    let answer = ingest.install(rt, alloc, job, merged);
    let _known = ingest.batches();
    answer
}
