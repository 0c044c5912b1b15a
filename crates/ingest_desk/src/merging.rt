//! Segments of the published list become one.
ghost use Rattle.std.specs.Prelude.{◌≡◌, ◌+◌, ◌<◌, ◌≤◌, None, IfOk, MatchOption, OnOk, length, map};
ghost use Rattle.std.specs.Arc.{arc_value};
ghost use Rattle.explorer_model.specs.Journal.{game_count, game_limit};
ghost use Rattle.explorer_model.specs.Timeline.{both};
ghost use Rattle.published_index.specs.Cover.{IsList, journal_of, list_limit};
ghost use Rattle.ingest_desk.specs.Installs.{AreGone, Installs, StandAt};
ghost use Rattle.ingest_desk.specs.Listing.{MakesRoom};
ghost use Rattle.ingest_desk.specs.Picking.{HasNoneDue, IsPicked, rest_limit};
ghost use Rattle.ingest_desk.specs.Stored.{journal};

use crate::fault::InstallFault;
use crate::ingest::Ingest;
use crate::job::Job;
use crate::picking::{last_due, place_of, spans_of};
use disk_model::Disk;
use outside::FreeGate;
use published_index::{Index, Note, SharedSegment};
use segment_blocks::Segment;
use segment_merge::merge;
use side_by_side::Workers;
use std::alloc::{AllocError, Global};
use std::sync::{Arc, Wait};
use std::thread::Threads;

/// The most segments of a list.
const LIST_LIMIT: usize = 64;

impl<D: Disk, J: Index> Ingest<D, J> {
    /// The last neighbours of the list of which the left one has at most twice as many games as the
    /// right one.
    pub fn pick(&self) -> Result<Option<Job<J>>, AllocError>
        ensures { IfOk result (λ found. MatchOption found (HasNoneDue self.now.index.list)
            (λ job. IsPicked self.now.index.list job.left job.right)) }
    {
        let segments = self.publisher.list().segments();
        let Some(at) = last_due(segments) else {
            return Ok(None);
        };
        let left = Arc::try_clone(&segments[at])?;
        let right = Arc::try_clone(&segments[at + 1])?;
        let (_left, _right) = (left.span(), right.span());
        let note = self.publisher.tell();
        Ok(Some(Job { left, right, note }))
    }

    /// Puts the segment of a job's two in their place, where they still stand as neighbours. A change
    /// that is held is published before. It waits for the readers that are inside.
    pub fn install<R: Wait>(
        &mut self,
        rt: &R,
        alloc: Global,
        job: Job<J>,
        merged: Segment,
    ) -> Result<Note<J>, InstallFault>
        requires { merged.span ≡ both job.left.span job.right.span }
        ensures installs { Installs job.left.span job.right.span merged
            self.old.index self.new.index result }
        ensures manifest { self.new.manifest ≡ self.old.manifest }
        ensures failed { self.new.failed ≡ self.old.failed }
        ensures journal { journal self.new ≡ journal self.old }
    {
        if self.catch_up(rt).is_err() {
            return Err(InstallFault::OutOfMemory);
        }
        self.replace(rt, alloc, &job, merged)
    }

    /// The same where nothing is held.
    fn replace<R: Wait>(
        &mut self,
        rt: &R,
        alloc: Global,
        job: &Job<J>,
        merged: Segment,
    ) -> Result<Note<J>, InstallFault>
        requires none_held { self.old.index.held ≡ None }
        requires both { merged.span ≡ both job.now.left.span job.now.right.span }
        ensures installs { Installs job.now.left.span job.now.right.span merged
            self.old.index self.new.index result }
        ensures manifest { self.new.manifest ≡ self.old.manifest }
        ensures failed { self.new.failed ≡ self.old.failed }
        ensures journal { journal self.new ≡ journal self.old }
    {
        let Some(at) = self.find(job) else {
            return Err(InstallFault::Gone {
                spans: spans_of(self.publisher.list().segments()),
            });
        };
        let Ok(shared) = Arc::new(alloc, merged) else {
            return Err(InstallFault::OutOfMemory);
        };
        match self.publisher.replace(rt, at, shared) {
            Ok(note) => Ok(note),
            Err(_) => Err(InstallFault::OutOfMemory),
        }
    }

    /// Where the two of a job stand as neighbours, with their batches. It takes no memory, and compares
    /// no batches: what the list had when the job was picked it has still, at the same places.
    fn find(&mut self, job: &Job<J>) -> Option<usize>
        requires { self.old.index.held ≡ None }
        ensures place { MatchOption result
            (AreGone self.old.index.list job.now.left.span job.now.right.span)
            (λ at. StandAt self.old.index.list at job.now.left.span job.now.right.span) }
        ensures same { self.new ≡ self.old }
    {
        self.publisher.confirm_note(&job.note);
        place_of(self.publisher.list().segments(), &job.left, &job.right)
    }

    /// Joins the neighbours that are due where the list has no room.
    pub(crate) fn make_room<R: Wait + Threads + Sync>(
        &mut self,
        rt: &R,
        alloc: Global,
    ) -> Result<(), AllocError>
        requires { self.old.index.held ≡ None }
        ensures made { OnOk result (MakesRoom self.old.index.list self.new.index.list) }
        ensures room { OnOk result (length self.new.index.list < list_limit) }
        ensures none_held { OnOk result (self.new.index.held ≡ None) }
        ensures manifest { self.new.manifest ≡ self.old.manifest }
        ensures failed { self.new.failed ≡ self.old.failed }
        ensures journal { journal self.new ≡ journal self.old }
        ensures few { length self.new.index.list ≤ list_limit }
    {
        let segments = self.publisher.list().segments();
        if segments.len() < LIST_LIMIT {
            return Ok(());
        }
        let Some(at) = last_due(segments) else {
            return Ok(());
        };
        let left = &segments[at];
        let right = &segments[at + 1];
        let (_left, _right) = (left.span(), right.span());
        let merged = merge(rt, alloc, left, right, 1, &FreeGate)?;
        let merged = Arc::new(alloc, merged)?;
        let _ = self.publisher.replace(rt, at, merged)?;
        Ok(())
    }
}

/// Joins the last neighbours that are due, if there are any.
pub(crate) fn join_due<R: Threads + Sync>(
    rt: &R,
    alloc: Global,
    segments: &mut Vec<SharedSegment>,
    workers: Workers,
) -> Result<(), AllocError>
    requires list { IsList (map arc_value segments.old.items) }
    requires few { length segments.old.items ≤ rest_limit + 1 }
    requires within { game_count (journal_of (map arc_value segments.old.items)) ≤ game_limit }
    ensures list { OnOk result (IsList (map arc_value segments.new.items)) }
    ensures journal { OnOk result (journal_of (map arc_value segments.new.items)
        ≡ journal_of (map arc_value segments.old.items)) }
    ensures few { OnOk result (length segments.new.items ≤ rest_limit) }
{
    let Some(at) = last_due(segments) else {
        return Ok(());
    };
    let left = &segments[at];
    let right = &segments[at + 1];
    let (_left, _right) = (left.span(), right.span());
    let merged = merge(rt, alloc, left, right, workers.count, &FreeGate)?;
    let shared = Arc::new(alloc, merged)?;
    segments.remove(at);
    segments[at] = shared;
    Ok(())
}
