//! A batch is stored and published.
ghost use Rattle.std.specs.Prelude.{◌≡◌, ◌<◌, ◌≤◌, ◌+◌, ◌^◌, ◌++◌, ◌∷◌, [], List, None, IfOk, length};
ghost use Rattle.std.specs.Arc.{arc_value};
ghost use Rattle.std.specs.Option.{option_map};
ghost use Rattle.disk_model.specs.Disk.{LeavesOnly};
ghost use Rattle.explorer_model.specs.declared.archive.Batch.{Batch as StoredBatch};
ghost use Rattle.explorer_model.specs.declared.archive.Game.{Game};
ghost use Rattle.explorer_model.specs.Journal.{IsSound};
ghost use Rattle.explorer_model.specs.Visits.{AreGamesOf};
ghost use Rattle.manifest.specs.Manifest.{IsWithOrWithoutBatch};
ghost use Rattle.segment_blocks.specs.Segment.{IsSegment};
ghost use Rattle.published_index.specs.Cover.{list_limit};
ghost use Rattle.ingest_desk.specs.Causes.{Judges, cause, cause_of_new};
ghost use Rattle.ingest_desk.specs.Commits.{CommitsBy, IsFaultOf, failed_after};
ghost use Rattle.ingest_desk.specs.Registers.{IsSegmentOf};
ghost use Rattle.ingest_desk.specs.Stored.{journal};

use crate::batches::batch_of;
use crate::fault::CommitFault;
use crate::handed::Handed;
use crate::ingest::Ingest;
use crate::mark::Mark;
use crate::ready::Ready;
use crate::receipt::Receipt;
use crate::register::Verdict;
use disk_model::Disk;
use explorer_model::archive::Batch;
use game_replay::laws::game_is_determined;
use published_index::{Drawer, Index, SharedSegment};
use record_log::AppendFault;
use std::alloc::{AllocError, Global};
use std::snapshot::Snapshot;
use std::sync::Wait;
use std::thread::Threads;
use tally_rows::Tally;

impl<D: Disk, J: Index> Ingest<D, J> {
    /// Stores a batch and publishes it. The drawer draws its place where it is stored. It waits for the
    /// readers that are inside.
    pub fn commit<R: Wait + Threads + Sync>(
        &mut self,
        rt: &R,
        alloc: Global,
        tally: Tally,
        mine: &mut Drawer<J>,
    ) -> Result<Receipt<J>, CommitFault<J>>
        ensures answer { CommitsBy D.disk D.left_since tally self.old self.new
            mine.old mine.new result }
        ensures sound { IsSound (journal self.old) }
        ensures few { length self.new.index.list ≤ list_limit }

        ensures crash { self.old.manifest.fault ≡ None → LeavesOnly D.disk D.left_since
            self.old.manifest.disk self.new.manifest.disk
            (IsWithOrWithoutBatch (journal self.old) tally.batch) }
        // What nothing is against is sound behind the journal, so that what a crash leaves meanwhile
        // is opened.
        ensures behind { (games : List Game) → AreGamesOf (journal self.old) games
            → cause self.old.manifest.fault games (journal self.old) tally ≡ None
            → IsSound (journal self.old ++ tally.batch ∷ []) }
    {
        self.commit_handed(rt, alloc, Handed::of_tally(tally), mine)
    }

    /// Stores a batch that is packed already, as `commit` does, and hands it back where ids of it are
    /// stored. It packs no row.
    pub fn commit_ready<R: Wait + Threads + Sync>(
        &mut self,
        rt: &R,
        alloc: Global,
        ready: Ready,
        mine: &mut Drawer<J>,
    ) -> Result<Receipt<J>, CommitFault<J>>
        ensures answer { CommitsBy D.disk D.left_since ready self.old self.new
            mine.old mine.new result }
        ensures sound { IsSound (journal self.old) }
        ensures few { length self.new.index.list ≤ list_limit }

        ensures crash { self.old.manifest.fault ≡ None → LeavesOnly D.disk D.left_since
            self.old.manifest.disk self.new.manifest.disk
            (IsWithOrWithoutBatch (journal self.old) ready.batch) }
        ensures behind { (games : List Game) → AreGamesOf (journal self.old) games
            → cause self.old.manifest.fault games (journal self.old) ready ≡ None
            → IsSound (journal self.old ++ ready.batch ∷ []) }
    {
        self.commit_handed(rt, alloc, Handed::of_ready(ready), mine)
    }

    /// Stores and publishes a batch, packed or not. It packs one only if it is not packed yet.
    pub fn commit_handed<R: Wait + Threads + Sync>(
        &mut self,
        rt: &R,
        alloc: Global,
        handed: Handed,
        mine: &mut Drawer<J>,
    ) -> Result<Receipt<J>, CommitFault<J>>
        ensures answer { CommitsBy D.disk D.left_since handed self.old self.new
            mine.old mine.new result }
        ensures sound { IsSound (journal self.old) }
        ensures few { length self.new.index.list ≤ list_limit }

        ensures crash { self.old.manifest.fault ≡ None → LeavesOnly D.disk D.left_since
            self.old.manifest.disk self.new.manifest.disk
            (IsWithOrWithoutBatch (journal self.old) handed.batch) }
        ensures behind { (games : List Game) → AreGamesOf (journal self.old) games
            → cause self.old.manifest.fault games (journal self.old) handed ≡ None
            → IsSound (journal self.old ++ handed.batch ∷ []) }
    {
        self.stays_sound(&handed);
        if let Some((before, after)) = self.fault() {
            return Err(CommitFault::Closed {
                before,
                after,
                mark: Mark::closed_store(before, after),
            });
        }
        if self.catch_up(rt).is_err() {
            return Err(CommitFault::OutOfMemory { stored: false });
        }
        match self.judge(&handed) {
            Verdict::Clash(pairs) => {
                let note = self.tell();
                Err(CommitFault::Clash {
                    handed,
                    pairs,
                    note,
                })
            }
            Verdict::Full { games, bytes } => {
                let whole = self.tell();
                Err(CommitFault::Full {
                    games,
                    bytes,
                    note: whole,
                })
            }
            Verdict::Fits => {
                if self.make_room(rt, alloc).is_err() {
                    return Err(CommitFault::OutOfMemory { stored: false });
                }
                self.pack_and_store(rt, alloc, handed, mine)
            }
        }
    }

    /// What is true of each ingest: its journal is sound, and so it is with a batch that nothing is
    /// against; a crash leaves it; and its list is short.
    fn stays_sound(&self, handed: &Handed)
        ensures sound { IsSound (journal self.now) }
        ensures behind { (games : List Game) → AreGamesOf (journal self.now) games
            → cause self.now.manifest.fault games (journal self.now) handed.now ≡ None
            → IsSound (journal self.now ++ handed.now.batch ∷ []) }
        ensures crash { self.now.manifest.fault ≡ None → (batch : StoredBatch)
            → LeavesOnly D.disk D.left_since self.now.manifest.disk self.now.manifest.disk
            (IsWithOrWithoutBatch (journal self.now) batch) }
        ensures few { length self.now.index.list ≤ list_limit }
    {
        game_is_determined();
        let _batch = handed.batch();
        let _register = &self.register;
        let _list = self.publisher.list();
    }

    /// The counts of the disk fault that closed the store, if one did.
    fn fault(&self) -> Option<(u64, u64)>
        ensures { result ≡ self.now.manifest.fault }
    {
        self.manifest.fault()
    }

    /// Whether a batch can be stored, where no disk fault closed the store. It takes no memory.
    fn judge(&self, handed: &Handed) -> Verdict
        ensures { (games : List Game) → AreGamesOf (journal self.now) games
            → Judges result (cause_of_new games (journal self.now) handed.now) }
    {
        self.register.judge(handed)
    }

    /// Stores and publishes a batch that nothing is against, and packs it only if it is not packed yet.
    fn pack_and_store<R: Wait>(
        &mut self,
        rt: &R,
        alloc: Global,
        handed: Handed,
        mine: &mut Drawer<J>,
    ) -> Result<Receipt<J>, CommitFault<J>>
        requires open { self.old.manifest.fault ≡ None }
        requires none_held { self.old.index.held ≡ None }
        requires room { length self.old.index.list < list_limit }
        requires fits { (games : List Game) → AreGamesOf (journal self.old) games
            → cause_of_new games (journal self.old) handed ≡ None }

        ensures answer { CommitsBy D.disk D.left_since handed self.old self.new
            mine.old mine.new result }
        ensures few { length self.new.index.list ≤ list_limit }
        ensures crash { LeavesOnly D.disk D.left_since
            self.old.manifest.disk self.new.manifest.disk
            (IsWithOrWithoutBatch (journal self.old) handed.batch) }
    {
        self.stays_sound(&handed);
        match handed.into_ready(alloc) {
            Ok(ready) => self.store(rt, alloc, ready, mine),
            Err(_) => Err(CommitFault::OutOfMemory { stored: false }),
        }
    }

    /// Stores and publishes a batch that nothing is against. It packs nothing.
    fn store<R: Wait>(
        &mut self,
        rt: &R,
        alloc: Global,
        ready: Ready,
        mine: &mut Drawer<J>,
    ) -> Result<Receipt<J>, CommitFault<J>>
        requires open { self.old.manifest.fault ≡ None }
        requires none_held { self.old.index.held ≡ None }
        requires room { length self.old.index.list < list_limit }
        requires fits { (games : List Game) → AreGamesOf (journal self.old) games
            → cause_of_new games (journal self.old) ready ≡ None }

        ensures answer { CommitsBy D.disk D.left_since ready self.old self.new
            mine.old mine.new result }
        ensures few { length self.new.index.list ≤ list_limit }
        ensures crash { LeavesOnly D.disk D.left_since
            self.old.manifest.disk self.new.manifest.disk
            (IsWithOrWithoutBatch (journal self.old) ready.batch) }
    {
        let _batch = ready.batch();
        let games = ready.classes().len();
        if self.register.reserve(games).is_err() {
            return Err(CommitFault::OutOfMemory { stored: false });
        }
        let place = self.publisher.list().batches();
        let Ok(segment) = ready.share_at(alloc, place) else {
            return Err(CommitFault::OutOfMemory { stored: false });
        };
        let batch = batch_of(&segment, 0);
        if let Err(fault) = self.manifest.store(alloc, batch) {
            self.failed = failed_by(&fault, batch);
            return Err(fault_of(fault, batch));
        }
        let first = self.register.games() as u32;
        self.register.enter(&segment);
        match self.publisher.put(rt, segment, mine) {
            Ok(note) => Ok(Receipt {
                batches: place + 1,
                first,
                games: games as u32,
                note,
            }),
            Err(_) => Err(CommitFault::OutOfMemory { stored: true }),
        }
    }
}

/// The segment of a batch behind so many others, to be shared.
pub(crate) fn share_of(alloc: Global, place: u32, tally: Tally) -> Result<SharedSegment, AllocError>
    requires { place + 1 < 2 ^ 32 }
    ensures first { IfOk result (λ segment. (arc_value segment).span.first ≡ place) }
    ensures tally { IfOk result (λ segment. IsSegmentOf tally (arc_value segment)) }
    ensures counts { IfOk result (λ segment. IsSegment (arc_value segment)) }
{
    Ready::of(alloc, tally)?.share_at(alloc, place)
}

/// The batch that failed where the manifest has not taken it: it is one of a disk fault alone.
fn failed_by(fault: &AppendFault, batch: &Batch) -> Option<Snapshot<Batch>>
    ensures { option_map (λ batch. batch.value) result ≡ failed_after fault.now batch.now }
{
    match fault {
        AppendFault::DiskFault { .. } => Some(Snapshot::of(batch)),
        AppendFault::Closed { .. } | AppendFault::OutOfMemory => None,
    }
}

/// The answer where the manifest has not taken a batch.
fn fault_of<J: Index>(fault: AppendFault, batch: &Batch) -> CommitFault<J>
    ensures { IsFaultOf fault batch.now result }
{
    match fault {
        AppendFault::Closed { before, after } => CommitFault::Closed {
            before,
            after,
            mark: Mark::closed_store(before, after),
        },
        AppendFault::DiskFault { before, after } => CommitFault::DiskFault {
            before,
            after,
            mark: Mark::disk_fault(before, after, batch),
        },
        AppendFault::OutOfMemory => CommitFault::OutOfMemory { stored: false },
    }
}
