//! That the clauses of `commit`, `commit_ready`, `fresh` and `open` are what the laws of a store's life
//! speak of. Each function does what it calls, and says what that is in the life of the store.
ghost use Rattle.std.specs.Prelude.{◌≡◌, ◌≤◌, [], ℕ, IfOk, List, Some};
ghost use Rattle.manifest.specs.Manifest.{IsManifestOf};
ghost use Rattle.ingest_desk.specs.Lives.{Life, opening};
ghost use Rattle.ingest_desk.specs.Living.{HasLived, IsReopened, LivesOn, ReopensTo, event_of};
ghost use Rattle.ingest_desk.specs.Stored.{stored_by};

use disk_model::Disk;
use ingest_desk::laws::{commits_are_events, openings_are_events};
use ingest_desk::{CommitFault, Ingest, Ready, Receipt, Unnamed, fresh, open};
use manifest::Manifest;
use published_index::{Drawer, Index};
use record_log::{Back, OpenFault};
use std::alloc::{AllocError, Global};
use std::sync::Wait;
use std::thread::Threads;
use tally_rows::Tally;

/// Commits a tally: the answer is the event in the life of the store.
pub fn commit_in_life<D: Disk, J: Index, R: Wait + Threads + Sync>(
    rt: &R,
    alloc: Global,
    ingest: &mut Ingest<D, J>,
    drawer: &mut Drawer<J>,
    tally: Tally,
) -> Result<Receipt<J>, CommitFault<J>>
    ensures { (life : Life) → HasLived D.disk D.left_since life ingest.old
        → LivesOn D.disk D.left_since life (event_of result tally.batch) ingest.new }
{
    // law: each answer is an event or none
    commits_are_events::<D, J>();
    let answer = ingest.commit(rt, alloc, tally, drawer);
    let _after = ingest.batches();
    answer
}

/// Commits a batch that is packed already: the answer is the same event.
pub fn commit_ready_in_life<D: Disk, J: Index, R: Wait + Threads + Sync>(
    rt: &R,
    alloc: Global,
    ingest: &mut Ingest<D, J>,
    drawer: &mut Drawer<J>,
    ready: Ready,
) -> Result<Receipt<J>, CommitFault<J>>
    ensures { (life : Life) → HasLived D.disk D.left_since life ingest.old
        → LivesOn D.disk D.left_since life (event_of result ready.batch) ingest.new }
{
    // law: each answer is an event or none
    commits_are_events::<D, J>();
    let answer = ingest.commit_ready(rt, alloc, ready, drawer);
    let _after = ingest.batches();
    answer
}

/// An ingest of a new store: it begins a life.
pub fn fresh_in_life<R: Wait, D: Disk>(
    rt: &R,
    alloc: Global,
    manifest: Manifest<D>,
    readers: usize,
) -> Result<Unnamed<D>, Back<D, AllocError>>
    requires empty { IsManifestOf D.disk D.left_since [] manifest }
    requires some { 1 ≤ readers }
    requires few { readers ≤ 64 }
    ensures { IfOk result (λ unnamed.
        HasLived D.disk D.left_since (opening []) (stored_by unnamed)) }
{
    // law: a new store begins a life
    openings_are_events::<D>();
    fresh(rt, alloc, manifest, readers)
}

/// Opens what a life left on a disk that tells it: the store goes on with the life.
pub fn open_in_life<R: Wait + Threads + Sync, D: Disk>(
    rt: &R,
    alloc: Global,
    disk: D,
    workers: usize,
    readers: usize,
) -> Result<Unnamed<D>, Back<D, OpenFault>>
    requires some_workers { 1 ≤ workers }
    requires few_workers { workers ≤ 16 }
    requires some { 1 ≤ readers }
    requires few { readers ≤ 64 }
    ensures { (life : Life) (file : List ℕ) → (D.disk disk).content ≡ Some file
        → ReopensTo life file
        → IfOk result (λ unnamed. IsReopened D.disk D.left_since life (stored_by unnamed)) }
{
    // law: an opening goes on with the life that left its file
    openings_are_events::<D>();
    open(rt, alloc, disk, workers, readers)
}
