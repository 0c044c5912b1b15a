//! One who stores at a desk that others use too.
ghost use Rattle.std.specs.Prelude.{◌≡◌, None};
ghost use Rattle.std.specs.Thread.{IsSync};
ghost use Rattle.import_run.specs.Beside.{AnswersTo};
ghost use Rattle.import_run.specs.Committing.{IsClash};
ghost use Rattle.import_run.specs.Draws.{DrawsPlace};

use crate::committer::Committer;
use crate::merging::merge_due_beside;
use disk_model::Disk;
use ingest_desk::{CommitFault, Desk, Handed, Ingest, MergeDesk, Receipt};
use published_index::{Drawer, Index};
use side_by_side::Workers;
use std::alloc::Global;
use std::sync::{MutexGuard, Wait};
use std::thread::Threads;

/// Stores a batch, packed or not, and publishes it, beside all others that do. No segments become one
/// behind it.
pub fn store_beside<D: Disk, J: Index, R: Wait + Threads + Sync>(
    rt: &R,
    alloc: Global,
    ingest: &mut Ingest<D, J>,
    handed: Handed,
    mine: &mut Drawer<J>,
) -> Result<Receipt<J>, CommitFault<J>>
    ensures clash { IsClash result handed }
    ensures answers { AnswersTo result handed }
    ensures drawn { DrawsPlace result mine.old mine.new }
{
    ingest.commit_handed(rt, alloc, handed, mine)
}

/// A seat at a desk: it takes the lock for each of its steps, and waits for it.
#[derive(Drop)]
pub(crate) struct Seat<'a, D: Disk, J: Index> {
    pub(crate) desk: &'a Desk<D, J>,
    pub(crate) drawer: &'a mut Drawer<J>,
}

/// Stores a batch and publishes it, by the lock of a desk.
fn store_at<D: Disk, J: Index, R: Wait + Threads + Sync>(
    rt: &R,
    alloc: Global,
    desk: &Desk<D, J>,
    handed: Handed,
    mine: &mut Drawer<J>,
) -> Result<Receipt<J>, CommitFault<J>>
    ensures clash { IsClash result handed }
    ensures answers { AnswersTo result handed }
    ensures drawn { DrawsPlace result mine.old mine.new }
{
    let mut ingest = desk.lock(rt);
    let answer = store_beside(rt, alloc, &mut ingest, handed, mine);
    MutexGuard::unlock(ingest);
    answer
}

impl<'a, D: Disk, J: Index> Committer<J> for Seat<'a, D, J> {
    ghost use Rattle.std.proofs.Common.{refl, ◌∙◌};

    ghost told = { λ seat. None };

    ghost drawing = { λ seat. seat.drawer.now };

    // The drawer stays the one that was lent.
    ghost since = { λ old new. new.drawer.ghost_name ≡ old.drawer.ghost_name };

    fn commit<R: Wait + Threads + Sync>(
        &mut self,
        rt: &R,
        alloc: Global,
        handed: Handed,
        workers: Workers,
    ) -> Result<Receipt<J>, CommitFault<J>> {
        let answer = store_at(rt, alloc, self.desk, handed, self.drawer);
        if answer.is_ok() {
            let _merging = merge_due_beside(rt, alloc, &MergeDesk::of(self.desk), workers);
        }
        answer
    }

    ghost since_then = { λ seat. refl };

    ghost since_before = { λ first second third earlier later. later ∙ earlier };
}
