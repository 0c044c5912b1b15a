//! One who stores alone: nobody else changes the store.
ghost use Rattle.std.specs.Prelude.{◌≡◌, ◌≤◌, None, Some, false};
ghost use Rattle.ingest_desk.specs.Drawn.{DrawsFor, most_untold};
ghost use Rattle.ingest_desk.specs.Importers.{ending_of};
ghost use Rattle.import_run.specs.Alone.{ImportsAlone, stored_in};
ghost use Rattle.import_run.specs.Upkeep.{Follows, IsSinceAlone, MergesBehind, StoresSame};

use crate::committer::Committer;
use crate::draining::DrainEnd;
use crate::merging::{Merging, merge_due};
use crate::stream::import_stream;
use disk_model::Disk;
use explorer_model::label::Label;
use game_replay::laws::game_is_determined;
use ingest_desk::{CommitFault, Handed, Ingest, Receipt, Report};
use outside::{Gate, Source};
use published_index::{Drawer, Index};
use side_by_side::Workers;
use std::alloc::Global;
use std::sync::Wait;
use std::thread::Threads;

/// Imports the texts of a source under the label, where nobody else stores anything meanwhile.
pub fn import_alone<S: Source, D: Disk, J: Index, G: Gate, R: Wait + Threads + Sync>(
    rt: &R,
    alloc: Global,
    source: &mut S,
    ingest: &mut Ingest<D, J>,
    mine: &mut Drawer<J>,
    label: Label,
    workers: usize,
    gate: &G,
) -> Report<J>
    requires some_workers { 1 ≤ workers }
    requires few_workers { workers ≤ 16 }
    ensures alone { ImportsAlone label D.disk D.left_since (S.source source.old) ingest.old
        (S.source source.new) ingest.new result }
    ensures drawn { DrawsFor (most_untold (ending_of result.end)) result.receipts.items
        mine.old mine.new }
{
    let workers = Workers { count: workers };
    let LoneImport {
        report,
        lacked: _lacked,
    } = import_and_tell(rt, alloc, source, ingest, mine, label, workers, gate);
    report
}

/// An import of one who stores alone.
#[derive(Drop)]
pub struct LoneImport<J: Index> {
    pub report: Report<J>,
    /// Whether memory was wanting for a batch, or behind one for neighbours that were due.
    pub lacked: bool,
}

/// The same, and whether the published list followed each batch.
pub fn import_and_tell<S: Source, D: Disk, J: Index, G: Gate, R: Wait + Threads + Sync>(
    rt: &R,
    alloc: Global,
    source: &mut S,
    ingest: &mut Ingest<D, J>,
    mine: &mut Drawer<J>,
    label: Label,
    workers: Workers,
    gate: &G,
) -> LoneImport<J>
    ensures alone { ImportsAlone label D.disk D.left_since (S.source source.old) ingest.old
        (S.source source.new) ingest.new result.report }
    ensures follows { result.lacked ≡ false → ingest.new.manifest.fault ≡ None
        → Follows ingest.old ingest.new }
    ensures drawn { DrawsFor (most_untold (ending_of result.report.end))
        result.report.receipts.items mine.old mine.new }
{
    let _before = ingest.batches();
    let mut seat = LoneSeat {
        ingest: &mut *ingest,
        drawer: &mut *mine,
        lacked: false,
    };
    let report = import_stream(rt, alloc, source, &mut seat, label, workers, gate);
    let _after = seat.ingest.batches();
    LoneImport {
        report,
        lacked: seat.lacked,
    }
}

/// A seat of one who stores alone.
#[derive(Drop)]
pub(crate) struct LoneSeat<'a, D: Disk, J: Index> {
    pub(crate) ingest: &'a mut Ingest<D, J>,
    pub(crate) drawer: &'a mut Drawer<J>,
    /// Whether memory was wanting for a batch, or behind one for neighbours that were due.
    pub(crate) lacked: bool,
}

impl<'a, D: Disk, J: Index> Committer<J> for LoneSeat<'a, D, J> {
    ghost use Rattle.import_run.specs.UpkeepLaws.{alone_before, alone_then};
    ghost use Rattle.std.proofs.Common.{refl, ◌∙◌};

    ghost told = { λ seat. Some (stored_in seat.ingest.now) };

    ghost drawing = { λ seat. seat.drawer.now };

    ghost since = { λ old new. (new.ingest.ghost_name ≡ old.ingest.ghost_name)
        × (new.drawer.ghost_name ≡ old.drawer.ghost_name)
        × IsSinceAlone D.disk D.left_since old.ingest.now new.ingest.now old.lacked new.lacked };

    fn commit<R: Wait + Threads + Sync>(
        &mut self,
        rt: &R,
        alloc: Global,
        handed: Handed,
        workers: Workers,
    ) -> Result<Receipt<J>, CommitFault<J>> {
        game_is_determined();
        let _before = self.ingest.batches();
        let answer = self.ingest.commit_handed(rt, alloc, handed, self.drawer);
        let _after = self.ingest.batches();
        let lacks = merge_behind(rt, alloc, self.ingest, &answer, workers);
        self.lacked = either(self.lacked, lacks);
        answer
    }

    ghost since_then = { λ it. (refl, refl, alone_then D.disk D.left_since it.ingest.now it.lacked) };

    ghost since_before = { λ first second third earlier later. (
      later.0 ∙ earlier.0,
      later.1 ∙ earlier.1,
      alone_before D.disk D.left_since first.ingest.now second.ingest.now third.ingest.now
          first.lacked second.lacked third.lacked earlier.2 later.2,
    ) };
}

/// Behind a batch that was stored the last neighbours that are due become one. Says whether memory
/// was wanting for the batch or for that.
fn merge_behind<D: Disk, J: Index, R: Wait + Threads + Sync>(
    rt: &R,
    alloc: Global,
    ingest: &mut Ingest<D, J>,
    answer: &Result<Receipt<J>, CommitFault<J>>,
    workers: Workers,
) -> bool
    ensures merges { result ≡ false
        → MergesBehind answer.now ingest.old.index ingest.new.index }
    ensures same { StoresSame ingest.old ingest.new }
{
    match answer {
        Ok(_) => match merge_due(rt, alloc, ingest, workers) {
            Merging::Joined | Merging::Left(DrainEnd::Idle | DrainEnd::Gone) => false,
            Merging::Left(DrainEnd::OutOfMemory) => true,
        },
        Err(CommitFault::OutOfMemory { .. }) => true,
        Err(_) => false,
    }
}

fn either(one: bool, other: bool) -> bool
    ensures { result ≡ false → (one ≡ false) × (other ≡ false) }
{
    one || other
}
