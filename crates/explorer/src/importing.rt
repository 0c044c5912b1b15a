//! An import into a store that is open.
ghost use Rattle.std.specs.Prelude.{◌≡◌, ◌<◌, ◌^◌, None};
ghost use Rattle.ingest_desk.specs.Stored.{journal};
ghost use Rattle.explorer.specs.Faults.{fault_at, fault_by};
ghost use Rattle.explorer.specs.Imported.{ImportedIn};

use crate::fault::Fault;
use disk_model::Disk;
use explorer_model::fault::Refusal;
use explorer_model::label::Label;
use import_run::{ending_of, import_alone};
use ingest_desk::{ImportEnding, Ingest, count_games};
use outside::{FreeGate, Source};
use published_index::{Drawer, Index};
use side_by_side::Workers;
use std::sync::Wait;
use std::thread::Threads;

/// What an import came to, and how many batches are stored afterwards.
#[derive(Debug, Drop)]
pub struct Came {
    pub ending: ImportEnding,
    pub refused: Vec<Refusal>,
    pub games: u64,
    pub batches: u64,
    pub journal: u32,
}

impl Came {
    /// The fault of a run whose import ended early.
    pub fn fault(&self) -> Option<Fault>
        ensures { result ≡ fault_by self.now.ending }
    {
        // No import ends `Closed` whose store was open before it.
        import_fault(self.ending, Fault::DiskFault)
    }
}

/// The fault of a run whose import ended early. An end by a disk fault or by a closed store is told as
/// `at_store`.
pub fn import_fault(ending: ImportEnding, at_store: Fault) -> Option<Fault>
    ensures { result ≡ fault_at at_store ending }
{
    match ending {
        ImportEnding::Whole => None,
        ImportEnding::ReadFault { .. } => Some(Fault::ReadFault),
        ImportEnding::DiskFault { .. } | ImportEnding::Closed { .. } => Some(at_store),
        ImportEnding::Full { games, bytes } => Some(Fault::Full { games, bytes }),
        ImportEnding::TooMuch { .. } => Some(Fault::TooMuchInput),
        ImportEnding::OutOfMemory => Some(Fault::OutOfMemory),
    }
}

/// Imports the source under the label into a store that is open. Merging is done meanwhile by as many
/// workers.
pub fn import_into<J: Index, R: AllocGlobal + Wait + Threads + Sync, S: Source, D: Disk>(
    rt: &R,
    ingest: &mut Ingest<D, J>,
    drawer: &mut Drawer<J>,
    source: &mut S,
    label: Label,
    workers: Workers,
) -> Came
    requires sound { ingest.old.manifest.fault ≡ None }
    ensures { ImportedIn label (journal ingest.old) (journal ingest.new)
        (D.disk ingest.old.manifest.disk) (D.disk ingest.new.manifest.disk)
        (S.source source.old) (S.source source.new) result }
{
    let report = import_alone(
        rt,
        rt.alloc(),
        source,
        ingest,
        drawer,
        label,
        workers.count,
        &FreeGate,
    );
    Came {
        ending: ending_of(&report.end),
        games: u64::from(count_games(report.receipts.as_slice())),
        batches: report.receipts.len() as u64,
        refused: report.refused,
        journal: ingest.batches(),
    }
}
