//! Imports into the store of a desk.
ghost use Rattle.std.specs.Prelude.{◌≤◌};
ghost use Rattle.ingest_desk.specs.Drawn.{DrawsFor, most_untold};
ghost use Rattle.ingest_desk.specs.Importers.{ending_of};
ghost use Rattle.import_run.specs.EndingBeside.{ImportsBeside};

use crate::desk::Seat;
use crate::stream::import_stream;
use disk_model::Disk;
use explorer_model::label::Label;
use ingest_desk::{Desk, Report};
use outside::{Gate, Source};
use published_index::{Drawer, Index};
use side_by_side::Workers;
use std::alloc::Global;
use std::sync::Wait;
use std::thread::Threads;

/// Imports the texts of a source under the label into the store of a desk, beside all others that use
/// it. It waits for the lock at each of its steps. After each commit it merges one job, without the
/// lock.
pub fn import<S: Source, D: Disk, J: Index, G: Gate, R: Wait + Threads + Sync>(
    rt: &R,
    alloc: Global,
    source: &mut S,
    desk: &Desk<D, J>,
    mine: &mut Drawer<J>,
    label: Label,
    workers: usize,
    gate: &G,
) -> Report<J>
    requires some_workers { 1 ≤ workers }
    requires few_workers { workers ≤ 16 }
    ensures imports { ImportsBeside label (S.source source.old) (S.source source.new) result }
    ensures drawn { DrawsFor (most_untold (ending_of result.end)) result.receipts.items
        mine.old mine.new }
{
    let workers = Workers { count: workers };
    let mut seat = Seat {
        desk,
        drawer: &mut *mine,
    };
    import_stream(rt, alloc, source, &mut seat, label, workers, gate)
}
