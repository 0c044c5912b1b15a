//! A stream on its way into a store.
ghost use Rattle.std.specs.Prelude.{◌≡◌, ◌≤◌, Some, [], length};
ghost use Rattle.explorer_model.specs.Labels.{no_label};
ghost use Rattle.explorer_model.specs.Wire.{body_limit};
ghost use Rattle.ingest_desk.specs.Drawn.{DrawsFor, most_untold};
ghost use Rattle.ingest_desk.specs.Importers.{ending_of};
ghost use Rattle.import_run.specs.Committing.{Known, store_of};
ghost use Rattle.import_run.specs.EndingBeside.{ImportsBeside};
ghost use Rattle.import_run.specs.Taking.{ComesQuietly, ComesQuietlyBeside, Imports};

use crate::committer::Committer;
use crate::open_import::OpenImport;
use crate::underway::Underway;
use explorer_model::fault::Stop;
use explorer_model::label::Label;
use ingest_desk::{End, Report};
use outside::{Gate, Source};
use pgn_cut::cutter::Cutter;
use published_index::Index;
use side_by_side::Workers;
use std::alloc::Global;
use std::sync::Wait;
use std::thread::Threads;

/// Reads the stream, and stores or refuses each cut of its groups. What is stored has the label.
pub fn import_stream<S: Source, C: Committer<J>, J: Index, G: Gate, R: Wait + Threads + Sync>(
    rt: &R,
    alloc: Global,
    source: &mut S,
    committer: &mut C,
    label: Label,
    workers: Workers,
    gate: &G,
) -> Report<J>
    ensures told { (start : Known) → C.told committer.old ≡ Some (store_of start)
        → Imports label start (S.source source.old) (S.source source.new) result
        (C.told committer.new) }
    ensures beside { ImportsBeside label (S.source source.old) (S.source source.new) result }
    ensures drawn { DrawsFor (most_untold (ending_of result.end)) result.receipts.items
        (C.drawing committer.old) (C.drawing committer.new) }
    ensures since { C.since committer.old committer.new }
{
    let mut state = Underway::new(alloc, label);
    'rounds: loop {
        match state.end(alloc, source) {
            Ok(None) => {}
            Ok(Some(over)) => return state.report(over),
            Err(_) => return state.import.report(End::OutOfMemory),
        }
        match state.round(rt, alloc, source, committer, workers, gate) {
            Ok(()) => {}
            Err(Stop::Fault(stopped)) => return state.import.report_stop(stopped),
            Err(Stop::OutOfMemory) => return state.import.report(End::OutOfMemory),
        }
    }
}

/// Stores or refuses each text of bytes that are all at hand. What is stored has the empty label.
pub fn import_bytes<C: Committer<J>, J: Index, G: Gate, R: Wait + Threads + Sync>(
    rt: &R,
    alloc: Global,
    bytes: &[u8],
    committer: &mut C,
    workers: Workers,
    gate: &G,
) -> Report<J>
    requires few { length bytes.now ≤ body_limit }
    ensures told { (start : Known) → C.told committer.old ≡ Some (store_of start)
        → ComesQuietly no_label start bytes.now (Some []) result (C.told committer.new) }
    ensures beside { ComesQuietlyBeside no_label bytes.now (Some []) result }
    ensures drawn { DrawsFor (most_untold (ending_of result.end)) result.receipts.items
        (C.drawing committer.old) (C.drawing committer.new) }
    ensures since { C.since committer.old committer.new }
{
    let mut cutter = Cutter::new();
    let mut import = OpenImport::new(alloc, Label::none());
    match import.feed(rt, alloc, committer, &mut cutter, bytes, workers, gate) {
        Ok(()) => import.end(rt, alloc, committer, cutter, workers, gate),
        Err(Stop::Fault(stopped)) => import.report_stop(stopped),
        Err(Stop::OutOfMemory) => import.report(End::OutOfMemory),
    }
}
