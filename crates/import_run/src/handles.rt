//! Importers of bodies: a handle on a desk, and an ingest of one's own.
ghost use Rattle.std.specs.Prelude.{◌≡◌, ◌<◌, ◌≤◌, ◌^◌, ◌∷◌, [], None, Some, false, length, option_map};
ghost use Rattle.std.specs.Thread.{IsSync};
ghost use Rattle.explorer_model.specs.Cuts.{cuts};
ghost use Rattle.explorer_model.specs.Labels.{no_label};
ghost use Rattle.explorer_model.specs.Wire.{body_limit};
ghost use Rattle.ingest_desk.specs.Drawn.{DrawsFor, most_untold};
ghost use Rattle.ingest_desk.specs.Importers.{CountsRose, EndsInMemory, TellsAll, call_of, ending_of as ending_by};
ghost use Rattle.ingest_desk.specs.Reporting.{Reports, games_of};
ghost use Rattle.import_run.specs.Counting.{counts_of};
ghost use Rattle.import_run.specs.Determined.{ImportsBody};
ghost use Rattle.import_run.specs.Upkeep.{KeepsUp};

use crate::alone::LoneSeat;
use crate::desk::Seat;
use crate::ends::{EndCounts, ending_of};
use crate::stream::import_bytes;
use disk_model::Disk;
use explorer_model::archive::Bytes;
use ingest_desk::{Desk, ImportCall, Importer, Ingest, Report, count_games};
use outside::FreeGate;
use published_index::{Drawer, Index};
use side_by_side::Workers;
use std::alloc::Global;
use std::sync::Wait;
use std::thread::Threads;

/// An importer at a desk that others use too.
#[derive(Drop)]
pub struct DeskHandle<'a, D: Disk, J: Index> {
    desk: &'a Desk<D, J>,
    drawer: Drawer<J>,
    workers: Workers,
    counts: EndCounts,
}

impl<'a, D: Disk, J: Index> DeskHandle<'a, D, J> {
    /// A handle that draws places by the drawer, and replays and merges on so many workers, 1 to 16.
    pub fn new(desk: &'a Desk<D, J>, drawer: Drawer<J>, workers: usize) -> Self
        requires some_workers { 1 ≤ workers }
        requires few_workers { workers ≤ 16 }
        ensures counts { counts_of result.counts
            ≡ record { disk_faults = 0; closed = 0; full = 0 } }
        ensures drawer { result.drawer ≡ drawer }
    {
        DeskHandle {
            desk,
            drawer,
            workers: Workers { count: workers },
            counts: EndCounts::new(),
        }
    }

    /// Ends the handle, and gives its drawer back.
    pub fn into_drawer(self) -> Drawer<J>
        ensures { result ≡ self.entry.drawer }
    {
        let DeskHandle {
            desk: _desk,
            drawer,
            workers: _workers,
            counts: _counts,
        } = self;
        drawer
    }
}

impl<'a, D: Disk, J: Index> Importer<J> for DeskHandle<'a, D, J> {
    ghost importer = { λ handle. record {
      counts = counts_of handle.counts;
      calls = None;
      drawing = handle.drawer;
    } };

    fn import<R: Wait + Threads + Sync>(
        &mut self,
        rt: &R,
        alloc: Global,
        body: &[u8],
    ) -> Report<J> {
        let mut seat = Seat {
            desk: self.desk,
            drawer: &mut self.drawer,
        };
        let report = import_bytes(rt, alloc, body, &mut seat, self.workers, &FreeGate);
        self.counts.add(&report.end);
        report
    }
}

/// An importer over an ingest that nobody else uses. It tells its calls, until it finds no memory to
/// keep one. It is not `Drop`: end it by `into_ingest`.
pub struct OwnIngest<D: Disk, J: Index> {
    ingest: Ingest<D, J>,
    drawer: Drawer<J>,
    workers: Workers,
    counts: EndCounts,
    calls: Option<Vec<ImportCall>>,
    lacked: bool,
}

impl<D: Disk, J: Index> OwnIngest<D, J> {
    /// An importer that replays and merges on so many workers, 1 to 16.
    pub fn new(alloc: Global, ingest: Ingest<D, J>, drawer: Drawer<J>, workers: usize) -> Self
        requires some_workers { 1 ≤ workers }
        requires few_workers { workers ≤ 16 }
        ensures counts { counts_of result.counts
            ≡ record { disk_faults = 0; closed = 0; full = 0 } }
        ensures calls { option_map (λ calls. calls.items) result.calls ≡ Some [] }
        ensures ingest { result.ingest ≡ ingest }
        ensures drawer { result.drawer ≡ drawer }
        ensures lacked { result.lacked ≡ false }
    {
        OwnIngest {
            ingest,
            drawer,
            workers: Workers { count: workers },
            counts: EndCounts::new(),
            calls: Some(Vec::new(alloc)),
            lacked: false,
        }
    }

    /// The calls so far; none where one could not be kept.
    pub fn calls(&self) -> Option<&[ImportCall]>
        ensures { option_map (λ calls. calls.now) result
            ≡ option_map (λ calls. calls.items) self.now.calls }
    {
        match &self.calls {
            Some(calls) => Some(calls.as_slice()),
            None => None,
        }
    }

    /// Whether memory was wanting for a batch, or behind one for neighbours that were due.
    pub fn has_lacked(&self) -> bool
        ensures { result ≡ self.now.lacked }
    {
        self.lacked
    }

    /// The ingest and its drawer, taken out.
    pub fn into_ingest(self) -> (Ingest<D, J>, Drawer<J>)
        ensures ingest { result.0 ≡ self.ingest }
        ensures drawer { result.1 ≡ self.drawer }
    {
        let OwnIngest {
            ingest,
            drawer,
            workers: _workers,
            counts: _counts,
            calls: _calls,
            lacked: _lacked,
        } = self;
        (ingest, drawer)
    }
}

impl<D: Disk, J: Index> Importer<J> for OwnIngest<D, J> {
    ghost importer = { λ own. record {
      counts = counts_of own.counts;
      calls = option_map (λ calls. calls.items) own.calls;
      drawing = own.drawer;
    } };

    fn import<R: Wait + Threads + Sync>(&mut self, rt: &R, alloc: Global, body: &[u8]) -> Report<J>
        requires shares { IsSync R.row }
        requires few { length body.now ≤ body_limit }
        ensures reports { Reports no_label (cuts body.now) result }
        ensures in_memory { EndsInMemory (ending_by result.end) }
        ensures few { games_of result.receipts.items < 2 ^ 32 }
        ensures counts { CountsRose (ending_by result.end)
            (counts_of self.old.counts) (counts_of self.new.counts) }
        ensures told { TellsAll (option_map (λ calls. calls.items) self.old.calls)
            (option_map (λ calls. calls.items) self.new.calls) (call_of body.now result ∷ []) }
        ensures drawn { DrawsFor (most_untold (ending_by result.end)) result.receipts.items
            self.old.drawer self.new.drawer }

        ensures alone { ImportsBody D.disk D.left_since body.now self.old.ingest self.new.ingest
            result }
        ensures follows { self.new.lacked ≡ false → self.new.ingest.manifest.fault ≡ None
            → KeepsUp self.old.lacked self.old.ingest self.new.ingest }
    {
        let _before = self.ingest.batches();
        let mut seat = LoneSeat {
            ingest: &mut self.ingest,
            drawer: &mut self.drawer,
            lacked: self.lacked,
        };
        let report = import_bytes(rt, alloc, body, &mut seat, self.workers, &FreeGate);
        let _after = seat.ingest.batches();
        self.lacked = seat.lacked;
        self.counts.add(&report.end);
        let calls = self.calls.take();
        self.calls = with_call(alloc, calls, body, &report);
        report
    }
}

/// The calls with one more, while there is memory for it.
fn with_call<J: Index>(
    alloc: Global,
    calls: Option<Vec<ImportCall>>,
    body: &[u8],
    report: &Report<J>,
) -> Option<Vec<ImportCall>>
    requires { games_of report.now.receipts.items < 2 ^ 32 }
    ensures { TellsAll (option_map (λ calls. calls.items) calls)
        (option_map (λ calls. calls.items) result) (call_of body.now report.now ∷ []) }
{
    let mut calls = calls?;
    let body = body.to_vec(alloc).ok()?;
    let call = ImportCall {
        body: Bytes::from_vec(body),
        ending: ending_of(&report.end),
        games: count_games(report.receipts.as_slice()),
    };
    calls.push(call).ok()?;
    Some(calls)
}
