//! The command `query` with a scratch file: answers a query over a store whose rows stand there.
ghost use Rattle.std.specs.Prelude.{◌≡◌, ◌<◌, ◌≤◌, [], length, option_map, string_bytes};
ghost use Rattle.explorer_model.specs.Chess.{IsValid};
ghost use Rattle.outside.specs.Stream.{Stream};
ghost use Rattle.spill_blobs.specs.Sets.{HasJust, set_bytes};
ghost use Rattle.explorer.specs.Faults.{fault_of_spilling};
ghost use Rattle.explorer.specs.Lines.{ending_of};
ghost use Rattle.explorer.specs.Query.Spilled.{FirstSpillCause, ReadsThrough, SpillsBy, SpillsTo};
ghost use Rattle.explorer.specs.Query.Store.{QueriesBy};
ghost use Rattle.explorer.specs.Stores.{IsSized};
ghost use Rattle.explorer.specs.World.{world};
ghost use Rattle.session.specs.Naming.{IsPlayed};

use crate::answer::line_of;
use crate::fault::Fault;
use crate::opening::{cause_of, fault_of_opening};
use crate::openings::book_of;
use crate::order::SpillOrder;
use answer_json::laws::sound_answers_are_plain;
use disk_model::Disk;
use explorer_model::fault::Stop;
use explorer_model::query::Query;
use host::Host;
use host::laws::what_is_handed_out_is_out;
use ingest_desk::{SpillOpenFault, open_spilled};
use lookup::look_through;
use opening_names::Book;
use outside::{Port, Sink};
use query_params::laws::queries_play_legal_moves;
use record_log::{Back, OpenFault};
use segment_blocks::Steps;
use side_by_side::Workers;
use spill_blobs::{PortFault, SpillSet};
use std::alloc::{AllocError, Global};
use std::marker::Brand;
use std::sync::Wait;
use std::sync::ledger::{Blank, Ledger};
use std::thread::Threads;

/// Reads the query and then the file of openings, where one of this name is given, and answers the
/// query over the store by rows in the scratch file.
pub fn query_spilled<R: AllocGlobal + Wait + Threads + Sync, O: Sink, H: Host>(
    rt: &R,
    order: SpillOrder,
    query_text: &[u8],
    openings: Option<String>,
    output: &mut O,
    host: &mut H,
) -> Result<(), Fault>
    ensures { (input errors : Stream) →
        let before = world input (O.sink output.old) errors (H.host host.old) in
        let after = world input (O.sink output.new) errors (H.host host.new) in
        QueriesBy (SpillsBy (string_bytes order.store) (string_bytes order.spill))
        query_text.now (option_map string_bytes openings) before after (ending_of result) }
{
    // law: a query plays legal moves, which lead to the position asked for
    queries_play_legal_moves();
    let query = match query_params::query(rt.alloc(), query_text) {
        Ok(query) => query,
        Err(stop) => return Err(Fault::from(stop)),
    };
    let book = match book_of(rt.alloc(), openings, host) {
        Ok(book) => book,
        Err(fault) => return Err(fault),
    };
    spill_by(rt, order, &query, &book, output, host)
}

/// Asks for the store and then for the scratch file, and prints the answer over the store's games,
/// with the openings that the book names. Both are given back, the scratch file first.
fn spill_by<R: AllocGlobal + Wait + Threads + Sync, O: Sink, H: Host>(
    rt: &R,
    order: SpillOrder,
    query: &Query,
    book: &Book,
    output: &mut O,
    host: &mut H,
) -> Result<(), Fault>
    requires played { IsPlayed query.now }
    requires valid { IsValid query.now.at }
    requires top { query.now.top ≤ 4 }
    requires recent { query.now.recent ≤ 4 }
    ensures { (input errors : Stream) →
        let before = world input (O.sink output.old) errors (H.host host.old) in
        let after = world input (O.sink output.new) errors (H.host host.new) in
        SpillsBy (string_bytes order.store) (string_bytes order.spill) query.now book.now
        before after (ending_of result) }
{
    // law: what was handed out is to be given back
    what_is_handed_out_is_out();
    let Ok(disk) = host.disk(order.store.as_str()) else {
        return Err(Fault::CannotOpen { name: order.store });
    };
    let Ok(mut port) = host.port(order.spill.as_str()) else {
        host.close(order.store.as_str(), disk);
        return Err(Fault::CannotOpen { name: order.spill });
    };
    let Spilled { disk, line } = spill_at(rt, disk, order.workers, query, book, &mut port);
    host.close_port(order.spill.as_str(), port);
    host.close(order.store.as_str(), disk);
    match line {
        Ok(line) => match output.write(line.as_slice()) {
            Ok(()) => Ok(()),
            Err(_) => Err(Fault::WriteFault),
        },
        Err(fault) => Err(fault_of_spilling(fault)),
    }
}

/// A disk that is given back, and the line that answers the query over its store.
struct Spilled<D> {
    disk: D,
    line: Result<Vec<u8>, SpillOpenFault>,
}

/// Opens the store on a disk through a scratch file, and answers the query by the rows there.
fn spill_at<R: AllocGlobal + Wait + Threads + Sync, D: Disk, P: Port>(
    rt: &R,
    disk: D,
    workers: Workers,
    query: &Query,
    book: &Book,
    port: &mut P,
) -> Spilled<D>
    requires played { IsPlayed query.now }
    requires valid { IsValid query.now.at }
    requires top { query.now.top ≤ 4 }
    requires recent { query.now.recent ≤ 4 }
    requires empty { HasJust (P.port port.old) [] }
    ensures sized { IsSized (D.disk disk) }
    ensures spills { SpillsTo book.now query.now (D.disk disk) (D.disk result.disk)
        (P.port port.old) (P.port port.new) result.line }
{
    let before = disk.faults();
    match open_spilled(rt, rt.alloc(), disk, workers.count, port) {
        Ok((disk, set)) => Spilled {
            disk,
            line: line_by::<Brand, P>(rt.alloc(), &set, query, book, port, Blank::new(1)),
        },
        Err(back) => {
            let Back { disk, fault } = back;
            let line = Err(spill_cause_of(before, disk.faults(), fault));
            Spilled { disk, line }
        }
    }
}

/// Why a store is not opened through a scratch file, where so many calls of its disk had failed
/// before and so many have after: one of them failed, or else what was found.
fn spill_cause_of(before: u64, after: u64, fault: SpillOpenFault) -> SpillOpenFault
    ensures { FirstSpillCause before after fault result }
{
    match fault {
        SpillOpenFault::Store(fault) => SpillOpenFault::Store(cause_of(before, after, fault)),
        SpillOpenFault::Port(fault) => SpillOpenFault::Port(fault),
    }
}

/// The line that answers the query by the rows of the set, where no steps are counted.
fn line_by<L: Ledger, P: Port>(
    alloc: Global,
    set: &SpillSet,
    query: &Query,
    book: &Book,
    port: &mut P,
    blank: Blank,
) -> Result<Vec<u8>, SpillOpenFault>
    requires played { IsPlayed query.now }
    requires valid { IsValid query.now.at }
    requires top { query.now.top ≤ 4 }
    requires recent { query.now.recent ≤ 4 }
    requires size { length (set_bytes set.now) ≤ (P.port port.old).size }
    requires name { blank.name ≡ L.name }
    requires parts { blank.parts ≡ L.parts }
    requires some { 0 < L.parts }
    ensures { ReadsThrough book.now query.now set.now (P.port port.old) (P.port port.new) result }
{
    // law: an answer of legal moves in SAN and of games with sound tags is written as plain JSON
    sound_answers_are_plain();
    let mut steps = Steps::<L>::new(blank);
    let found = match look_through(alloc, set, query, port, &mut steps) {
        Ok(found) => found,
        Err(Stop::Fault(fault)) => return Err(SpillOpenFault::Port(fault)),
        Err(Stop::OutOfMemory) => return Err(SpillOpenFault::Store(OpenFault::OutOfMemory)),
    };
    match line_of(alloc, book, query, &found) {
        Ok(line) => Ok(line),
        Err(AllocError) => Err(SpillOpenFault::Store(OpenFault::OutOfMemory)),
    }
}

/// Why there is no answer through a scratch file, as a run tells it.
fn fault_of_spilling(fault: SpillOpenFault) -> Fault
    ensures { result ≡ fault_of_spilling fault }
{
    match fault {
        SpillOpenFault::Store(fault) => fault_of_opening(fault),
        SpillOpenFault::Port(PortFault::ReadFault { .. } | PortFault::WriteFault { .. }) => {
            Fault::SpillFault
        }
        SpillOpenFault::Port(PortFault::Damaged { part }) => Fault::SpillDamaged { part },
    }
}
