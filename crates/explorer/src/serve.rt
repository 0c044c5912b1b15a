//! The command `serve`: a store is served at an address while files are imported into it.
ghost use Rattle.std.specs.Prelude.{◌≡◌, ◌<◌, ◌≤◌, ◌+◌, ◌++◌, [], length, string_bytes, vec_capacity, true, false, IfOk, IfSome};
ghost use Rattle.outside.specs.Stream.{Stream};
ghost use Rattle.disk_model.specs.Disk.{DiskState};
ghost use Rattle.explorer_model.specs.Journal.{IsSound};
ghost use Rattle.host.specs.Hosts.{ADisk, HandsDisk, HostState, IsOut};
ghost use Rattle.manifest.specs.Manifest.{HasJournal};
ghost use Rattle.published_index.specs.Cover.{journal_of};
ghost use Rattle.published_index.specs.Places.{all_parts};
ghost use Rattle.ingest_desk.specs.Stored.{journal};
ghost use Rattle.explorer.specs.Serve.Concluding.{Concludes, TellsLonger, cause};
ghost use Rattle.explorer.specs.Lines.{ending_of};
ghost use Rattle.explorer.specs.Serve.{Serves};
ghost use Rattle.explorer.specs.Serve.Serving.{IsPlaced, IsToldBy, lines_told, service_of};
ghost use Rattle.explorer.specs.World.{world};

mod cabinet;
mod listening;
mod returning;
mod serving;
mod workers;

use crate::fault::Fault;
use crate::opening::fault_of_opening;
use crate::order::Order;
use crate::report::write_lines;
use crate::serve::cabinet::Cabinet;
use crate::serve::listening::listening_line;
use crate::serve::serving::{Done, Outcome, Unserved, serve_files};
use crate::serve::workers::Worker;
use disk_model::Disk;
use host::Host;
use host::laws::what_is_handed_out_is_out;
use ingest_desk::{Ingest, Unnamed, open};
use outside::{Failed, Sink};
use published_index::Index;
use record_log::Back;
use std::alloc::{AllocError, Global};
use std::marker::Brand;
use std::sync::Wait;
use std::thread::Threads;

/// A drawer is cut into 2^32 parts, of which one stays with the index and one behind the desk.
const MOST_WORKERS: usize = 4_294_967_295;

/// Opens the store, asks for the files and the doors, serves until no connection is left, with the
/// openings that the book names, and gives all back.
pub fn serve<R: Wait + Threads + Sync, O: Sink, E: Sink, H: Host>(
    rt: &R,
    alloc: Global,
    order: Order,
    output: &mut O,
    errors: &mut E,
    host: &mut H,
) -> Result<(), Fault>
    ensures { (input : Stream) →
        let before = world input (O.sink output.old) (E.sink errors.old) (H.host host.old) in
        let after = world input (O.sink output.new) (E.sink errors.new) (H.host host.new) in
        Serves (service_of order) before after (ending_of result) }
{
    // law: a disk that was handed out is to be given back
    what_is_handed_out_is_out();
    let name = order.store.as_str();
    let Ok(disk) = host.disk(name) else {
        return Err(Fault::CannotOpen { name: order.store });
    };
    match open(rt, alloc, disk, order.workers.count, order.readers) {
        Ok(store) => serve_store::<R, O, E, H, Brand>(
            rt, alloc, order, output, errors, host, store,
        ),
        Err(back) => {
            let Back { disk, fault } = back;
            let failed = has_failed(&disk);
            host.close(name, disk);
            if failed {
                return Err(Fault::DiskFault);
            }
            Err(fault_of_opening(fault))
        }
    }
}

/// Serves a store that was opened, and gives its disk back.
fn serve_store<R: Wait + Threads + Sync, O: Sink, E: Sink, H: Host, J: Index + Send + Sync>(
    rt: &R,
    alloc: Global,
    order: Order,
    output: &mut O,
    errors: &mut E,
    host: &mut H,
    store: Unnamed<H::Disk>,
) -> Result<(), Fault>
    requires name { store.index.name ≡ J.name }
    requires readers { store.index.readers ≡ order.readers }
    requires sound { IsSound (journal_of store.index.list) }
    requires out { IsOut (ADisk (string_bytes order.store)) (H.host host.old) }
    ensures { (given : DiskState) (earlier : HostState) (input : Stream)
        → HandsDisk (string_bytes order.store) given earlier (H.host host.old)
        → IfSome given.content (HasJournal (journal_of store.index.list))
        → (H.Disk.disk store.manifest.disk).content ≡ given.content
        → (H.Disk.disk store.manifest.disk).faults ≡ given.faults →
        let before = world input (O.sink output.old) (E.sink errors.old) earlier in
        let after = world input (O.sink output.new) (E.sink errors.new) (H.host host.new) in
        Serves (service_of order) before after (ending_of result) }
{
    let name = order.store.as_str();
    let Ok(list) = room_for(alloc, &order) else {
        host.close(name, store.into_disk(rt));
        return Err(Fault::OutOfMemory);
    };
    let Ok(line) = listening_line(alloc, order.address.as_str()) else {
        list.destroy_empty();
        host.close(name, store.into_disk(rt));
        return Err(Fault::OutOfMemory);
    };
    let (ingest, passes, drawer) = match store.named::<J>(alloc) {
        Ok(named) => named,
        Err(store) => {
            list.destroy_empty();
            host.close(name, store.into_disk(rt));
            return Err(Fault::OutOfMemory);
        }
    };
    let cabinet = Cabinet { ingest, drawer };
    let (cabinet, outcome) = serve_files(
        rt, alloc, output, host, &order, &line, cabinet, passes, list,
    );
    let Cabinet {
        ingest,
        drawer: _drawer,
    } = cabinet;
    let disk = disk_of(rt, ingest);
    let failed = has_failed(&disk);
    host.close(name, disk);
    match outcome {
        Outcome::GivenUp(why) => Err(unserved_fault(order, why)),
        Outcome::Worked(done) => conclude(errors, done, failed),
    }
}

/// The fault by which a run ends that handed out no door.
fn unserved_fault(order: Order, why: Unserved) -> Fault
    requires { IsPlaced (service_of order) why }
    ensures { IsToldBy (service_of order) why result }
{
    match why {
        Unserved::NoFile { at } => {
            let mut files = order.files;
            Fault::CannotOpen {
                name: files.swap_remove(at),
            }
        }
        Unserved::NoAddress => Fault::CannotOpen {
            name: order.address,
        },
        Unserved::NoMemory => Fault::OutOfMemory,
    }
}

/// Ends the ingest, and gives the disk back.
fn disk_of<R: Wait, D: Disk, J: Index>(rt: &R, ingest: Ingest<D, J>) -> D
    ensures disk { result ≡ ingest.manifest.disk }
    ensures tells { TellsLonger (journal ingest) (D.disk result) }
{
    // What a crash may leave is told with the number of batches.
    let _batches = ingest.batches();
    ingest.into_disk(rt)
}

/// Whether a call of the disk failed.
fn has_failed<D: Disk>(disk: &D) -> bool
    ensures yes { result ≡ true → 0 < (D.disk disk.now).faults }
    ensures no { result ≡ false → (D.disk disk.now).faults ≡ 0 }
{
    disk.faults() > 0
}

/// An empty list with room for a worker for each file and each door, and one that merges. There are
/// fewer of them than parts of a drawer.
fn room_for<F, G, J: Index>(
    alloc: Global,
    order: &Order,
) -> Result<Vec<Worker<F, G, J>>, AllocError>
    ensures empty { IfOk result (λ list. list.items ≡ []) }
    ensures room { IfOk result (λ list.
        length order.now.files.items + order.now.readers + 1 ≤ vec_capacity list) }
    ensures few { IfOk result (λ list.
        length order.now.files.items + order.now.readers + 2 < all_parts) }
{
    let Some(count) = order.files.len().checked_add(order.readers + 1) else {
        return Err(AllocError);
    };
    if count >= MOST_WORKERS {
        return Err(AllocError);
    }
    Vec::with_capacity(alloc, count)
}

/// Reports what is refused of the files, and says how the run ends: by a fault of the store's disk,
/// else by the first fault of a worker, else by one of the sinks. Want of memory for the report goes
/// before those of the sinks alone.
fn conclude<E: Sink>(errors: &mut E, done: Done, failed: bool) -> Result<(), Fault>
    ensures { Concludes (lines_told done.lines) (cause failed done.first) done.listens
        (E.sink errors.old) (E.sink errors.new) (ending_of result) }
{
    let Done {
        first,
        lines,
        listens,
    } = done;
    let cause = cause_of(failed, first);
    let Ok(lines) = lines else {
        return Err(cause.unwrap_or(Fault::OutOfMemory));
    };
    let reported = write_lines(errors, lines.as_slice());
    if let Some(fault) = cause {
        return Err(fault);
    }
    if let Err(Failed) = listens {
        return Err(Fault::WriteFault);
    }
    match reported {
        Ok(()) => Ok(()),
        Err(Failed) => Err(Fault::WriteFault),
    }
}

/// The fault by which a run ends that served: that of the store's disk, else the first of a worker.
fn cause_of(failed: bool, first: Option<Fault>) -> Option<Fault>
    ensures { result ≡ cause failed first }
{
    if failed {
        return Some(Fault::DiskFault);
    }
    first
}
