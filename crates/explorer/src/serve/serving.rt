//! A store that was opened is served.
ghost use Rattle.std.specs.Prelude.{◌≡◌, ◌<◌, ◌≤◌, ◌+◌, ◌++◌, ◌∷◌, [], List, length, map, string_bytes, vec_len, vec_capacity, true, false, None, MatchOption, OnErr, OnOk};
ghost use Rattle.std.specs.List.{AllByRecursion, AllZip};
ghost use Rattle.explorer_model.specs.declared.archive.Batch.{Batch as ABatch};
ghost use Rattle.host.specs.Hosts.{GivesBack};
ghost use Rattle.outside.specs.Stream.{FailsToTake, Takes};
ghost use Rattle.published_index.specs.Places.{DrewEach, HasDrawn, all_parts};
ghost use Rattle.published_index.specs.States.{watching};
ghost use Rattle.ingest_desk.specs.Stored.{journal};
ghost use Rattle.explorer.specs.Serve.Serving.{AreOut, FilesServed, IsGivenUpSo, ListensSo, WorksOver, lines_told, service_of};
ghost use Rattle.explorer.specs.Serve.Workers.{FilesOut, FilesRefused, HasReaders, HasLent, IsFileOf};

use crate::fault::Fault;
use crate::order::Order;
use crate::serve::cabinet::Cabinet;
use crate::serve::listening::{Line, Told};
use crate::serve::returning::give_back;
use crate::serve::workers::{FileWork, ReaderWork, Worker, first_fault, report_lines, work_all};
use disk_model::Disk;
use explorer_model::fault::Stop;
use host::Host;
use outside::{Door, Failed, Sink, Source};
use published_index::{Index, Pass};
use session::DoorEnd;
use std::alloc::{AllocError, Global};
use std::sync::Wait;
use std::thread::Threads;

/// What became of files and doors that were asked for.
#[derive(Debug, Drop)]
pub enum Outcome {
    /// No door was handed out.
    GivenUp(Unserved),
    Worked(Done),
}

/// Why no door was handed out.
#[derive(Clone, Copy, Debug)]
pub enum Unserved {
    /// The file was refused whose name stands at this place.
    NoFile { at: usize },
    /// Doors to the address were refused.
    NoAddress,
    NoMemory,
}

/// What the workers came to.
#[derive(Debug, Drop)]
pub struct Done {
    /// The first fault.
    pub first: Option<Fault>,
    /// The lines of what is refused.
    pub lines: Result<Vec<u8>, AllocError>,
    /// Whether the address could be told.
    pub listens: Result<(), Failed>,
}

/// Asks for the files in their order, and puts a worker for each at the end of the list. It ends at
/// the first that is refused, and says whether none was.
pub fn open_files<H: Host, J: Index>(
    host: &mut H,
    names: &[String],
    cabinet: &mut Cabinet<H::Disk, J>,
    list: &mut Vec<Worker<H::File, H::Door, J>>,
) -> bool
    requires empty { list.old.items ≡ [] }
    requires parts { length names.now < cabinet.old.drawer.parts }
    requires room { length names.now ≤ vec_capacity list.old }
    ensures opened { result ≡ true → FilesOut H.File.source (map string_bytes names.now)
        list.new.items (H.host host.old) (H.host host.new) }
    ensures refused { result ≡ false → FilesRefused H.File.source (map string_bytes names.now)
        list.new.items (H.host host.old) (H.host host.new) }
    ensures few { result ≡ false → vec_len list.new < length names.now }
    ensures all { result ≡ true → vec_len list.new ≡ length names.now }
    ensures room { vec_capacity list.new ≡ vec_capacity list.old }
    ensures lent { HasLent (vec_len list.new) cabinet.old.drawer cabinet.new.drawer }
    ensures same { cabinet.new.ingest ≡ cabinet.old.ingest }
{
    for name in names {
        match host.file(name.as_str()) {
            Ok(source) => list.push_reserved(Worker::File(FileWork {
                source,
                drawer: cabinet.lend(),
                report: None,
            })),
            Err(Failed) => return false,
        }
    }
    true
}

/// Puts a worker for each door at the end of the list, each with a pass and a drawer, and one that
/// merges. The address was told.
pub fn with_readers<F: Source, G: Door, D: Disk, J: Index>(
    told: Told,
    cabinet: &mut Cabinet<D, J>,
    doors: Vec<G>,
    passes: Vec<Pass<J>>,
    list: Vec<Worker<F, G, J>>,
) -> Vec<Worker<F, G, J>>
    requires even { vec_len doors ≡ vec_len passes }
    requires room { vec_len list + vec_len doors + 1 ≤ vec_capacity list }
    requires parts { vec_len doors < cabinet.old.drawer.parts }
    ensures readers { (opening : List ABatch)
        → AllByRecursion (λ pass. pass ≡ watching opening) passes.items
        → HasReaders G.door opening (map G.door doors.items) list.items result.items }
    ensures lent { HasLent (vec_len doors) cabinet.old.drawer cabinet.new.drawer }
    ensures same { cabinet.new.ingest ≡ cabinet.old.ingest }
{
    let mut doors = doors;
    let mut passes = passes;
    let mut list = list;
    while let Some(door) = first_of(&mut doors) {
        let Some(pass) = passes.pop() else {
            unreachable!();
        };
        list.push_reserved(Worker::Reader(ReaderWork {
            door,
            pass,
            drawer: Some(cabinet.lend()),
            end: DoorEnd::Whole,
            told,
        }));
    }
    doors.destroy_empty();
    list.push_reserved(Worker::Merger);
    list
}

/// Takes the first element off a list.
fn first_of<T>(list: &mut Vec<T>) -> Option<T>
    ensures { MatchOption result ((list.old.items ≡ []) × (list.new.items ≡ []))
        (λ first. list.old.items ≡ first ∷ list.new.items) }
{
    if list.is_empty() {
        return None;
    }
    Some(list.remove(0))
}

/// Asks for the files and then for the doors, serves the doors, and gives all back.
pub fn serve_files<R: Wait + Threads + Sync, O: Sink, H: Host, J: Index + Send + Sync>(
    rt: &R,
    alloc: Global,
    output: &mut O,
    host: &mut H,
    order: &Order,
    line: &Line,
    cabinet: Cabinet<H::Disk, J>,
    passes: Vec<Pass<J>>,
    list: Vec<Worker<H::File, H::Door, J>>,
) -> (Cabinet<H::Disk, J>, Outcome)
    requires passes { vec_len passes ≡ order.now.readers }
    requires opening { AllByRecursion (λ pass. pass ≡ watching (journal cabinet.ingest))
        passes.items }
    requires drawn { HasDrawn (length (journal cabinet.ingest)) cabinet.drawer }
    requires parts { length order.now.files.items + order.now.readers < cabinet.drawer.parts }
    requires empty { list.items ≡ [] }
    requires room { length order.now.files.items + order.now.readers + 1 ≤ vec_capacity list }
    ensures served { FilesServed (service_of order.now) (journal cabinet.ingest)
        (journal result.0.ingest) result.1 (H.host host.old) (H.host host.new) }
    ensures kept { IsGivenUpSo result.1 → result.0.ingest ≡ cabinet.ingest }
    ensures written { ListensSo line.now.bytes.items result.1 (O.sink output.old) (O.sink output.new) }
    ensures gives_back { GivesBack (H.host host.old) (H.host host.new) }
{
    let mut list = list;
    let mut cabinet = cabinet;
    let names = order.files.as_slice();
    if !open_files(host, names, &mut cabinet, &mut list) {
        let at = list.len();
        give_back(host, names, &mut cabinet, list);
        return (cabinet, Outcome::GivenUp(Unserved::NoFile { at }));
    }
    let stop = match host.doors(order.address.as_str(), order.readers, order.connections) {
        Ok(doors) => {
            let (cabinet, done) = serve_doors(
                rt, alloc, output, host, order, line, cabinet, doors, passes, list,
            );
            return (cabinet, Outcome::Worked(done));
        }
        Err(stop) => stop,
    };
    give_back(host, names, &mut cabinet, list);
    match stop {
        Stop::Fault(Failed) => (cabinet, Outcome::GivenUp(Unserved::NoAddress)),
        Stop::OutOfMemory => (cabinet, Outcome::GivenUp(Unserved::NoMemory)),
    }
}

/// Tells the address, serves the doors while the files are imported, and gives all back.
fn serve_doors<R: Wait + Threads + Sync, O: Sink, H: Host, J: Index + Send + Sync>(
    rt: &R,
    alloc: Global,
    output: &mut O,
    host: &mut H,
    order: &Order,
    line: &Line,
    cabinet: Cabinet<H::Disk, J>,
    doors: Vec<H::Door>,
    passes: Vec<Pass<J>>,
    list: Vec<Worker<H::File, H::Door, J>>,
) -> (Cabinet<H::Disk, J>, Done)
    requires some { 1 ≤ vec_len doors }
    requires even { vec_len doors ≡ vec_len passes }
    requires room { vec_len list + vec_len doors + 1 ≤ vec_capacity list }
    requires files { AllZip (IsFileOf H.File.source (H.host host.old))
        (map string_bytes order.now.files.items) list.items }
    requires out { AreOut (map string_bytes order.now.files.items) (vec_len doors)
        (H.host host.old) }
    requires opening { AllByRecursion (λ pass. pass ≡ watching (journal cabinet.ingest))
        passes.items }
    requires drawn { DrewEach (length (journal cabinet.ingest)) cabinet.drawer }
    requires parts { cabinet.drawer.parts + length order.now.files.items + 1 ≡ all_parts }
    requires more { vec_len doors < cabinet.drawer.parts }
    ensures over { WorksOver order.now.book (map string_bytes order.now.files.items)
        (journal cabinet.ingest) (journal result.0.ingest) (map H.Door.door doors.items)
        result.1.first
        (lines_told result.1.lines) (H.host host.old) (H.host host.new) }
    ensures told { OnOk result.1.listens
        (Takes line.now.bytes.items (O.sink output.old) (O.sink output.new)) }
    ensures untold { OnErr result.1.listens
        (FailsToTake line.now.bytes.items (O.sink output.old) (O.sink output.new)) }
{
    let told = Told::tell(output, line);
    let mut cabinet = cabinet;
    let list = with_readers(told, &mut cabinet, doors, passes, list);
    let Cabinet { ingest, drawer } = cabinet;
    let (ingest, list) = work_all(rt, alloc, ingest, list, order);
    let mut cabinet = Cabinet { ingest, drawer };
    let first = first_fault(list.as_slice());
    let names = order.files.as_slice();
    let lines = report_lines(alloc, names, list.as_slice());
    give_back(host, names, &mut cabinet, list);
    cabinet.settle(rt);
    let done = Done {
        first,
        lines,
        listens: told.result(),
    };
    (cabinet, done)
}
