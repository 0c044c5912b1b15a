//! The workers of a store that is served: files are imported, the connections of doors are served,
//! and what is published is merged.
ghost use Rattle.std.specs.Prelude.{◌≡◌, ◌≤◌, ◌+◌, ◌++◌, [], length, map, string_bytes, IfOk, OnOk};
ghost use Rattle.std.specs.List.{All, AllZip};
ghost use Rattle.explorer.specs.Serve.Workers.{HasDrawer, Works, fault_in, fault_of, lines_in, lines_of};

use crate::fault::Fault;
use crate::importing::import_fault;
use crate::order::Order;
use crate::report::push_file_lines;
use crate::serve::listening::Told;
use disk_model::Disk;
use explorer_model::label::Label;
use import_run::{DeskHandle, drain, ending_of, import};
use ingest_desk::{Desk, Ingest, MergeDesk, Report};
use outside::{Door, FreeGate, Source};
use player_index::PlayerIndex;
use published_index::{Drawer, Index, Pass};
use session::{DoorEnd, serve_door};
use std::alloc::{AllocError, Global};
use std::sync::{Mutex, Wait};
use std::thread;
use std::thread::Threads;

/// A file that is imported, the drawer by which that is done, and what it came to.
pub struct FileWork<F, J: Index> {
    pub source: F,
    pub drawer: Drawer<J>,
    /// None until it was imported.
    pub report: Option<Report<J>>,
}

/// A door, the pass and the drawer by which its connections are served, and how that ended.
pub struct ReaderWork<G, J: Index> {
    pub door: G,
    pub pass: Pass<J>,
    /// None while they are served.
    pub drawer: Option<Drawer<J>>,
    pub end: DoorEnd,
    /// That the address of the door was told, or could not be.
    pub told: Told,
}

/// What runs beside the others while a store is served.
pub enum Worker<F, G, J: Index> {
    File(FileWork<F, J>),
    Reader(ReaderWork<G, J>),
    /// Neighbours of the published list that are due become one.
    Merger,
}

impl<F: Source, G: Door, J: Index> Worker<F, G, J> {
    /// Does the work. It may wait for a peer, and for the other workers.
    fn work<R: Wait + Threads + Sync, D: Disk>(
        &mut self,
        rt: &R,
        alloc: Global,
        desk: &Desk<D, J>,
        order: &Order,
    )
        requires drawer { HasDrawer self.old }
        ensures { Works order.now.book F.source G.door self.old self.new }
    {
        match self {
            Worker::File(file) => {
                let report = import(
                    rt,
                    alloc,
                    &mut file.source,
                    desk,
                    &mut file.drawer,
                    Label::none(),
                    order.workers.count,
                    &FreeGate,
                );
                file.report = Some(report);
            }
            Worker::Reader(reader) => {
                let ReaderWork {
                    door,
                    pass,
                    drawer,
                    end,
                    told: _,
                } = reader;
                let Some(mine) = drawer.take() else {
                    unreachable!()
                };
                let mut importer = DeskHandle::new(desk, mine, order.workers.count);
                let mut players = PlayerIndex::new(alloc);
                *end = serve_door(
                    rt,
                    alloc,
                    door,
                    pass,
                    &mut importer,
                    &order.book,
                    &mut players,
                );
                *drawer = Some(importer.into_drawer());
            }
            Worker::Merger => {
                let _ = drain(rt, alloc, &MergeDesk::of(desk), order.workers.count);
            }
        }
    }
}

impl<F, G, J: Index> Worker<F, G, J> {
    /// Why the work did not come to its end.
    fn fault(&self) -> Option<Fault>
        ensures { result ≡ fault_of self.now }
    {
        match self {
            Worker::File(file) => match &file.report {
                // That the disk failed is told by the disk, and goes before this.
                Some(report) => import_fault(ending_of(&report.end), Fault::OutOfMemory),
                None => Some(Fault::OutOfMemory),
            },
            Worker::Reader(reader) => match reader.end {
                DoorEnd::Whole => None,
                DoorEnd::AcceptFault => Some(Fault::CannotAccept),
            },
            Worker::Merger => None,
        }
    }
}

/// The fault of the first worker that has one.
pub fn first_fault<F, G, J: Index>(workers: &[Worker<F, G, J>]) -> Option<Fault>
    ensures { result ≡ fault_in workers.now }
{
    for worker in workers {
        if let Some(fault) = worker.fault() {
            return Some(fault);
        }
    }
    None
}

/// The report lines of all files, of which the names are these.
pub fn report_lines<F, G, J: Index>(
    alloc: Global,
    names: &[String],
    workers: &[Worker<F, G, J>],
) -> Result<Vec<u8>, AllocError>
    requires { length names.now ≤ length workers.now }
    ensures { IfOk result (λ lines.
        lines.items ≡ lines_in (map string_bytes names.now) workers.now) }
{
    let mut lines = Vec::new(alloc);
    for at in 0..names.len() {
        push_lines(alloc, &mut lines, names[at].as_str(), &workers[at])?;
    }
    Ok(lines)
}

/// Puts the report lines of a worker's file of this name behind others.
fn push_lines<F, G, J: Index>(
    alloc: Global,
    lines: &mut Vec<u8>,
    name: &str,
    worker: &Worker<F, G, J>,
) -> Result<(), AllocError>
    ensures { OnOk result (lines.new.items ≡ lines.old.items ++ lines_of name.now worker.now) }
{
    if let Worker::File(file) = worker {
        if let Some(report) = &file.report {
            push_file_lines(alloc, lines, name, report.refused.as_slice())?;
        }
    }
    Ok(())
}

/// Lends the ingest to all workers, and takes it back once they have returned. Of the ingest that
/// comes back its type alone is known.
pub fn work_all<
    R: Wait + Threads + Sync,
    F: Source + Send,
    G: Door + Send,
    D: Disk + Send,
    J: Index + Send + Sync,
>(
    rt: &R,
    alloc: Global,
    ingest: Ingest<D, J>,
    list: Vec<Worker<F, G, J>>,
    order: &Order,
) -> (Ingest<D, J>, Vec<Worker<F, G, J>>)
    requires drawers { All HasDrawer list.items }
    ensures { AllZip (Works order.now.book F.source G.door) list.items result.1.items }
{
    let mut list = list;
    let desk = Mutex::new(ingest);
    work_each(rt, alloc, &desk, order, list.as_mut_slice());
    (desk.into_inner(), list)
}

/// Lets each worker do its work, in a thread of its own where one can be made.
fn work_each<
    R: Wait + Threads + Sync,
    F: Source + Send,
    G: Door + Send,
    D: Disk + Send,
    J: Index + Send + Sync,
>(rt: &R, alloc: Global, desk: &Desk<D, J>, order: &Order, list: &mut [Worker<F, G, J>])
    requires drawers { All HasDrawer list.old }
    ensures { AllZip (Works order.now.book F.source G.door) list.old list.new }
{
    let threads = list.len().max(1);
    thread::for_each_mut(
        rt,
        list,
        threads,
        &|_, worker: &mut Worker<F, G, J>|
            requires { HasDrawer worker.old }
            ensures { Works order.entry.now.book F.source G.door worker.old worker.new }
        { worker.work(rt, alloc, desk, order) },
    );
}
