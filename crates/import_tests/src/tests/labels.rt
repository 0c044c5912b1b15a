//! The labels of batches that imports and bodies store.
ghost use Rattle.std.specs.Prelude.{◌≡◌, ◌<◌};

use super::{games, name_ingest, new_store};
use disk_model::MemDisk;
use explorer_model::archive::Batch;
use explorer_model::label::Label;
use import_run::{DeskHandle, import, import_alone};
use ingest_desk::{Desk, ImportEnding, Importer, Ingest, Unnamed};
use outside::{FreeGate, MemSource};
use published_index::{Drawer, Index, SharedSegment};
use segment_blocks::{Segment, Steps};
use std::alloc::Global;
use std::marker::Brand;
use std::process::Abort;
use std::sync::ledger::{Blank, Ledger};
use std::sync::{Mutex, MutexGuard, Wait};
use std::test::Fail;
use std::thread::Threads;

/// How games come to a store.
#[derive(Clone, Copy, Debug)]
enum Way {
    /// By an import under this label of one who stores alone.
    Alone(&'static str),
    /// By an import under this label at the desk.
    Desk(&'static str),
    /// By a body.
    Body,
}

/// Games that come: the way, the number of the first one, and how many there are.
type Coming = (Way, usize, usize);

/// What comes to a new store, and of how many games its batches are then, under which label.
struct Case {
    comes: &'static [Coming],
    batches: &'static [(usize, &'static str)],
}

const CASES: [Case; 4] = [
    // Each group of an import has its label, and each import has its own.
    Case {
        comes: &[(Way::Alone("a"), 0, 513), (Way::Alone("b"), 513, 2)],
        batches: &[(512, "a"), (1, "a"), (2, "b")],
    },
    Case {
        comes: &[(Way::Desk("a"), 0, 513), (Way::Desk("b"), 513, 2)],
        batches: &[(512, "a"), (1, "a"), (2, "b")],
    },
    // Where ids are stored before, the rest has the label too.
    Case {
        comes: &[
            (Way::Alone("jan"), 1, 1),
            (Way::Alone("feb"), 0, 3),
            (Way::Desk("mar"), 2, 3),
        ],
        batches: &[(1, "jan"), (2, "feb"), (2, "mar")],
    },
    // A body has the empty label, as an import that is given it.
    Case {
        comes: &[
            (Way::Body, 0, 2),
            (Way::Alone(""), 2, 1),
            (Way::Desk("é"), 3, 1),
            (Way::Body, 3, 2),
        ],
        batches: &[(2, ""), (1, ""), (1, "é"), (1, "")],
    },
];

#[test]
fn each_batch_has_the_label_of_its_import(rt: HostRuntime) -> Result<(), Fail> {
    for case in &CASES {
        assert!(rt; stores_so(&rt, rt.alloc(), case)?);
    }
    Ok(())
}

/// Whether what comes to a new store becomes these batches.
fn stores_so<R: Threads + Wait + Abort + Sync>(
    rt: &R,
    alloc: Global,
    case: &Case,
) -> Result<bool, Fail> {
    let unnamed = new_store(rt, alloc, Vec::new(alloc))?;
    becomes::<Brand, _>(rt, alloc, unnamed, case)
}

/// The same, where the store is made.
fn becomes<J: Index, R: Threads + Wait + Abort + Sync>(
    rt: &R,
    alloc: Global,
    unnamed: Unnamed<MemDisk>,
    case: &Case,
) -> Result<bool, Fail>
    requires { unnamed.index.name ≡ J.name }
{
    let (ingest, _passes, drawer) = name_ingest::<J, R>(rt, alloc, unnamed)?;
    let desk = Mutex::new(ingest);
    let stored = store_all(rt, alloc, &desk, drawer, case.comes);
    let ingest = desk.into_inner();
    let are_so = has_batches(&ingest, case.batches);
    let _disk = ingest.into_disk(rt);
    stored?;
    Ok(are_so)
}

fn store_all<J: Index, R: Threads + Wait + Abort + Sync>(
    rt: &R,
    alloc: Global,
    desk: &Desk<MemDisk, J>,
    drawer: Drawer<J>,
    comes: &[Coming],
) -> Result<(), Fail> {
    let mut drawer = drawer;
    for (way, first, count) in comes {
        let texts = games(alloc, *first, *count)?;
        match *way {
            Way::Alone(label) => import_locked(rt, alloc, desk, &mut drawer, label, texts)?,
            Way::Desk(label) => import_beside(rt, alloc, desk, &mut drawer, label, texts)?,
            Way::Body => drawer = import_body(rt, alloc, desk, drawer, texts.as_slice())?,
        }
    }
    Ok(())
}

/// Imports texts under a label, while nobody else comes to the desk.
fn import_locked<J: Index, R: Threads + Wait + Sync>(
    rt: &R,
    alloc: Global,
    desk: &Desk<MemDisk, J>,
    drawer: &mut Drawer<J>,
    label: &str,
    texts: Vec<u8>,
) -> Result<(), Fail> {
    let label = Label::of(label.as_bytes()).ok_or("a label")?;
    let mut source = MemSource::new(texts, 4096, Vec::new(alloc));
    let mut ingest = desk.lock(rt);
    let report = import_alone(
        rt,
        alloc,
        &mut source,
        &mut ingest,
        drawer,
        label,
        2,
        &FreeGate,
    );
    MutexGuard::unlock(ingest);
    has_ended(import_run::ending_of(&report.end))
}

/// Imports texts under a label at the desk.
fn import_beside<J: Index, R: Threads + Wait + Sync>(
    rt: &R,
    alloc: Global,
    desk: &Desk<MemDisk, J>,
    drawer: &mut Drawer<J>,
    label: &str,
    texts: Vec<u8>,
) -> Result<(), Fail> {
    let label = Label::of(label.as_bytes()).ok_or("a label")?;
    let mut source = MemSource::new(texts, 4096, Vec::new(alloc));
    let report = import(rt, alloc, &mut source, desk, drawer, label, 2, &FreeGate);
    has_ended(import_run::ending_of(&report.end))
}

/// Imports a body by a handle that has the drawer.
fn import_body<J: Index, R: Threads + Wait + Sync>(
    rt: &R,
    alloc: Global,
    desk: &Desk<MemDisk, J>,
    drawer: Drawer<J>,
    body: &[u8],
) -> Result<Drawer<J>, Fail> {
    if body.len() > 4_194_304 {
        return Err(Fail::from("too long"));
    }
    let mut handle = DeskHandle::new(desk, drawer, 2);
    let report = handle.import(rt, alloc, body);
    has_ended(import_run::ending_of(&report.end))?;
    Ok(handle.into_drawer())
}

fn has_ended(ending: ImportEnding) -> Result<(), Fail> {
    if ending == ImportEnding::Whole {
        return Ok(());
    }
    Err(Fail::from("not imported"))
}

// ---- what is stored

/// Whether the batches that are stored have so many games, each under its label.
fn has_batches<J: Index>(ingest: &Ingest<MemDisk, J>, wanted: &[(usize, &str)]) -> bool {
    let list = ingest.publisher().list().segments();
    are_batches::<Brand>(list, wanted, Blank::new(1))
}

fn are_batches<L: Ledger>(list: &[SharedSegment], wanted: &[(usize, &str)], blank: Blank) -> bool
    requires name { blank.name ≡ L.name }
    requires parts { blank.parts ≡ L.parts }
    requires some { 0 < L.parts }
{
    let mut steps = Steps::<L>::new(blank);
    let mut first = 0usize;
    for segment in list {
        if !segment_has(segment, wanted, first, &mut steps) {
            return false;
        }
        first = first.saturating_add(segment.span().count as usize);
    }
    first == wanted.len()
}

/// Whether the batches of a segment are those from this place on.
fn segment_has<L: Ledger>(
    segment: &Segment,
    wanted: &[(usize, &str)],
    first: usize,
    steps: &mut Steps<L>,
) -> bool {
    for n in 0..segment.span().count {
        let batch = segment.batch(n, steps);
        match wanted.get(first.saturating_add(n as usize)) {
            Some((games, label)) if is_batch(batch, *games, label) => {}
            _ => return false,
        }
    }
    true
}

fn is_batch(batch: &Batch, games: usize, label: &str) -> bool {
    batch.texts.len() == games && batch.label.as_str() == label
}
