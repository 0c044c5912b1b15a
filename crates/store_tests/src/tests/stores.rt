//! Stores in memory, and batches of games without a move.
ghost use Rattle.std.specs.Prelude.{◌≡◌, ◌≤◌};

use super::{tally_of, text};
use disk_model::{Disk, MemDisk};
use explorer_model::store::LogFault;
use ingest_desk::{
    CommitFault, Ingest, InstallFault, Named, Receipt, Standing, Unnamed, fresh, open,
};
use manifest::create;
use outside::FreeGate;
use published_index::{Drawer, Index};
use record_log::OpenFault;
use segment_merge::merge;
use std::alloc::Global;
use std::process::Abort;
use std::sync::Wait;
use std::test::Fail;
use std::thread::Threads;
use tally_rows::Tally;

/// An ingest of a new store on a disk in memory, of whose calls these fail.
pub(super) fn new_store<R: Wait>(
    rt: &R,
    alloc: Global,
    failing: Vec<u64>,
) -> Result<Unnamed<MemDisk>, Fail> {
    store_on(rt, alloc, MemDisk::new(alloc, 1_000_000, failing)?)
}

/// An ingest of a new store on an empty disk.
pub(super) fn store_on<D: Disk + Drop, R: Wait>(
    rt: &R,
    alloc: Global,
    disk: D,
) -> Result<Unnamed<D>, Fail> {
    let Ok(manifest) = create(disk) else {
        return Err(Fail::from("not created"));
    };
    match fresh(rt, alloc, manifest, 1) {
        Ok(unnamed) => Ok(unnamed),
        Err(_) => Err(Fail::from("no room")),
    }
}

/// An ingest of the store on a disk, which so many workers count anew.
pub(super) fn open_ingest<R: Threads + Wait + Sync>(
    rt: &R,
    alloc: Global,
    disk: MemDisk,
    workers: usize,
) -> Result<Unnamed<MemDisk>, Fail>
    requires some_workers { 1 ≤ workers }
    requires few_workers { workers ≤ 16 }
{
    match open(rt, alloc, disk, workers, 1) {
        Ok(unnamed) => Ok(unnamed),
        Err(_) => Err(Fail::from("not opened")),
    }
}

/// The gate at which the store on a disk is damaged.
pub(super) fn damage_of<R: Threads + Wait + Sync>(
    rt: &R,
    alloc: Global,
    disk: MemDisk,
    workers: usize,
) -> Result<u64, Fail>
    requires some_workers { 1 ≤ workers }
    requires few_workers { workers ≤ 16 }
{
    match open(rt, alloc, disk, workers, 1) {
        Ok(unnamed) => {
            let _disk = unnamed.into_disk(rt);
            Err(Fail::from("opened"))
        }
        Err(back) => match back.fault {
            OpenFault::Log(LogFault::Damaged { at }) => Ok(at),
            _ => Err(Fail::from("another fault")),
        },
    }
}

/// The ingest, its passes and the drawer of one who stores there.
pub(super) fn name_ingest<J: Index, D: Disk + Drop, R: Wait>(
    rt: &R,
    alloc: Global,
    unnamed: Unnamed<D>,
) -> Result<Named<D, J>, Fail>
    requires { unnamed.index.name ≡ J.name }
{
    match unnamed.named::<J>(alloc) {
        Ok(named) => Ok(named),
        Err(unnamed) => {
            let _disk = unnamed.into_disk(rt);
            Err(Fail::from("no room for the passes"))
        }
    }
}

/// The tally of so many games without a move, with ids by their numbers.
pub(super) fn games<R: Threads + Sync>(
    rt: &R,
    alloc: Global,
    first: u32,
    count: u32,
) -> Result<Tally, Fail> {
    let mut texts = Vec::new(alloc);
    for number in first..first.saturating_add(count) {
        texts.push(text(alloc, number, 0, "")?)?;
    }
    tally_of(rt, alloc, texts)
}

/// Two workers have the job of the last two that are due, and one of them comes later. It finds
/// these spans. A job of another index is no value of this type.
pub(super) fn join_twice<J: Index, R: Threads + Wait + Abort + Sync>(
    rt: &R,
    alloc: Global,
    ingest: &mut Ingest<MemDisk, J>,
) -> Result<Vec<Standing>, Fail> {
    let (Some(job), Some(late)) = (ingest.pick()?, ingest.pick()?) else {
        return Err(Fail::from("two are due"));
    };
    let merged = merge(rt, alloc, job.left(), job.right(), 1, &FreeGate)?;
    let merged_late = merge(rt, alloc, late.left(), late.right(), 2, &FreeGate)?;
    assert!(rt; ingest.install(rt, alloc, job, merged).is_ok());
    let Err(InstallFault::Gone { spans }) = ingest.install(rt, alloc, late, merged_late) else {
        return Err(Fail::from("joined twice"));
    };
    Ok(spans.as_slice().to_vec(alloc)?)
}

/// Commits so many games from a number on. Gives how many batches there are with the one that was
/// stored, the number of its first game, and how many games it has.
pub(super) fn commit_games<J: Index, D: Disk, R: Threads + Wait + Abort + Sync>(
    rt: &R,
    alloc: Global,
    ingest: &mut Ingest<D, J>,
    drawer: &mut Drawer<J>,
    first: u32,
    count: u32,
) -> Result<Option<(u32, u32, u32)>, Fail> {
    let tally = games(rt, alloc, first, count)?;
    Ok(numbers_of(&ingest.commit(rt, alloc, tally, drawer)))
}

fn numbers_of<J: Index>(answer: &Result<Receipt<J>, CommitFault<J>>) -> Option<(u32, u32, u32)> {
    match answer {
        Ok(receipt) => Some((receipt.batches(), receipt.first(), receipt.games())),
        Err(_) => None,
    }
}
