//! Changes that are held since no memory is found to publish them. All that is left is taken for so
//! long.
ghost use Rattle.std.specs.Prelude.{◌≡◌, None};

use super::desk::{disk_with, store_file};
use super::stores::{commit_games, games, name_ingest, open_ingest, store_on};
use disk_model::{Disk, MemDisk};
use ingest_desk::{CommitFault, Ingest, InstallFault, Unnamed};
use outside::{Failed, FreeGate};
use published_index::{Drawer, Index};
use segment_blocks::Segment;
use segment_merge::merge;
use std::alloc::{AllocError, Global};
use std::cell::Cell;
use std::marker::{Brand, Model};
use std::mem::size_of;
use std::process::Abort;
use std::sync::Wait;
use std::test::Fail;
use std::thread::Threads;

// ---- taking all memory

/// How many blocks are taken at most. Where that is too few, as with an allocator that checks each
/// use, nothing is held.
const BLOCKS: usize = 50_000;

/// Room for so many blocks.
fn room(alloc: Global) -> Result<Vec<Vec<u8>>, AllocError> {
    Vec::with_capacity(alloc, BLOCKS)
}

/// Takes all memory that is left, in blocks that get smaller and smaller, and says whether none is
/// left.
fn take_all(alloc: Global, blocks: &mut Vec<Vec<u8>>) -> bool {
    let mut size = 1 << 40;
    for _ in 0..BLOCKS {
        if size == 0 {
            return true;
        }
        match Vec::with_capacity(alloc, size) {
            Ok(block) => {
                if blocks.push(block).is_err() {
                    return false;
                }
            }
            Err(_) => size = smaller(size),
        }
    }
    false
}

/// The size that is tried next. Small blocks are kept by their sizes, each sixteen bytes more.
fn smaller(size: usize) -> usize {
    if size > 4096 {
        size / 2
    } else {
        size.saturating_sub(16)
    }
}

/// What a disk takes at its syncs, while it is to, and whether it has taken all.
#[derive(Drop)]
struct Hoard {
    takes: Cell<bool>,
    has_all: Cell<bool>,
    blocks: Cell<Vec<Vec<u8>>>,
}

/// A disk that keeps its size alone, and takes all memory at its syncs while it is to.
#[derive(Drop)]
struct GreedyDisk<'a> {
    alloc: Global,
    size: u64,
    hoard: &'a Hoard,
}

impl<'a> Model for GreedyDisk<'a> {
    ghost use Rattle.std.specs.Prelude.{ℕ};

    ghost Value = { ℕ };

    ghost view = { λ disk. disk.size };
}

impl<'a> Disk for GreedyDisk<'a> {
    ghost use Rattle.std.proofs.Common.{rules};

    ghost disk = { λ size. record { content = None; size = size; moment = 0; faults = 0 } };

    ghost left_since = { λ _ _ _. ⊥ };

    fn size(&mut self) -> Result<u64, Failed> {
        Ok(self.size)
    }

    fn read_at(&mut self, _at: u64, _into: &mut [u8]) -> Result<(), Failed> {
        Ok(())
    }

    fn write_at(&mut self, at: u64, piece: &[u8]) -> Result<(), Failed> {
        self.size = self.size.max(at + piece.len() as u64);
        Ok(())
    }

    fn sync(&mut self) -> Result<(), Failed> {
        if self.hoard.takes.get() {
            let mut blocks = self.hoard.blocks.replace(Vec::new(self.alloc));
            self.hoard.has_all.set(take_all(self.alloc, &mut blocks));
            self.hoard.blocks.set(blocks);
        }
        Ok(())
    }

    fn faults(&self) -> u64 {
        0
    }

    ghost told_size = { λ it file told. Prim.search rules };

    ghost told_left = { λ it file told. Prim.search rules };

    ghost counts_now = { λ it t image earlier left. left };
}

// ---- a batch that is held

#[test]
fn held_batch_is_published_by_the_next_commit(rt: HostRuntime) -> Result<(), Fail> {
    let alloc: Global = rt.alloc();
    let hoard = Hoard {
        takes: Cell::new(false),
        has_all: Cell::new(false),
        blocks: Cell::new(room(alloc)?),
    };
    let disk = GreedyDisk {
        alloc,
        size: 0,
        hoard: &hoard,
    };
    let unnamed = store_on(&rt, alloc, disk)?;
    holds_batch::<Brand, _>(&rt, alloc, unnamed, &hoard)
}

fn holds_batch<J: Index, R: Threads + Wait + Abort + Sync>(
    rt: &R,
    alloc: Global,
    unnamed: Unnamed<GreedyDisk<'_>>,
    hoard: &Hoard,
) -> Result<(), Fail>
    requires { unnamed.index.name ≡ J.name }
{
    let (mut ingest, _passes, mut drawer) = name_ingest::<J, _, R>(rt, alloc, unnamed)?;
    let outcome = hold_batch(rt, alloc, &mut ingest, &mut drawer, hoard);
    let _disk = ingest.into_disk(rt);
    outcome
}

/// The first batch is stored, and finds no memory behind the last sync.
fn hold_batch<J: Index, R: Threads + Wait + Abort + Sync>(
    rt: &R,
    alloc: Global,
    ingest: &mut Ingest<GreedyDisk<'_>, J>,
    drawer: &mut Drawer<J>,
    hoard: &Hoard,
) -> Result<(), Fail> {
    let held = commit_without_memory(rt, alloc, ingest, drawer, hoard)?;
    assert!(rt; held == hoard.has_all.get());
    let published = if held { 0 } else { 1 };
    assert_eq!(rt; batches_of(ingest), (1, published));
    assert_eq!(rt;
        commit_games(rt, alloc, ingest, drawer, 1, 1)?,
        Some((2, 1, 1))
    );
    assert_eq!(rt; batches_of(ingest), (2, 2));
    Ok(())
}

/// Commits the first batch, and says whether it is held.
fn commit_without_memory<J: Index, R: Threads + Wait + Abort + Sync>(
    rt: &R,
    alloc: Global,
    ingest: &mut Ingest<GreedyDisk<'_>, J>,
    drawer: &mut Drawer<J>,
    hoard: &Hoard,
) -> Result<bool, Fail> {
    let first = games(rt, alloc, 0, 1)?;
    hoard.takes.set(true);
    let answer = ingest.commit(rt, alloc, first, drawer);
    hoard.takes.set(false);
    hoard.blocks.set(Vec::new(alloc));
    Ok(matches!(answer, Err(CommitFault::OutOfMemory { stored: true })))
}

/// How many batches are stored, and how many are published.
fn batches_of<D: Disk, J: Index>(ingest: &Ingest<D, J>) -> (u32, u32) {
    (ingest.batches(), ingest.publisher().list().batches())
}

// ---- a join that is held

#[test]
fn held_join_is_published_by_the_next_commit(rt: HostRuntime) -> Result<(), Fail> {
    let alloc: Global = rt.alloc();
    // Of five batches of one game each, three and two stand together when they are counted anew.
    let file = store_file(alloc, 5, 1)?;
    let unnamed = open_ingest(&rt, alloc, disk_with(alloc, file.as_slice())?, 1)?;
    holds_join::<Brand, _>(&rt, alloc, unnamed)
}

fn holds_join<J: Index, R: Threads + Wait + Abort + Sync>(
    rt: &R,
    alloc: Global,
    unnamed: Unnamed<MemDisk>,
) -> Result<(), Fail>
    requires { unnamed.index.name ≡ J.name }
{
    let (mut ingest, _passes, mut drawer) = name_ingest::<J, _, R>(rt, alloc, unnamed)?;
    let outcome = hold_join(rt, alloc, &mut ingest, &mut drawer);
    let _disk = ingest.into_disk(rt);
    outcome
}

/// Two segments are joined, and the join finds no memory once the segment of both is shared.
fn hold_join<J: Index, R: Threads + Wait + Abort + Sync>(
    rt: &R,
    alloc: Global,
    ingest: &mut Ingest<MemDisk, J>,
    drawer: &mut Drawer<J>,
) -> Result<(), Fail> {
    let (held, has_all) = join_without_memory(rt, alloc, ingest)?;
    assert!(rt; held == has_all);
    let published = ingest.publisher().list().segments().len();
    assert_eq!(rt; published, if held { 2 } else { 1 });
    assert_eq!(rt;
        commit_games(rt, alloc, ingest, drawer, 5, 1)?,
        Some((6, 5, 1))
    );
    let list = ingest.publisher().list();
    assert_eq!(rt; (list.batches(), list.segments().len()), (6, 2));
    Ok(())
}

/// Joins the last two segments that are due, and says whether the join is held, and whether all
/// memory was taken.
fn join_without_memory<J: Index, R: Threads + Wait + Abort + Sync>(
    rt: &R,
    alloc: Global,
    ingest: &mut Ingest<MemDisk, J>,
) -> Result<(bool, bool), Fail> {
    let job = ingest.pick()?.ok_or("two are due")?;
    let merged = merge(rt, alloc, job.left(), job.right(), 1, &FreeGate)?;
    let (blocks, has_all) = all_but_a_share(alloc)?;
    let answer = ingest.install(rt, alloc, job, merged);
    drop(blocks);
    Ok((matches!(answer, Err(InstallFault::OutOfMemory)), has_all))
}

/// Takes all memory but one block, as a shared segment needs it, and says whether none but this one
/// is left.
fn all_but_a_share(alloc: Global) -> Result<(Vec<Vec<u8>>, bool), AllocError> {
    let mut blocks = room(alloc)?;
    // A shared segment stands behind a count.
    let block: Vec<u8> = Vec::with_capacity(alloc, 8 + size_of::<Segment>())?;
    let has_all = take_all(alloc, &mut blocks);
    drop(block);
    Ok((blocks, has_all))
}
