//! Batches that are packed before their place is known.
ghost use Rattle.std.specs.Prelude.{◌≡◌};

use super::stores::{games, name_ingest, new_store};
use disk_model::MemDisk;
use explorer_model::archive::Batch;
use ingest_desk::{Clashing, CommitFault, Ingest, Ready, Receipt, Unnamed};
use published_index::{Drawer, Index};
use std::alloc::Global;
use std::marker::Brand;
use std::process::Abort;
use std::sync::Wait;
use std::test::Fail;
use std::thread::Threads;

#[test]
fn ready_batches_are_stored_and_refused_as_others(rt: HostRuntime) -> Result<(), Fail> {
    let alloc: Global = rt.alloc();
    // The disk's calls: three of the creation, four of each commit. The first of the third commit
    // fails.
    let unnamed = new_store(&rt, alloc, vec![in alloc; 11]?)?;
    commits::<Brand, _>(&rt, alloc, unnamed)
}

fn commits<J: Index, R: Threads + Wait + Abort + Sync>(
    rt: &R,
    alloc: Global,
    unnamed: Unnamed<MemDisk>,
) -> Result<(), Fail>
    requires { unnamed.index.name ≡ J.name }
{
    let (mut ingest, _passes, mut drawer) = name_ingest::<J, _, R>(rt, alloc, unnamed)?;
    let outcome = commit_each(rt, alloc, &mut ingest, &mut drawer);
    let _disk = ingest.into_disk(rt);
    outcome
}

/// Two are stored, one comes again and is handed back, one meets a disk fault, and the last finds
/// the store closed.
fn commit_each<J: Index, R: Threads + Wait + Abort + Sync>(
    rt: &R,
    alloc: Global,
    ingest: &mut Ingest<MemDisk, J>,
    drawer: &mut Drawer<J>,
) -> Result<(), Fail> {
    for (first, count, wanted) in [(0, 1, (1, 0, 1)), (1, 2, (2, 1, 2))] {
        let Ok(receipt) = commit_ready(rt, alloc, ingest, drawer, first, count)? else {
            return Err(Fail::from("not stored"));
        };
        let found = (receipt.batches(), receipt.first(), receipt.games());
        assert_eq!(rt; found, wanted);
    }
    hand_back(rt, alloc, ingest, drawer)?;
    for (first, wanted) in [(3, ("disk fault", 0, 1)), (4, ("closed", 0, 1))] {
        let answer = commit_ready(rt, alloc, ingest, drawer, first, 1)?;
        assert!(rt; fault_of(answer) == Some(wanted), "of game {first}");
    }
    let list = ingest.publisher().list();
    assert_eq!(rt; (ingest.batches(), list.batches()), (2, 2));
    Ok(())
}

/// A new game behind one that is stored comes back in its batch.
fn hand_back<J: Index, R: Threads + Wait + Abort + Sync>(
    rt: &R,
    alloc: Global,
    ingest: &mut Ingest<MemDisk, J>,
    drawer: &mut Drawer<J>,
) -> Result<(), Fail> {
    let Err(fault) = commit_ready(rt, alloc, ingest, drawer, 2, 2)? else {
        return Err(Fail::from("stored again"));
    };
    let CommitFault::Clash { handed, pairs, .. } = fault else {
        return Err(Fail::from("another fault"));
    };
    let clash = Clashing {
        place: 0,
        number: 2,
    };
    assert!(rt; pairs.as_slice() == [clash].as_slice());
    let Batch { texts, .. } = handed.into_batch(alloc)?;
    let wanted = games(rt, alloc, 2, 2)?.into_batch();
    assert!(rt; texts == wanted.texts);
    Ok(())
}

/// Packs so many games from a number on, and commits them.
fn commit_ready<J: Index, R: Threads + Wait + Abort + Sync>(
    rt: &R,
    alloc: Global,
    ingest: &mut Ingest<MemDisk, J>,
    drawer: &mut Drawer<J>,
    first: u32,
    count: u32,
) -> Result<Result<Receipt<J>, CommitFault<J>>, Fail> {
    let ready = Ready::of(alloc, games(rt, alloc, first, count)?)?;
    Ok(ingest.commit_ready(rt, alloc, ready, drawer))
}

/// The fault of the disk that an answer tells of, with its counts.
fn fault_of<J: Index>(
    answer: Result<Receipt<J>, CommitFault<J>>,
) -> Option<(&'static str, u64, u64)> {
    match answer {
        Err(CommitFault::DiskFault { before, after, .. }) => Some(("disk fault", before, after)),
        Err(CommitFault::Closed { before, after, .. }) => Some(("closed", before, after)),
        _ => None,
    }
}
