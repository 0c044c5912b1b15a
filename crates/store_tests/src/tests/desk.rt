//! A desk at its limit, and beside another worker.
ghost use Rattle.std.specs.Prelude.{◌≡◌};

use super::stores::{
    commit_games, damage_of, games, join_twice, name_ingest, new_store, open_ingest,
};
use super::text;
use disk_model::{Disk, MemDisk};
use explorer_model::archive::Placed;
use ingest_desk::{CommitFault, Ingest, Ready, Receipt, Standing, Unnamed};
use published_index::{Drawer, Index};
use std::alloc::{AllocError, Global};
use std::marker::Brand;
use std::process::Abort;
use std::sync::Wait;
use std::test::Fail;
use std::thread::Threads;

/// How many games a store may have.
const LIMIT: u32 = 262_144;

/// The file of a store: batches of so many games without a move, with ids by their numbers. It has
/// at most one batch more than a store of whole batches may have.
pub(super) fn store_file(alloc: Global, games: u32, size: u32) -> Result<Vec<u8>, AllocError> {
    let mut file = b"OPENEXP1\x02\0\0\0".to_vec(alloc)?;
    let size = size.min(512);
    for batch in 0..513u32 {
        let first = batch * size;
        if first < games {
            push_record(alloc, &mut file, first, (games - first).min(size))?;
        }
    }
    file.push(0)?;
    Ok(file)
}

/// Puts the record of a batch of such games behind a file.
fn push_record(
    alloc: Global,
    file: &mut Vec<u8>,
    first: u32,
    count: u32,
) -> Result<(), AllocError> {
    let mut texts = Vec::new(alloc);
    for number in first..first.saturating_add(count) {
        texts.push(text(alloc, number, 0, "")?)?;
    }
    push_batch(alloc, file, texts.as_slice())
}

/// Puts the record of a batch behind a file: its gate, its length, no label, and its texts behind
/// their count.
pub(super) fn push_batch(
    alloc: Global,
    file: &mut Vec<u8>,
    texts: &[Placed],
) -> Result<(), AllocError> {
    let mut payload = vec![in alloc; 0]?;
    payload.extend_from_slice(&(texts.len() as u64).to_le_bytes()[..2])?;
    for text in texts {
        let game = &text.bytes;
        payload.extend_from_slice(&(game.len() as u64).to_le_bytes()[..4])?;
        payload.extend_from_slice(game.as_slice())?;
    }
    file.push(1)?;
    file.extend_from_slice(&(payload.len() as u64).to_le_bytes()[..4])?;
    file.extend_from_slice(payload.as_slice())
}

/// A disk with a file, and room for some batches more.
pub(super) fn disk_with(alloc: Global, file: &[u8]) -> Result<MemDisk, Fail> {
    if file.len() > 100_000_000 {
        return Err(Fail::from("a large file"));
    }
    let mut disk = MemDisk::new(alloc, file.len() + 10_000, Vec::new(alloc))?;
    if disk.write_at(0, file).is_err() {
        return Err(Fail::from("not written"));
    }
    Ok(disk)
}

// ---- limits

#[test]
fn store_below_its_limit_takes_one_game(rt: HostRuntime) -> Result<(), Fail> {
    let alloc: Global = rt.alloc();
    let file = store_file(alloc, LIMIT - 1, 512)?;
    let unnamed = open_ingest(&rt, alloc, disk_with(alloc, file.as_slice())?, 4)?;
    fills::<Brand, _>(&rt, alloc, unnamed)
}

fn fills<J: Index, R: Threads + Wait + Abort + Sync>(
    rt: &R,
    alloc: Global,
    unnamed: Unnamed<MemDisk>,
) -> Result<(), Fail>
    requires { unnamed.index.name ≡ J.name }
{
    let (mut ingest, _passes, mut drawer) = name_ingest::<J, _, R>(rt, alloc, unnamed)?;
    let outcome = fill(rt, alloc, &mut ingest, &mut drawer);
    let _disk = ingest.into_disk(rt);
    outcome
}

/// Two games are too many behind the last but one, one is not, and then there is no room.
fn fill<J: Index, R: Threads + Wait + Abort + Sync>(
    rt: &R,
    alloc: Global,
    ingest: &mut Ingest<MemDisk, J>,
    drawer: &mut Drawer<J>,
) -> Result<(), Fail> {
    // Each text has 195 bytes.
    let full = room_for(rt, alloc, ingest, drawer, LIMIT - 1, 2)?;
    assert_eq!(rt; full, Some((262_143, 262_143 * 195)));
    let last = commit_games(rt, alloc, ingest, drawer, LIMIT - 1, 1)?;
    assert_eq!(rt; last, Some((513, 262_143, 1)));
    let full = room_for(rt, alloc, ingest, drawer, LIMIT, 1)?;
    assert_eq!(rt; full, Some((262_144, 262_144 * 195)));
    let ready = Ready::of(alloc, games(rt, alloc, LIMIT, 1)?)?;
    let full = room_of(ingest.commit_ready(rt, alloc, ready, drawer));
    assert_eq!(rt; full, Some((262_144, 262_144 * 195)));
    Ok(())
}

/// How many games and bytes a store has that is too full for so many games from a number on.
fn room_for<J: Index, R: Threads + Wait + Abort + Sync>(
    rt: &R,
    alloc: Global,
    ingest: &mut Ingest<MemDisk, J>,
    drawer: &mut Drawer<J>,
    first: u32,
    count: u32,
) -> Result<Option<(u64, u64)>, Fail> {
    let tally = games(rt, alloc, first, count)?;
    Ok(room_of(ingest.commit(rt, alloc, tally, drawer)))
}

/// How many games and bytes a full store has.
fn room_of<J: Index>(answer: Result<Receipt<J>, CommitFault<J>>) -> Option<(u64, u64)> {
    match answer {
        Err(CommitFault::Full { games, bytes, .. }) => Some((games, bytes)),
        _ => None,
    }
}

#[test]
fn store_beyond_its_limit_is_damaged_at_the_last_record(rt: HostRuntime) -> Result<(), Fail> {
    let alloc: Global = rt.alloc();
    let file = store_file(alloc, LIMIT + 1, 512)?;
    let at = damage_of(&rt, alloc, disk_with(alloc, file.as_slice())?, 4)?;
    // A record has a gate, a length, an empty label, a count, and each text behind its length.
    assert_eq!(rt; at, 12 + 512 * (1 + 4 + 3 + 512 * (4 + 195)));
    Ok(())
}

// ---- another worker

#[test]
fn job_whose_two_another_worker_joined_is_gone(rt: HostRuntime) -> Result<(), Fail> {
    let alloc: Global = rt.alloc();
    let unnamed = new_store(&rt, alloc, Vec::new(alloc))?;
    joins::<Brand, _>(&rt, alloc, unnamed)
}

fn joins<J: Index, R: Threads + Wait + Abort + Sync>(
    rt: &R,
    alloc: Global,
    unnamed: Unnamed<MemDisk>,
) -> Result<(), Fail>
    requires { unnamed.index.name ≡ J.name }
{
    let (mut ingest, _passes, mut drawer) = name_ingest::<J, _, R>(rt, alloc, unnamed)?;
    let outcome = join_first_two(rt, alloc, &mut ingest, &mut drawer);
    let _disk = ingest.into_disk(rt);
    outcome
}

/// Of three batches another worker joins the first two.
fn join_first_two<J: Index, R: Threads + Wait + Abort + Sync>(
    rt: &R,
    alloc: Global,
    ingest: &mut Ingest<MemDisk, J>,
    drawer: &mut Drawer<J>,
) -> Result<(), Fail> {
    for (first, count) in [(0, 512), (512, 512), (1024, 1)] {
        if commit_games(rt, alloc, ingest, drawer, first, count)?.is_none() {
            return Err(Fail::from("not stored"));
        }
    }
    let spans = join_twice(rt, alloc, ingest)?;
    let wanted = [
        Standing { first: 0, count: 2 },
        Standing { first: 2, count: 1 },
    ];
    assert!(rt; spans.as_slice() == wanted.as_slice());
    Ok(())
}
