//! Imports over a desk.
ghost use Rattle.std.specs.Prelude.{◌≡◌};
ghost use Rattle.std.specs.Thread.{IsSync};

use super::{Told, games, name_ingest, new_store, summary_of};
use disk_model::{Disk, MemDisk};
use explorer_model::fault::{Refusal, Why};
use explorer_model::label::Label;
use import_run::{DeskHandle, DrainEnd, Drained, OwnIngest, drain, import};
use ingest_desk::{Desk, ImportEnding, Importer, MergeDesk, Unnamed};
use outside::{FreeGate, MemSource};
use published_index::{Drawer, Index};
use std::alloc::{AllocError, Global};
use std::marker::Brand;
use std::process::Abort;
use std::sync::{Mutex, MutexGuard, Wait};
use std::test::Fail;
use std::thread::{Threads, join};

#[test]
fn two_threads_store_common_games_once(rt: HostRuntime) -> Result<(), Fail> {
    let alloc: Global = rt.alloc();
    let unnamed = new_store(&rt, alloc, Vec::new(alloc))?;
    let (one, two) = import_two::<Brand, _>(&rt, alloc, unnamed, (0, 900), (300, 900))?;
    // Of 1,800 games 600 are in both streams: each is stored once, and refused once.
    assert_eq!(rt; stored_and_repeated(&[one, two]), Some((1200, 600)));
    Ok(())
}

/// How many games the reports tell as stored, and how many as stored before, where nothing else is
/// told.
fn stored_and_repeated(told: &[Told]) -> Option<(u32, usize)> {
    let (mut games, mut repeated) = (0u32, 0usize);
    for told in told {
        if told.ending != ImportEnding::Whole || !are_repeated(told.refused.as_slice()) {
            return None;
        }
        games = games.saturating_add(stored_games(told));
        repeated = repeated.saturating_add(told.refused.len());
    }
    Some((games, repeated))
}

fn are_repeated(refused: &[Refusal]) -> bool {
    refused
        .iter()
        .all(|refusal| matches!(refusal.why, Why::Repeated { .. }))
}

/// How many games a report's batches have.
fn stored_games(told: &Told) -> u32 {
    let mut games = 0u32;
    for batch in told.batches.as_slice() {
        games = games.saturating_add(batch.2);
    }
    games
}

/// Imports two streams from two threads, of games that are told by the number of the first one and by
/// how many there are.
fn import_two<J: Index + Send + Sync, R: Threads + Wait + Abort + Sync>(
    rt: &R,
    alloc: Global,
    unnamed: Unnamed<MemDisk>,
    first: (usize, usize),
    second: (usize, usize),
) -> Result<(Told, Told), Fail>
    requires { unnamed.index.name ≡ J.name }
{
    let (ingest, _passes, mut rest) = name_ingest::<J, R>(rt, alloc, unnamed)?;
    let mut mine = ingest.another(&mut rest);
    let desk = Mutex::new(ingest);
    let told = import_both(rt, alloc, &desk, (&mut rest, first), (&mut mine, second));
    let drained = drain(rt, alloc, &MergeDesk::of(&desk), 2);
    let _disk = desk.into_inner().into_disk(rt);
    assert_eq!(rt; drained.end, DrainEnd::Idle);
    Ok(told?)
}

/// A drawer, and the games of a stream.
type Mine<'a, J> = (&'a mut Drawer<J>, (usize, usize));

/// Both streams at once, each from a thread of its own.
fn import_both<J: Index + Send + Sync, D: Disk + Send, R: Threads + Wait + Sync>(
    rt: &R,
    alloc: Global,
    desk: &Desk<D, J>,
    first: Mine<'_, J>,
    second: Mine<'_, J>,
) -> Result<(Told, Told), AllocError> {
    let (one, two) = join(
        rt,
        || -> Result<Told, AllocError>
            requires { IsSync R.row }
        { import_one(rt, alloc, desk, first) },
        || -> Result<Told, AllocError>
            requires { IsSync R.row }
        { import_one(rt, alloc, desk, second) },
    );
    Ok((one?, two?))
}

fn import_one<J: Index, D: Disk, R: Threads + Wait + Sync>(
    rt: &R,
    alloc: Global,
    desk: &Desk<D, J>,
    (drawer, (first, count)): Mine<'_, J>,
) -> Result<Told, AllocError> {
    let mut source = MemSource::new(games(alloc, first, count)?, 4096, Vec::new(alloc));
    let report = import(
        rt,
        alloc,
        &mut source,
        desk,
        drawer,
        Label::none(),
        2,
        &FreeGate,
    );
    summary_of(alloc, report)
}

/// A run of bodies of so many games each, and what becomes of the published list: two neighbours of
/// which the left one has at most twice as many games as the right one are due, and behind each batch
/// the last that are due become one.
struct Run {
    bodies: &'static [usize],
    /// How many segments are left behind the imports.
    left: usize,
    /// How many jobs are left for draining.
    jobs: u64,
}

/// In brackets how many games the segments have, behind each batch and its merge.
const RUNS: [Run; 4] = [
    // [5]
    Run {
        bodies: &[5],
        left: 1,
        jobs: 0,
    },
    // [4], [4, 1], [4, 2], and by draining [6]
    Run {
        bodies: &[4, 1, 1],
        left: 2,
        jobs: 1,
    },
    // [8], [8, 3], [8, 3, 1], [8, 3, 2], and by draining [8, 5], [13]
    Run {
        bodies: &[8, 3, 1, 1],
        left: 3,
        jobs: 2,
    },
    // [1], [2], [3], [3, 1], [3, 2], [3, 3], [6, 1], [6, 2], [6, 3], [9, 1], [9, 2], [9, 3]
    Run {
        bodies: &[1, 1, 1, 1, 1, 1, 1, 1, 1, 1, 1, 1],
        left: 2,
        jobs: 0,
    },
];

#[test]
fn segments_become_one_behind_imports_and_by_draining(rt: HostRuntime) -> Result<(), Fail> {
    for run in &RUNS {
        let (left, drained, last) = left_and_drained(&rt, rt.alloc(), run.bodies)?;
        assert_eq!(rt; left, run.left);
        let idle = Drained {
            jobs: run.jobs,
            end: DrainEnd::Idle,
        };
        assert_eq!(rt; drained, idle);
        // Each job makes the list one shorter.
        assert_eq!(rt; (last as u64).saturating_add(run.jobs), left as u64);
    }
    Ok(())
}

/// How many segments a new store has behind the imports of bodies of so many games each, what
/// draining comes to, and how many segments it has behind that.
fn left_and_drained<R: Threads + Wait + Sync>(
    rt: &R,
    alloc: Global,
    bodies: &[usize],
) -> Result<(usize, Drained, usize), Fail> {
    let unnamed = new_store(rt, alloc, Vec::new(alloc))?;
    merge_stored::<Brand, _>(rt, alloc, unnamed, bodies)
}

/// The same, where the store is made.
fn merge_stored<J: Index, R: Threads + Wait + Sync>(
    rt: &R,
    alloc: Global,
    unnamed: Unnamed<MemDisk>,
    bodies: &[usize],
) -> Result<(usize, Drained, usize), Fail>
    requires { unnamed.index.name ≡ J.name }
{
    let (ingest, _passes, drawer) = name_ingest::<J, R>(rt, alloc, unnamed)?;
    let desk = Mutex::new(ingest);
    let stored = store_bodies(rt, alloc, &mut DeskHandle::new(&desk, drawer, 2), bodies);
    let left = segments(rt, &desk);
    let drained = drain(rt, alloc, &MergeDesk::of(&desk), 2);
    let last = segments(rt, &desk);
    let _disk = desk.into_inner().into_disk(rt);
    stored?;
    Ok((left, drained, last))
}

/// Stores bodies of so many games each, no game of which is stored.
fn store_bodies<J: Index, I: Importer<J>, R: Threads + Wait + Sync>(
    rt: &R,
    alloc: Global,
    importer: &mut I,
    bodies: &[usize],
) -> Result<(), Fail> {
    let mut first = 0usize;
    for count in bodies {
        let body = games(alloc, first, *count)?;
        if body.len() > 4_194_304 {
            return Err(Fail::from("too long"));
        }
        let _report = importer.import(rt, alloc, body.as_slice());
        first = first.saturating_add(*count);
    }
    Ok(())
}

/// How many segments the published list has.
fn segments<J: Index, R: Wait>(rt: &R, desk: &Desk<MemDisk, J>) -> usize {
    let ingest = desk.lock(rt);
    let count = ingest.publisher().list().segments().len();
    MutexGuard::unlock(ingest);
    count
}

#[test]
fn a_handle_and_an_ingest_of_its_own_import_alike(rt: HostRuntime) -> Result<(), Fail> {
    let alloc: Global = rt.alloc();
    let unnamed = store_with_two_commits(&rt, alloc)?;
    assert_three_reports(&rt, over_a_desk::<Brand, _>(&rt, alloc, unnamed)?)?;
    let unnamed = store_with_two_commits(&rt, alloc)?;
    assert_three_reports(&rt, over_an_ingest::<Brand, _>(&rt, alloc, unnamed)?)
}

/// A new store whose third commit fails.
fn store_with_two_commits<R: Wait>(rt: &R, alloc: Global) -> Result<Unnamed<MemDisk>, Fail> {
    // The disk's calls: three of the creation, and four of each commit.
    let failing = vec![in alloc; 12]?;
    new_store(rt, alloc, failing)
}

/// Of three bodies the first two are stored, but the text that comes twice, and the third meets the
/// fault.
fn assert_three_reports<R: Abort>(rt: &R, told: Vec<Told>) -> Result<(), Fail> {
    let [first, second, third] = told.as_slice() else {
        return Err(Fail::from("three bodies have three reports"));
    };
    assert_eq!(rt; first.ending, ImportEnding::Whole);
    assert!(rt; has_stored_and_refused(first, &[(1, 0, 1)], &[]));
    let again = Refusal {
        place: 0,
        why: Why::Repeated { number: 0 },
    };
    assert!(rt; has_stored_and_refused(second, &[(2, 1, 1)], &[again]));
    let fault = ImportEnding::DiskFault {
        before: 0,
        after: 1,
    };
    assert_eq!(rt; third.ending, fault);
    Ok(())
}

/// Whether a report has these batches and these refusals.
fn has_stored_and_refused(told: &Told, batches: &[(u32, u32, u32)], refused: &[Refusal]) -> bool {
    told.batches.as_slice() == batches && told.refused.as_slice() == refused
}

/// Imports three bodies: a game, the same with another one, and one more.
fn import_bodies<J: Index, I: Importer<J>, R: Threads + Wait + Sync>(
    rt: &R,
    alloc: Global,
    importer: &mut I,
) -> Result<Vec<Told>, Fail> {
    let mut told = Vec::new(alloc);
    for (first, count) in [(0, 1), (0, 2), (3, 1)] {
        let body = games(alloc, first, count)?;
        if body.len() > 4_194_304 {
            return Err(Fail::from("too long"));
        }
        let report = importer.import(rt, alloc, body.as_slice());
        told.push(summary_of(alloc, report)?)?;
    }
    Ok(told)
}

fn over_a_desk<J: Index, R: Threads + Wait + Abort + Sync>(
    rt: &R,
    alloc: Global,
    unnamed: Unnamed<MemDisk>,
) -> Result<Vec<Told>, Fail>
    requires { unnamed.index.name ≡ J.name }
{
    let (ingest, _passes, drawer) = name_ingest::<J, R>(rt, alloc, unnamed)?;
    let desk = Mutex::new(ingest);
    let told = import_bodies(rt, alloc, &mut DeskHandle::new(&desk, drawer, 2));
    let _disk = desk.into_inner().into_disk(rt);
    told
}

fn over_an_ingest<J: Index, R: Threads + Wait + Abort + Sync>(
    rt: &R,
    alloc: Global,
    unnamed: Unnamed<MemDisk>,
) -> Result<Vec<Told>, Fail>
    requires { unnamed.index.name ≡ J.name }
{
    let (ingest, _passes, drawer) = name_ingest::<J, R>(rt, alloc, unnamed)?;
    let mut own = OwnIngest::new(alloc, ingest, drawer, 2);
    let told = import_bodies(rt, alloc, &mut own);
    let calls = own.calls().map_or(0, |calls| calls.len());
    let (ingest, _drawer) = own.into_ingest();
    let _disk = ingest.into_disk(rt);
    assert_eq!(rt; calls, 3);
    told
}
