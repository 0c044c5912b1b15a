//! Batches that are stored, published and read again, and stores that are damaged.
ghost use Rattle.std.specs.Prelude.{◌≡◌, ◌∷◌, [], IfOk};

use super::stores::{
    commit_games, damage_of, games, join_twice, name_ingest, new_store, open_ingest,
};
use super::{tally_of, text};
use disk_model::{Disk, MemDisk};
use explorer_model::archive::{Batch, Bytes, Texts};
use explorer_model::label::Label;
use ingest_desk::{Clashing, CommitFault, Ingest, Marks, Receipt, Standing, Unnamed};
use manifest::{Manifest, create};
use published_index::{Drawer, Index, Pass};
use record_log::AppendFault;
use std::alloc::{AllocError, Global};
use std::marker::Brand;
use std::process::Abort;
use std::sync::Wait;
use std::test::Fail;
use std::thread::Threads;

// ---- stored batches

#[test]
fn batches_are_stored_published_and_joined(rt: HostRuntime) -> Result<(), Fail> {
    let alloc: Global = rt.alloc();
    let unnamed = new_store(&rt, alloc, Vec::new(alloc))?;
    let disk = stores_three::<Brand, _>(&rt, alloc, unnamed)?;
    // No crash tears what was acknowledged.
    let unnamed = open_ingest(&rt, alloc, disk.crashed(7), 2)?;
    let (batches, _disk) = batches_of::<Brand, _>(&rt, alloc, unnamed)?;
    assert_eq!(rt; batches, 2);
    Ok(())
}

/// Stores two batches, of which the first comes twice, and joins them.
fn stores_three<J: Index, R: Threads + Wait + Abort + Sync>(
    rt: &R,
    alloc: Global,
    unnamed: Unnamed<MemDisk>,
) -> Result<MemDisk, Fail>
    requires { unnamed.index.name ≡ J.name }
{
    let (mut ingest, _passes, mut drawer) = name_ingest::<J, _, R>(rt, alloc, unnamed)?;
    let outcome = store_three(rt, alloc, &mut ingest, &mut drawer);
    let disk = ingest.into_disk(rt);
    outcome?;
    Ok(disk)
}

fn store_three<J: Index, R: Threads + Wait + Abort + Sync>(
    rt: &R,
    alloc: Global,
    ingest: &mut Ingest<MemDisk, J>,
    drawer: &mut Drawer<J>,
) -> Result<(), Fail> {
    assert_eq!(rt;
        commit_games(rt, alloc, ingest, drawer, 1, 1)?,
        Some((1, 0, 1))
    );
    let clash = Clashing {
        place: 1,
        number: 0,
    };
    assert_eq!(rt; commit_again(rt, alloc, ingest, drawer)?, Some(clash));
    assert_eq!(rt;
        commit_games(rt, alloc, ingest, drawer, 2, 2)?,
        Some((2, 1, 2))
    );
    assert!(rt; matches!(ingest.catch_up(rt), Ok(None)));
    let spans = join_twice(rt, alloc, ingest)?;
    assert!(rt; spans.as_slice() == [Standing { first: 0, count: 2 }].as_slice());
    assert!(rt; matches!(ingest.pick(), Ok(None)));
    Ok(())
}

/// Commits a new game behind one that is stored, and gives the first text that clashes.
fn commit_again<J: Index, R: Threads + Wait + Abort + Sync>(
    rt: &R,
    alloc: Global,
    ingest: &mut Ingest<MemDisk, J>,
    drawer: &mut Drawer<J>,
) -> Result<Option<Clashing>, Fail> {
    let mut texts = Vec::new(alloc);
    texts.push(text(alloc, 2, 0, "")?)?;
    texts.push(text(alloc, 1, 0, "")?)?;
    let again = tally_of(rt, alloc, texts)?;
    Ok(clash_of(ingest.commit(rt, alloc, again, drawer)))
}

/// The first text that clashes.
fn clash_of<J: Index>(answer: Result<Receipt<J>, CommitFault<J>>) -> Option<Clashing> {
    let Err(fault) = answer else {
        return None;
    };
    match fault {
        CommitFault::Clash {
            handed: _handed,
            pairs,
            note: _note,
        } => pairs.as_slice().first().copied(),
        _other => None,
    }
}

/// How many batches a store has, which are all published.
fn batches_of<J: Index, R: Wait + Abort>(
    rt: &R,
    alloc: Global,
    unnamed: Unnamed<MemDisk>,
) -> Result<(u32, MemDisk), Fail>
    requires { unnamed.index.name ≡ J.name }
{
    let (mut ingest, mut passes, _drawer) = name_ingest::<J, _, R>(rt, alloc, unnamed)?;
    let stored = ingest.batches();
    let note = ingest.tell();
    let disk = ingest.into_disk(rt);
    let mut pass = passes.pop().ok_or("there is a pass")?;
    pass.learn(note);
    assert_eq!(rt; pass.front(), stored);
    Ok((stored, disk))
}

// ---- faults of the disk

/// How many batches a store has once a call of its disk failed under its second commit, and a crash
/// with this choice tore what was written.
fn batches_behind_a_fault<R: Threads + Wait + Abort + Sync>(
    rt: &R,
    alloc: Global,
    failing: u64,
    choice: u64,
) -> Result<u32, Fail> {
    let unnamed = new_store(rt, alloc, vec![in alloc; failing]?)?;
    let disk = breaks::<Brand, _>(rt, alloc, unnamed)?;
    let unnamed = open_ingest(rt, alloc, disk.crashed(choice), 1)?;
    let (batches, _disk) = batches_of::<Brand, _>(rt, alloc, unnamed)?;
    Ok(batches)
}

#[test]
fn call_of_the_second_commit_fails(rt: HostRuntime) -> Result<(), Fail> {
    // The disk's calls: three of the creation, four of the first commit, and of the second one a
    // write, a sync, a write of the gate, which is torn to 1, 0, 1, 1, 1, 2, 1 and 3, and a sync.
    let torn = [2, 1, 2, 2, 2, 1, 2, 1];
    for (failing, counts) in [(7, [1; 8]), (8, [1; 8]), (9, torn), (10, torn)] {
        for (choice, batches) in counts.iter().enumerate() {
            let found = batches_behind_a_fault(&rt, rt.alloc(), failing, choice as u64)?;
            assert_eq!(rt; found, *batches, "call {failing}, choice {choice}");
        }
    }
    Ok(())
}

fn breaks<J: Index, R: Threads + Wait + Abort + Sync>(
    rt: &R,
    alloc: Global,
    unnamed: Unnamed<MemDisk>,
) -> Result<MemDisk, Fail>
    requires { unnamed.index.name ≡ J.name }
{
    let (mut ingest, passes, mut drawer) = name_ingest::<J, _, R>(rt, alloc, unnamed)?;
    let outcome = go_on_behind_a_fault(rt, alloc, &mut ingest, &mut drawer, passes);
    let disk = ingest.into_disk(rt);
    outcome?;
    Ok(disk)
}

/// The second batch meets a disk fault, the third finds the store closed, and readers go on.
fn go_on_behind_a_fault<J: Index, R: Threads + Wait + Abort + Sync>(
    rt: &R,
    alloc: Global,
    ingest: &mut Ingest<MemDisk, J>,
    drawer: &mut Drawer<J>,
    mut passes: Vec<Pass<J>>,
) -> Result<(), Fail> {
    let mut pass = passes.pop().ok_or("a pass")?;
    let mut marks = Marks::new();
    let wanted = [None, Some(("disk fault", 0, 1)), Some(("closed", 0, 1))];
    for number in 0..3u32 {
        let fault = commit_one(rt, alloc, ingest, drawer, &mut marks, number)?;
        assert!(rt; fault == wanted[number as usize], "of game {number}");
        assert_eq!(rt; pass.enter(alloc)?.batches(), 1);
    }
    assert_eq!(rt; (marks.disk_faults(), marks.closed_stores()), (1, 1));
    assert_eq!(rt; batches_told(rt, ingest, &mut pass), Some((1, 1)));
    Ok(())
}

/// Commits a batch of one game, and gives the fault of the disk that is told.
fn commit_one<J: Index, R: Threads + Wait + Abort + Sync>(
    rt: &R,
    alloc: Global,
    ingest: &mut Ingest<MemDisk, J>,
    drawer: &mut Drawer<J>,
    marks: &mut Marks,
    number: u32,
) -> Result<Option<(&'static str, u64, u64)>, Fail> {
    let tally = games(rt, alloc, number, 1)?;
    Ok(fault_of(marks, ingest.commit(rt, alloc, tally, drawer)))
}

/// How many batches a store has that holds nothing back, and how many a pass then knows.
fn batches_told<J: Index, R: Wait>(
    rt: &R,
    ingest: &mut Ingest<MemDisk, J>,
    pass: &mut Pass<J>,
) -> Option<(u32, u32)> {
    let batches = ingest.batches();
    if !matches!(ingest.catch_up(rt), Ok(None)) {
        return None;
    }
    pass.learn(ingest.tell());
    ingest.confirm(pass);
    Some((batches, pass.front()))
}

/// The fault of the disk that an answer tells of, with its counts. Its mark is counted.
fn fault_of<J: Index>(
    marks: &mut Marks,
    answer: Result<Receipt<J>, CommitFault<J>>,
) -> Option<(&'static str, u64, u64)> {
    match answer {
        Err(
            CommitFault::DiskFault {
                before,
                after,
                mark,
            },
        ) => {
            marks.add(&mark);
            Some(("disk fault", before, after))
        }
        Err(
            CommitFault::Closed {
                before,
                after,
                mark,
            },
        ) => {
            marks.add(&mark);
            Some(("closed", before, after))
        }
        _ => None,
    }
}

// ---- a full list

#[test]
fn sixty_fifth_batch_finds_room_by_a_join(rt: HostRuntime) -> Result<(), Fail> {
    let unnamed = new_store(&rt, rt.alloc(), Vec::new(rt.alloc()))?;
    fills_the_list::<Brand, _>(&rt, rt.alloc(), unnamed)
}

fn fills_the_list<J: Index, R: Threads + Wait + Abort + Sync>(
    rt: &R,
    alloc: Global,
    unnamed: Unnamed<MemDisk>,
) -> Result<(), Fail>
    requires { unnamed.index.name ≡ J.name }
{
    let (mut ingest, _passes, mut drawer) = name_ingest::<J, _, R>(rt, alloc, unnamed)?;
    let outcome = fill_the_list(rt, alloc, &mut ingest, &mut drawer);
    let _disk = ingest.into_disk(rt);
    outcome
}

/// Commits alone join nothing until 64 segments stand, and the 65th joins two.
fn fill_the_list<J: Index, R: Threads + Wait + Abort + Sync>(
    rt: &R,
    alloc: Global,
    ingest: &mut Ingest<MemDisk, J>,
    drawer: &mut Drawer<J>,
) -> Result<(), Fail> {
    for number in 0..65u32 {
        if commit_games(rt, alloc, ingest, drawer, number, 1)?.is_none() {
            return Err(Fail::from("not stored"));
        }
        let list = ingest.publisher().list();
        let stands = (list.batches(), list.segments().len());
        assert_eq!(rt; stands, (number + 1, (number as usize + 1).min(64)));
    }
    Ok(())
}

// ---- damaged stores

/// A disk with a store of two batches, of one text each.
fn disk_of_two(alloc: Global, first: Bytes, second: Bytes) -> Result<MemDisk, Fail> {
    let Ok(mut manifest) = create(MemDisk::new(alloc, 10_000, Vec::new(alloc))?) else {
        return Err(Fail::from("not created"));
    };
    let stored = store_text(alloc, &mut manifest, first);
    let stored_too = store_text(alloc, &mut manifest, second);
    if stored.is_err() || stored_too.is_err() {
        return Err(Fail::from("not stored"));
    }
    Ok(manifest.into_disk())
}

/// Stores a batch of one short text, whether it has a game or not.
fn store_text<D: Disk>(
    alloc: Global,
    manifest: &mut Manifest<D>,
    text: Bytes,
) -> Result<(), AppendFault> {
    if text.len() == 0 || text.len() > 300 || manifest.gate() > 70_000 {
        return Err(AppendFault::OutOfMemory);
    }
    let Ok(batch) = batch_of(alloc, text) else {
        return Err(AppendFault::OutOfMemory);
    };
    manifest.store(alloc, &batch)
}

fn batch_of(alloc: Global, text: Bytes) -> Result<Batch, AllocError>
    ensures { IfOk result (λ batch. batch.texts ≡ text ∷ []) }
{
    Ok(Batch {
        label: Label::none(),
        texts: Texts::from_vec(vec![in alloc; text]?),
    })
}

/// A game, or a text without one.
fn text_of(alloc: Global, has_game: bool) -> Result<Bytes, AllocError> {
    if has_game {
        Ok(text(alloc, 1, 0, "")?.bytes)
    } else {
        Ok(Bytes::from_vec(vec![in alloc; b'x']?))
    }
}

/// The gate at which a store is damaged whose second batch has a game, and whose first one has the
/// same game or none.
fn damaged_at<R: Threads + Wait + Sync>(
    rt: &R,
    alloc: Global,
    has_game: bool,
) -> Result<u64, Fail> {
    let disk = disk_of_two(alloc, text_of(alloc, has_game)?, text_of(alloc, true)?)?;
    damage_of(rt, alloc, disk, 1)
}

#[test]
fn damaged_store_is_not_opened(rt: HostRuntime) -> Result<(), Fail> {
    assert_eq!(rt; text(rt.alloc(), 1, 0, "")?.bytes.len(), 195);
    // The same id again stands behind a record of one text: its gate, its length, no label, and that
    // of its text.
    for (has_game, at) in [(true, 12 + 5 + 3 + 4 + 195), (false, 12)] {
        assert_eq!(rt; damaged_at(&rt, rt.alloc(), has_game)?, at);
    }
    Ok(())
}
