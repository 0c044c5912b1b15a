//! Stores that are opened through scratch files, and answers from there.
ghost use Rattle.std.specs.Prelude.{◌≡◌, ◌<◌, ◌≤◌, [], length};
ghost use Rattle.spill_blobs.specs.Sets.{HasJust, set_bytes};

use super::answers::{Asked, Played, five_games, line_of_found, query_of, table, text_of};
use super::desk::{disk_with, push_batch};
use disk_model::MemDisk;
use explorer_model::answer::Found;
use explorer_model::fault::Stop;
use ingest_desk::open_spilled;
use lookup::look_through;
use outside::{MemPort, Port};
use segment_blocks::Steps;
use spill_blobs::{PortFault, SpillSet};
use std::alloc::{AllocError, Global};
use std::marker::Brand;
use std::sync::Wait;
use std::sync::ledger::{Blank, Ledger};
use std::test::Fail;
use std::thread::Threads;

/// A disk with a store of these games, of which each batch has so many, the last one those that
/// are left.
fn store_of(alloc: Global, games: &[Played], size: usize) -> Result<MemDisk, Fail>
    requires { 0 < size }
{
    let mut file = b"OPENEXP1\x02\0\0\0".to_vec(alloc)?;
    for batch in games.chunks(size) {
        push_games(alloc, &mut file, batch)?;
    }
    file.push(0)?;
    disk_with(alloc, file.as_slice())
}

/// Puts a batch of these games behind a file.
fn push_games(alloc: Global, file: &mut Vec<u8>, games: &[Played]) -> Result<(), AllocError> {
    let mut texts = Vec::new(alloc);
    for game in games {
        texts.push(text_of(alloc, game)?)?;
    }
    push_batch(alloc, file, texts.as_slice())
}

/// What is found in the set's journal through the port.
fn found_through<P: Port, L: Ledger>(
    alloc: Global,
    set: &SpillSet,
    asked: &Asked,
    port: &mut P,
    blank: Blank,
) -> Result<Found, Stop<PortFault>>
    requires name { blank.name ≡ L.name }
    requires parts { blank.parts ≡ L.parts }
    requires some { 0 < L.parts }
    requires size { length (set_bytes set.now) ≤ (P.port port.old).size }
{
    let mut steps = Steps::<L>::new(blank);
    look_through(alloc, set, &query_of(alloc, asked), port, &mut steps)
}

/// What an opening through an empty scratch file comes to, and what is found there, in one line.
fn told_through<R: Threads + Wait + Sync, P: Port>(
    rt: &R,
    alloc: Global,
    disk: MemDisk,
    asked: &Asked,
    port: &mut P,
) -> Result<String, Fail>
    requires { HasJust (P.port port.old) [] }
{
    let (_disk, set) = match open_spilled(rt, alloc, disk, 2, port) {
        Ok(opened) => opened,
        Err(back) => return Ok(format!(in alloc; "{:?}", back.fault)?),
    };
    let parts = set.parts();
    match found_through::<P, Brand>(alloc, &set, asked, port, Blank::new(1)) {
        Ok(found) => {
            let line = line_of_found(alloc, &found)?;
            Ok(format!(in alloc; "{parts} parts: {line}")?)
        }
        Err(Stop::Fault(fault)) => Ok(format!(in alloc; "{fault:?}")?),
        Err(Stop::OutOfMemory) => Err(Fail::from("out of memory")),
    }
}

#[test]
fn scratch_files_of_one_three_and_five_parts_answer_alike(rt: HostRuntime) -> Result<(), Fail> {
    let alloc = rt.alloc();
    for (asked, answer) in &table() {
        for (size, parts) in [(5, 1), (2, 3), (1, 5)] {
            let disk = store_of(alloc, &five_games(), size)?;
            let mut port = MemPort::new(alloc, 10_000, Vec::new(alloc))?;
            let found = told_through(&rt, alloc, disk, asked, &mut port)?;
            let wanted = format!(in alloc; "{parts} parts: {answer}")?;
            assert_eq!(rt; found.as_str(), wanted.as_str());
        }
    }
    Ok(())
}

/// The calls of the scratch file: an append for each batch, and then reads. Two batches are stored,
/// or one, or two with the same game, of which the second is not sound.
#[test]
fn calls_that_fail_are_told_in_their_order(rt: HostRuntime) -> Result<(), Fail> {
    let alloc = rt.alloc();
    let append = "Port(WriteFault { before: 0, after: 1 })";
    let read = "ReadFault { before: 0, after: 1 }";
    // The header has 12 bytes, and the first record 5 and 3, and 4 before a text of 197.
    let unsound = "Store(Log(Damaged { at: 221 }))";
    for (is_same, size, failing, wanted) in [
        (false, 1, 0, append),
        (false, 1, 1, append),
        (false, 1, 2, read),
        (false, 2, 1, read),
        (true, 1, 0, append),
        (true, 1, 1, unsound),
    ] {
        let [ann, bea, _, _, _] = five_games();
        let second = if is_same { ann } else { bea };
        let disk = store_of(alloc, &[ann, second], size)?;
        let mut port = MemPort::new(alloc, 10_000, vec![in alloc; failing]?)?;
        let found = told_through(&rt, alloc, disk, &everything(), &mut port)?;
        assert_eq!(rt; found.as_str(), wanted, "call {failing}");
    }
    Ok(())
}

#[test]
fn zeros_in_place_of_rows_are_damaged(rt: HostRuntime) -> Result<(), Fail> {
    let alloc = rt.alloc();
    let disk = store_of(alloc, &five_games(), 2)?;
    let mut port = MemPort::blank(alloc, Vec::new(alloc));
    let found = told_through(&rt, alloc, disk, &everything(), &mut port)?;
    assert_eq!(rt; found.as_str(), "Damaged { part: 0 }");
    Ok(())
}

/// The first question of the table.
fn everything() -> Asked {
    let [(asked, _), _, _, _, _, _] = table();
    asked
}
