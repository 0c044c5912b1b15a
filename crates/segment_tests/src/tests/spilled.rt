//! Rows in a scratch file, written and read back.
ghost use Rattle.std.specs.Prelude.{◌≡◌, ◌+◌, ◌<◌, ◌≤◌, [], None};
ghost use Rattle.outside.specs.Ports.{scratch_of};
ghost use Rattle.spill_blobs.specs.Sets.{HasJust};

use super::merges::all_rows;
use super::tallies::tally_texts;
use explorer_model::archive::{Bytes, Placed};
use explorer_model::fault::Stop;
use legal_moves::board::Board;
use outside::{Failed, FreeGate, MemPort, Port};
use packed_keys::pack;
use segment_blocks::{Segment, Steps};
use spill_blobs::{PortFault, SpillSet};
use std::alloc::{AllocError, Global};
use std::marker::Brand;
use std::sync::ledger::{Blank, Ledger};
use std::test::Fail;
use std::thread::Threads;
use tally_rows::Row;

/// A scratch file that gives other bytes than were appended, and tells none.
#[derive(Drop)]
struct Spoiled {
    port: MemPort,
    /// So many reads give the first block, whichever they ask for.
    firsts: u32,
    /// What stands in each read at a place.
    change: Option<(usize, u8)>,
}

impl Port for Spoiled {
    ghost use Rattle.std.specs.Prelude.{None};
    ghost use Rattle.std.proofs.Common.{rules};
    ghost use Rattle.outside.specs.Ports.{scratch_of};

    ghost port = { λ spoiled. record (scratch_of spoiled.port) { appended = None } };

    fn append(&mut self, piece: &[u8]) -> Result<(), Failed> {
        self.port.append(piece)
    }

    fn read_at(&mut self, at: u64, into: &mut [u8]) -> Result<(), Failed> {
        let place = if self.firsts > 0 { 0 } else { at };
        self.firsts = self.firsts.saturating_sub(1);
        self.port.read_at(place, into)?;
        put_change(into, self.change);
        Ok(())
    }

    fn faults(&self) -> u64 {
        self.port.faults()
    }

    ghost told_size = { λ it bytes told. Prim.search rules };
}

fn put_change(into: &mut [u8], change: Option<(usize, u8)>) {
    if let Some((place, byte)) = change {
        if place < into.len() {
            into[place] = byte;
        }
    }
}

/// What 20 games begin with.
const OPENINGS: [&str; 20] = [
    "a3", "a4", "b3", "b4", "c3", "c4", "d3", "d4", "e3", "e4", "f3", "f4", "g3", "g4", "h3", "h4",
    "Na3", "Nc3", "Nf3", "Nh3",
];

/// Game `number`: each 20 games begin with other moves in one month, and the next 20 in the next.
fn text(alloc: Global, number: u32) -> Result<Placed, AllocError> {
    let opening = OPENINGS[(number % 20) as usize];
    let year = 2010 + number / 240;
    let month = 1 + number / 20 % 12;
    let text = format!(in alloc;
        "[Event \"Rated blitz game\"]\n[Site \"https://lichess.org/aaaaa{number:03}\"]\n\
         [White \"Ann\"]\n[Black \"Bob\"]\n[Result \"1-0\"]\n[UTCDate \"{year}.{month:02}.15\"]\n\
         [WhiteElo \"1700\"]\n[BlackElo \"1600\"]\n[TimeControl \"300+0\"]\n\n1. {opening} 1-0\n"
    )?;
    Ok(Placed {
        place: u64::from(number),
        bytes: Bytes::from_vec(text.into_bytes()),
    })
}

/// The segment of so many games, which have as many rows at the start.
fn segment<R: Threads + Sync>(rt: &R, alloc: Global, count: u32) -> Result<Segment, Fail> {
    let mut texts = Vec::new(alloc);
    for number in 0..count {
        texts.push(text(alloc, number)?)?;
    }
    let Some(tallying) = tally_texts(rt, alloc, texts, 1, &FreeGate)? else {
        return Err(Fail::from("too many games"));
    };
    let tally = tallying.tally;
    match tally {
        Some(tally) => Ok(Segment::of(alloc, 0, tally)?),
        None => Err(Fail::from("no game")),
    }
}

/// The rows of a segment at the start, once it is spilled to an empty file.
fn rows_through<P: Port, L: Ledger>(
    alloc: Global,
    segment: Segment,
    port: &mut P,
    blank: Blank,
) -> Result<Vec<Row>, Stop<PortFault>>
    requires name { blank.name ≡ L.name }
    requires parts { blank.parts ≡ L.parts }
    requires some { 0 < L.parts }
    requires just { HasJust (P.port port.old) [] }
{
    if segment.span().first != 0 || 262_144 < segment.games() {
        return Err(Stop::OutOfMemory);
    }
    let mut set = SpillSet::new(alloc);
    set.add(alloc, segment, port)?;
    let mut steps = Steps::<L>::new(blank);
    let start = Board::start().position();
    set.rows(alloc, 0, &start, port, &mut steps)
}

/// The same through a file in memory with so much room, some of whose calls fail.
fn through_memory(
    alloc: Global,
    segment: Segment,
    room: usize,
    failing: Vec<u64>,
) -> Result<Vec<Row>, Stop<PortFault>> {
    let Ok(mut port) = MemPort::new(alloc, room, failing) else {
        return Err(Stop::OutOfMemory);
    };
    rows_through::<MemPort, Brand>(alloc, segment, &mut port, Blank::new(1))
}

/// The same through a file that gives other bytes.
fn through_spoiled(
    alloc: Global,
    segment: Segment,
    firsts: u32,
    change: Option<(usize, u8)>,
) -> Result<Vec<Row>, Stop<PortFault>> {
    let Ok(port) = MemPort::new(alloc, 200_000, Vec::new(alloc)) else {
        return Err(Stop::OutOfMemory);
    };
    let mut port = Spoiled {
        port,
        firsts,
        change,
    };
    rows_through::<Spoiled, Brand>(alloc, segment, &mut port, Blank::new(1))
}

fn is_damaged(found: &Result<Vec<Row>, Stop<PortFault>>) -> bool {
    matches!(found, Err(Stop::Fault(PortFault::Damaged { part: 0 })))
}

#[test]
fn rows_of_the_start_are_found_again(rt: HostRuntime) -> Result<(), Fail> {
    let alloc = rt.alloc();
    let start = pack(&Board::start().position());
    for count in [1, 128, 129, 300] {
        let segment = segment(&rt, alloc, count)?;
        let mut wanted = all_rows::<Brand>(alloc, &segment, Blank::new(1))?;
        wanted.retain(|row| row.key == start);
        assert_eq!(rt; wanted.len(), count as usize);
        match through_memory(alloc, segment, 200_000, Vec::new(alloc)) {
            Ok(rows) => assert!(rt; rows.as_slice() == wanted.as_slice(), "{count} rows"),
            Err(_) => panic!(rt; "{count} rows are not found"),
        }
    }
    Ok(())
}

#[test]
fn an_append_that_fails_is_told(rt: HostRuntime) -> Result<(), Fail> {
    let alloc = rt.alloc();
    // Room for nothing, for some of a block, and for a block and some of the next.
    for room in [0, 40, 170] {
        let segment = segment(&rt, alloc, 20)?;
        let found = through_memory(alloc, segment, room, Vec::new(alloc));
        assert!(rt; is_write_fault(&found), "with room for {room} bytes");
    }
    let segment = segment(&rt, alloc, 20)?;
    let found = through_memory(alloc, segment, 200_000, vec![in alloc; 0]?);
    assert!(rt; is_write_fault(&found));
    Ok(())
}

fn is_write_fault(found: &Result<Vec<Row>, Stop<PortFault>>) -> bool {
    matches!(
        found,
        Err(Stop::Fault(PortFault::WriteFault {
            before: 0,
            after: 1,
        }))
    )
}

#[test]
fn a_read_that_fails_is_told(rt: HostRuntime) -> Result<(), Fail> {
    let alloc = rt.alloc();
    // The append is call 0.
    for call in [1, 2, 20] {
        let segment = segment(&rt, alloc, 20)?;
        let found = through_memory(alloc, segment, 200_000, vec![in alloc; call]?);
        let is_told = matches!(
            found,
            Err(Stop::Fault(PortFault::ReadFault {
                before: 0,
                after: 1,
            }))
        );
        assert!(rt; is_told, "call {call}");
    }
    Ok(())
}

#[test]
fn zeros_are_no_rows(rt: HostRuntime) -> Result<(), Fail> {
    let alloc = rt.alloc();
    let segment = segment(&rt, alloc, 20)?;
    let mut port = MemPort::blank(alloc, Vec::new(alloc));
    let found = rows_through::<MemPort, Brand>(alloc, segment, &mut port, Blank::new(1));
    assert!(rt; is_damaged(&found));
    Ok(())
}

/// What makes each row one that no games have, or none: a place in its block, and a byte there.
const CHANGES: [(usize, u8); 15] = [
    // Its key is that of no position; squares, what a pawn becomes, and the speed.
    (0, 255),
    (34, 64),
    (35, 64),
    (36, 5),
    (40, 6),
    // No game, more games than are listed, and ratings past 4,000.
    (43, 0),
    (44, 1),
    (57, 1),
    // Of its list by rating: five entries, two, a number past the games, and a byte behind them.
    (63, 5),
    (63, 2),
    (71, 1),
    (95, 1),
    // Of the list of the latest.
    (96, 5),
    (104, 1),
    (128, 1),
];

#[test]
fn rows_that_no_games_have_are_damaged(rt: HostRuntime) -> Result<(), Fail> {
    let alloc = rt.alloc();
    let whole = through_spoiled(alloc, segment(&rt, alloc, 1)?, 0, None);
    assert!(rt; whole.is_ok());
    for (place, byte) in CHANGES {
        let found = through_spoiled(alloc, segment(&rt, alloc, 1)?, 0, Some((place, byte)));
        assert!(rt; is_damaged(&found), "with {byte} at {place}");
    }
    Ok(())
}

#[test]
fn a_game_that_two_rows_list_is_damage(rt: HostRuntime) -> Result<(), Fail> {
    let alloc = rt.alloc();
    // Of two games in two rows: both rows list game 0 by rating, or as one of the latest.
    for place in [68, 101] {
        let found = through_spoiled(alloc, segment(&rt, alloc, 2)?, 0, Some((place, 0)));
        assert!(rt; is_damaged(&found), "with 0 at {place}");
    }
    Ok(())
}

#[test]
fn a_129th_lesser_row_is_damage(rt: HostRuntime) -> Result<(), Fail> {
    let alloc = rt.alloc();
    // The first of 600 rows stands before the start, as do those behind Na3 and Nc3.
    let found = through_spoiled(alloc, segment(&rt, alloc, 300)?, 128, None);
    assert!(rt; found.is_ok());
    let found = through_spoiled(alloc, segment(&rt, alloc, 300)?, 129, None);
    assert!(rt; is_damaged(&found));
    Ok(())
}
