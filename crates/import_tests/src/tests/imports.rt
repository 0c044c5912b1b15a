//! Imports of one who stores alone.
ghost use Rattle.std.specs.Prelude.{◌≡◌};

use super::{Told, games, name_ingest, new_store, summary_of};
use disk_model::MemDisk;
use explorer_model::fault::{GameFault, Refusal, TagFault, TagName, Why};
use explorer_model::label::Label;
use import_run::{DrainEnd, drain_alone, import_alone};
use ingest_desk::{ImportEnding, Ingest, Unnamed};
use outside::{FreeGate, MemSource};
use published_index::{Drawer, Index};
use std::alloc::{AllocError, Global};
use std::marker::Brand;
use std::process::Abort;
use std::sync::Wait;
use std::test::Fail;
use std::thread::Threads;

/// A part of a stream.
#[derive(Clone, Copy, Debug)]
pub(super) enum Part {
    /// Games without a move: the number of the first one, and how many there are.
    Games(usize, usize),
    Bytes(&'static str),
    /// A text of 65,537 bytes, which is one too many.
    LongText,
}

/// One import into a store: its stream, how many bytes a read gives at most, which read fails, and on
/// how many workers.
#[derive(Clone, Copy, Debug)]
pub(super) struct Stream<'a> {
    pub parts: &'a [Part],
    pub most: usize,
    pub failing: u64,
    pub workers: usize,
}

/// A read that no stream comes to.
const NEVER: u64 = u64::MAX;

/// A stream that each read gives as much of as is asked for.
pub(super) fn whole(parts: &[Part]) -> Stream<'_> {
    Stream {
        parts,
        most: 4096,
        failing: NEVER,
        workers: 2,
    }
}

fn push_part(alloc: Global, bytes: &mut Vec<u8>, part: Part) -> Result<(), AllocError> {
    match part {
        Part::Games(first, count) => bytes.extend_from_slice(games(
            alloc, first, count,
        )?.as_slice()),
        Part::Bytes(text) => bytes.extend_from_slice(text.as_bytes()),
        Part::LongText => push_long_text(bytes),
    }
}

fn push_long_text(bytes: &mut Vec<u8>) -> Result<(), AllocError> {
    let head = b"[Event \"?\"]\n";
    bytes.extend_from_slice(head)?;
    for _ in head.len()..65_537 {
        bytes.push(b'\n')?;
    }
    Ok(())
}

fn source_of(alloc: Global, stream: &Stream) -> Result<MemSource, Fail> {
    if stream.most == 0 {
        return Err(Fail::from("nothing is read"));
    }
    let mut bytes = Vec::new(alloc);
    for part in stream.parts {
        push_part(alloc, &mut bytes, *part)?;
    }
    let failing = Vec::from_slice(alloc, &[stream.failing])?;
    Ok(MemSource::new(bytes, stream.most, failing))
}

/// Imports the streams one after another into a new store on a disk, of whose calls these fail.
fn reports<R: Threads + Wait + Abort + Sync>(
    rt: &R,
    alloc: Global,
    failing: &[u64],
    streams: &[Stream],
) -> Result<Vec<Told>, Fail> {
    let unnamed = new_store(rt, alloc, failing.to_vec(alloc)?)?;
    import_all::<Brand, _>(rt, alloc, unnamed, streams)
}

pub(super) fn import_all<J: Index, R: Threads + Wait + Abort + Sync>(
    rt: &R,
    alloc: Global,
    unnamed: Unnamed<MemDisk>,
    streams: &[Stream],
) -> Result<Vec<Told>, Fail>
    requires { unnamed.index.name ≡ J.name }
{
    let (mut ingest, _passes, mut drawer) = name_ingest::<J, R>(rt, alloc, unnamed)?;
    let told = import_each(rt, alloc, &mut ingest, &mut drawer, streams);
    let drained = drain_alone(rt, alloc, &mut ingest, 2);
    let _disk = ingest.into_disk(rt);
    assert_eq!(rt; drained.end, DrainEnd::Idle);
    told
}

fn import_each<J: Index, R: Threads + Wait + Abort + Sync>(
    rt: &R,
    alloc: Global,
    ingest: &mut Ingest<MemDisk, J>,
    drawer: &mut Drawer<J>,
    streams: &[Stream],
) -> Result<Vec<Told>, Fail> {
    let mut all = Vec::new(alloc);
    for stream in streams {
        all.push(import_one(rt, alloc, ingest, drawer, stream)?)?;
    }
    Ok(all)
}

fn import_one<J: Index, R: Threads + Wait + Abort + Sync>(
    rt: &R,
    alloc: Global,
    ingest: &mut Ingest<MemDisk, J>,
    drawer: &mut Drawer<J>,
    stream: &Stream,
) -> Result<Told, Fail> {
    let mut source = source_of(alloc, stream)?;
    if stream.workers == 0 || stream.workers > 16 {
        return Err(Fail::from("so many workers are not allowed"));
    }
    let report = import_alone(
        rt,
        alloc,
        &mut source,
        ingest,
        drawer,
        Label::none(),
        stream.workers,
        &FreeGate,
    );
    Ok(summary_of(alloc, report)?)
}

/// What a report is to say: how the import ended, its batches, and what was refused.
pub(super) type Wanted<'a> = (ImportEnding, &'a [(u32, u32, u32)], &'a [Refusal]);

/// Whether the imports of the streams into a new store, of whose disk's calls these fail, report so.
pub(super) fn reports_say<R: Threads + Wait + Abort + Sync>(
    rt: &R,
    alloc: Global,
    failing: &[u64],
    streams: &[Stream],
    wanted: &[Wanted],
) -> Result<bool, Fail> {
    let told = reports(rt, alloc, failing, streams)?;
    Ok(are_told(told.as_slice(), wanted))
}

/// How many workers import, and how many bytes a read gives at most, in the tables of streams.
const WORKERS: [usize; 4] = [1, 2, 4, 16];

const PIECES: [usize; 3] = [1, 7, 4096];

/// The imports of the streams into a new store, of whose disk's calls these fail, report so with each
/// number of workers and in pieces of each length.
fn assert_reports<R: Threads + Wait + Abort + Sync>(
    rt: &R,
    alloc: Global,
    failing: &[u64],
    streams: &[&[Part]],
    wanted: &[Wanted],
) -> Result<(), Fail> {
    for workers in WORKERS {
        for most in PIECES {
            let streams = streams_of(alloc, streams, workers, most)?;
            assert!(rt;
                reports_say(rt, alloc, failing, streams.as_slice(), wanted)?,
                "{workers} workers, {most} bytes a read"
            );
        }
    }
    Ok(())
}

/// Streams none of whose reads fails.
fn streams_of<'a>(
    alloc: Global,
    streams: &[&'a [Part]],
    workers: usize,
    most: usize,
) -> Result<Vec<Stream<'a>>, AllocError> {
    let mut all = Vec::new(alloc);
    for parts in streams {
        all.push(Stream {
            parts: *parts,
            most,
            failing: NEVER,
            workers,
        })?;
    }
    Ok(all)
}

pub(super) fn are_told(told: &[Told], wanted: &[Wanted]) -> bool {
    told.len() == wanted.len()
        && told
            .iter()
            .zip(wanted)
            .all(|(told, wanted)| is_told(told, *wanted))
}

pub(super) fn is_told(told: &Told, (ending, batches, refused): Wanted) -> bool {
    told.ending == ending
        && told.batches.as_slice() == batches
        && told.refused.as_slice() == refused
}

pub(super) const fn refusal(place: u64, why: Why) -> Refusal {
    Refusal { place, why }
}

// ---- what is stored and refused

/// The refusals of so many stored games, each of which has 194 bytes.
fn repeats(alloc: Global, count: u32) -> Result<Vec<Refusal>, AllocError> {
    let mut all = Vec::new(alloc);
    for number in 0..count {
        all.push(refusal(194 * u64::from(number), Why::Repeated { number }))?;
    }
    Ok(all)
}

#[test]
fn a_stream_of_1500_games_is_stored_once(rt: HostRuntime) -> Result<(), Fail> {
    let streams = [[Part::Games(0, 1500)].as_slice(); 2];
    let batches = [(1, 0, 512), (2, 512, 512), (3, 1024, 476)];
    let repeated = repeats(rt.alloc(), 1500)?;
    let wanted = [
        (ImportEnding::Whole, batches.as_slice(), [].as_slice()),
        (ImportEnding::Whole, [].as_slice(), repeated.as_slice()),
    ];
    assert_reports(&rt, rt.alloc(), &[], &streams, &wanted)
}

#[test]
fn stored_text_is_refused_with_its_number_and_the_other_stays(rt: HostRuntime) -> Result<(), Fail> {
    let streams = [
        [Part::Games(0, 701)].as_slice(),
        [Part::Games(900, 1), Part::Games(700, 1)].as_slice(),
    ];
    let stored = [(1, 0, 512), (2, 512, 189)];
    let refused = [refusal(194, Why::Repeated { number: 700 })];
    let wanted = [
        (ImportEnding::Whole, stored.as_slice(), [].as_slice()),
        (
            ImportEnding::Whole,
            [(3, 701, 1)].as_slice(),
            refused.as_slice(),
        ),
    ];
    assert_reports(&rt, rt.alloc(), &[], &streams, &wanted)
}

#[test]
fn refusals_stand_in_the_order_of_their_places(rt: HostRuntime) -> Result<(), Fail> {
    let game = Part::Games(0, 1);
    let parts = [Part::Bytes("x\n"), game, game, Part::LongText, game];
    let preamble = refusal(0, Why::Preamble);
    // Once more, the first text is a repeat, and stands between the others.
    let again = refusal(2, Why::Repeated { number: 0 });
    let twice = refusal(196, Why::Twice { first: 2 });
    let long = refusal(390, Why::TooLong { length: 65_537 });
    let thrice = refusal(65_927, Why::Twice { first: 2 });
    let first = [preamble, twice, long, thrice];
    let second = [preamble, again, twice, long, thrice];
    let wanted = [
        (
            ImportEnding::Whole,
            [(1, 0, 1)].as_slice(),
            first.as_slice(),
        ),
        (ImportEnding::Whole, [].as_slice(), second.as_slice()),
    ];
    assert_reports(&rt, rt.alloc(), &[], &[parts.as_slice(); 2], &wanted)
}

#[test]
fn equal_streams_in_other_pieces_have_equal_reports(rt: HostRuntime) -> Result<(), Fail> {
    let parts = [
        Part::Games(0, 2),
        Part::Games(1, 2),
        Part::Bytes("[Event \"?\"]\n1. e4"),
    ];
    let no_site = TagFault::Missing {
        name: TagName::Site,
    };
    let last = refusal(776, Why::Game(GameFault::Tag(no_site)));
    let first = [refusal(388, Why::Twice { first: 194 }), last];
    let others = [
        refusal(0, Why::Repeated { number: 0 }),
        refusal(194, Why::Repeated { number: 1 }),
        refusal(388, Why::Twice { first: 194 }),
        refusal(582, Why::Repeated { number: 2 }),
        last,
    ];
    let wanted = [
        (
            ImportEnding::Whole,
            [(1, 0, 3)].as_slice(),
            first.as_slice(),
        ),
        (ImportEnding::Whole, [].as_slice(), others.as_slice()),
    ];
    assert_reports(&rt, rt.alloc(), &[], &[parts.as_slice(); 2], &wanted)
}

#[test]
fn texts_that_come_twice_are_refused_over_groups(rt: HostRuntime) -> Result<(), Fail> {
    // The texts from 1100 to 1699 come twice: they are the games from 500 on.
    let parts = [Part::Games(0, 1100), Part::Games(500, 700)];
    let batches = [(1, 0, 512), (2, 512, 512), (3, 1024, 76), (4, 1100, 100)];
    let repeated = repeated_behind(rt.alloc(), 1100, 1700)?;
    let wanted = (ImportEnding::Whole, batches.as_slice(), repeated.as_slice());
    assert_reports(&rt, rt.alloc(), &[], &[parts.as_slice()], &[wanted])
}

/// The refusals of texts from this one on, each with the number of the game 600 texts before it.
fn repeated_behind(alloc: Global, from: u32, to: u32) -> Result<Vec<Refusal>, AllocError> {
    let mut refused = Vec::new(alloc);
    for n in from..to {
        let number = n.saturating_sub(600);
        refused.push(refusal(194 * u64::from(n), Why::Repeated { number }))?;
    }
    Ok(refused)
}

// ---- faults

#[test]
fn a_failed_read_leaves_the_whole_groups(rt: HostRuntime) -> Result<(), Fail> {
    // 26 reads give 548 texts.
    let stream = Stream {
        failing: 26,
        ..whole(&[Part::Games(0, 600)])
    };
    let ending = ImportEnding::ReadFault {
        before: 0,
        after: 1,
    };
    let wanted = [(ending, [(1, 0, 512)].as_slice(), [].as_slice())];
    assert!(rt; reports_say(&rt, rt.alloc(), &[], &[stream], &wanted)?);
    Ok(())
}

#[test]
fn a_disk_fault_closes_the_store(rt: HostRuntime) -> Result<(), Fail> {
    let streams = [
        [Part::Games(0, 1)].as_slice(),
        [Part::Games(0, 2)].as_slice(),
        [Part::Games(2, 1)].as_slice(),
    ];
    let fault = ImportEnding::DiskFault {
        before: 0,
        after: 1,
    };
    let closed = ImportEnding::Closed {
        before: 0,
        after: 1,
    };
    let repeated = [refusal(0, Why::Repeated { number: 0 })];
    let wanted = [
        (ImportEnding::Whole, [(1, 0, 1)].as_slice(), [].as_slice()),
        (fault, [].as_slice(), repeated.as_slice()),
        (closed, [].as_slice(), [].as_slice()),
    ];
    // Making the store calls the disk three times, and storing a batch four times.
    assert_reports(&rt, rt.alloc(), &[8], &streams, &wanted)
}
