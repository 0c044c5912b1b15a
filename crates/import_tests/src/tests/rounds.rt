//! Imports that read ahead: an end behind groups in hand, a store that becomes full, a slow source.
ghost use Rattle.std.specs.Prelude.{◌≡◌, ◌<◌};

use super::imports::{
    Part, Stream, Wanted, are_told, import_all, is_told, refusal, reports_say, whole,
};
use super::{Told, games, name_ingest, new_store, summary_of};
use disk_model::{Disk, MemDisk};
use explorer_model::fault::Why;
use explorer_model::label::Label;
use import_run::import_alone;
use ingest_desk::{ImportEnding, Ingest, Unnamed, open};
use outside::{Failed, FreeGate, MemSource, Source};
use published_index::{Drawer, Index, Pass};
use std::alloc::{AllocError, Global};
use std::marker::Brand;
use std::process::Abort;
use std::sync::Wait;
use std::test::Fail;
use std::thread::Threads;

// ---- ends behind groups in hand

#[test]
fn a_read_fault_is_told_behind_the_groups_in_hand(rt: HostRuntime) -> Result<(), Fail> {
    // 53 reads give 1,119 texts. The third group isn't whole: its texts, which are stored, are not listed.
    let parts = [Part::Games(0, 1024), Part::Games(0, 100)];
    let ending = ImportEnding::ReadFault {
        before: 0,
        after: 1,
    };
    let batches = [(1, 0, 512), (2, 512, 512)];
    let wanted = (ending, batches.as_slice(), [].as_slice());
    for workers in [1, 2, 4, 16] {
        let stream = Stream {
            failing: 53,
            workers,
            ..whole(&parts)
        };
        assert!(rt;
            reports_say(&rt, rt.alloc(), &[], &[stream], &[wanted])?,
            "{workers} workers"
        );
    }
    Ok(())
}

/// A call of the disk that fails, a read that fails behind the group that is stored then, and the
/// batches before it.
type DiskCase = (u64, u64, &'static [(u32, u32, u32)]);

/// Making the store calls the disk three times, and storing a batch four times: of the second batch the
/// second call fails, and of the third one each.
const DISK_CASES: [DiskCase; 5] = [
    (8, 55, &[(1, 0, 512)]),
    (11, 80, &[(1, 0, 512), (2, 512, 512)]),
    (12, 80, &[(1, 0, 512), (2, 512, 512)]),
    (13, 80, &[(1, 0, 512), (2, 512, 512)]),
    (14, 80, &[(1, 0, 512), (2, 512, 512)]),
];

#[test]
fn groups_behind_a_disk_fault_are_dropped(rt: HostRuntime) -> Result<(), Fail> {
    // The texts of the fourth group and of the fifth one are stored, or stand in a group before: none
    // of them is listed.
    let parts = [Part::Games(0, 1536), Part::Games(0, 600)];
    for (failing, read, batches) in DISK_CASES {
        for workers in [1, 2, 4, 16] {
            let never = Stream {
                workers,
                ..whole(&parts)
            };
            // A read that fails behind the group is not told.
            let once = Stream {
                failing: read,
                ..never
            };
            let ending = ImportEnding::DiskFault {
                before: 0,
                after: 1,
            };
            let wanted = (ending, batches, [].as_slice());
            for stream in [never, once] {
                assert!(rt;
                    reports_say(&rt, rt.alloc(), &[failing], &[stream], &[wanted])?,
                    "{workers} workers, call {failing}"
                );
            }
        }
    }
    Ok(())
}

// ---- a store that becomes full

/// How many games a store may have.
const LIMIT: u32 = 262_144;

/// How many groups a store has room for in these tests.
const ROOM: u32 = 3;

#[test]
fn a_group_without_room_is_told_before_a_read_that_failed(rt: HostRuntime) -> Result<(), Fail> {
    let alloc: Global = rt.alloc();
    let at = LIMIT - ROOM * 512;
    let file = store_file(alloc, at / 512)?;
    // Of each stream two groups are whole, and a read fails in the third one, whose texts are stored.
    let streams = [
        [Part::Games(at as usize, 1024), Part::Games(0, 100)],
        [Part::Games(at as usize + 1024, 1024), Part::Games(0, 100)],
    ];
    let fault = ImportEnding::ReadFault {
        before: 0,
        after: 1,
    };
    let full = ImportEnding::Full {
        games: 262_144,
        bytes: 262_144 * 194,
    };
    let stored = [(510, at, 512), (511, at + 512, 512)];
    let last = [(512, at + 1024, 512)];
    let wanted = [
        (fault, stored.as_slice(), [].as_slice()),
        (full, last.as_slice(), [].as_slice()),
    ];
    assert!(rt; near_full_say(&rt, alloc, file.as_slice(), &streams, &wanted)?);
    Ok(())
}

/// Streams of each of which a read fails behind 1,119 texts.
fn failing_in_the_third(
    alloc: Global,
    streams: &[[Part; 2]],
) -> Result<Vec<Stream<'_>>, AllocError> {
    let mut all = Vec::new(alloc);
    for parts in streams {
        all.push(Stream {
            failing: 53,
            workers: 4,
            ..whole(parts)
        })?;
    }
    Ok(all)
}

/// Whether the imports of the streams into the store of a file report so.
fn near_full_say<R: Threads + Wait + Abort + Sync>(
    rt: &R,
    alloc: Global,
    file: &[u8],
    streams: &[[Part; 2]],
    wanted: &[Wanted],
) -> Result<bool, Fail> {
    let streams = failing_in_the_third(alloc, streams)?;
    let Ok(unnamed) = open(rt, alloc, disk_with(alloc, file)?, 4, 1) else {
        return Err(Fail::from("not opened"));
    };
    let told = import_all::<Brand, _>(rt, alloc, unnamed, streams.as_slice())?;
    Ok(are_told(told.as_slice(), wanted))
}

/// The file of a store of whole batches of games without a move, with ids by their numbers.
fn store_file(alloc: Global, batches: u32) -> Result<Vec<u8>, AllocError> {
    let mut file = b"OPENEXP1\x02\0\0\0".to_vec(alloc)?;
    for batch in 0..batches.min(512) {
        push_record(alloc, &mut file, batch * 512)?;
    }
    file.push(0)?;
    Ok(file)
}

/// Puts the record of a whole batch behind a file: its gate, its length, no label, and its texts behind
/// their count, each of 194 bytes behind its length.
fn push_record(alloc: Global, file: &mut Vec<u8>, first: u32) -> Result<(), AllocError> {
    let length: u32 = 1 + 2 + 512 * (4 + 194);
    file.push(1)?;
    file.extend_from_slice(&length.to_le_bytes())?;
    file.push(0)?;
    file.extend_from_slice(&512u16.to_le_bytes())?;
    for number in first..first.saturating_add(512) {
        file.extend_from_slice(&194u32.to_le_bytes())?;
        let text = games(alloc, number as usize, 1)?;
        file.extend_from_slice(text.as_slice())?;
    }
    Ok(())
}

/// A disk with a file, and room for some batches more.
fn disk_with(alloc: Global, file: &[u8]) -> Result<MemDisk, Fail> {
    if file.len() > 100_000_000 {
        return Err(Fail::from("a large file"));
    }
    let mut disk = MemDisk::new(alloc, file.len() + 1_000_000, Vec::new(alloc))?;
    if disk.write_at(0, file).is_err() {
        return Err(Fail::from("not written"));
    }
    Ok(disk)
}

// ---- a slow source

/// How many bytes come behind a group, each with a read.
const SLOW: usize = 1_000_000;

/// A source that gives a byte a read, and looks before each whether a pass sees a batch.
#[derive(Drop)]
struct SlowSource<J: Index> {
    source: MemSource,
    alloc: Global,
    pass: Pass<J>,
    /// Whether the pass has seen a batch.
    seen: bool,
}

impl<J: Index> Source for SlowSource<J> {
    ghost source = { λ s. s.source.stream };

    fn read(&mut self, into: &mut [u8]) -> Result<usize, Failed> {
        if !self.seen {
            self.seen = sees_a_batch(self.alloc, &mut self.pass);
        }
        self.source.read(into)
    }

    fn read_faults(&self) -> u64 {
        self.source.read_faults()
    }
}

fn sees_a_batch<J: Index>(alloc: Global, pass: &mut Pass<J>) -> bool {
    match pass.enter(alloc) {
        Ok(snapshot) => snapshot.batches() > 0,
        Err(_) => false,
    }
}

#[test]
fn a_group_is_stored_while_a_slow_source_gives_a_byte_a_read(rt: HostRuntime) -> Result<(), Fail> {
    let alloc: Global = rt.alloc();
    let long = Why::TooLong { length: 1_000_011 };
    let refused = [refusal(512 * 194, long)];
    let batches = [(1, 0, 512)];
    let wanted = (ImportEnding::Whole, batches.as_slice(), refused.as_slice());
    for workers in [1, 4] {
        let unnamed = new_store(&rt, alloc, Vec::new(alloc))?;
        let (told, seen) = import_slowly::<Brand, _>(&rt, alloc, unnamed, workers)?;
        assert!(rt; seen && is_told(&told, wanted), "{workers} workers");
    }
    Ok(())
}

/// Imports a group by a slow source, and says whether it was seen before the source had ended.
fn import_slowly<J: Index, R: Threads + Wait + Abort + Sync>(
    rt: &R,
    alloc: Global,
    unnamed: Unnamed<MemDisk>,
    workers: usize,
) -> Result<(Told, bool), Fail>
    requires { unnamed.index.name ≡ J.name }
{
    let (mut ingest, mut passes, mut drawer) = name_ingest::<J, R>(rt, alloc, unnamed)?;
    let told = match passes.pop() {
        Some(pass) => import_for(rt, alloc, &mut ingest, &mut drawer, pass, workers),
        None => Err(Fail::from("a pass")),
    };
    let _disk = ingest.into_disk(rt);
    told
}

fn import_for<J: Index, R: Threads + Wait + Abort + Sync>(
    rt: &R,
    alloc: Global,
    ingest: &mut Ingest<MemDisk, J>,
    drawer: &mut Drawer<J>,
    pass: Pass<J>,
    workers: usize,
) -> Result<(Told, bool), Fail> {
    if workers == 0 || workers > 16 {
        return Err(Fail::from("so many workers are not allowed"));
    }
    let mut source = slow_source(alloc, pass)?;
    let label = Label::none();
    let report = import_alone(
        rt,
        alloc,
        &mut source,
        ingest,
        drawer,
        label,
        workers,
        &FreeGate,
    );
    Ok((summary_of(alloc, report)?, source.seen))
}

/// A group, and behind it a text that is too long.
fn slow_source<J: Index>(alloc: Global, pass: Pass<J>) -> Result<SlowSource<J>, AllocError> {
    let mut bytes = games(alloc, 0, 512)?;
    bytes.extend_from_slice(b"[Event \"?\"]")?;
    for _ in 0..SLOW {
        bytes.push(b'\n')?;
    }
    Ok(SlowSource {
        source: MemSource::new(bytes, 1, Vec::new(alloc)),
        alloc,
        pass,
        seen: false,
    })
}
