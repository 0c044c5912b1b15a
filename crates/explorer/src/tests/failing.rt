//! Each call of what a run meets outside itself fails in turn.
use super::{NEVER, game_by_id, status_of, streams_of, with_name};
use disk_model::{Disk, MemDisk};
use host::laws::what_is_handed_out_is_out;
use host::{Host, MemFile, MemHost, MemLinks};
use outside::{MemLink, MemSink, MemSource};
use std::alloc::{AllocError, Global};
use std::sync::Wait;
use std::test::Fail;
use std::thread::Threads;

/// What the call that fails is asked of.
#[derive(Clone, Copy, Debug, PartialEq, Eq)]
enum Device {
    /// The disk of the store, whose calls are counted from the three of its creation on.
    Disk,
    EmptyDisk,
    File,
    Door,
    Link,
    Reply,
    Output,
}

/// The one call that fails.
#[derive(Clone, Copy, Debug)]
struct Fault {
    device: Device,
    call: u64,
}

impl Fault {
    /// The number of the call where it is one of this device.
    fn number(self, device: Device) -> u64 {
        if self.device == device {
            self.call
        } else {
            NEVER
        }
    }

    /// The calls of this device that fail.
    fn of(self, alloc: Global, device: Device) -> Result<Vec<u64>, AllocError> {
        Ok(Vec::from_slice(alloc, &[self.number(device)])?)
    }
}

/// A new store.
fn store(alloc: Global, fault: Fault) -> Result<MemDisk, AllocError> {
    let disk = MemDisk::new(alloc, 1 << 16, fault.of(alloc, Device::Disk)?)?;
    match manifest::create(disk) {
        Ok(manifest) => Ok(manifest.into_disk()),
        Err(_) => Err(AllocError),
    }
}

/// A link that asks one question.
fn link(alloc: Global, fault: Fault) -> Result<MemLink, AllocError> {
    let asked = Vec::from_slice(alloc, b"GET /lichess HTTP/1.1\r\n\r\n")?;
    let source = MemSource::new(asked, 64, fault.of(alloc, Device::Link)?);
    let sink = MemSink::new(alloc, 4096, fault.of(alloc, Device::Reply)?)?;
    Ok(MemLink::new(source, sink))
}

/// A host with a store `s`, an empty disk `e`, a file `f` of one game and a door at `a`, to which
/// one link comes.
fn host_with(alloc: Global, fault: Fault) -> Result<MemHost, AllocError> {
    let mut host = MemHost::new(alloc);
    host.add_disk("s", store(alloc, fault)?)?;
    let empty = MemDisk::new(alloc, 1 << 16, fault.of(alloc, Device::EmptyDisk)?)?;
    host.add_disk("e", empty)?;
    let file = MemFile {
        bytes: game_by_id(alloc, "aaaaaaa1", "1-0", "1-0")?.into_bytes(),
        failing: fault.of(alloc, Device::File)?,
    };
    host.add_file("f", file)?;
    let links = MemLinks {
        links: vec![in alloc; link(alloc, fault)?]?,
        failing: fault.of(alloc, Device::Door)?,
    };
    host.add_links("a", vec![in alloc; links]?)?;
    Ok(host)
}

/// How many bytes the store of a run has. A host in memory hands out no disk that came back with
/// faults.
fn size_under<H: Host>(host: &mut H, name: &str) -> Option<u64> {
    // law: a disk that was handed out is to be given back
    what_is_handed_out_is_out();
    let mut disk = host.disk(name).ok()?;
    let size = disk.size();
    host.close(name, disk);
    size.ok()
}

/// The status of a run with these words, whether it printed and reported this, and the size of its
/// store.
fn end_of_run<R: AllocGlobal + Wait + Threads + Sync>(
    rt: &R,
    words: &[&str],
    fault: Fault,
    told: (&str, &str),
) -> Result<(u8, bool, Option<u64>), Fail> {
    let alloc = rt.alloc();
    let all = with_name(alloc, words)?;
    let mut host = host_with(alloc, fault)?;
    let write = fault.number(Device::Output);
    let mut streams = streams_of(alloc, "", 1, [NEVER, write, NEVER])?;
    let status = status_of(rt, all.as_slice(), &mut streams, &mut host);
    let store = words.get(1).ok_or("a store")?;
    Ok((
        status,
        streams.have(told.0, told.1),
        size_under(&mut host, store),
    ))
}

const CREATE: &[&str] = &["create", "e"];

const IMPORT: &[&str] = &["import", "s", "f"];

const QUERY: &[&str] = &["query", "s"];

const BATCHES: &[&str] = &["batches", "s"];

const SERVE: &[&str] = &[
    "serve",
    "s",
    "a",
    "f",
    "--readers",
    "1",
    "--connections",
    "1",
];

const NOTHING_STORED: &str = "stored 0\nbatches 0\njournal 0\n";

/// The size of a store without a batch, and with one of the file's game: a gate and a length, no label,
/// a count, and a length and the 194 bytes of the text.
const EMPTY: Option<u64> = Some(13);

const FULL: Option<u64> = Some(13 + 5 + 1 + 2 + 4 + 194);

/// Words, what fails, from which of its calls on and up to which, and then the status, what is printed,
/// what is reported, and the size of the store.
type Row = (
    &'static [&'static str],
    Device,
    u64,
    u64,
    u8,
    &'static str,
    &'static str,
    Option<u64>,
);

const ROWS: [Row; 16] = [
    (CREATE, Device::EmptyDisk, 0, 2, 6, "", "disk fault\n", None),
    (CREATE, Device::Output, 0, 0, 5, "", "write fault\n", EMPTY),
    // An opening makes the calls 3 to 7, and a batch the next four.
    (QUERY, Device::Disk, 3, 7, 6, "", "disk fault\n", None),
    (QUERY, Device::Output, 0, 0, 5, "", "write fault\n", EMPTY),
    (BATCHES, Device::Disk, 3, 7, 6, "", "disk fault\n", None),
    (IMPORT, Device::Disk, 3, 7, 6, "", "disk fault\n", None),
    (
        IMPORT,
        Device::Disk,
        8,
        11,
        6,
        NOTHING_STORED,
        "disk fault\n",
        None,
    ),
    (
        IMPORT,
        Device::File,
        0,
        1,
        4,
        NOTHING_STORED,
        "read fault\n",
        EMPTY,
    ),
    (IMPORT, Device::Output, 0, 0, 5, "", "write fault\n", FULL),
    (SERVE, Device::Disk, 3, 7, 6, "", "disk fault\n", None),
    (
        SERVE,
        Device::Disk,
        8,
        11,
        6,
        "listening a\n",
        "disk fault\n",
        None,
    ),
    (
        SERVE,
        Device::File,
        0,
        1,
        4,
        "listening a\n",
        "read fault\n",
        EMPTY,
    ),
    (SERVE, Device::Output, 0, 0, 5, "", "write fault\n", FULL),
    (
        SERVE,
        Device::Door,
        0,
        0,
        10,
        "listening a\n",
        "cannot accept\n",
        FULL,
    ),
    // Faults of links do not change the status.
    (SERVE, Device::Link, 0, 0, 0, "listening a\n", "", FULL),
    (SERVE, Device::Reply, 0, 0, 0, "listening a\n", "", FULL),
];

#[test]
fn each_call_fails_in_turn(rt: HostRuntime) -> Result<(), Fail> {
    for (words, device, first, last, status, printed, reported, size) in ROWS {
        for call in first..=last {
            let seen = end_of_run(&rt, words, Fault { device, call }, (printed, reported))?;
            assert_eq!(rt; seen, (status, true, size), "{words:?}, {device:?} {call}");
        }
    }
    Ok(())
}
