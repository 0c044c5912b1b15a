//! Logs of payloads, damaged, cut and crashed.
use super::disks::{bytes_of, content, disk_of, disk_with};
use disk_model::{Disk, FileDisk, MemDisk};
use explorer_model::store::LogFault;
use record_log::{AppendFault, CreateFault, Format, OpenFault, RecordLog, create, open};
use std::alloc::Global;
use std::fs;
use std::fs::{File, Files, OpenOptions};
use std::test::Fail;

const FIRST: Format = Format {
    number: 1,
    most: 1000,
};

/// A log of the format 1 with the payload `01 00 01 00 00 00 78`, byte by byte.
const ONE: [u8; 25] = *b"OPENEXP1\x01\x00\x00\x00\x01\x07\x00\x00\x00\x01\x00\x01\x00\x00\x00x\x00";

const TEXT: [u8; 7] = *b"\x01\x00\x01\x00\x00\x00x";

/// The room of a disk that has bytes from the start.
const ROOM: usize = 4096;

/// A new log on an empty disk with room for so many bytes.
fn new_log(alloc: Global, room: usize) -> Result<RecordLog<MemDisk>, Fail> {
    match create(disk_of(alloc, room, &[])?, FIRST) {
        Ok(log) => Ok(log),
        Err(_) => Err(Fail::from("not created")),
    }
}

/// Adds a payload that the log has room for.
fn add<D: Disk>(alloc: Global, log: &mut RecordLog<D>, payload: &[u8]) -> Result<(), AppendFault> {
    let most = log.format().most as usize;
    if payload.is_empty() || payload.len() > most || payload.len() > 4096 || log.gate() > 4096 {
        return Err(AppendFault::OutOfMemory);
    }
    log.append(alloc, payload)
}

/// How many payloads a disk has, or why it is no log.
fn count_of<D: Disk + Drop>(alloc: Global, disk: D) -> Result<usize, OpenFault> {
    match open(alloc, disk, FIRST) {
        Ok(opened) => Ok(opened.payloads.len()),
        Err(back) => Err(back.fault),
    }
}

/// The log on a disk.
fn log_on(alloc: Global, disk: MemDisk) -> Result<RecordLog<MemDisk>, Fail> {
    match open(alloc, disk, FIRST) {
        Ok(opened) => Ok(opened.log),
        Err(_) => Err(Fail::from("not opened")),
    }
}

/// Why no log is on a disk, which is given back.
fn no_log_on(alloc: Global, disk: MemDisk) -> Result<(OpenFault, MemDisk), Fail> {
    match open(alloc, disk, FIRST) {
        Ok(_) => Err(Fail::from("opened")),
        Err(back) => Ok((back.fault, back.disk)),
    }
}

/// Why no log is made on a disk, which is given back.
fn not_created(disk: MemDisk) -> Result<(CreateFault, MemDisk), Fail> {
    match create(disk, FIRST) {
        Ok(_) => Err(Fail::from("created")),
        Err(back) => Ok((back.fault, back.disk)),
    }
}

/// How many payloads a disk has, whether the first is `TEXT`, and where the gate stands.
fn told_of(alloc: Global, disk: MemDisk) -> Result<(usize, bool, u64), Fail> {
    match open(alloc, disk, FIRST) {
        Ok(opened) => {
            let is_text = opened
                .payloads
                .first()
                .is_some_and(|it| it.as_slice() == TEXT.as_slice());
            Ok((opened.payloads.len(), is_text, opened.log.gate()))
        }
        Err(_) => Err(Fail::from("not opened")),
    }
}

#[test]
fn log_is_written_byte_by_byte(rt: HostRuntime) -> Result<(), Fail> {
    let alloc: Global = rt.alloc();
    let mut log = new_log(alloc, 100)?;
    assert_eq!(rt; log.gate(), 12);
    assert_eq!(rt; add(alloc, &mut log, &TEXT), Ok(()));
    assert_eq!(rt; log.gate(), 24);
    let mut disk = log.into_disk();
    assert_eq!(rt; content(&mut disk), Ok(ONE));
    let (fault, disk) = not_created(disk)?;
    assert_eq!(rt; fault, CreateFault::NotEmpty { size: 25 });
    assert_eq!(rt; told_of(alloc, disk)?, (1, true, 24));
    Ok(())
}

#[test]
fn bytes_that_are_no_log_are_refused(rt: HostRuntime) -> Result<(), Fail> {
    let damaged = Err(OpenFault::Log(LogFault::Damaged { at: 12 }));
    let table = [
        (
            b"OPENEXP2\x01\x00\x00\x00\x00".as_slice(),
            Err(OpenFault::Log(LogFault::NotALog)),
        ),
        (
            b"OPENEXP1\x01\x00\x00\x00".as_slice(),
            Err(OpenFault::Log(LogFault::NotALog)),
        ),
        (
            b"OPENEXP1\x02\x01\x00\x00\x00".as_slice(),
            Err(OpenFault::Log(LogFault::OtherFormat { number: 258 })),
        ),
        (b"OPENEXP1\x01\x00\x00\x00\x02".as_slice(), Ok(0)),
        (
            b"OPENEXP1\x01\x00\x00\x00\x01\x00\x00\x00\x00\x00".as_slice(),
            damaged,
        ),
        (
            b"OPENEXP1\x01\x00\x00\x00\x01\xff\xff\xff\xff\x00".as_slice(),
            damaged,
        ),
        (
            b"OPENEXP1\x01\x00\x00\x00\x01\x01\x00\x00\x00x".as_slice(),
            damaged,
        ),
        (
            b"OPENEXP1\x01\x00\x00\x00\x01\x01\x00\x00\x00x\x03".as_slice(),
            Ok(1),
        ),
        (
            b"OPENEXP1\x01\x00\x00\x00\x01\xe9\x03\x00\x00".as_slice(),
            damaged,
        ),
    ];
    for (bytes, answer) in table {
        assert_eq!(rt; count_in(rt.alloc(), bytes)?, answer);
    }
    Ok(())
}

/// How many payloads these bytes have, or why they are no log.
fn count_in(alloc: Global, bytes: &[u8]) -> Result<Result<usize, OpenFault>, Fail> {
    Ok(count_of(alloc, disk_with(alloc, ROOM, bytes, &[])?))
}

/// Adds payloads of these sizes, and gives the places of the log's gates.
fn gates_of(
    alloc: Global,
    log: &mut RecordLog<MemDisk>,
    sizes: &[usize],
) -> Result<Vec<usize>, Fail> {
    let ones = [1; 1000];
    let mut gates = vec![in alloc; 12]?;
    for size in sizes {
        if *size > 1000 || add(alloc, log, &ones[..*size]).is_err() {
            return Err(Fail::from("not added"));
        }
        gates.push(log.gate() as usize)?;
    }
    Ok(gates)
}

/// A log of payloads of these sizes, and where its gates stand.
fn log_of(alloc: Global, sizes: &[usize]) -> Result<(Vec<u8>, Vec<usize>), Fail> {
    let mut log = new_log(alloc, 2047)?;
    let gates = gates_of(alloc, &mut log, sizes)?;
    Ok((bytes_of(alloc, &mut log.into_disk())?, gates))
}

#[test]
fn log_is_cut_at_every_byte(rt: HostRuntime) -> Result<(), Fail> {
    let logs: [&[usize]; 5] = [&[], &[7], &[1, 1, 1], &[255, 256, 257], &[7, 1, 1000, 1000]];
    for sizes in logs {
        let (bytes, gates) = log_of(rt.alloc(), sizes)?;
        for size in 0..bytes.len() + 1 {
            let answer = match gates.iter().rev().find(|gate| **gate < size) {
                None => Err(OpenFault::Log(LogFault::NotALog)),
                Some(_) if size == bytes.len() => Ok(sizes.len()),
                Some(gate) => Err(OpenFault::Log(LogFault::Damaged { at: *gate as u64 })),
            };
            let count = count_in(rt.alloc(), &bytes[..size])?;
            assert_eq!(rt; count, answer, "{size} of {sizes:?}");
        }
    }
    Ok(())
}

/// How many payloads there are where the second one's gate is torn: to 1, 0, 1, 1, 1, 2, 1 and 3.
const GATES_TORN: [usize; 8] = [2, 1, 2, 2, 2, 1, 2, 1];

/// What an append to the log `ONE` answers whose disk call of this number fails, what a second one
/// does, and how many payloads a crash leaves then. The opening makes the calls 2 to 9, and the
/// append 10 to 13.
#[derive(Drop)]
struct Stopped {
    added: Result<(), AppendFault>,
    again: Result<(), AppendFault>,
    count: usize,
}

fn stop_at(alloc: Global, call: u64, choice: u64) -> Result<Stopped, Fail> {
    let mut log = log_on(alloc, disk_with(alloc, ROOM, &ONE, &[call])?)?;
    let added = add(alloc, &mut log, b"abc");
    let again = if added.is_ok() {
        Ok(())
    } else {
        add(alloc, &mut log, b"abc")
    };
    let count = count_of(alloc, log.into_disk().crashed(choice))?;
    Ok(Stopped {
        added,
        again,
        count,
    })
}

#[test]
fn crash_leaves_the_payload_or_not(rt: HostRuntime) -> Result<(), Fail> {
    let table = [
        (10, [1; 8]),
        (11, [1; 8]),
        (12, GATES_TORN),
        (13, GATES_TORN),
        (14, [2; 8]),
    ];
    let before = 0;
    let after = 1;
    for (call, counts) in table {
        for (choice, count) in counts.iter().enumerate() {
            let stopped = stop_at(rt.alloc(), call, choice as u64)?;
            assert_eq!(rt; stopped.count, *count);
            if call == 14 {
                assert_eq!(rt; stopped.added, Ok(()));
            } else {
                assert_eq!(rt;
                    stopped.added,
                    Err(AppendFault::DiskFault { before, after })
                );
                assert_eq!(rt; stopped.again, Err(AppendFault::Closed { before, after }));
            }
        }
    }
    Ok(())
}

/// What an opening of the log `ONE` answers whose disk call of this number fails, and how many
/// payloads a crash leaves then.
fn fail_opening_at(
    alloc: Global,
    call: u64,
    choice: u64,
) -> Result<(OpenFault, Result<usize, OpenFault>), Fail> {
    let (fault, disk) = no_log_on(alloc, disk_with(alloc, ROOM, &ONE, &[call])?)?;
    Ok((fault, count_of(alloc, disk.crashed(choice))))
}

#[test]
fn each_call_of_an_opening_may_fail(rt: HostRuntime) -> Result<(), Fail> {
    let alloc: Global = rt.alloc();
    let before = 0;
    let after = 1;
    for call in 2..10 {
        for choice in 0..8 {
            let answer = fail_opening_at(alloc, call, choice)?;
            assert_eq!(rt; answer, (OpenFault::DiskFault { before, after }, Ok(1)));
        }
    }
    let disk = disk_with(alloc, ROOM, &ONE, &[10])?;
    assert_eq!(rt; count_of(alloc, disk), Ok(1));
    Ok(())
}

/// What an opening answers whose disk call of this number fails, and how many payloads a crash
/// leaves then. The log is `ONE` and a payload whose gate is written but not synced, by an append
/// that failed at the call 13. The opening makes the calls 14 to 24.
fn stop_opening_at(alloc: Global, call: u64, choice: u64) -> Result<(OpenFault, usize), Fail> {
    let mut log = log_on(alloc, disk_with(alloc, ROOM, &ONE, &[13, call])?)?;
    if add(alloc, &mut log, b"abc").is_ok() {
        return Err(Fail::from("added"));
    }
    let (fault, disk) = no_log_on(alloc, log.into_disk())?;
    Ok((fault, count_of(alloc, disk.crashed(choice))?))
}

#[test]
fn opening_leaves_what_a_crash_could_have_left(rt: HostRuntime) -> Result<(), Fail> {
    let before = 1;
    let after = 2;
    for call in 14..25 {
        // The first call syncs the gate, which is torn up to there.
        let counts = if call == 14 { GATES_TORN } else { [2; 8] };
        for (choice, count) in counts.iter().enumerate() {
            let stopped = stop_opening_at(rt.alloc(), call, choice as u64)?;
            assert_eq!(rt; stopped, (OpenFault::DiskFault { before, after }, *count));
        }
    }
    Ok(())
}

#[test]
fn each_call_of_a_creation_may_fail(rt: HostRuntime) -> Result<(), Fail> {
    let before = 0;
    let after = 1;
    for call in 0..3 {
        let (fault, _) = not_created(disk_of(rt.alloc(), 100, &[call])?)?;
        assert_eq!(rt; fault, CreateFault::DiskFault { before, after });
    }
    Ok(())
}

/// How many bytes a crash with this number leaves of an empty disk on which a creation failed at the
/// disk call of this number.
fn left_of_creation(alloc: Global, call: u64, number: u64) -> Result<usize, Fail> {
    let (_, disk) = not_created(disk_of(alloc, 100, &[call])?)?;
    Ok(bytes_of(alloc, &mut disk.crashed(number))?.len())
}

#[test]
fn failed_creation_leaves_few_bytes(rt: HostRuntime) -> Result<(), Fail> {
    // All, half or none of the thirteen bytes are kept.
    let table = [(0, [0; 3]), (1, [13, 6, 0]), (2, [13, 6, 0])];
    for (call, sizes) in table {
        for (cut, size) in sizes.iter().enumerate() {
            for tear in 0..8 {
                let left = left_of_creation(rt.alloc(), call, 512 * cut as u64 + tear)?;
                assert_eq!(rt; left, *size);
            }
        }
    }
    Ok(())
}

#[test]
fn refused_creation_leaves_the_log(rt: HostRuntime) -> Result<(), Fail> {
    let alloc: Global = rt.alloc();
    // The creation makes the call 2, which fails or answers that the disk is not empty.
    let faults = [
        (
            2,
            CreateFault::DiskFault {
                before: 0,
                after: 1,
            },
        ),
        (3, CreateFault::NotEmpty { size: 25 }),
    ];
    for (call, answer) in faults {
        for number in 0..2048 {
            let (fault, disk) = not_created(disk_with(alloc, ROOM, &ONE, &[call])?)?;
            assert_eq!(rt; fault, answer);
            assert_eq!(rt; content(&mut disk.crashed(number)), Ok(ONE));
        }
    }
    Ok(())
}

/// A disk over the file of this name, which is made where there is none.
fn file_of<R: Files<File = File>>(rt: &R, path: &str) -> Result<FileDisk, Fail> {
    let mut how = OpenOptions::new();
    how.read(true).write(true).create(true);
    Ok(FileDisk::new(how.open(rt, path)?)?)
}

/// What an append of `TEXT` to a new log on such a file answers.
fn add_on_a_file<R: Files<File = File>>(
    rt: &R,
    alloc: Global,
    path: &str,
) -> Result<Result<(), AppendFault>, Fail> {
    match create(file_of(rt, path)?, FIRST) {
        Ok(mut log) => Ok(add(alloc, &mut log, &TEXT)),
        Err(_) => Err(Fail::from("not created")),
    }
}

#[test]
fn log_on_a_file_is_opened_again(rt: HostRuntime) -> Result<(), Fail> {
    let alloc: Global = rt.alloc();
    let path = "log_on_a_file";
    let _ = fs::remove_file(&rt, path);
    assert_eq!(rt; add_on_a_file(&rt, alloc, path)?, Ok(()));
    assert_eq!(rt; fs::read(&rt, path)?.as_slice(), ONE.as_slice());
    let disk = file_of(&rt, path)?;
    assert_eq!(rt; count_of(alloc, disk), Ok(1));
    fs::remove_file(&rt, path)?;
    Ok(())
}
