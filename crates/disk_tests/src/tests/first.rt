//! Stores of the first format, and stores that are made of their batches.
use super::disks::{bytes_of, content, disk_of, disk_with};
use super::stores::{ONE, ROOM, count_of, journal_on, not_created};
use disk_model::MemDisk;
use explorer_model::archive::Batch;
use explorer_model::store::LogFault;
use manifest::{create, open_first};
use record_log::{AppendFault, OpenFault};
use std::alloc::Global;
use std::test::Fail;

/// A store of format 1 with a batch of one text, `x`, byte by byte.
const FIRST: [u8; 25] =
    *b"OPENEXP1\x01\x00\x00\x00\x01\x07\x00\x00\x00\x01\x00\x01\x00\x00\x00x\x00";

/// How many batches these bytes have in format 1, or why they are no store of it.
fn count_in(alloc: Global, bytes: &[u8]) -> Result<Result<usize, OpenFault>, Fail> {
    match open_first(alloc, disk_with(alloc, bytes.len(), bytes, &[])?) {
        Ok(opened) => Ok(Ok(opened.journal.len())),
        Err(back) => Ok(Err(back.fault)),
    }
}

#[test]
fn store_of_the_first_format_is_read(rt: HostRuntime) -> Result<(), Fail> {
    let not_a_store = Err(OpenFault::Log(LogFault::NotALog));
    let damaged = Err(OpenFault::Log(LogFault::Damaged { at: 12 }));
    let table = [
        (FIRST.as_slice(), Ok(1)),
        (b"OPENEXP1\x01\x00\x00\x00\x00".as_slice(), Ok(0)),
        (b"OPENEXP1\x01\x00\x00\x00".as_slice(), not_a_store),
        (b"OPENEXP2\x01\x00\x00\x00\x00".as_slice(), not_a_store),
        (
            ONE.as_slice(),
            Err(OpenFault::Log(LogFault::OtherFormat { number: 2 })),
        ),
        (
            b"OPENEXP1\x09\x00\x00\x00\x00".as_slice(),
            Err(OpenFault::Log(LogFault::OtherFormat { number: 9 })),
        ),
        // No payload, one that is too long, and one that is cut off.
        (
            b"OPENEXP1\x01\x00\x00\x00\x01\x00\x00\x00\x00\x00".as_slice(),
            damaged,
        ),
        (
            b"OPENEXP1\x01\x00\x00\x00\x01\x03\x08\x00\x02\x00".as_slice(),
            damaged,
        ),
        (
            b"OPENEXP1\x01\x00\x00\x00\x01\x07\x00\x00\x00\x01\x00\x01\x00\x00\x00x".as_slice(),
            damaged,
        ),
        // No text, a text without a byte, a byte behind the texts, and a label.
        (
            b"OPENEXP1\x01\x00\x00\x00\x01\x02\x00\x00\x00\x00\x00\x00".as_slice(),
            damaged,
        ),
        (
            b"OPENEXP1\x01\x00\x00\x00\x01\x06\x00\x00\x00\x01\x00\x00\x00\x00\x00\x00".as_slice(),
            damaged,
        ),
        (
            b"OPENEXP1\x01\x00\x00\x00\x01\x08\x00\x00\x00\x01\x00\x01\x00\x00\x00xy\x00".as_slice(),
            damaged,
        ),
        (
            b"OPENEXP1\x01\x00\x00\x00\x01\x08\x00\x00\x00\x00\x01\x00\x01\x00\x00\x00x\x00".as_slice(),
            damaged,
        ),
    ];
    for (bytes, answer) in table {
        assert_eq!(rt; count_in(rt.alloc(), bytes)?, answer);
    }
    Ok(())
}

#[test]
fn store_of_the_first_format_is_cut_at_every_byte(rt: HostRuntime) -> Result<(), Fail> {
    for size in 0..26 {
        let answer = match size {
            0..=12 => Err(OpenFault::Log(LogFault::NotALog)),
            13..=24 => Err(OpenFault::Log(LogFault::Damaged { at: 12 })),
            _ => Ok(1),
        };
        assert_eq!(rt; count_in(rt.alloc(), &FIRST[..size])?, answer, "{size}");
    }
    Ok(())
}

/// Puts a record of a batch of so many texts `x` behind a file in the first format.
fn push_record(bytes: &mut Vec<u8>, count: u16) -> Result<(), Fail> {
    if count > 512 {
        return Err(Fail::from("too many"));
    }
    bytes.push(1)?;
    bytes.extend_from_slice(&(u32::from(count) * 5 + 2).to_le_bytes())?;
    bytes.extend_from_slice(&count.to_le_bytes())?;
    for _ in 0..count {
        bytes.extend_from_slice(b"\x01\x00\x00\x00x")?;
    }
    Ok(())
}

/// A store of format 1 with 256 batches of 512 texts, and one more of so many where there are any.
fn full_store(alloc: Global, more: u16) -> Result<Vec<u8>, Fail> {
    let mut bytes = b"OPENEXP1\x01\x00\x00\x00".as_slice().to_vec(alloc)?;
    for _ in 0..256 {
        push_record(&mut bytes, 512)?;
    }
    if more > 0 {
        push_record(&mut bytes, more)?;
    }
    bytes.push(0)?;
    Ok(bytes)
}

#[test]
fn more_texts_than_the_first_format_had_are_refused(rt: HostRuntime) -> Result<(), Fail> {
    // The gate behind 256 records of 2567 bytes.
    let passed = Err(OpenFault::Log(LogFault::Damaged { at: 657_164 }));
    for (more, answer) in [(0, Ok(256)), (1, passed), (512, passed)] {
        let bytes = full_store(rt.alloc(), more)?;
        assert_eq!(rt; count_in(rt.alloc(), bytes.as_slice())?, answer, "{more}");
    }
    Ok(())
}

/// What the reading of `FIRST` answers whose disk call of this number fails, and what a crash leaves
/// then.
fn fail_at(alloc: Global, call: u64, number: u64) -> Result<(OpenFault, Vec<u8>), Fail> {
    match open_first(alloc, disk_with(alloc, ROOM, &FIRST, &[call])?) {
        Ok(_) => Err(Fail::from("opened")),
        Err(back) => {
            let bytes = bytes_of(alloc, &mut back.disk.crashed(number))?;
            Ok((back.fault, bytes))
        }
    }
}

#[test]
fn each_call_of_such_a_reading_may_fail(rt: HostRuntime) -> Result<(), Fail> {
    let before = 0;
    let after = 1;
    // It makes the calls 2 to 9.
    for call in 2..10 {
        for number in [0, 7, 512, 1024] {
            let (fault, bytes) = fail_at(rt.alloc(), call, number)?;
            assert_eq!(rt; fault, OpenFault::DiskFault { before, after });
            assert_eq!(rt; bytes.as_slice(), FIRST.as_slice());
        }
    }
    Ok(())
}

/// A store of format 1 with a batch for each text.
fn first_store(alloc: Global, texts: &[&[u8]]) -> Result<Vec<u8>, Fail> {
    let mut bytes = b"OPENEXP1\x01\x00\x00\x00".as_slice().to_vec(alloc)?;
    for text in texts {
        if text.len() > 100 {
            return Err(Fail::from("too long"));
        }
        bytes.push(1)?;
        bytes.extend_from_slice(&(text.len() as u32 + 6).to_le_bytes())?;
        bytes.extend_from_slice(b"\x01\x00")?;
        bytes.extend_from_slice(&(text.len() as u32).to_le_bytes())?;
        bytes.extend_from_slice(text)?;
    }
    bytes.push(0)?;
    Ok(bytes)
}

/// A store of the batches of such a store.
#[derive(Drop)]
struct Made {
    journal: Vec<Batch>,
    stored: Result<(), AppendFault>,
    disk: MemDisk,
}

/// Makes a store of the batches of these bytes on a new disk whose call of this number fails.
fn make_of(alloc: Global, bytes: &[u8], call: u64) -> Result<Made, Fail> {
    let Ok(opened) = open_first(alloc, disk_with(alloc, ROOM, bytes, &[])?) else {
        return Err(Fail::from("not opened"));
    };
    let Ok(mut manifest) = create(disk_of(alloc, ROOM, &[call])?) else {
        return Err(Fail::from("not created"));
    };
    let journal = opened.journal;
    let stored = manifest.store_all(alloc, journal.as_slice());
    let disk = manifest.into_disk();
    Ok(Made {
        journal,
        stored,
        disk,
    })
}

#[test]
fn batches_of_the_first_format_get_no_label(rt: HostRuntime) -> Result<(), Fail> {
    let alloc: Global = rt.alloc();
    let mut made = make_of(alloc, &FIRST, 100)?;
    assert_eq!(rt; made.stored, Ok(()));
    assert_eq!(rt; content(&mut made.disk), Ok(ONE));
    let empty = b"OPENEXP1\x01\x00\x00\x00\x00";
    let mut made = make_of(alloc, empty, 100)?;
    assert_eq!(rt; made.stored, Ok(()));
    assert_eq!(rt;
        content(&mut made.disk),
        Ok(*b"OPENEXP1\x02\x00\x00\x00\x00")
    );
    Ok(())
}

/// How many batches of three a crash with this number leaves where the disk call of this number
/// failed, and whether they are the first ones.
fn stop_at(
    alloc: Global,
    call: u64,
    number: u64,
) -> Result<(Result<(), AppendFault>, usize, bool), Fail> {
    let texts = [b"x".as_slice(), b"yz".as_slice(), b"abc".as_slice()];
    let made = make_of(alloc, &first_store(alloc, &texts)?, call)?;
    let (_, left) = journal_on(alloc, made.disk.crashed(number))?;
    let count = left.len();
    let is_front = made.journal.as_slice().starts_with(left.as_slice());
    Ok((made.stored, count, is_front))
}

#[test]
fn crash_leaves_a_front_of_the_batches(rt: HostRuntime) -> Result<(), Fail> {
    let before = 0;
    let after = 1;
    // Whether the gate of a batch is torn to 1.
    let torn = [1, 0, 1, 1, 1, 0, 1, 0];
    // The creation makes the calls 0 to 2, and each batch four, of which the last two open its gate.
    for call in 3..15 {
        let whole = (call as usize - 3) / 4;
        for number in 0..24 {
            // All, half or none of what is past the old end is kept.
            let choice = number % 8;
            let one = if (call - 3) % 4 < 2 { 0 } else { torn[choice] };
            let stopped = stop_at(rt.alloc(), call, (number / 8 * 512 + choice) as u64)?;
            let fault = AppendFault::DiskFault { before, after };
            assert_eq!(rt; stopped, (Err(fault), whole + one, true), "{call} {number}");
        }
    }
    assert_eq!(rt; stop_at(rt.alloc(), 15, 0)?, (Ok(()), 3, true));
    Ok(())
}

/// Whether a crash with this number leaves a store without a batch, or what is refused, where the
/// creation failed at the disk call of this number.
fn is_none_or_refused(alloc: Global, call: u64, number: u64) -> Result<bool, Fail> {
    let (_, disk) = not_created(disk_of(alloc, 100, &[call])?)?;
    match count_of(alloc, disk.crashed(number)) {
        Ok(count) => Ok(count == 0),
        Err(OpenFault::Log(_)) => Ok(true),
        Err(_) => Ok(false),
    }
}

#[test]
fn crash_before_a_store_is_there_leaves_no_batch(rt: HostRuntime) -> Result<(), Fail> {
    for call in 0..3 {
        for number in 0..2048 {
            assert!(rt;
                is_none_or_refused(rt.alloc(), call, number)?,
                "{call} {number}"
            );
        }
    }
    Ok(())
}
