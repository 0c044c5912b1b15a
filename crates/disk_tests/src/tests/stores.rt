//! Stores of batches, damaged and crashed.
ghost use Rattle.std.specs.Prelude.{◌≡◌, ◌∷◌, [], IfOk};

use super::disks::{content, disk_of, disk_with};
use disk_model::{Disk, MemDisk};
use explorer_model::archive::{Batch, Bytes, Texts};
use explorer_model::label::Label;
use explorer_model::store::LogFault;
use manifest::{Manifest, create, open};
use record_log::{AppendFault, CreateFault, OpenFault};
use std::alloc::{AllocError, Global};
use std::test::Fail;

/// A store of format 2 with one batch of one text, `x`, without a label, byte by byte.
pub(super) const ONE: [u8; 26] =
    *b"OPENEXP1\x02\x00\x00\x00\x01\x08\x00\x00\x00\x00\x01\x00\x01\x00\x00\x00x\x00";

/// The room of a disk that has bytes from the start.
pub(super) const ROOM: usize = 70_000;

/// Stores a batch of one short text without a label.
fn store_text<D: Disk>(
    alloc: Global,
    manifest: &mut Manifest<D>,
    text: &[u8],
) -> Result<(), AppendFault> {
    store_under(alloc, manifest, Label::none(), text)
}

/// Stores a batch of one short text under a label.
pub(super) fn store_under<D: Disk>(
    alloc: Global,
    manifest: &mut Manifest<D>,
    label: Label,
    text: &[u8],
) -> Result<(), AppendFault> {
    if text.is_empty() || text.len() > 100 || manifest.gate() > 70_000 {
        return Err(AppendFault::OutOfMemory);
    }
    let Ok(batch) = batch_of(alloc, label, text) else {
        return Err(AppendFault::OutOfMemory);
    };
    manifest.store(alloc, &batch)
}

fn batch_of(alloc: Global, label: Label, text: &[u8]) -> Result<Batch, AllocError>
    ensures { IfOk result (λ batch. batch.texts ≡ text.now ∷ []) }
{
    let text = Bytes::from_vec(text.to_vec(alloc)?);
    let texts = Texts::from_vec(vec![in alloc; text]?);
    Ok(Batch { label, texts })
}

/// How many batches a disk has, or why it is no store.
pub(super) fn count_of<D: Disk + Drop>(alloc: Global, disk: D) -> Result<usize, OpenFault> {
    match open(alloc, disk) {
        Ok(opened) => Ok(opened.journal.len()),
        Err(back) => Err(back.fault),
    }
}

/// A new store on an empty disk with room for so many bytes.
pub(super) fn new_store(alloc: Global, room: usize) -> Result<Manifest<MemDisk>, Fail> {
    match create(disk_of(alloc, room, &[])?) {
        Ok(manifest) => Ok(manifest),
        Err(_) => Err(Fail::from("not created")),
    }
}

/// Why no store is made on a disk, which is given back.
pub(super) fn not_created(disk: MemDisk) -> Result<(CreateFault, MemDisk), Fail> {
    match create(disk) {
        Ok(_) => Err(Fail::from("created")),
        Err(back) => Ok((back.fault, back.disk)),
    }
}

/// Where the gate of the store on a disk stands, and its journal.
pub(super) fn journal_on(alloc: Global, disk: MemDisk) -> Result<(u64, Vec<Batch>), Fail> {
    match open(alloc, disk) {
        Ok(opened) => Ok((opened.manifest.gate(), opened.journal)),
        Err(_) => Err(Fail::from("not opened")),
    }
}

/// How many texts a batch has, and whether the first is `x`.
fn told_of(batch: &Batch) -> (usize, bool) {
    let texts = batch.texts.as_slice();
    (
        texts.len(),
        texts
            .first()
            .is_some_and(|it| it.as_slice() == b"x".as_slice()),
    )
}

#[test]
fn store_is_written_byte_by_byte(rt: HostRuntime) -> Result<(), Fail> {
    let alloc: Global = rt.alloc();
    let mut manifest = new_store(alloc, 100)?;
    assert_eq!(rt; manifest.gate(), 12);
    assert_eq!(rt; store_text(alloc, &mut manifest, b"x"), Ok(()));
    assert_eq!(rt; manifest.gate(), 25);
    let mut disk = manifest.into_disk();
    assert_eq!(rt; content(&mut disk), Ok(ONE));
    let (fault, disk) = not_created(disk)?;
    assert_eq!(rt; fault, CreateFault::NotEmpty { size: 26 });
    let (gate, journal) = journal_on(alloc, disk)?;
    assert_eq!(rt; (gate, journal.len()), (25, 1));
    assert_eq!(rt; told_of(&journal[0]), (1, true));
    Ok(())
}

/// A store with the batch of `ONE` and, behind the gate 25, a record with this payload.
fn bytes_behind_one(alloc: Global, payload: &[u8]) -> Result<Vec<u8>, Fail> {
    if payload.len() > 66_000 {
        return Err(Fail::from("too long"));
    }
    let mut bytes = ONE.as_slice().to_vec(alloc)?;
    bytes.pop();
    bytes.push(1)?;
    bytes.extend_from_slice(&(payload.len() as u32).to_le_bytes())?;
    bytes.extend_from_slice(payload)?;
    bytes.push(0)?;
    Ok(bytes)
}

/// How many batches such a store has, or why it is none.
pub(super) fn count_behind_one(
    alloc: Global,
    payload: &[u8],
) -> Result<Result<usize, OpenFault>, Fail> {
    let bytes = bytes_behind_one(alloc, payload)?;
    Ok(count_of(alloc, disk_with(alloc, ROOM, &bytes, &[])?))
}

/// The payload of so many texts of this length without a label, all of whose bytes are `x`.
fn payload_of(alloc: Global, count: u16, length: u32) -> Result<Vec<u8>, Fail> {
    let mut payload = vec![in alloc; 0]?;
    payload.extend_from_slice(&count.to_le_bytes())?;
    for _ in 0..count {
        payload.extend_from_slice(&length.to_le_bytes())?;
        for _ in 0..length {
            payload.push(b'x')?;
        }
    }
    Ok(payload)
}

pub(super) const DAMAGED: Result<usize, OpenFault> = Err(OpenFault::Log(LogFault::Damaged {
    at: 25,
}));

#[test]
fn payload_off_the_form_is_damaged_at_its_gate(rt: HostRuntime) -> Result<(), Fail> {
    let table = [
        b"\x00\x01\x00\x01\x00\x00".as_slice(),
        b"\x00\x00\x00".as_slice(),
        b"\x00\x00\x00\x01\x00\x00\x00x".as_slice(),
        b"\x00\x01".as_slice(),
        b"\x00\x01\x00\x00\x00\x00\x00".as_slice(),
        b"\x00\x01\x00\x02\x00\x00\x00x".as_slice(),
        b"\x00\x01\x00\x01\x00\x00\x00xy".as_slice(),
        b"\x00\x02\x00\x01\x00\x00\x00x".as_slice(),
        b"\x00\x00\x01\x00\x00\x00\x01x".as_slice(),
        // As in format 1, whose batches have no label.
        b"\x01\x00\x01\x00\x00\x00x".as_slice(),
    ];
    for payload in table {
        assert_eq!(rt; count_behind_one(rt.alloc(), payload)?, DAMAGED);
    }
    Ok(())
}

#[test]
fn payload_past_a_limit_is_damaged_at_its_gate(rt: HostRuntime) -> Result<(), Fail> {
    let limits = [
        (512, 1, Ok(2)),
        (513, 1, DAMAGED),
        (1, 65_536, Ok(2)),
        (1, 65_537, DAMAGED),
    ];
    for (count, length, answer) in limits {
        let payload = payload_of(rt.alloc(), count, length)?;
        assert_eq!(rt; count_behind_one(rt.alloc(), &payload)?, answer);
    }
    Ok(())
}

/// What a store to `ONE` answers whose disk call of this number fails, what a second one does, and
/// how many batches a crash leaves then. The opening makes the calls 2 to 9, the store 10 to 13.
#[derive(Drop)]
struct Stopped {
    stored: Result<(), AppendFault>,
    again: Result<(), AppendFault>,
    count: usize,
}

/// The store on a disk.
fn store_on(alloc: Global, disk: MemDisk) -> Result<Manifest<MemDisk>, Fail> {
    match open(alloc, disk) {
        Ok(opened) => Ok(opened.manifest),
        Err(_) => Err(Fail::from("not opened")),
    }
}

fn stop_at(alloc: Global, call: u64, choice: u64) -> Result<Stopped, Fail> {
    let mut manifest = store_on(alloc, disk_with(alloc, ROOM, &ONE, &[call])?)?;
    let stored = store_text(alloc, &mut manifest, b"abc");
    let again = if manifest.fault().is_none() {
        Ok(())
    } else {
        store_text(alloc, &mut manifest, b"abc")
    };
    let count = count_of(alloc, manifest.into_disk().crashed(choice))?;
    Ok(Stopped {
        stored,
        again,
        count,
    })
}

#[test]
fn crash_leaves_the_batch_or_not(rt: HostRuntime) -> Result<(), Fail> {
    // The gate's write is torn to 1, 0, 1, 1, 1, 2, 1 and 3.
    let torn = [2, 1, 2, 2, 2, 1, 2, 1];
    let table = [
        (10, [1; 8]),
        (11, [1; 8]),
        (12, torn),
        (13, torn),
        (14, [2; 8]),
    ];
    let before = 0;
    let after = 1;
    for (call, counts) in table {
        for (choice, count) in counts.iter().enumerate() {
            let stopped = stop_at(rt.alloc(), call, choice as u64)?;
            assert_eq!(rt; stopped.count, *count);
            if call == 14 {
                assert_eq!(rt; stopped.stored, Ok(()));
            } else {
                assert_eq!(rt;
                    stopped.stored,
                    Err(AppendFault::DiskFault { before, after })
                );
                assert_eq!(rt; stopped.again, Err(AppendFault::Closed { before, after }));
            }
        }
    }
    Ok(())
}

/// What a batch of twenty bytes behind `ONE` answers on a disk with so much room, whose call of this
/// number fails, and one more batch; what a shorter one answers once a crash is behind, and how many
/// batches there are then.
#[derive(Drop)]
struct Survived {
    long: Result<(), AppendFault>,
    again: Result<(), AppendFault>,
    shorter: Result<(), AppendFault>,
    count: usize,
}

fn survive(alloc: Global, room: usize, call: u64, choice: u64) -> Result<Survived, Fail> {
    let mut manifest = store_on(alloc, disk_with(alloc, room, &ONE, &[call])?)?;
    let long = store_text(alloc, &mut manifest, b"a text of 20 bytes..");
    let again = store_text(alloc, &mut manifest, b"y");
    let mut reopened = store_on(alloc, manifest.into_disk().crashed(choice))?;
    let shorter = store_text(alloc, &mut reopened, b"z");
    let (_gate, journal) = journal_on(alloc, reopened.into_disk())?;
    Ok(Survived {
        long,
        again,
        shorter,
        count: journal.len(),
    })
}

#[test]
fn store_that_failed_takes_a_shorter_batch_once_it_is_opened_again(
    rt: HostRuntime,
) -> Result<(), Fail> {
    let before = 0;
    let after = 1;
    // The record of the long batch takes 32 bytes behind 26, and that of the short one 13. The long one
    // finds no room; its write fails and is torn; its sync fails, and it is torn.
    for (room, call, choice) in [(40, 1000, 0), (ROOM, 10, 7), (ROOM, 11, 7)] {
        let survived = survive(rt.alloc(), room, call, choice)?;
        assert_eq!(rt;
            survived.long,
            Err(AppendFault::DiskFault { before, after })
        );
        assert_eq!(rt; survived.again, Err(AppendFault::Closed { before, after }));
        assert_eq!(rt; (survived.shorter, survived.count), (Ok(()), 2));
    }
    Ok(())
}

#[test]
fn store_is_cut_at_each_byte(rt: HostRuntime) -> Result<(), Fail> {
    // Two batches, whose gates stand at 12 and 25.
    let bytes = bytes_behind_one(rt.alloc(), b"\x00\x01\x00\x01\x00\x00\x00y")?;
    for size in 0..bytes.len() + 1 {
        let answer = if size < 13 {
            Err(OpenFault::Log(LogFault::NotALog))
        } else if size == bytes.len() {
            Ok(2)
        } else {
            let at = if size < 26 { 12 } else { 25 };
            Err(OpenFault::Log(LogFault::Damaged { at }))
        };
        let disk = disk_with(rt.alloc(), ROOM, &bytes[..size], &[])?;
        assert_eq!(rt; count_of(rt.alloc(), disk), answer, "at {size}");
    }
    Ok(())
}
