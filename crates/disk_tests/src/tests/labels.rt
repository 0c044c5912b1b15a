//! Batches under labels, and payloads as long as they may be.
use super::disks::content;
use super::stores::{DAMAGED, count_behind_one, count_of, journal_on, new_store, store_under};
use disk_model::{Disk, MemDisk};
use explorer_model::label::Label;
use explorer_model::store::LogFault;
use record_log::OpenFault;
use std::alloc::Global;
use std::test::Fail;

/// A new store with a batch of the text `x` under a label.
fn stored_under(alloc: Global, label: &str) -> Result<MemDisk, Fail> {
    let Some(label) = Label::of(label.as_bytes()) else {
        return Err(Fail::from("no label"));
    };
    let mut manifest = new_store(alloc, 100)?;
    match store_under(alloc, &mut manifest, label, b"x") {
        Ok(()) => Ok(manifest.into_disk()),
        Err(_) => Err(Fail::from("not stored")),
    }
}

#[test]
fn label_is_written_before_the_texts(rt: HostRuntime) -> Result<(), Fail> {
    let alloc: Global = rt.alloc();
    let mut disk = stored_under(alloc, "é")?;
    // A payload of ten bytes, two of which are the letter.
    let bytes =
        *b"OPENEXP1\x02\x00\x00\x00\x01\x0a\x00\x00\x00\x02\xc3\xa9\x01\x00\x01\x00\x00\x00x\x00";
    assert_eq!(rt; content(&mut disk), Ok(bytes));
    let (gate, journal) = journal_on(alloc, disk)?;
    assert_eq!(rt; (gate, journal.len()), (27, 1));
    assert!(rt; journal[0].label.as_str() == "é");
    Ok(())
}

/// The payload of the text `x` under a label, behind what is told as its length.
fn payload_under(alloc: Global, length: u8, label: &[u8]) -> Result<Vec<u8>, Fail> {
    let mut payload = vec![in alloc; length]?;
    payload.extend_from_slice(label)?;
    payload.extend_from_slice(b"\x01\x00\x01\x00\x00\x00x")?;
    Ok(payload)
}

#[test]
fn label_is_read_where_it_is_one(rt: HostRuntime) -> Result<(), Fail> {
    let long = b"aaaaaaaaaaaaaaaaaaaaaaaaaaaaaaaaaaaaaaaaaaaaaaaaaaaaaaaaaaaaaaaa";
    let table = [
        (64, long.as_slice(), Ok(2)),
        // The first and the last character of ASCII that prints, and a letter of two bytes.
        (1, b"\x20".as_slice(), Ok(2)),
        (1, b"\x7e".as_slice(), Ok(2)),
        (2, b"\xc3\xa9".as_slice(), Ok(2)),
        (
            65,
            b"aaaaaaaaaaaaaaaaaaaaaaaaaaaaaaaaaaaaaaaaaaaaaaaaaaaaaaaaaaaaaaaaa".as_slice(),
            DAMAGED,
        ),
        (1, b"\x0a".as_slice(), DAMAGED),
        (1, b"\x1f".as_slice(), DAMAGED),
        (1, b"\x7f".as_slice(), DAMAGED),
        // Half a letter, and a label that is longer than the payload.
        (1, b"\xc3".as_slice(), DAMAGED),
        (10, b"a".as_slice(), DAMAGED),
    ];
    for (length, label, answer) in table {
        let payload = payload_under(rt.alloc(), length, label)?;
        assert_eq!(rt; count_behind_one(rt.alloc(), &payload)?, answer);
    }
    Ok(())
}

/// The file of a store with one batch: a label of so many bytes, and 512 texts of 65,536.
fn long_file(alloc: Global, label: u8) -> Result<Vec<u8>, Fail> {
    let text = vec![in alloc; b'x'; 65_536]?;
    let length = 1 + u32::from(label) + 2 + 512 * (4 + 65_536);
    let mut file = b"OPENEXP1\x02\x00\x00\x00\x01".to_vec(alloc)?;
    file.extend_from_slice(&length.to_le_bytes())?;
    file.push(label)?;
    for _ in 0..label {
        file.push(b'a')?;
    }
    file.extend_from_slice(&512u16.to_le_bytes())?;
    for _ in 0..512u32 {
        file.extend_from_slice(&65_536u32.to_le_bytes())?;
        file.extend_from_slice(&text)?;
    }
    file.push(0)?;
    Ok(file)
}

/// How many batches such a store has, or why it is none.
fn count_of_long(alloc: Global, label: u8) -> Result<Result<usize, OpenFault>, Fail> {
    let file = long_file(alloc, label)?;
    let mut disk = MemDisk::new(alloc, 40_000_000, Vec::new(alloc))?;
    if file.len() > 40_000_000 || disk.write_at(0, &file).is_err() {
        return Err(Fail::from("not written"));
    }
    Ok(count_of(alloc, disk))
}

#[test]
fn longest_payload_is_read(rt: HostRuntime) -> Result<(), Fail> {
    // 33,556,547 bytes, and one more.
    assert_eq!(rt; count_of_long(rt.alloc(), 64)?, Ok(1));
    let damaged = OpenFault::Log(LogFault::Damaged { at: 12 });
    assert_eq!(rt; count_of_long(rt.alloc(), 65)?, Err(damaged));
    Ok(())
}
