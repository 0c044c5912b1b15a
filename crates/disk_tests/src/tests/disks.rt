//! Disks, in memory, over a file, and of a size alone.
use disk_model::{Disk, FileDisk, MemDisk, Unkept};
use outside::Failed;
use std::alloc::Global;
use std::fs;
use std::fs::{File, Files, OpenOptions};
use std::test::Fail;

/// An empty disk with room for so many bytes; the listed calls fail.
pub(super) fn disk_of(alloc: Global, room: usize, failing: &[u64]) -> Result<MemDisk, Fail> {
    Ok(MemDisk::new(alloc, room, Vec::from_slice(alloc, failing)?)?)
}

/// A disk with room for so many bytes and with these, synced. Its calls are counted from 2; the
/// listed ones fail.
pub(super) fn disk_with(
    alloc: Global,
    room: usize,
    bytes: &[u8],
    failing: &[u64],
) -> Result<MemDisk, Fail> {
    if room > 1_000_000 || bytes.len() > room {
        return Err(Fail::from("too long"));
    }
    let mut disk = disk_of(alloc, room, failing)?;
    disk.write_at(0, bytes)?;
    disk.sync()?;
    Ok(disk)
}

/// What stands on a disk, where it is so many bytes.
pub(super) fn content<D: Disk, const N: usize>(disk: &mut D) -> Result<[u8; N], Failed> {
    let mut bytes = [0; N];
    if disk.size()? != N as u64 {
        return Err(Failed);
    }
    disk.read_at(0, &mut bytes)?;
    Ok(bytes)
}

/// The bytes of a disk.
pub(super) fn bytes_of<D: Disk>(alloc: Global, disk: &mut D) -> Result<Vec<u8>, Fail> {
    let size = disk.size()?;
    let mut bytes = vec![in alloc; 0; size as usize]?;
    disk.read_at(0, &mut bytes)?;
    Ok(bytes)
}

/// Writes where the disk allows it, and says whether it did.
fn put<D: Disk>(disk: &mut D, at: u64, piece: &[u8]) -> Result<(), Failed> {
    if at > disk.size()? || piece.len() > 8 || at > 8 {
        return Err(Failed);
    }
    disk.write_at(at, piece)
}

fn sync<D: Disk>(disk: &mut D) -> Result<(), Failed> {
    disk.sync()
}

fn size<D: Disk>(disk: &mut D) -> Result<u64, Failed> {
    disk.size()
}

#[test]
fn disk_in_memory_fails_where_listed_and_past_its_room(rt: HostRuntime) -> Result<(), Fail> {
    let mut disk = disk_of(rt.alloc(), 4, &[3, 7, 8])?;
    let answers = (put(&mut disk, 0, b"abc"), sync(&mut disk), size(&mut disk));
    assert_eq!(rt; answers, (Ok(()), Ok(()), Err(Failed)));
    let answers = (put(&mut disk, 2, b"def"), disk.short_of_memory());
    assert_eq!(rt; answers, (Err(Failed), false));
    let answers = (put(&mut disk, 2, b"de"), sync(&mut disk), disk.faults());
    assert_eq!(rt; answers, (Err(Failed), Err(Failed), 4));
    assert_eq!(rt; content(&mut disk), Ok(*b"abc"));
    Ok(())
}

/// A disk with `xyz` synced, over which `abc` was written; the listed calls fail.
fn half_written(alloc: Global, failing: &[u64]) -> Result<MemDisk, Fail> {
    let mut disk = disk_of(alloc, 8, failing)?;
    let _ = put(&mut disk, 0, b"xyz");
    let _ = sync(&mut disk);
    let _ = put(&mut disk, 0, b"abc");
    Ok(disk)
}

/// What such a disk has after a crash with this choice, and after another one, behind which all of
/// it was synced.
fn crashed_twice(alloc: Global, choice: u64) -> Result<([u8; 3], [u8; 3]), Fail> {
    let mut disk = half_written(alloc, &[])?.crashed(choice);
    let left = content(&mut disk)?;
    Ok((left, content(&mut disk.crashed(7))?))
}

#[test]
fn crash_tears_what_was_not_synced(rt: HostRuntime) -> Result<(), Fail> {
    let table = [
        *b"abc",
        *b"\0bc",
        *b"a\x01c",
        *b"\x01\x01c",
        *b"ab\x02",
        *b"\x02b\x02",
        *b"a\x03\x03",
        *b"\x03\x03\x03",
    ];
    for (choice, left) in table.iter().enumerate() {
        let both = crashed_twice(rt.alloc(), choice as u64)?;
        assert_eq!(rt; both, (*left, *left));
    }
    Ok(())
}

/// What a crash with this number leaves of `xyz`, which was synced, and of these writes after it.
fn left_of(alloc: Global, writes: &[(u64, &[u8])], number: u64) -> Result<Vec<u8>, Fail> {
    let mut disk = disk_with(alloc, 16, b"xyz", &[])?;
    for (at, piece) in writes {
        put(&mut disk, *at, piece)?;
    }
    bytes_of(alloc, &mut disk.crashed(number))
}

/// What a write's part of the number says of the bytes that it adds at the end.
const HALF: u64 = 1 << 9;

const NONE: u64 = 1 << 10;

/// What stands above it in the number is of the write before.
const EARLIER: u64 = 1 << 11;

#[test]
fn crash_cuts_what_was_added_at_the_end(rt: HostRuntime) -> Result<(), Fail> {
    let table = [
        (0, b"xyabcd".as_slice()),
        (1, b"xy\0bc\0".as_slice()),
        (HALF, b"xyab".as_slice()),
        (HALF + 4, b"xyab".as_slice()),
        (HALF + 2, b"xya\x01".as_slice()),
        (NONE, b"xya".as_slice()),
        (NONE + HALF, b"xya".as_slice()),
        (NONE + 1, b"xy\0".as_slice()),
    ];
    for (number, left) in table {
        let bytes = left_of(rt.alloc(), &[(2, b"abcd".as_slice())], number)?;
        assert_eq!(rt; bytes.as_slice(), left, "{number}");
        // Nothing is added at the end.
        let bytes = left_of(rt.alloc(), &[(1, b"ab".as_slice())], number & (HALF + NONE))?;
        assert_eq!(rt; bytes.as_slice(), b"xab".as_slice());
    }
    Ok(())
}

#[test]
fn crash_tears_the_writes_before_the_newest(rt: HostRuntime) -> Result<(), Fail> {
    let table = [
        (0, b"cyzab".as_slice()),
        (1, b"\0yzab".as_slice()),
        (EARLIER, b"cyz\0b".as_slice()),
        (EARLIER * 2, b"cyza\x01".as_slice()),
        (EARLIER * HALF, b"cyza".as_slice()),
        (EARLIER * NONE, b"cyz".as_slice()),
        (EARLIER * NONE + 1, b"\0yz".as_slice()),
        // No third write is there.
        (EARLIER * EARLIER, b"cyzab".as_slice()),
    ];
    for (number, left) in table {
        let writes = [(3, b"ab".as_slice()), (0, b"c".as_slice())];
        let bytes = left_of(rt.alloc(), &writes, number)?;
        assert_eq!(rt; bytes.as_slice(), left, "{number}");
    }
    // Behind a cut the newest write would leave a gap.
    let table = [
        (0, b"xyzabcd".as_slice()),
        (HALF, b"xyzabc".as_slice()),
        (EARLIER * HALF, b"xyza".as_slice()),
        (EARLIER * NONE, b"xyz".as_slice()),
    ];
    for (number, left) in table {
        let writes = [(3, b"ab".as_slice()), (5, b"cd".as_slice())];
        let bytes = left_of(rt.alloc(), &writes, number)?;
        assert_eq!(rt; bytes.as_slice(), left, "{number}");
    }
    Ok(())
}

#[test]
fn crash_tears_a_write_that_failed(rt: HostRuntime) -> Result<(), Fail> {
    let mut disk = half_written(rt.alloc(), &[4])?;
    // Without a crash it did nothing.
    assert_eq!(rt; content(&mut disk), Ok(*b"xyz"));
    let mut disk = disk.crashed(2);
    assert_eq!(rt; content(&mut disk), Ok(*b"a\x01c"));
    assert_eq!(rt; disk.faults(), 0);
    Ok(())
}

#[test]
fn unkept_disk_keeps_its_size(rt: HostRuntime) {
    let mut disk = Unkept::new();
    let answers = [
        put(&mut disk, 0, b"abcd"),
        put(&mut disk, 1, b"e"),
        sync(&mut disk),
    ];
    assert_eq!(rt; answers, [Ok(()), Ok(()), Ok(())]);
    assert_eq!(rt; size(&mut disk), Ok(4));
    assert_eq!(rt; disk.faults(), 0);
}

/// A disk over an empty file of this name.
fn empty_file<R: Files<File = File>>(rt: &R, path: &str) -> Result<FileDisk, Fail> {
    let file = OpenOptions::new()
        .read(true)
        .write(true)
        .create(true)
        .truncate(true)
        .open(rt, path)?;
    Ok(FileDisk::new(file)?)
}

/// What two writes to an empty file of this name and a sync answer.
fn write_to<R: Files<File = File>>(rt: &R, path: &str) -> Result<[Result<(), Failed>; 3], Fail> {
    let mut disk = empty_file(rt, path)?;
    Ok([
        put(&mut disk, 0, b"abc"),
        put(&mut disk, 2, b"de"),
        sync(&mut disk),
    ])
}

/// A disk over the file of this name, which is open for reading alone.
fn file_to_read<R: Files<File = File>>(rt: &R, path: &str) -> Result<FileDisk, Fail> {
    Ok(FileDisk::new(OpenOptions::new().read(true).open(rt, path)?)?)
}

#[test]
fn disk_over_a_file_keeps_what_is_written(rt: HostRuntime) -> Result<(), Fail> {
    let path = "disk_over_a_file";
    assert_eq!(rt; write_to(&rt, path)?, [Ok(()), Ok(()), Ok(())]);
    let mut disk = file_to_read(&rt, path)?;
    assert_eq!(rt; content(&mut disk), Ok(*b"abde"));
    assert_eq!(rt; put(&mut disk, 0, b"x"), Err(Failed));
    assert_eq!(rt; disk.faults(), 1);
    drop(disk);
    fs::remove_file(&rt, path)?;
    Ok(())
}

/// Cuts the file of this name to two bytes.
fn cut_to_two<R: Files<File = File>>(rt: &R, path: &str) -> Result<(), Fail> {
    OpenOptions::new().write(true).open(rt, path)?.set_len(2)?;
    Ok(())
}

#[test]
fn disk_over_a_file_that_was_cut_short_writes_nothing(rt: HostRuntime) -> Result<(), Fail> {
    let path = "disk_that_was_cut_short";
    let mut disk = empty_file(&rt, path)?;
    assert_eq!(rt; put(&mut disk, 0, b"abc"), Ok(()));
    cut_to_two(&rt, path)?;
    assert_eq!(rt; put(&mut disk, 3, b"de"), Err(Failed));
    assert_eq!(rt; sync(&mut disk), Err(Failed));
    assert_eq!(rt; disk.faults(), 2);
    assert_eq!(rt; fs::read(&rt, path)?.as_slice(), b"ab".as_slice());
    drop(disk);
    fs::remove_file(&rt, path)?;
    Ok(())
}
