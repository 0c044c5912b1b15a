//! Commands over stores, on a host in memory.
ghost use Rattle.std.specs.Prelude.{◌≤◌, length};

use super::{NO_GAME, ends};
use disk_model::{Disk, MemDisk};
use host::laws::what_is_handed_out_is_out;
use host::{Host, MemFile, MemHost};
use outside::Failed;
use std::alloc::{AllocError, Global};
use std::test::Fail;

/// A store of format 2 without a batch.
const EMPTY_STORE: [u8; 13] = *b"OPENEXP1\x02\x00\x00\x00\x00";

/// Whether these bytes stand on a disk of the host.
fn stands<H: Host>(host: &mut H, name: &str, bytes: &[u8; 13]) -> Result<bool, Failed> {
    // law: a disk that was handed out is to be given back
    what_is_handed_out_is_out();
    let mut disk = host.disk(name)?;
    let found = holds(&mut disk, bytes);
    host.close(name, disk);
    found
}

fn holds<D: Disk>(disk: &mut D, bytes: &[u8; 13]) -> Result<bool, Failed> {
    let mut found = [0; 13];
    if disk.size()? != 13 {
        return Ok(false);
    }
    disk.read_at(0, &mut found)?;
    Ok(found == *bytes)
}

/// A disk with these bytes.
pub fn disk_with(alloc: Global, bytes: &[u8]) -> Result<MemDisk, Fail>
    requires { length bytes.now ≤ 100 }
{
    let mut disk = MemDisk::new(alloc, 100, Vec::new(alloc))?;
    disk.write_at(0, bytes)?;
    Ok(disk)
}

/// A file with this text.
pub fn file_of(alloc: Global, text: &str) -> Result<MemFile, AllocError> {
    Ok(MemFile {
        bytes: text.as_bytes().to_vec(alloc)?,
        failing: Vec::new(alloc),
    })
}

/// A host with empty disks, of which the first sync of `b` fails, two that are no store of this
/// format, and an empty file.
fn host_of_stores(alloc: Global) -> Result<MemHost, Fail> {
    let mut host = MemHost::new(alloc);
    host.add_disk("a", MemDisk::new(alloc, 100, Vec::new(alloc))?)?;
    host.add_disk("b", MemDisk::new(alloc, 100, vec![in alloc; 2]?)?)?;
    host.add_disk("short", disk_with(alloc, b"OPENEXP1\x02\x00\x00\x00")?)?;
    host.add_disk("other", disk_with(alloc, b"OPENEXP1\x09\x00\x00\x00\x00")?)?;
    host.add_file("f", file_of(alloc, "")?)?;
    Ok(host)
}

#[test]
fn makes_a_store_once_and_opens_what_is_named(rt: HostRuntime) -> Result<(), Fail> {
    let mut host = host_of_stores(rt.alloc())?;
    let table: [(&[&str], _); 15] = [
        (&["create", "a"], (0, "created\n", "")),
        (&["create", "a"], (7, "", "not empty 13\n")),
        (&["create", "b"], (6, "", "disk fault\n")),
        (&["create", "lost"], (10, "", "cannot open lost\n")),
        (&["query", "a"], (0, NO_GAME, "")),
        (
            &["query", "a", "moves=3&moves=3"],
            (3, "", "bad parameter moves\n"),
        ),
        (&["query", "short"], (7, "", "not a store\n")),
        (&["query", "other"], (7, "", "format 9\n")),
        (&["query", "lost"], (10, "", "cannot open lost\n")),
        (&["import", "lost", "f"], (10, "", "cannot open lost\n")),
        (&["import", "a", "lost"], (10, "", "cannot open lost\n")),
        (&["serve", "short", "l"], (7, "", "not a store\n")),
        (&["serve", "lost", "l"], (10, "", "cannot open lost\n")),
        (&["serve", "a", "l", "f", "g"], (10, "", "cannot open g\n")),
        (&["serve", "a", "l", "f"], (10, "", "cannot open l\n")),
    ];
    for (words, ending) in table {
        assert!(rt; ends(&rt, &mut host, words, ending)?, "{:?}", words);
    }
    assert!(rt; stands(&mut host, "a", &EMPTY_STORE)?);
    Ok(())
}
