//! Stores of another format.
use super::ends;
use disk_model::{Disk, MemDisk};
use host::MemHost;
use std::alloc::Global;
use std::test::Fail;

/// A disk with a store of format 1 without a batch.
fn first_store(alloc: Global) -> Result<MemDisk, Fail> {
    let mut disk = MemDisk::new(alloc, 100, Vec::new(alloc))?;
    disk.write_at(0, b"OPENEXP1\x01\x00\x00\x00\x00")?;
    Ok(disk)
}

#[test]
fn store_of_format_1_is_refused(rt: HostRuntime) -> Result<(), Fail> {
    let alloc = rt.alloc();
    let mut host = MemHost::new(alloc);
    host.add_disk("a", first_store(alloc)?)?;
    let table: [&[&str]; 3] = [&["query", "a"], &["import", "a", "f"], &["serve", "a", "l"]];
    for words in table {
        assert!(rt;
            ends(&rt, &mut host, words, (7, "", "format 1\n"))?,
            "{words:?}"
        );
    }
    Ok(())
}
