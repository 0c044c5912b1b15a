//! The batches of stores, on a host in memory.
use super::{NEVER, ends, game_by_number, status_of, streams_of, with_name};
use disk_model::{Disk, MemDisk};
use host::MemHost;
use std::alloc::Global;
use std::test::Fail;

/// A store of format 2 without a batch, but for the byte that says so.
const HEAD: [u8; 12] = *b"OPENEXP1\x02\x00\x00\x00";

/// What a disk has room for.
const ROOM: usize = 4096;

/// A batch by its label and how many games it has.
type Listed<'a> = (&'a str, u32);

/// Puts a record of a batch behind a file. The first of its games has this number.
fn push_batch(
    alloc: Global,
    file: &mut Vec<u8>,
    number: u32,
    batch: Listed<'_>,
) -> Result<(), Fail> {
    let (label, games) = batch;
    if games > 512 || label.len() > 64 {
        return Err(Fail::from("no batch"));
    }
    let mut payload = vec![in alloc; label.len() as u8]?;
    payload.extend_from_slice(label.as_bytes())?;
    payload.extend_from_slice(&(games as u16).to_le_bytes())?;
    for game in 0..games {
        let text = game_by_number(alloc, number.saturating_add(game))?;
        if text.len() > ROOM {
            return Err(Fail::from("too long"));
        }
        payload.extend_from_slice(&(text.len() as u32).to_le_bytes())?;
        payload.extend_from_slice(text.as_bytes())?;
    }
    if payload.len() > ROOM {
        return Err(Fail::from("too long"));
    }
    file.push(1)?;
    file.extend_from_slice(&(payload.len() as u32).to_le_bytes())?;
    file.extend_from_slice(payload.as_slice())?;
    Ok(())
}

/// The file of a store with these batches.
fn file_with(alloc: Global, batches: &[Listed<'_>]) -> Result<Vec<u8>, Fail> {
    let mut file = HEAD.to_vec(alloc)?;
    let mut number = 0u32;
    for batch in batches {
        push_batch(alloc, &mut file, number, *batch)?;
        number = number.saturating_add(batch.1);
    }
    file.push(0)?;
    Ok(file)
}

/// A host with a disk `s`, which has these bytes and whose call of this number fails. Behind its
/// making 1 is the next.
fn host_with(alloc: Global, bytes: &[u8], failing: u64) -> Result<MemHost, Fail> {
    if bytes.len() > ROOM {
        return Err(Fail::from("too long"));
    }
    let mut disk = MemDisk::new(alloc, ROOM, vec![in alloc; failing]?)?;
    disk.write_at(0, bytes)?;
    let mut host = MemHost::new(alloc);
    host.add_disk("s", disk)?;
    Ok(host)
}

/// The segments of the store of three batches become one when it is opened, those of the store of
/// two don't.
#[test]
fn batches_are_listed_in_their_order(rt: HostRuntime) -> Result<(), Fail> {
    let table: [(&[Listed<'_>], &str); 4] = [
        (&[], ""),
        (&[("", 1)], "1 1 \n"),
        (
            &[("", 2), ("jan 2020", 1), ("é", 2)],
            "1 2 \n2 1 jan 2020\n3 2 é\n",
        ),
        (&[("a", 4), ("a", 1)], "1 4 a\n2 1 a\n"),
    ];
    for (batches, lines) in table {
        let file = file_with(rt.alloc(), batches)?;
        let mut host = host_with(rt.alloc(), file.as_slice(), NEVER)?;
        for words in [&["batches", "s"], &["batches", "s", "--workers=1"][..]] {
            assert!(rt; ends(&rt, &mut host, words, (0, lines, ""))?, "{lines}");
        }
    }
    Ok(())
}

/// It is refused as a question refuses it.
#[test]
fn what_is_no_store_is_not_listed(rt: HostRuntime) -> Result<(), Fail> {
    let table: [(&[u8], &str); 5] = [
        (&HEAD, "not a store\n"),
        (b"OPENEXP1\x01\x00\x00\x00\x00", "format 1\n"),
        (b"OPENEXP1\x02\x00\x00\x00\x01", "damaged at 12\n"),
        (
            b"OPENEXP1\x02\x00\x00\x00\x01\x08\x00\x00\x00\x00\x01\x00\x01\x00\x00\x00x\x00",
            "damaged at 12\n",
        ),
        (b"", "not a store\n"),
    ];
    for (bytes, line) in table {
        let mut host = host_with(rt.alloc(), bytes, NEVER)?;
        for command in ["batches", "query"] {
            assert!(rt;
                ends(&rt, &mut host, &[command, "s"], (7, "", line))?,
                "{line}"
            );
        }
    }
    Ok(())
}

#[test]
fn calls_that_fail_end_a_listing(rt: HostRuntime) -> Result<(), Fail> {
    let file = file_with(rt.alloc(), &[("a", 1)])?;
    let words = ["batches", "s"];
    let mut host = host_with(rt.alloc(), file.as_slice(), 1)?;
    assert!(rt; ends(&rt, &mut host, &words, (6, "", "disk fault\n"))?);
    assert!(rt;
        ends(
            &rt,
            &mut host,
            &["batches", "t"],
            (10, "", "cannot open t\n")
        )?
    );
    Ok(())
}

/// The first write of the output fails. Of a store without a batch nothing is written.
#[test]
fn lines_that_are_not_written_are_told(rt: HostRuntime) -> Result<(), Fail> {
    let table: [(&[Listed<'_>], u8, &str); 2] = [(&[("a", 1)], 5, "write fault\n"), (&[], 0, "")];
    let words = with_name(rt.alloc(), &["batches", "s"])?;
    for (batches, status, line) in table {
        let file = file_with(rt.alloc(), batches)?;
        let mut host = host_with(rt.alloc(), file.as_slice(), NEVER)?;
        let mut streams = streams_of(rt.alloc(), "", 1, [NEVER, 0, NEVER])?;
        assert_eq!(rt;
            status_of(&rt, words.as_slice(), &mut streams, &mut host),
            status
        );
        assert!(rt; streams.have("", line), "{line}");
    }
    Ok(())
}
