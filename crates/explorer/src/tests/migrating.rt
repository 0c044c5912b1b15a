//! Stores that are made of stores in the first format, on a host in memory.
ghost use Rattle.std.specs.Prelude.{◌≤◌, length};

use super::{NEVER, ends, five_games, game_by_number, status_of, streams_of, with_name};
use disk_model::{Disk, MemDisk};
use host::laws::what_is_handed_out_is_out;
use host::{Host, MemCall, MemHost};
use std::alloc::{AllocError, Global};
use std::test::Fail;

/// A store of format 1 with a batch of one text, `x`, byte by byte.
const FIRST: [u8; 25] =
    *b"OPENEXP1\x01\x00\x00\x00\x01\x07\x00\x00\x00\x01\x00\x01\x00\x00\x00x\x00";

/// The store of format 2 with that batch, which has no label.
const SECOND: [u8; 26] =
    *b"OPENEXP1\x02\x00\x00\x00\x01\x08\x00\x00\x00\x00\x01\x00\x01\x00\x00\x00x\x00";

/// What a disk has room for.
const ROOM: usize = 4096;

/// A disk with these bytes, whose calls of these numbers fail. Behind its making 1 is the next.
fn disk_with(alloc: Global, bytes: &[u8], failing: &[u64]) -> Result<MemDisk, Fail> {
    if bytes.len() > ROOM {
        return Err(Fail::from("too long"));
    }
    let mut disk = MemDisk::new(alloc, ROOM, failing.to_vec(alloc)?)?;
    disk.write_at(0, bytes)?;
    Ok(disk)
}

/// A host with the disk `old`, which has these bytes, and the empty disk `new`. Calls of these numbers
/// fail.
fn host_with(alloc: Global, bytes: &[u8], old: &[u64], new: &[u64]) -> Result<MemHost, Fail> {
    let mut host = MemHost::new(alloc);
    host.add_disk("old", disk_with(alloc, bytes, old)?)?;
    host.add_disk("new", MemDisk::new(alloc, ROOM, new.to_vec(alloc)?)?)?;
    Ok(host)
}

/// The bytes of a disk of the host.
fn bytes_under<H: Host>(alloc: Global, host: &mut H, name: &str) -> Result<Vec<u8>, Fail> {
    // law: a disk that was handed out is to be given back
    what_is_handed_out_is_out();
    let mut disk = host.disk(name)?;
    let found = bytes_of(alloc, &mut disk);
    host.close(name, disk);
    found
}

fn bytes_of<D: Disk>(alloc: Global, disk: &mut D) -> Result<Vec<u8>, Fail> {
    let size = disk.size()?;
    let mut bytes = vec![in alloc; 0; size as usize]?;
    disk.read_at(0, &mut bytes)?;
    Ok(bytes)
}

/// What was asked of the host and given back, in order: each disk by its place.
fn calls_of(alloc: Global, host: &MemHost) -> Result<String, AllocError> {
    let mut told = String::new(alloc);
    for call in host.calls() {
        let line = match call {
            MemCall::DiskOut { place } => format!(in alloc; "out {place}, ")?,
            MemCall::DiskBack { place } => format!(in alloc; "back {place}, ")?,
            MemCall::DiskRefused { name } => format!(in alloc; "refused {name}, ")?,
            _ => String::from_str(alloc, "another, ")?,
        };
        told.push_str(line.as_str())?;
    }
    Ok(told)
}

/// A migration: what the old store has, the names, how it ends, what was asked of the host, and what
/// the new store has then.
#[derive(Clone, Copy)]
struct Case<'a> {
    old: &'a [u8],
    names: [&'a str; 2],
    ending: (u8, &'a str, &'a str),
    calls: &'a str,
    new: &'a [u8],
}

/// A migration of these bytes to the disk `new` that is refused so.
fn refusal<'a>(old: &'a [u8], line: &'a str) -> Case<'a> {
    Case {
        old,
        names: ["old", "new"],
        ending: (7, "", line),
        calls: "out 0, back 0, ",
        new: b"",
    }
}

/// A migration of `FIRST` between these names.
fn between<'a>(
    names: [&'a str; 2],
    ending: (u8, &'a str, &'a str),
    calls: &'a str,
    new: &'a [u8],
) -> Case<'a> {
    Case {
        old: &FIRST,
        names,
        ending,
        calls,
        new,
    }
}

#[test]
fn store_of_the_first_format_is_migrated_or_refused(rt: HostRuntime) -> Result<(), Fail> {
    let both = "out 0, back 0, out 1, back 1, ";
    let lost = (10, "", "cannot open lost\n");
    let table = [
        between(["old", "new"], (0, "migrated 1\n", ""), both, &SECOND),
        between(
            ["old", "old"],
            (7, "", "not empty 25\n"),
            "out 0, back 0, out 0, back 0, ",
            b"",
        ),
        between(["lost", "new"], lost, "refused lost, ", b""),
        between(["old", "lost"], lost, "out 0, back 0, refused lost, ", b""),
        Case {
            old: b"OPENEXP1\x01\x00\x00\x00\x00",
            names: ["old", "new"],
            ending: (0, "migrated 0\n", ""),
            calls: both,
            new: b"OPENEXP1\x02\x00\x00\x00\x00",
        },
        refusal(&SECOND, "format 2\n"),
        refusal(b"OPENEXP1\x09\x00\x00\x00\x00", "format 9\n"),
        refusal(b"OPENEXP1\x01\x00\x00\x00", "not a store\n"),
        refusal(b"OPENEXP2\x01\x00\x00\x00\x00", "not a store\n"),
        // A payload of no byte, one that is too long, one with no text, and one with a label.
        refusal(
            b"OPENEXP1\x01\x00\x00\x00\x01\x00\x00\x00\x00\x00",
            "damaged at 12\n",
        ),
        refusal(
            b"OPENEXP1\x01\x00\x00\x00\x01\x03\x08\x00\x02\x00",
            "damaged at 12\n",
        ),
        refusal(
            b"OPENEXP1\x01\x00\x00\x00\x01\x02\x00\x00\x00\x00\x00\x00",
            "damaged at 12\n",
        ),
        refusal(
            b"OPENEXP1\x01\x00\x00\x00\x01\x08\x00\x00\x00\x00\x01\x00\x01\x00\x00\x00x\x00",
            "damaged at 12\n",
        ),
        // A record that is cut off behind a good one, and behind one whose payload is none.
        refusal(
            b"OPENEXP1\x01\x00\x00\x00\x01\x07\x00\x00\x00\x01\x00\x01\x00\x00\x00x\x01\x00",
            "damaged at 24\n",
        ),
        refusal(
            b"OPENEXP1\x01\x00\x00\x00\x01\x02\x00\x00\x00\x00\x00\x01\x00",
            "damaged at 19\n",
        ),
    ];
    for case in table {
        let [old, new] = case.names;
        let mut host = host_with(rt.alloc(), case.old, &[], &[])?;
        let words = ["migrate", old, new];
        assert!(rt;
            ends(&rt, &mut host, &words, case.ending)?,
            "{:?}",
            case.ending
        );
        assert_eq!(rt; calls_of(rt.alloc(), &host)?.as_str(), case.calls);
        assert_eq!(rt;
            bytes_under(rt.alloc(), &mut host, "old")?.as_slice(),
            case.old
        );
        assert_eq!(rt;
            bytes_under(rt.alloc(), &mut host, "new")?.as_slice(),
            case.new
        );
    }
    Ok(())
}

#[test]
fn store_that_is_cut_is_refused(rt: HostRuntime) -> Result<(), Fail> {
    for size in 0..25 {
        let line = if size < 13 {
            "not a store\n"
        } else {
            "damaged at 12\n"
        };
        let mut host = host_with(rt.alloc(), &FIRST[..size], &[], &[])?;
        let words = ["migrate", "old", "new"];
        assert!(rt; ends(&rt, &mut host, &words, (7, "", line))?, "{size}");
        assert_eq!(rt; bytes_under(rt.alloc(), &mut host, "new")?.len(), 0);
    }
    Ok(())
}

/// Each call of the old disk is one of its reading, and none behind it asks for the new one. On the
/// new disk three make the store and four store the batch.
#[test]
fn each_call_of_a_disk_may_fail(rt: HostRuntime) -> Result<(), Fail> {
    let fault = (6, "", "disk fault\n");
    let words = ["migrate", "old", "new"];
    for call in 1..9 {
        let mut host = host_with(rt.alloc(), &FIRST, &[call], &[])?;
        assert!(rt; ends(&rt, &mut host, &words, fault)?, "{call}");
        assert_eq!(rt; calls_of(rt.alloc(), &host)?.as_str(), "out 0, back 0, ");
    }
    for call in 0..7 {
        let mut host = host_with(rt.alloc(), &FIRST, &[], &[call])?;
        assert!(rt; ends(&rt, &mut host, &words, fault)?, "{call}");
        let calls = calls_of(rt.alloc(), &host)?;
        assert_eq!(rt; calls.as_str(), "out 0, back 0, out 1, back 1, ");
        assert_eq!(rt;
            bytes_under(rt.alloc(), &mut host, "old")?.as_slice(),
            FIRST.as_slice()
        );
    }
    let mut host = host_with(rt.alloc(), &FIRST, &[9], &[7])?;
    assert!(rt; ends(&rt, &mut host, &words, (0, "migrated 1\n", ""))?);
    Ok(())
}

#[test]
fn store_is_made_though_its_line_is_not_written(rt: HostRuntime) -> Result<(), Fail> {
    let mut host = host_with(rt.alloc(), &FIRST, &[], &[])?;
    let words = with_name(rt.alloc(), &["migrate", "old", "new"])?;
    let mut streams = streams_of(rt.alloc(), "", 1, [NEVER, 0, NEVER])?;
    assert_eq!(rt;
        status_of(&rt, words.as_slice(), &mut streams, &mut host),
        5
    );
    assert!(rt; streams.have("", "write fault\n"));
    assert_eq!(rt;
        bytes_under(rt.alloc(), &mut host, "new")?.as_slice(),
        SECOND.as_slice()
    );
    Ok(())
}

#[test]
fn text_without_a_game_is_told_by_the_opening(rt: HostRuntime) -> Result<(), Fail> {
    let mut host = host_with(rt.alloc(), &FIRST, &[], &[])?;
    let table: [(&[&str], _); 2] = [
        (&["migrate", "old", "new"], (0, "migrated 1\n", "")),
        (&["query", "new"], (7, "", "damaged at 12\n")),
    ];
    for (words, ending) in table {
        assert!(rt; ends(&rt, &mut host, words, ending)?, "{words:?}");
    }
    Ok(())
}

/// Puts a record of a batch of these texts behind a file of a format, without a label.
fn push_record(
    alloc: Global,
    file: &mut Vec<u8>,
    format: u8,
    texts: &[String],
) -> Result<(), Fail> {
    let mut payload = Vec::new(alloc);
    if format == 2 {
        payload.push(0)?;
    }
    if texts.len() > 512 {
        return Err(Fail::from("too many"));
    }
    payload.extend_from_slice(&(texts.len() as u16).to_le_bytes())?;
    for text in texts {
        if text.len() > 1000 {
            return Err(Fail::from("too long"));
        }
        payload.extend_from_slice(&(text.len() as u32).to_le_bytes())?;
        payload.extend_from_slice(text.as_bytes())?;
    }
    if payload.len() > ROOM {
        return Err(Fail::from("too long"));
    }
    file.push(1)?;
    file.extend_from_slice(&(payload.len() as u32).to_le_bytes())?;
    file.extend_from_slice(payload.as_slice())?;
    Ok(())
}

/// A store of a format with three batches of these five texts.
fn store_of_three(alloc: Global, format: u8, texts: &[String]) -> Result<Vec<u8>, Fail>
    requires { 5 ≤ length texts.now }
{
    let mut file = b"OPENEXP1".as_slice().to_vec(alloc)?;
    file.extend_from_slice(&u32::from(format).to_le_bytes())?;
    push_record(alloc, &mut file, format, &texts[..2])?;
    push_record(alloc, &mut file, format, &texts[2..3])?;
    push_record(alloc, &mut file, format, &texts[3..5])?;
    file.push(0)?;
    Ok(file)
}

#[test]
fn batches_stand_in_the_new_store_without_labels(rt: HostRuntime) -> Result<(), Fail> {
    let mut texts = Vec::new(rt.alloc());
    for number in 0..5u32 {
        texts.push(game_by_number(rt.alloc(), number)?)?;
    }
    if texts.len() < 5 {
        return Err(Fail::from("too few"));
    }
    let old = store_of_three(rt.alloc(), 1, texts.as_slice())?;
    let new = store_of_three(rt.alloc(), 2, texts.as_slice())?;
    let mut host = host_with(rt.alloc(), old.as_slice(), &[], &[])?;
    let words = ["migrate", "old", "new"];
    assert!(rt; ends(&rt, &mut host, &words, (0, "migrated 3\n", ""))?);
    assert_eq!(rt; bytes_under(rt.alloc(), &mut host, "new")?, new);
    let answer = five_games(rt.alloc(), &[0, 1, 2, 3], &[4, 3, 2, 1])?;
    assert!(rt; ends(&rt, &mut host, &["query", "new"], (0, answer.as_str(), ""))?);
    Ok(())
}
