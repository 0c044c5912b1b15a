//! Queries whose rows stand in a scratch file, on a host in memory.
ghost use Rattle.std.specs.Prelude.{◌≡◌, [], IfOk};

use super::openings::{KINGS_PAWN, named_move};
use super::stores::{disk_with, file_of};
use super::{NEVER, NO_GAME, ends, five_games, five_texts, game, one_move, two_moves};
use disk_model::MemDisk;
use host::laws::what_is_handed_out_is_out;
use host::{Host, MemHost};
use outside::MemPort;
use std::alloc::{AllocError, Global};
use std::sync::Wait;
use std::test::Fail;
use std::thread::Threads;

/// A scratch file of so much room whose call of this number fails.
fn scratch(alloc: Global, room: usize, failing: u64) -> Result<MemPort, AllocError> {
    MemPort::new(alloc, room, vec![in alloc; failing]?)
}

/// A host with an empty disk `s`, whose call of this number fails, a disk that is no store, a file
/// of games and two of openings.
fn host_without_scratch(alloc: Global, text: &str, failing: u64) -> Result<MemHost, Fail>
    ensures { IfOk result (λ host. host.calls ≡ []) }
{
    let mut host = MemHost::new(alloc);
    host.add_disk("s", MemDisk::new(alloc, 1 << 16, vec![in alloc; failing]?)?)?;
    host.add_disk("short", disk_with(alloc, b"OPENEXP1\x02\x00\x00\x00")?)?;
    host.add_file("f", file_of(alloc, text)?)?;
    host.add_file("good", file_of(alloc, KINGS_PAWN)?)?;
    host.add_file("bad", file_of(alloc, "B00\tKing's Pawn Game\t1. e5")?)?;
    Ok(host)
}

/// The same with scratch files: `x`, whose call of the second number fails, those whose first call
/// and whose second fail, one with room for a row and a part of the next, and a blank one.
fn host_with(alloc: Global, text: &str, failing: (u64, u64)) -> Result<MemHost, Fail> {
    let (disk, port) = failing;
    let mut host = host_without_scratch(alloc, text, disk)?;
    host.add_port("x", scratch(alloc, 1 << 12, port)?)?;
    host.add_port("first", scratch(alloc, 1 << 12, 0)?)?;
    host.add_port("second", scratch(alloc, 1 << 12, 1)?)?;
    host.add_port("middle", scratch(alloc, 200, NEVER)?)?;
    host.add_port("blank", MemPort::blank(alloc, Vec::new(alloc)))?;
    Ok(host)
}

/// The same, where `s` is a store with one batch of so many games, which the text has.
fn host_with_store<R: AllocGlobal + Wait + Threads + Sync>(
    rt: &R,
    text: &str,
    games: u32,
    failing: (u64, u64),
) -> Result<MemHost, Fail> {
    let mut host = host_with(rt.alloc(), text, failing)?;
    let line = format!(in rt.alloc(); "stored {games}\nbatches 1\njournal 1\n")?;
    let imported = (0, line.as_str(), "");
    if !ends(rt, &mut host, &["create", "s"], (0, "created\n", ""))?
        || !ends(rt, &mut host, &["import", "s", "f"], imported)?
    {
        return Err(Fail::from("not stored"));
    }
    Ok(host)
}

/// Whether a store of the text gives this answer to the query, with rows in memory and, twice under
/// one name, in a scratch file.
fn answers_alike<R: AllocGlobal + Wait + Threads + Sync>(
    rt: &R,
    (text, games): (&str, u32),
    query: &str,
    answer: &str,
) -> Result<bool, Fail> {
    let mut host = host_with_store(rt, text, games, (NEVER, NEVER))?;
    let spilled = ["query", "s", query, "--spill", "x"];
    let kept = ends(rt, &mut host, &["query", "s", query], (0, answer, ""))?;
    let first = ends(rt, &mut host, &spilled, (0, answer, ""))?;
    let second = ends(rt, &mut host, &spilled, (0, answer, ""))?;
    Ok(kept && first && second)
}

/// Movetexts, queries, the rating of the one move that is found, its SAN and its UCI.
const ONE_MOVE: [(&str, &str, &str, &str, &str); 4] = [
    (
        "1. e4 { [%eval 0.17] [%clk 0:00:30] } 1... c5?! { [%clk 0:00:29] } 1-0",
        "",
        "1500",
        "e4",
        "e2e4",
    ),
    (
        "1. e4 { [%eval 0.17] [%clk 0:00:30] } 1... c5?! { [%clk 0:00:29] } 1-0",
        "play=e2e4",
        "1400",
        "c5",
        "c7c5",
    ),
    ("1. Nf3 Nf6 2. Ng1 Ng8 3. e4 1-0", "", "1500", "Nf3", "g1f3"),
    (
        "1. Nf3 Nf6 2. Ng1 Ng8 3. e4 1-0",
        "play=g1f3,g8f6,f3g1",
        "1400",
        "Ng8",
        "f6g8",
    ),
];

#[test]
fn answers_are_alike_with_a_scratch_file(rt: HostRuntime) -> Result<(), Fail> {
    let alloc = rt.alloc();
    for (movetext, query, rating, san, uci) in ONE_MOVE {
        let text = game(alloc, "1-0", movetext)?;
        let answer = one_move(alloc, "", rating, san, uci)?;
        let alike = answers_alike(&rt, (text.as_str(), 1), query, answer.as_str())?;
        assert!(rt; alike, "{movetext} {query}");
    }
    let text = game(alloc, "1-0", "1. e4 1-0")?;
    assert!(rt; answers_alike(&rt, (text.as_str(), 1), "play=d2d4", NO_GAME)?);
    let (text, answer) = two_moves(alloc)?;
    assert!(rt; answers_alike(&rt, (text.as_str(), 2), "", answer.as_str())?);
    let text = five_texts(alloc)?;
    let answer = five_games(alloc, &[0, 1, 2, 3], &[4, 3, 2, 1])?;
    assert!(rt; answers_alike(&rt, (text.as_str(), 5), "", answer.as_str())?);
    Ok(())
}

/// The query is judged first, then FILE is read, and then STORE and NAME are asked for. Behind a
/// NAME that is refused the store is there again.
#[test]
fn what_fails_first_ends_the_run(rt: HostRuntime) -> Result<(), Fail> {
    let text = game(rt.alloc(), "1-0", "1. e4 1-0")?;
    let named = named_move(rt.alloc())?;
    let mut host = host_with_store(&rt, text.as_str(), 1, (NEVER, NEVER))?;
    let fault = (13, "", "spill fault\n");
    let damaged = (14, "", "spill damaged 0\n");
    let lost = (10, "", "cannot open lost\n");
    let table: [(&[&str], _); 13] = [
        (&["query", "s", "--spill", "first"], fault),
        (&["query", "s", "--spill", "middle"], fault),
        (&["query", "s", "--spill", "second"], fault),
        (&["query", "s", "--spill", "blank"], damaged),
        (&["query", "s", "--spill", "blank"], damaged),
        (&["query", "s", "--spill", "lost"], lost),
        (&["query", "lost", "--spill", "none"], lost),
        (
            &["query", "short", "--spill", "x"],
            (7, "", "not a store\n"),
        ),
        (
            &["query", "s", "moves=x", "--spill", "lost"],
            (3, "", "bad parameter moves\n"),
        ),
        (
            &["query", "lost", "--spill", "none", "--openings", "bad"],
            (12, "", "openings line 1 BadMove\n"),
        ),
        (
            &["query", "lost", "--spill", "none", "--openings", "good"],
            lost,
        ),
        (
            &["query", "s", "--spill", "lost", "--openings", "good"],
            lost,
        ),
        (
            &["query", "s", "--spill", "x", "--openings", "good"],
            (0, named.as_str(), ""),
        ),
    ];
    for (words, ending) in table {
        assert!(rt; ends(&rt, &mut host, words, ending)?, "{:?}", words);
    }
    Ok(())
}

/// Whether the host hands out the disk of this name.
fn has_disk<H: Host>(host: &mut H, name: &str) -> bool {
    // law: a disk that was handed out is to be given back
    what_is_handed_out_is_out();
    let Ok(disk) = host.disk(name) else {
        return false;
    };
    host.close(name, disk);
    true
}

/// Whether the host hands out the scratch file of this name.
fn has_port<H: Host>(host: &mut H, name: &str) -> bool {
    // law: a scratch file that was handed out is to be given back
    what_is_handed_out_is_out();
    let Ok(port) = host.port(name) else {
        return false;
    };
    host.close_port(name, port);
    true
}

/// Whether a query through a scratch file ends so, where the calls of the disk and of the file of
/// these numbers fail, and which of the two are handed out again. A host in memory hands out none
/// that came back with faults.
fn seen_of_fault<R: AllocGlobal + Wait + Threads + Sync>(
    rt: &R,
    failing: (u64, u64),
    ending: (u8, &str, &str),
) -> Result<(bool, bool, bool), Fail> {
    let text = game(rt.alloc(), "1-0", "1. e4 1-0")?;
    let mut host = host_with_store(rt, text.as_str(), 1, failing)?;
    let ended = ends(rt, &mut host, &["query", "s", "--spill", "x"], ending)?;
    Ok((ended, has_disk(&mut host, "s"), has_port(&mut host, "x")))
}

#[test]
fn each_call_of_both_fails_in_turn(rt: HostRuntime) -> Result<(), Fail> {
    let fault = (6, "", "disk fault\n");
    // The store was made and filled by the calls before 12.
    for call in 12..=19 {
        let seen = seen_of_fault(&rt, (call, NEVER), fault)?;
        assert_eq!(rt; seen, (true, false, true), "{call}");
    }
    let fault = (13, "", "spill fault\n");
    // One append, and a read for each of the two rows.
    for call in 0..=2 {
        let seen = seen_of_fault(&rt, (NEVER, call), fault)?;
        assert_eq!(rt; seen, (true, true, false), "{call}");
    }
    let answer = one_move(rt.alloc(), "", "1500", "e4", "e2e4")?;
    let seen = seen_of_fault(&rt, (20, 3), (0, answer.as_str(), ""))?;
    assert_eq!(rt; seen, (true, true, true));
    Ok(())
}
