//! Answers with the openings of a file, on a host in memory.
use super::stores::{disk_with, file_of};
use super::{FAULTLESS, NO_GAME, ends, game, listed_game, status_of, streams_of, with_name};
use host::{MemFile, MemHost};
use std::alloc::{AllocError, Global};
use std::test::Fail;

pub const KINGS_PAWN: &str = "B00\tKing's Pawn Game\t1. e4";

/// What is answered where no game is, behind a move that has the opening.
const NAMED: &str = "{\"black\":0,\"draws\":0,\"moves\":[],\
\"opening\":{\"eco\":\"B00\",\"name\":\"King's Pawn Game\"},\"recentGames\":[],\"topGames\":[],\
\"white\":0}\n";

/// The answer over a game whose one move has the opening.
pub fn named_move(alloc: Global) -> Result<String, AllocError> {
    let game = listed_game(alloc, "aaaaaaa1", "e2e4", "white")?;
    format!(in alloc;
        "{{\"black\":0,\"draws\":0,\"moves\":[{{\"averageRating\":1500,\"black\":0,\"draws\":0,\
         \"game\":{game},\"opening\":{{\"eco\":\"B00\",\"name\":\"King's Pawn Game\"}},\
         \"san\":\"e4\",\"uci\":\"e2e4\",\"white\":1}}],\"opening\":null,\"recentGames\":[{game}],\
         \"topGames\":[{game}],\"white\":1}}\n"
    )
}

/// A file of so many empty lines.
fn lines(alloc: Global, count: usize) -> Result<MemFile, AllocError> {
    Ok(MemFile {
        bytes: vec![in alloc; b'\n'; count]?,
        failing: Vec::new(alloc),
    })
}

/// A file whose first read fails.
fn unreadable_file(alloc: Global) -> Result<MemFile, AllocError> {
    Ok(MemFile {
        bytes: KINGS_PAWN.as_bytes().to_vec(alloc)?,
        failing: vec![in alloc; 0]?,
    })
}

/// A host with a store without a game, and files of openings: a good one, one of a move that is none,
/// one that cannot be read, one as long as can be, and one that is longer.
fn host_of_openings(alloc: Global) -> Result<MemHost, Fail> {
    let mut host = MemHost::new(alloc);
    host.add_disk("s", disk_with(alloc, b"OPENEXP1\x02\x00\x00\x00\x00")?)?;
    host.add_file("good", file_of(alloc, KINGS_PAWN)?)?;
    host.add_file("bad", file_of(alloc, "B00\tKing's Pawn Game\t1. e5")?)?;
    host.add_file("unread", unreadable_file(alloc)?)?;
    host.add_file("most", lines(alloc, 4_194_304)?)?;
    host.add_file("long", lines(alloc, 4_194_305)?)?;
    Ok(host)
}

#[test]
fn openings_are_named_or_the_file_ends_the_run(rt: HostRuntime) -> Result<(), Fail> {
    let mut host = host_of_openings(rt.alloc())?;
    let bad = (12, "", "openings line 1 BadMove\n");
    let lost = (10, "", "cannot open lost\n");
    let table: [(&[&str], _); 15] = [
        (&["query", "s", "--openings", "good"], (0, NO_GAME, "")),
        (
            &["query", "s", "play=e2e4,c7c5", "--openings", "good"],
            (0, NAMED, ""),
        ),
        (&["query", "s", "--openings", "most"], (0, NO_GAME, "")),
        (
            &["query", "s", "--openings", "long"],
            (12, "", "openings too long\n"),
        ),
        (&["query", "s", "--openings", "bad"], bad),
        (
            &["query", "s", "--openings", "unread"],
            (4, "", "read fault\n"),
        ),
        (&["query", "s", "--openings", "lost"], lost),
        (
            &["query", "s", "--openings", ""],
            (10, "", "cannot open \n"),
        ),
        // The query is judged before the file, and the file before the store.
        (
            &["query", "s", "moves=x", "--openings", "lost"],
            (3, "", "bad parameter moves\n"),
        ),
        (&["query", "none", "--openings", "bad"], bad),
        (&["count", "--openings", "bad"], bad),
        (&["count", "--openings", "lost"], lost),
        (
            &["count", "play=e2e4", "--openings", "good"],
            (0, NAMED, ""),
        ),
        (&["serve", "none", "a", "--openings", "bad"], bad),
        (&["serve", "lost", "a", "--openings", "good"], lost),
    ];
    for (words, ending) in table {
        assert!(rt; ends(&rt, &mut host, words, ending)?, "{:?}", words);
    }
    Ok(())
}

#[test]
fn moves_that_are_counted_have_their_openings(rt: HostRuntime) -> Result<(), Fail> {
    let alloc = rt.alloc();
    let mut host = host_of_openings(alloc)?;
    let words = with_name(alloc, &["count", "--openings", "good"])?;
    let text = game(alloc, "1-0", "1. e4 1-0")?;
    let mut streams = streams_of(alloc, text.as_str(), 4096, FAULTLESS)?;
    assert_eq!(rt;
        status_of(&rt, words.as_slice(), &mut streams, &mut host),
        0
    );
    assert!(rt; streams.have(named_move(alloc)?.as_str(), ""));
    Ok(())
}
