//! Games that begin in a position that their tags set up.
use super::stores::file_of;
use super::{FAULTLESS, NO_GAME, ends, one_move, run_on};
use disk_model::MemDisk;
use host::MemHost;
use std::alloc::{AllocError, Global};
use std::sync::Wait;
use std::test::Fail;
use std::thread::Threads;

/// The three tags that say where a game begins.
#[derive(Clone, Copy, Debug)]
struct Begin<'a> {
    variant: &'a str,
    set_up: &'a str,
    fen: &'a str,
}

/// A game's text that White won: nine tag lines and three more, an empty line and a line of
/// movetext, which begins at byte 268 where the variant is `From Position` and the FEN has 31
/// bytes.
fn game_from(alloc: Global, begin: Begin, movetext: &str) -> Result<String, AllocError> {
    let Begin {
        variant,
        set_up,
        fen,
    } = begin;
    format!(in alloc;
        "[Event \"Rated blitz game\"]\n[Site \"https://lichess.org/aaaaaaa1\"]\n\
         [White \"Ann\"]\n[Black \"Bob\"]\n[Result \"1-0\"]\n[UTCDate \"2020.01.15\"]\n\
         [WhiteElo \"1500\"]\n[BlackElo \"1400\"]\n[TimeControl \"300+0\"]\n\
         [Variant \"{variant}\"]\n[SetUp \"{set_up}\"]\n[FEN \"{fen}\"]\n\n{movetext}\n"
    )
}

/// Two kings and a pawn on e2, with White to move.
const PAWN: &str = "4k3/8/8/8/8/8/4P3/4K3 w - - 0 1";

/// FENs and movetexts, a query, and the one move that it finds: its player's rating, its SAN and
/// its UCI.
const FOUND: [(&str, &str, &str, &str, &str, &str); 7] = [
    (
        PAWN,
        "1. e4 1-0",
        "fen=4k3/8/8/8/8/8/4P3/4K3+w+-+-",
        "1500",
        "e4",
        "e2e4",
    ),
    // The root is visited again, and counts where it comes first.
    (
        PAWN,
        "1. Kd2 Kd8 2. Ke1 Ke8 3. e4 1-0",
        "fen=4k3/8/8/8/8/8/4P3/4K3+w+-+-",
        "1500",
        "Kd2",
        "e1d2",
    ),
    // Black is to move at ply 0.
    (
        "4k3/8/8/8/4P3/8/8/4K3 b - - 0 1",
        "1... Kd7 2. e5 1-0",
        "fen=4k3/8/8/8/4P3/8/8/4K3+b+-+-",
        "1400",
        "Kd7",
        "e8d7",
    ),
    (
        "4k3/8/8/8/4P3/8/8/4K3 b - - 0 1",
        "1... Kd7 2. e5 1-0",
        "fen=8/3k4/8/8/4P3/8/8/4K3+w+-+-",
        "1500",
        "e5",
        "e4e5",
    ),
    (
        "4k3/8/8/3pP3/8/8/8/4K3 w - d6 0 2",
        "2. exd6 1-0",
        "fen=4k3/8/8/3pP3/8/8/8/4K3+w+-+d6",
        "1500",
        "exd6",
        "e5d6",
    ),
    // No pawn has crossed d6, which is dropped.
    (
        "4k3/8/8/4P3/8/8/8/4K3 w - d6 0 2",
        "2. e6 1-0",
        "fen=4k3/8/8/4P3/8/8/8/4K3+w+-+-",
        "1500",
        "e6",
        "e5e6",
    ),
    // The starting position itself, where all other games begin.
    (
        "rnbqkbnr/pppppppp/8/8/8/8/PPPPPPPP/RNBQKBNR w KQkq - 0 1",
        "1. e4 1-0",
        "",
        "1500",
        "e4",
        "e2e4",
    ),
];

/// A host with an empty disk `s` and a file `f` of this text.
fn host_with(alloc: Global, text: &str) -> Result<MemHost, AllocError> {
    let mut host = MemHost::new(alloc);
    host.add_disk("s", MemDisk::new(alloc, 1 << 20, Vec::new(alloc))?)?;
    host.add_file("f", file_of(alloc, text)?)?;
    Ok(host)
}

/// Whether a count of the text, and a new store into which it is imported and which is opened
/// again, give this answer to the query.
fn answer_alike<R: AllocGlobal + Wait + Threads + Sync>(
    rt: &R,
    text: &str,
    query: &str,
    answer: &str,
) -> Result<bool, AllocError> {
    let mut host = host_with(rt.alloc(), text)?;
    let stored = "stored 1\nbatches 1\njournal 1\n";
    let created = ends(rt, &mut host, &["create", "s"], (0, "created\n", ""))?;
    let imported = ends(rt, &mut host, &["import", "s", "f"], (0, stored, ""))?;
    let queried = ends(rt, &mut host, &["query", "s", query], (0, answer, ""))?;
    let seen = run_on(rt, &["count", query], text, 4096, FAULTLESS)?;
    Ok(created && imported && queried && seen.is(0, answer, ""))
}

#[test]
fn counts_from_the_position_that_is_set_up(rt: HostRuntime) -> Result<(), Fail> {
    let alloc = rt.alloc();
    for (fen, movetext, query, rating, san, uci) in FOUND {
        let begin = Begin {
            variant: "From Position",
            set_up: "1",
            fen,
        };
        let text = game_from(alloc, begin, movetext)?;
        let answer = one_move(alloc, "", rating, san, uci)?;
        let alike = answer_alike(&rt, text.as_str(), query, answer.as_str())?;
        assert!(rt; alike, "{fen} {movetext} {query}");
    }
    Ok(())
}

/// Variants, values of SetUp, FENs and movetexts, and what a count reports of the text, in which
/// the starting position does not come.
const NOT_FOUND: [(&str, &str, &str, &str, &str); 6] = [
    ("From Position", "1", PAWN, "1. e4 1-0", ""),
    ("From Position", "1", PAWN, "1. e5 1-0", "0 Illegal 1 271\n"),
    (
        "From Position",
        "1",
        "8/8/8/8/8/8/8/8 w - -",
        "1. e4 1-0",
        "0 BadSetUp 1\n",
    ),
    ("From Position", "0", PAWN, "1. e4 1-0", "0 SetUp\n"),
    ("Chess960", "1", PAWN, "1. e4 1-0", "0 NotStandard\n"),
    // A position that is set up is no reason to refuse what is called standard chess.
    ("Standard", "1", PAWN, "1. e4 1-0", ""),
];

#[test]
fn reports_what_is_amiss_with_a_set_up(rt: HostRuntime) -> Result<(), Fail> {
    for (variant, set_up, fen, movetext, report) in NOT_FOUND {
        let begin = Begin {
            variant,
            set_up,
            fen,
        };
        let text = game_from(rt.alloc(), begin, movetext)?;
        let seen = run_on(&rt, &["count"], text.as_str(), 4096, FAULTLESS)?;
        assert!(rt;
            seen.is(0, NO_GAME, report),
            "{variant} {set_up} {fen} {movetext}"
        );
    }
    Ok(())
}
