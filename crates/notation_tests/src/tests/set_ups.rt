//! Games that begin in a position that their tags set up, and the first fault of texts whose tags
//! set up none.
use super::games::replay_text;
use explorer_model::chess::{Move, Position};
use explorer_model::fault::{GameFault, Stop, TagFault};
use fen_uci::{write_fen, write_uci};
use legal_moves::board::Board;
use std::alloc::{AllocError, Global};
use std::test::Fail;

/// The worked game with these tag lines before its own, this result in its tag, and this movetext,
/// which begins 190 bytes behind the lines where the result has three.
fn game(alloc: Global, lines: &str, tag: &str, movetext: &str) -> Result<String, AllocError> {
    format!(in alloc;
        "{lines}[Event \"Rated blitz game\"]\n[Site \"https://lichess.org/aaaaaaa1\"]\n\
         [White \"Ann\"]\n[Black \"Bob\"]\n[Result \"{tag}\"]\n[UTCDate \"2020.01.15\"]\n\
         [WhiteElo \"1500\"]\n[BlackElo \"1400\"]\n[TimeControl \"300+0\"]\n\n{movetext}\n"
    )
}

fn is_written_as(position: &Position, fen: &str) -> bool {
    match Board::of(position) {
        Some(board) => write_fen(&board).as_slice() == fen.as_bytes(),
        None => false,
    }
}

fn are_written_as(moves: &[Move], texts: &[&str]) -> bool {
    if moves.len() != texts.len() {
        return false;
    }
    for i in 0..moves.len() {
        if write_uci(moves[i]).as_slice() != texts[i].as_bytes() {
            return false;
        }
    }
    true
}

/// Whether the worked game with these lines and this movetext begins in the position of this FEN,
/// and has these moves.
fn begins(
    alloc: Global,
    lines: &str,
    movetext: &str,
    fen: &str,
    moves: &[&str],
) -> Result<bool, AllocError> {
    let text = game(alloc, lines, "1-0", movetext)?;
    Ok(match &replay_text(alloc, text.as_str()) {
        Some(Ok(game)) => {
            is_written_as(&game.root, fen) && are_written_as(game.moves.as_slice(), moves)
        }
        _ => false,
    })
}

const START: &str = "rnbqkbnr/pppppppp/8/8/8/8/PPPPPPPP/RNBQKBNR w KQkq - 0 1";

/// Two kings and a pawn on e2, with White to move.
const PAWN: &str = "4k3/8/8/8/8/8/4P3/4K3 w - - 0 1";

/// Tag lines and movetexts, and where the game begins and what its moves are.
const BEGUN: [(&str, &str, &str, &[&str]); 13] = [
    (
        "[SetUp \"1\"]\n[FEN \"4k3/8/8/8/8/8/4P3/4K3 w - - 0 1\"]\n",
        "1. e4 1-0",
        PAWN,
        &["e2e4"],
    ),
    // Four fields, spaces around them, and no tag SetUp.
    (
        "[FEN \" 4k3/8/8/8/8/8/4P3/4K3  w - - \"]\n",
        "1. e4 1-0",
        PAWN,
        &["e2e4"],
    ),
    // Black is to move, whatever the numbers of moves are.
    (
        "[FEN \"4k3/8/8/8/4P3/8/8/4K3 b - - 12 34\"]\n",
        "34... Kd7 35. e5 1-0",
        "4k3/8/8/8/4P3/8/8/4K3 b - - 0 1",
        &["e8d7", "e4e5"],
    ),
    // A pawn is taken in passing.
    (
        "[FEN \"4k3/8/8/3pP3/8/8/8/4K3 w - d6 0 2\"]\n",
        "2. exd6 1-0",
        "4k3/8/8/3pP3/8/8/8/4K3 w - d6 0 1",
        &["e5d6"],
    ),
    // No pawn has crossed the square, which is dropped.
    (
        "[FEN \"4k3/8/8/4P3/8/8/8/4K3 w - d6 0 2\"]\n",
        "2. e6 1-0",
        "4k3/8/8/4P3/8/8/8/4K3 w - - 0 1",
        &["e5e6"],
    ),
    // Rights without a rook are dropped.
    (
        "[FEN \"4k3/8/8/8/8/8/8/4K2R w KQkq - 0 1\"]\n",
        "1. O-O 1-0",
        "4k3/8/8/8/8/8/8/4K2R w K - 0 1",
        &["e1g1"],
    ),
    (
        "[FEN \"rnbqkbnr/pppppppp/8/8/8/8/PPPPPPPP/RNBQKBNR w KQkq - 0 1\"]\n",
        "1. e4 1-0",
        START,
        &["e2e4"],
    ),
    // The first of two tags counts.
    (
        "[FEN \"4k3/8/8/8/8/8/4P3/4K3 w - -\"]\n[FEN \"8/8/8/8/8/8/8/8 w - -\"]\n",
        "1. e4 1-0",
        PAWN,
        &["e2e4"],
    ),
    (
        "[FEN \"4k3/8/8/8/8/8/4P3/4K3 w - -\"]\n[Variant \"Standard\"]\n",
        "1-0",
        PAWN,
        &[],
    ),
    // Where there is no tag FEN a game begins as ever.
    ("[SetUp \"0\"]\n", "1. e4 1-0", START, &["e2e4"]),
    ("[Variant \"From Position\"]\n", "1-0", START, &[]),
    (
        "[Fen \"8/8/8/8/8/8/8/8 w - -\"]\n",
        "1. e4 1-0",
        START,
        &["e2e4"],
    ),
    ("", "1. e4 1-0", START, &["e2e4"]),
];

#[test]
fn begins_where_the_tags_say(rt: HostRuntime) -> Result<(), Fail> {
    for (lines, movetext, fen, moves) in BEGUN {
        assert!(rt;
            begins(rt.alloc(), lines, movetext, fen, moves)?,
            "{lines}{movetext}"
        );
    }
    Ok(())
}

/// The first fault of the worked game with these lines, this result in its tag and this movetext.
fn fault_of(
    alloc: Global,
    lines: &str,
    tag: &str,
    movetext: &str,
) -> Result<Option<GameFault>, AllocError> {
    let text = game(alloc, lines, tag, movetext)?;
    Ok(match &replay_text(alloc, text.as_str()) {
        Some(Err(Stop::Fault(fault))) => Some(*fault),
        _ => None,
    })
}

/// Values of the tag FEN that are no position, and their first faulty fields.
const FAULTY: [(&str, u8); 13] = [
    ("", 1),
    ("8/8/8/8/8/8/8/8 w - -", 1),
    ("4k3/8/8/8/8/8/8/4K3", 2),
    ("4k3/8/8/8/8/8/8/4K3 x - -", 2),
    // The king of the side that is not to move is in check.
    ("4k3/8/8/8/8/8/8/4RK2 w - -", 2),
    ("4k3/8/8/8/8/8/8/4K3 w KK -", 3),
    ("4k3/8/8/8/8/8/8/4K3 w -", 4),
    ("4k3/8/8/8/8/8/8/4K3 w - e3", 4),
    ("4k3/8/8/8/8/8/8/4K3 w - - x 1", 5),
    ("4k3/8/8/8/8/8/8/4K3 w - - 0", 6),
    ("4k3/8/8/8/8/8/8/4K3 w - - 0 x", 6),
    ("4k3/8/8/8/8/8/8/4K3 w - - 0 1234567", 6),
    ("4k3/8/8/8/8/8/8/4K3 w - - 0 1 2", 6),
];

#[test]
fn names_the_faulty_field(rt: HostRuntime) -> Result<(), Fail> {
    for (fen, field) in FAULTY {
        let line = format!(in rt.alloc(); "[FEN \"{fen}\"]\n")?;
        // It is not asked how the movetext ends.
        let found = fault_of(rt.alloc(), line.as_str(), "1-0", "1. e4")?;
        assert_eq!(rt; found, Some(GameFault::BadSetUp { field }));
    }
    Ok(())
}

/// A tag of 30 bytes whose value is no position.
const NO_KINGS: &str = "[FEN \"8/8/8/8/8/8/8/8 w - -\"]\n";

/// Tag lines, results, movetexts and their first faults.
const FIRST: [(&str, &str, &str, GameFault); 12] = [
    (
        "[SetUp \"1\"]\n",
        "1-0",
        "1-0",
        GameFault::Tag(TagFault::SetUp),
    ),
    (
        "[SetUp \"0\"]\n[FEN \"8/8/8/8/8/8/8/8 w - -\"]\n",
        "1-0",
        "1-0",
        GameFault::Tag(TagFault::SetUp),
    ),
    (
        "[Variant \"Chess960\"]\n[FEN \"8/8/8/8/8/8/8/8 w - -\"]\n",
        "1-0",
        "1-0",
        GameFault::Tag(TagFault::NotStandard),
    ),
    (NO_KINGS, "*", "*", GameFault::Tag(TagFault::UnknownResult)),
    (
        NO_KINGS,
        "1-0",
        "1. e4 {x 1-0",
        GameFault::Lex { place: 226 },
    ),
    (NO_KINGS, "1-0", "1. e4", GameFault::BadSetUp { field: 1 }),
    (
        NO_KINGS,
        "1-0",
        "1. e4 0-1",
        GameFault::BadSetUp { field: 1 },
    ),
    (
        NO_KINGS,
        "1-0",
        "1. Zz 1-0",
        GameFault::BadSetUp { field: 1 },
    ),
    (
        "[FEN \"8/8/8/8/8/8/8/8 w - -\"]\n[FEN \"4k3/8/8/8/8/8/8/4K3 w - -\"]\n",
        "1-0",
        "1-0",
        GameFault::BadSetUp { field: 1 },
    ),
    (
        "[FEN \"4k3/8/8/8/8/8/4P3/4K3 w - - 0 1\"]\n",
        "1-0",
        "1. e5",
        GameFault::NoTermination,
    ),
    // The lines have 40 bytes.
    (
        "[FEN \"4k3/8/8/8/8/8/4P3/4K3 w - - 0 1\"]\n",
        "1-0",
        "1. e5 1-0",
        GameFault::Illegal { ply: 1, place: 233 },
    ),
    (
        "[FEN \"4k3/8/8/8/4P3/8/8/4K3 b - - 0 1\"]\n",
        "1-0",
        "1... e5 1-0",
        GameFault::Illegal { ply: 1, place: 235 },
    ),
];

#[test]
fn names_the_first_fault_of_a_set_up(rt: HostRuntime) -> Result<(), Fail> {
    for (lines, tag, movetext, fault) in FIRST {
        let found = fault_of(rt.alloc(), lines, tag, movetext)?;
        assert_eq!(rt; found, Some(fault));
    }
    Ok(())
}
