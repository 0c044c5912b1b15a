//! Positions in FEN and moves in the notation of UCI whose texts are known from outside.
use explorer_model::notation::UciFault;
use fen_uci::{read_fen, read_uci, write_fen, write_uci};
use legal_moves::board::Board;

const START: &str = "rnbqkbnr/pppppppp/8/8/8/8/PPPPPPPP/RNBQKBNR w KQkq - 0 1";

/// The field that is faulty first.
fn fault_of(text: &str) -> Option<u8> {
    match read_fen(text.as_bytes()) {
        Ok(_) => None,
        Err(fault) => Some(fault.field),
    }
}

fn is_written_as(text: &str, expected: &str) -> bool {
    match read_fen(text.as_bytes()) {
        Ok(board) => write_fen(&board).as_slice() == expected.as_bytes(),
        Err(_) => false,
    }
}

fn count_moves(text: &str) -> Option<usize> {
    match read_fen(text.as_bytes()) {
        Ok(board) => Some(board.legal().len()),
        Err(_) => None,
    }
}

/// In the position of `fen` the text is read as the move that is written `expected`.
fn is_read_as(fen: &str, text: &str, expected: &str) -> bool {
    match read_fen(fen.as_bytes()) {
        Ok(board) => match read_uci(text.as_bytes(), &board) {
            Ok(m) => write_uci(m).as_slice() == expected.as_bytes(),
            Err(_) => false,
        },
        Err(_) => false,
    }
}

fn uci_fault(fen: &str, text: &str) -> Option<UciFault> {
    match read_fen(fen.as_bytes()) {
        Ok(board) => match read_uci(text.as_bytes(), &board) {
            Ok(_) => None,
            Err(fault) => Some(fault),
        },
        Err(_) => None,
    }
}

#[test]
fn start_is_written(rt: HostRuntime) {
    assert!(rt; write_fen(&Board::start()).as_slice() == START.as_bytes());
}

/// Positions with their numbers of legal moves, as perft tables give them.
const KNOWN: [(&str, usize); 5] = [
    (START, 20),
    (
        "r3k2r/p1ppqpb1/bn2pnp1/3PN3/1p2P3/2N2Q1p/PPPBBPPP/R3K2R w KQkq - 0 1",
        48,
    ),
    ("8/2p5/3p4/KP5r/1R3p1k/8/4P1P1/8 w - - 0 1", 14),
    (
        "rnbq1k1r/pp1Pbppp/2p5/8/2B5/8/PPP1NnPP/RNBQK2R w KQ - 0 1",
        44,
    ),
    (
        "r4rk1/1pp1qppp/p1np1n2/2b1p1B1/2B1P1b1/P1NP1N2/1PP1QPPP/R4RK1 w - - 0 1",
        46,
    ),
];

#[test]
fn known_positions_are_read_and_written_back(rt: HostRuntime) {
    for (text, moves) in KNOWN {
        assert!(rt; is_written_as(text, text));
        assert_eq!(rt; count_moves(text), Some(moves));
    }
}

/// Texts and what is written of their positions.
const REWRITTEN: [(&str, &str); 12] = [
    // Four fields, and counts that are not kept.
    ("4k3/8/8/8/8/8/8/4K3 b - -", "4k3/8/8/8/8/8/8/4K3 b - - 0 1"),
    (
        "4k3/8/8/8/8/8/8/4K3 w - - 999999 123456",
        "4k3/8/8/8/8/8/8/4K3 w - - 0 1",
    ),
    // Spaces at both ends, and several between two fields.
    (
        "  4k3/8/8/8/8/8/8/4K3   w  -    -  ",
        "4k3/8/8/8/8/8/8/4K3 w - - 0 1",
    ),
    // Runs of digits.
    (
        "4k3/44/8/8/8/8/1111112/4K3 w - -",
        "4k3/8/8/8/8/8/8/4K3 w - - 0 1",
    ),
    // Rights in any order.
    (
        "r3k2r/8/8/8/8/8/8/R3K2R w qkQK - 0 1",
        "r3k2r/8/8/8/8/8/8/R3K2R w KQkq - 0 1",
    ),
    // Rights without their rook or their king.
    (
        "r3k3/8/8/8/8/8/8/4K2R w KQkq - 0 1",
        "r3k3/8/8/8/8/8/8/4K2R w Kq - 0 1",
    ),
    (
        "3k3r/8/8/8/8/8/8/R2K4 w KQkq - 0 1",
        "3k3r/8/8/8/8/8/8/R2K4 w - - 0 1",
    ),
    // The square that a pawn has crossed.
    (
        "rnbqkbnr/pppppppp/8/8/4P3/8/PPPP1PPP/RNBQKBNR b KQkq e3 0 1",
        "rnbqkbnr/pppppppp/8/8/4P3/8/PPPP1PPP/RNBQKBNR b KQkq e3 0 1",
    ),
    // Squares that no pawn has crossed.
    (
        "rnbqkbnr/pppppppp/8/8/8/8/PPPPPPPP/RNBQKBNR w KQkq e6 0 1",
        START,
    ),
    (
        "4k3/4n3/8/4p3/8/8/8/4K3 w - e6 0 1",
        "4k3/4n3/8/4p3/8/8/8/4K3 w - - 0 1",
    ),
    (
        "4k3/8/4n3/4p3/8/8/8/4K3 w - e6 0 1",
        "4k3/8/4n3/4p3/8/8/8/4K3 w - - 0 1",
    ),
    // Nine pawns among at most 16 pieces.
    (
        "4k3/8/8/8/8/P7/PPPPPPPP/4K3 w - -",
        "4k3/8/8/8/8/P7/PPPPPPPP/4K3 w - - 0 1",
    ),
];

#[test]
fn texts_are_read_as_they_are_written(rt: HostRuntime) {
    for (text, written) in REWRITTEN {
        assert!(rt; is_written_as(text, written));
    }
}

/// Texts with the number of their first faulty field.
const FAULTY: [(&str, u8); 48] = [
    ("", 1),
    ("   ", 1),
    ("8/8/8/8/8/8/8/8 w - -", 1),
    ("4k3/8/8/8/8/8/4K3 w - -", 1),
    ("4k3/8/8/8/8/8/8/8/4K3 w - -", 1),
    ("4k3/8/8/8/8/8/8/4K3/ w - -", 1),
    ("4k3/7/8/8/8/8/8/4K3 w - -", 1),
    ("4k3/45/8/8/8/8/8/4K3 w - -", 1),
    ("4k3/9/8/8/8/8/8/4K3 w - -", 1),
    ("4k3/08/8/8/8/8/8/4K3 w - -", 1),
    ("4k3/ppppppppp/8/8/8/8/8/4K3 w - -", 1),
    ("4k3/7x/8/8/8/8/8/4K3 w - -", 1),
    ("4k3/8/8/8/8/8/8/3KK3 w - -", 1),
    ("8/8/8/8/8/8/8/4K3 w - -", 1),
    ("4k3/8/8/8/8/8/8/P3K3 w - -", 1),
    ("P3k3/8/8/8/8/8/8/4K3 w - -", 1),
    // 17 pieces.
    ("4k3/8/8/8/8/PPPPPPPP/PPPPPPPP/4K3 w - -", 1),
    // A tab stands between no fields.
    ("4k3/8/8/8/8/8/8/4K3\tw - -", 1),
    ("4k3/8/8/8/8/8/8/4K3", 2),
    ("4k3/8/8/8/8/8/8/4K3 x - -", 2),
    ("4k3/8/8/8/8/8/8/4K3 W - -", 2),
    ("4k3/8/8/8/8/8/8/4K3 wb - -", 2),
    (
        "rnbqkbnr/pppppppp/8/8/8/8/PPPPPPPP/RNBQKBNR x KQkq - 0 1",
        2,
    ),
    // The side that waits is in check.
    ("4k3/8/8/8/8/8/8/4RK2 w - -", 2),
    ("4k3/8/8/8/8/8/8/4K3 w", 3),
    ("4k3/8/8/8/8/8/8/4K3 w X -", 3),
    ("r3k2r/8/8/8/8/8/8/R3K2R w KK -", 3),
    ("r3k2r/8/8/8/8/8/8/R3K2R w KQkqK -", 3),
    ("r3k2r/8/8/8/8/8/8/R3K2R w K- -", 3),
    ("4k3/8/8/8/8/8/8/4K3 w -- -", 3),
    ("4k3/8/8/8/8/8/8/4K3 w -", 4),
    ("4k3/8/8/8/8/8/8/4K3 w - e3", 4),
    ("4k3/8/8/8/8/8/8/4K3 b - e6", 4),
    ("4k3/8/8/8/8/8/8/4K3 w - e", 4),
    ("4k3/8/8/8/8/8/8/4K3 w - i6", 4),
    ("4k3/8/8/8/8/8/8/4K3 w - E6", 4),
    ("4k3/8/8/8/8/8/8/4K3 w - -6", 4),
    ("4k3/8/8/8/8/8/8/4K3 w - - x 1", 5),
    ("4k3/8/8/8/8/8/8/4K3 w - - -1 1", 5),
    ("4k3/8/8/8/8/8/8/4K3 w - - 1234567 1", 5),
    ("4k3/8/8/8/8/8/8/4K3 w - - 0 x", 6),
    ("4k3/8/8/8/8/8/8/4K3 w - - 0 1234567", 6),
    ("4k3/8/8/8/8/8/8/4K3 w - - 0", 6),
    ("4k3/8/8/8/8/8/8/4K3 w - - 0 1 2", 6),
    // Of several faulty fields the first.
    ("4k3/8/8/8/8/8/8/4RK2 w X e9 x x x", 2),
    ("4k3/8/8/8/8/8/8/4K3 w X e9", 3),
    ("4k3/8/8/8/8/8/8/4K3 w - e9 x x", 4),
    ("4k3/8/8/8/8/8/8/4K3 w - - x", 5),
];

#[test]
fn first_faulty_field_is_told(rt: HostRuntime) {
    for (text, field) in FAULTY {
        assert_eq!(rt; fault_of(text), Some(field));
    }
}

const CASTLES: &str = "r3k2r/8/8/8/8/8/8/R3K2R w KQkq -";

const BLACK_CASTLES: &str = "r3k2r/8/8/8/8/8/8/R3K2R b KQkq -";

const PROMOTES: &str = "8/P3k3/8/8/8/8/8/4K3 w - -";

/// Positions with texts and what is written of the moves that they name there.
const MOVES: [(&str, &str, &str); 15] = [
    (START, "e2e4", "e2e4"),
    (START, "g1f3", "g1f3"),
    (CASTLES, "e1g1", "e1g1"),
    (CASTLES, "e1h1", "e1g1"),
    (CASTLES, "e1c1", "e1c1"),
    (CASTLES, "e1a1", "e1c1"),
    (CASTLES, "a1b1", "a1b1"),
    (BLACK_CASTLES, "e8h8", "e8g8"),
    (BLACK_CASTLES, "e8a8", "e8c8"),
    // Only b1 is attacked, which the king does not cross.
    ("1r2k3/8/8/8/8/8/8/R3K3 w Q - 0 1", "e1c1", "e1c1"),
    (PROMOTES, "a7a8q", "a7a8q"),
    (PROMOTES, "a7a8r", "a7a8r"),
    (PROMOTES, "a7a8b", "a7a8b"),
    (PROMOTES, "a7a8n", "a7a8n"),
    (
        "rnbqkbnr/ppp2ppp/4p3/3pP3/8/8/PPPP1PPP/RNBQKBNR w KQkq d6 0 3",
        "e5d6",
        "e5d6",
    ),
];

#[test]
fn moves_are_read_and_written(rt: HostRuntime) {
    for (fen, text, written) in MOVES {
        assert!(rt; is_read_as(fen, text, written));
    }
}

const ATTACKED: &str = "3rk3/8/8/8/8/8/8/R3K3 w Q - 0 1";

const NO_RIGHTS: &str = "r3k2r/8/8/8/8/8/8/R3K2R w - -";

/// Positions with texts that name no legal move there.
const NO_MOVES: [(&str, &str, UciFault); 23] = [
    (START, "e2e5", UciFault::NotLegal),
    (START, "e7e5", UciFault::NotLegal),
    (START, "e2e4q", UciFault::NotLegal),
    (START, "e2e2", UciFault::NotLegal),
    (START, "e1h1", UciFault::NotLegal),
    // The king crosses d1.
    (ATTACKED, "e1c1", UciFault::NotLegal),
    (ATTACKED, "e1a1", UciFault::NotLegal),
    (NO_RIGHTS, "e1g1", UciFault::NotLegal),
    (NO_RIGHTS, "e1h1", UciFault::NotLegal),
    (PROMOTES, "a7a8", UciFault::NotLegal),
    (
        "rnbqkbnr/ppp2ppp/4p3/3pP3/8/8/PPPP1PPP/RNBQKBNR w KQkq - 0 3",
        "e5d6",
        UciFault::NotLegal,
    ),
    (START, "", UciFault::NotUci),
    (START, "e9", UciFault::NotUci),
    (START, "e2e", UciFault::NotUci),
    (START, "e2e9", UciFault::NotUci),
    (START, "i2e4", UciFault::NotUci),
    (START, "E2E4", UciFault::NotUci),
    (START, "e2e4 ", UciFault::NotUci),
    (START, "0000", UciFault::NotUci),
    (PROMOTES, "a7a8k", UciFault::NotUci),
    (PROMOTES, "a7a8p", UciFault::NotUci),
    (PROMOTES, "a7a8Q", UciFault::NotUci),
    (PROMOTES, "a7a8qq", UciFault::NotUci),
];

#[test]
fn texts_that_name_no_legal_move(rt: HostRuntime) {
    for (fen, text, fault) in NO_MOVES {
        assert_eq!(rt; uci_fault(fen, text), Some(fault));
    }
}
