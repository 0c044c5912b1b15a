//! Legal moves against counts that programs agree on, and against what the Laws say of single
//! moves.
use super::{ALL_RIGHTS, NO_RIGHTS, WHITE_RIGHTS, position, square};
use explorer_model::chess::{Color, Move, Position};
use legal_moves::board::Board;

/// How many legal moves a valid position has.
fn count_moves(at: &Position) -> Option<usize> {
    let board = Board::of(at)?;
    Some(board.legal().len())
}

/// The counts are those that programs agree on, as the wiki of chess programming lists them under
/// 'Perft Results'.
#[test]
fn legal_moves_are_as_many_as_known(rt: HostRuntime) {
    assert_eq!(rt; Board::start().legal().len(), 20);
    for (placement, turn, rights, known) in [
        (
            "r3k2r/p1ppqpb1/bn2pnp1/3PN3/1p2P3/2N2Q1p/PPPBBPPP/R3K2R",
            Color::White,
            ALL_RIGHTS,
            48,
        ),
        (
            "8/2p5/3p4/KP5r/1R3p1k/8/4P1P1/8",
            Color::White,
            NO_RIGHTS,
            14,
        ),
        (
            "r2q1rk1/pP1p2pp/Q4n2/bbp1p3/Np6/1B3NBn/pPPP1PPP/R3K2R",
            Color::Black,
            WHITE_RIGHTS,
            6,
        ),
        (
            "rnbq1k1r/pp1Pbppp/2p5/8/2B5/8/PPP1NnPP/RNBQK2R",
            Color::White,
            WHITE_RIGHTS,
            44,
        ),
        (
            "r4rk1/1pp1qppp/p1np1n2/2b1p1B1/2B1P1b1/P1NP1N2/1PP1QPPP/R4RK1",
            Color::White,
            NO_RIGHTS,
            46,
        ),
        ("r3k2r/8/8/8/8/8/8/R3K2R", Color::White, ALL_RIGHTS, 26),
    ] {
        assert_eq!(rt;
            count_moves(&position(placement, turn, rights, None)),
            Some(known)
        );
    }
}

/// How many legal moves go from one square to another, as in `e2e4`.
fn count_between(at: &Position, name: &[u8; 4]) -> usize {
    let Some(board) = Board::of(at) else {
        return 0;
    };
    let (from, to) = (square(&[name[0], name[1]]), square(&[name[2], name[3]]));
    board
        .legal()
        .as_slice()
        .iter()
        .filter(|m| m.from == from && m.to == to)
        .count()
}

#[test]
fn moves_are_listed_where_the_laws_say_so(rt: HostRuntime) {
    let white = Color::White;
    let en_passant = Some(square(b"e3"));
    for (placement, turn, crossed, name, count) in [
        ("r3k2r/8/8/8/8/8/8/R3K2R", white, None, b"e1g1", 1),
        ("r3k2r/8/8/8/8/8/8/R3K2R", white, None, b"e1c1", 1),
        // The rook attacks f1, which the king would cross.
        ("r3k3/8/8/5r2/8/8/8/R3K2R", white, None, b"e1g1", 0),
        ("r3k3/8/8/5r2/8/8/8/R3K2R", white, None, b"e1c1", 1),
        // The rook attacks b1, which the king does not cross, and then d1, which it does.
        ("1r2k3/8/8/8/8/8/8/R3K2R", white, None, b"e1c1", 1),
        ("3rk3/8/8/8/8/8/8/R3K2R", white, None, b"e1c1", 0),
        ("4k3/8/8/8/8/8/8/RN2K2R", white, None, b"e1c1", 0),
        ("4k3/P7/8/8/8/8/8/R3K2R", white, None, b"a7a8", 4),
        ("4k3/8/8/8/8/4n3/4P3/R3K2R", white, None, b"e2e4", 0),
        ("4k3/8/8/8/1b6/2N5/8/R3K2R", white, None, b"c3d5", 0),
        // Taking en passant leaves the rank between the rook and the king empty, unless the rook
        // stands elsewhere.
        (
            "8/2p5/3p4/KP6/1R2Pp1k/8/8/8",
            Color::Black,
            en_passant,
            b"f4e3",
            0,
        ),
        (
            "8/2p5/1R1p4/KP6/4Pp1k/8/8/8",
            Color::Black,
            en_passant,
            b"f4e3",
            1,
        ),
    ] {
        let rights = if turn == white {
            WHITE_RIGHTS
        } else {
            NO_RIGHTS
        };
        assert_eq!(rt;
            count_between(&position(placement, turn, rights, crossed), name),
            count
        );
    }
}

#[test]
fn checkmate_and_stalemate_leave_no_move(rt: HostRuntime) {
    for (placement, turn, checked, has_move) in [
        (
            "rnbqkbnr/pppppppp/8/8/8/8/PPPPPPPP/RNBQKBNR",
            Color::White,
            false,
            true,
        ),
        (
            "rnb1kbnr/pppp1ppp/8/4p3/6Pq/5P2/PPPPP2P/RNBQKBNR",
            Color::White,
            true,
            false,
        ),
        ("7k/5Q2/6K1/8/8/8/8/8", Color::Black, false, false),
        ("4k3/8/8/8/8/8/8/K3R3", Color::Black, true, true),
    ] {
        let told = match Board::of(&position(placement, turn, NO_RIGHTS, None)) {
            Some(board) => Some((board.checked(), board.has_move())),
            None => None,
        };
        assert_eq!(rt; told, Some((checked, has_move)));
    }
}
