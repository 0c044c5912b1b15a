//! Trees of legal moves against the counts of their leaves that programs agree on.
use super::{ALL_RIGHTS, NO_RIGHTS, WHITE_RIGHTS, position};
use explorer_model::chess::{Color, Position, Rights};
use legal_moves::board::Board;

/// In how many ways so many legal moves can be played one after another.
fn count_lines(board: &Board, depth: u32) -> u64 {
    let moves = board.legal();
    if depth <= 1 {
        return moves.len() as u64;
    }
    let mut total: u64 = 0;
    for m in moves.as_slice() {
        total = total.wrapping_add(count_lines(&board.play(*m), depth - 1));
    }
    total
}

fn count_from(placement: &str, rights: Rights, depth: u32) -> Option<u64> {
    let board = Board::of(&position(placement, Color::White, rights, None))?;
    Some(count_lines(&board, depth))
}

/// The counts are those that the wiki of chess programming lists under 'Perft Results'.
#[test]
fn lines_are_as_many_as_known(rt: HostRuntime) {
    for (depth, known) in [(1, 20), (2, 400), (3, 8_902), (4, 197_281)] {
        assert_eq!(rt; count_lines(&Board::start(), depth), known);
    }
    let castling = "r3k2r/p1ppqpb1/bn2pnp1/3PN3/1p2P3/2N2Q1p/PPPBBPPP/R3K2R";
    let pawns = "8/2p5/3p4/KP5r/1R3p1k/8/4P1P1/8";
    let promotion = "rnbq1k1r/pp1Pbppp/2p5/8/2B5/8/PPP1NnPP/RNBQK2R";
    let pieces = "r4rk1/1pp1qppp/p1np1n2/2b1p1B1/2B1P1b1/P1NP1N2/1PP1QPPP/R4RK1";
    for (placement, rights, depth, known) in [
        (castling, ALL_RIGHTS, 1, 48),
        (castling, ALL_RIGHTS, 2, 2_039),
        (castling, ALL_RIGHTS, 3, 97_862),
        (pawns, NO_RIGHTS, 1, 14),
        (pawns, NO_RIGHTS, 2, 191),
        (pawns, NO_RIGHTS, 3, 2_812),
        (pawns, NO_RIGHTS, 4, 43_238),
        (promotion, WHITE_RIGHTS, 1, 44),
        (promotion, WHITE_RIGHTS, 2, 1_486),
        (promotion, WHITE_RIGHTS, 3, 62_379),
        (pieces, NO_RIGHTS, 1, 46),
        (pieces, NO_RIGHTS, 2, 2_079),
        (pieces, NO_RIGHTS, 3, 89_890),
    ] {
        assert_eq!(rt; count_from(placement, rights, depth), Some(known));
    }
}
