//! Pins, and where checks are met.
use super::{NO_RIGHTS, position, square};
use explorer_model::chess::Color;
use legal_moves::board::Board;
use step_tables::{Bitboard, only};

fn bitboard(names: &[&[u8; 2]]) -> Bitboard {
    let mut squares = 0;
    for name in names {
        squares |= only(square(name).index);
    }
    squares
}

#[test]
fn pins_and_evasions_are_those_of_the_board(rt: HostRuntime) {
    let everywhere = u64::MAX;
    for (placement, pinned, evasions) in [
        // 1. d4 Nf6 2. c4 e6 3. Nc3 Bb4 4. e3 b6
        (
            "rnbqk2r/p1pp1ppp/1p2pn2/8/1bPP4/2N1P3/PP3PPP/R1BQKBNR",
            bitboard(&[b"c3"]),
            everywhere,
        ),
        (
            "4k3/8/8/4r3/8/8/8/4K3",
            0,
            bitboard(&[b"e2", b"e3", b"e4", b"e5"]),
        ),
        // Two pieces stand before the rook, and a knight pins nothing.
        ("4k3/8/8/4r3/4N3/4P3/8/4K3", 0, everywhere),
        ("4k3/8/8/8/8/3n4/4P3/4K3", 0, bitboard(&[b"d3"])),
        // A rook and a knight give check.
        ("4k3/8/8/4r3/8/3n4/8/4K3", 0, 0),
    ] {
        let at = position(placement, Color::White, NO_RIGHTS, None);
        let Some(board) = Board::of(&at) else {
            panic!(rt; "the position is not valid");
        };
        assert_eq!(rt; board.pinned(), pinned);
        assert_eq!(rt; board.evasions(), evasions);
    }
}
