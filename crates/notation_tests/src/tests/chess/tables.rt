//! The tables of `step_tables`: what the pieces reach on an empty board, and sets of squares.
use step_tables::{
    Bitboard, Squares, between, bishop_line, bishop_targets, black_pawn_targets, contains,
    is_disjoint, king_targets, knight_targets, lowest, only, open_targets, queen_line,
    queen_targets, rook_line, rook_targets, white_pawn_targets, without,
};

/// Adds the number of squares of each bitboard to its total.
fn count(totals: &mut [u32], bitboards: &[Bitboard]) {
    for (total, bitboard) in totals.iter_mut().zip(bitboards) {
        *total = total.wrapping_add(bitboard.count_ones());
    }
}

#[test]
fn the_moves_of_each_piece_on_an_empty_board(rt: HostRuntime) {
    let mut targets = [0; 7];
    let mut lines = [0; 3];
    let mut passed = [0];
    for square in 0..64 {
        count(
            &mut targets,
            &[
                knight_targets(square),
                king_targets(square),
                white_pawn_targets(square),
                black_pawn_targets(square),
                rook_targets(square),
                bishop_targets(square),
                queen_targets(square),
            ],
        );
        for direction in 0..4 {
            count(
                &mut lines,
                &[
                    rook_line(square, direction),
                    bishop_line(square, direction),
                    queen_line(square, direction + 4),
                ],
            );
        }
        for other in 0..64 {
            count(&mut passed, &[between(square, other)]);
        }
    }
    // Two attacks from each square but those of the last rank, less one at each edge.
    let pawn = 7 * 14;
    assert_eq!(rt; targets, [336, 420, pawn, pawn, 896, 560, 1456]);
    assert_eq!(rt; lines, [896, 560, 560]);
    // Three squares of one line have one between the others, from either side: 16 ranks and
    // files, 26 diagonals.
    assert_eq!(rt;
        passed,
        [2 * (16 * 56 + 2 * (56 + 2 * (35 + 20 + 10 + 4 + 1)))]
    );
}

#[test]
fn the_squares_of_a_bitboard(rt: HostRuntime) {
    let corners = only(0) | only(7) | only(56) | only(63);
    let mut squares = Squares::of(without(corners, 56));
    assert_eq!(rt; squares.next(), Some(0));
    assert_eq!(rt; squares.next(), Some(7));
    assert_eq!(rt; squares.next(), Some(63));
    assert_eq!(rt; squares.next(), None);
    assert!(rt; contains(corners, 56));
    assert!(rt; is_disjoint(corners, king_targets(27)));
    assert_eq!(rt; lowest(0x1000), 12);
}

#[test]
fn a_rook_on_a1_between_pieces_on_a4_and_c1(rt: HostRuntime) {
    let occupied = only(24) | only(2);
    let attacked = only(8) | only(16) | only(24) | only(1) | only(2);
    assert_eq!(rt; open_targets(0, rook_targets(0), occupied), attacked);
}
