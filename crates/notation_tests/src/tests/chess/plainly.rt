//! The listed moves against the plain test of legality, which looks at squares alone.
use super::{ALL_RIGHTS, NO_RIGHTS, WHITE_RIGHTS, position};
use chess_reference::legal::is_legal;
use explorer_model::chess::{Color, Move, Position, Role};
use explorer_model::square::{Square, rank_of};
use legal_moves::board::Board;

const PROMOTIONS: [Option<Role>; 7] = [
    None,
    Some(Role::Pawn),
    Some(Role::Knight),
    Some(Role::Bishop),
    Some(Role::Rook),
    Some(Role::Queen),
    Some(Role::King),
];

/// How often the move is listed; nothing where that is not once for a legal move, and else never.
fn times_listed(position: &Position, moves: &[Move], m: Move) -> Option<usize> {
    let times = moves.iter().filter(|listed| **listed == m).count();
    let wanted = if is_legal(position, m) { 1 } else { 0 };
    if times == wanted { Some(times) } else { None }
}

/// How many of the moves from one square to another are listed. Only those to rank 1 or 8 are tried
/// with a promotion.
fn count_between(position: &Position, moves: &[Move], from: Square, to: Square) -> Option<usize> {
    let tried = if rank_of(to.index) % 7 == 0 { 7 } else { 1 };
    let mut total: usize = 0;
    for promotion in &PROMOTIONS[..tried] {
        let m = Move {
            from,
            to,
            promotion: *promotion,
        };
        total = total.wrapping_add(times_listed(position, moves, m)?);
    }
    Some(total)
}

fn count_from(position: &Position, moves: &[Move], from: Square) -> Option<usize> {
    let mut total: usize = 0;
    for index in 0..64u8 {
        total = total.wrapping_add(count_between(position, moves, from, Square { index })?);
    }
    Some(total)
}

fn count_all(position: &Position, moves: &[Move]) -> Option<usize> {
    let mut total: usize = 0;
    for index in 0..64u8 {
        total = total.wrapping_add(count_from(position, moves, Square { index })?);
    }
    Some(total)
}

/// Are the listed moves of the board those that the plain test tells, each once, and no others?
fn is_told(board: &Board) -> bool {
    let moves = board.legal();
    count_all(&board.position(), moves.as_slice()) == Some(moves.len())
}

/// Is this so of the board, and of each that is reached in one move?
fn are_all_told(board: &Board) -> bool {
    for m in board.legal().as_slice() {
        if !is_told(&board.play(*m)) {
            return false;
        }
    }
    is_told(board)
}

#[test]
fn listed_moves_are_those_of_the_plain_test(rt: HostRuntime) {
    assert!(rt; are_all_told(&Board::start()));
    for (placement, rights) in [
        (
            "r3k2r/p1ppqpb1/bn2pnp1/3PN3/1p2P3/2N2Q1p/PPPBBPPP/R3K2R",
            ALL_RIGHTS,
        ),
        ("8/2p5/3p4/KP5r/1R3p1k/8/4P1P1/8", NO_RIGHTS),
        (
            "rnbq1k1r/pp1Pbppp/2p5/8/2B5/8/PPP1NnPP/RNBQK2R",
            WHITE_RIGHTS,
        ),
        (
            "r4rk1/1pp1qppp/p1np1n2/2b1p1B1/2B1P1b1/P1NP1N2/1PP1QPPP/R4RK1",
            NO_RIGHTS,
        ),
    ] {
        let is_told = match Board::of(&position(placement, Color::White, rights, None)) {
            Some(board) => are_all_told(&board),
            None => false,
        };
        assert!(rt; is_told);
    }
}
