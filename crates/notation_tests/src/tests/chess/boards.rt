//! Boards against what the Laws of Chess say of a few moves.
use super::{ALL_RIGHTS, BLACK_LONG, NO_RIGHTS, WHITE_RIGHTS, by_name, position, square};
use explorer_model::chess::{Color, Position, Role};
use legal_moves::board::Board;
use legal_moves::valid::{is_valid, start};

/// The position after a legal move on a valid position.
fn position_after(at: &Position, name: &[u8; 4], promotion: Option<Role>) -> Option<Position> {
    let board = Board::of(at)?;
    let wanted = by_name(name, promotion);
    for m in board.legal().as_slice() {
        if *m == wanted {
            return Some(board.play(*m).position());
        }
    }
    None
}

fn is_equal(a: &Position, b: &Position) -> bool {
    a.squares == b.squares
        && a.turn == b.turn
        && a.rights == b.rights
        && a.en_passant == b.en_passant
}

#[test]
fn moves_leave_what_the_laws_say(rt: HostRuntime) {
    let corners = "r3k2r/8/8/8/8/8/8/R3K2R";
    let advance = "rnbqkbnr/ppp2ppp/4p3/3pP3/8/8/PPPP1PPP/RNBQKBNR";
    let (white, black) = (Color::White, Color::Black);
    for (at, name, promotion, left) in [
        (
            start(),
            b"e2e4",
            None,
            position(
                "rnbqkbnr/pppppppp/8/8/4P3/8/PPPP1PPP/RNBQKBNR",
                black,
                ALL_RIGHTS,
                Some(square(b"e3")),
            ),
        ),
        (
            position(corners, white, WHITE_RIGHTS, None),
            b"e1g1",
            None,
            position("r3k2r/8/8/8/8/8/8/R4RK1", black, NO_RIGHTS, None),
        ),
        (
            position(corners, black, ALL_RIGHTS, None),
            b"e8c8",
            None,
            position("2kr3r/8/8/8/8/8/8/R3K2R", white, WHITE_RIGHTS, None),
        ),
        (
            position(advance, white, ALL_RIGHTS, Some(square(b"d6"))),
            b"e5d6",
            None,
            position(
                "rnbqkbnr/ppp2ppp/3Pp3/8/8/8/PPPP1PPP/RNBQKBNR",
                black,
                ALL_RIGHTS,
                None,
            ),
        ),
        (
            position(
                "4k3/8/8/8/3Pp3/8/8/4K3",
                black,
                NO_RIGHTS,
                Some(square(b"d3")),
            ),
            b"e4d3",
            None,
            position("4k3/8/8/8/8/3p4/8/4K3", white, NO_RIGHTS, None),
        ),
        (
            position("r3k3/1P6/8/8/8/8/8/4K3", white, BLACK_LONG, None),
            b"b7a8",
            Some(Role::Queen),
            position("Q3k3/8/8/8/8/8/8/4K3", black, NO_RIGHTS, None),
        ),
    ] {
        let is_left = match position_after(&at, name, promotion) {
            Some(after) => is_equal(&after, &left),
            None => false,
        };
        assert!(rt; is_left);
    }
}

#[test]
fn an_en_passant_square_stays_where_a_pawn_can_be_taken(rt: HostRuntime) {
    for (placement, turn, crossed, kept) in [
        (
            "rnbqkbnr/ppp2ppp/4p3/3pP3/8/8/PPPP1PPP/RNBQKBNR",
            Color::White,
            b"d6",
            true,
        ),
        // No black pawn stands beside e4.
        (
            "rnbqkbnr/pppppppp/8/8/4P3/8/PPPP1PPP/RNBQKBNR",
            Color::Black,
            b"e3",
            false,
        ),
        // Both pawns would leave the rank of the rook and the king.
        ("8/2p5/3p4/KP5r/1R2Pp1k/8/6P1/8", Color::Black, b"e3", false),
    ] {
        let without = position(placement, turn, NO_RIGHTS, None);
        let with = Position {
            en_passant: Some(square(crossed)),
            ..without
        };
        let tidied = if kept { with } else { without };
        for at in [with, without] {
            let wanted = if at.en_passant.is_none() {
                without
            } else {
                tidied
            };
            let is_tidied = match Board::of(&at) {
                Some(board) => {
                    is_equal(&board.tidy().position(), &wanted)
                        && board.tidy_en_passant() == wanted.en_passant
                }
                None => false,
            };
            assert!(rt; is_tidied);
        }
    }
}

#[test]
fn positions_that_cannot_be_are_not_valid(rt: HostRuntime) {
    let (white, black) = (Color::White, Color::Black);
    let board = "4k3/8/8/2Pp4/8/8/8/4K2R";
    let blocked = "4k3/3p4/8/2Pp4/8/8/8/4K2R";
    for (placement, turn, rights, en_passant, valid) in [
        (board, white, NO_RIGHTS, None, true),
        (board, white, WHITE_RIGHTS, None, false),
        ("8/8/8/8/8/8/8/4K3", white, NO_RIGHTS, None, false),
        ("4k3/8/8/8/8/8/8/3KK3", white, NO_RIGHTS, None, false),
        (
            "4k3/8/8/8/8/PPPPPPPP/PPPPPPPP/4K3",
            white,
            NO_RIGHTS,
            None,
            false,
        ),
        ("4k2P/8/8/8/8/8/8/4K3", white, NO_RIGHTS, None, false),
        ("4k3/8/8/8/8/8/8/p3K3", white, NO_RIGHTS, None, false),
        // The side that waits is in check.
        ("4k3/8/8/8/8/8/8/K3R3", white, NO_RIGHTS, None, false),
        ("4k3/8/8/8/8/8/8/K3R3", black, NO_RIGHTS, None, true),
        (board, white, NO_RIGHTS, Some(b"d6"), true),
        (board, black, NO_RIGHTS, Some(b"d6"), false),
        (board, white, NO_RIGHTS, Some(b"c6"), false),
        (blocked, white, NO_RIGHTS, Some(b"d6"), false),
    ] {
        let crossed = match en_passant {
            Some(name) => Some(square(name)),
            None => None,
        };
        let at = position(placement, turn, rights, crossed);
        assert_eq!(rt; is_valid(&at), valid);
        assert_eq!(rt; Board::of(&at).is_some(), valid);
    }
}
