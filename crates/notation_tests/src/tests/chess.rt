//! The definitions against what is known of chess from outside, and the boards of `legal_moves` and
//! the tables of `step_tables` too.
mod boards;
mod legal;
mod perft;
mod pins;
mod plainly;
mod tables;

use chess_reference::legal::{is_legal, is_same};
use explorer_model::chess::{Color, Move, Piece, Position, Rights, Role};
use explorer_model::square::Square;
use legal_moves::valid::is_valid;

const NO_RIGHTS: Rights = Rights {
    white_short: false,
    white_long: false,
    black_short: false,
    black_long: false,
};

const WHITE_RIGHTS: Rights = Rights {
    white_short: true,
    white_long: true,
    black_short: false,
    black_long: false,
};

const WHITE_LONG: Rights = Rights {
    white_short: false,
    white_long: true,
    black_short: false,
    black_long: false,
};

const BLACK_LONG: Rights = Rights {
    white_short: false,
    white_long: false,
    black_short: false,
    black_long: true,
};

const ALL_RIGHTS: Rights = Rights {
    white_short: true,
    white_long: true,
    black_short: true,
    black_long: true,
};

/// The piece that a letter of FEN names.
fn piece(letter: u8) -> Option<Piece> {
    let color = if letter.is_ascii_uppercase() {
        Color::White
    } else {
        Color::Black
    };
    let role = match letter.to_ascii_lowercase() {
        b'p' => Role::Pawn,
        b'n' => Role::Knight,
        b'b' => Role::Bishop,
        b'r' => Role::Rook,
        b'q' => Role::Queen,
        _ => Role::King,
    };
    Some(Piece { color, role })
}

/// The pieces that the first field of a FEN text places.
fn pieces(placement: &str) -> [Option<Piece>; 64] {
    let mut squares = [None; 64];
    // FEN goes from a8 to h8, and ends with h1.
    let mut place = 0u8;
    for letter in placement.bytes() {
        match letter {
            b'/' => {}
            b'1'..=b'8' => place = place.wrapping_add(letter - b'0'),
            _ => {
                squares[(place ^ 56) as usize % 64] = piece(letter);
                place = place.wrapping_add(1);
            }
        }
    }
    squares
}

fn position(placement: &str, turn: Color, rights: Rights, en_passant: Option<Square>) -> Position {
    Position {
        squares: pieces(placement),
        turn,
        rights,
        en_passant,
    }
}

/// The square that is written by a file and a rank, as `e4`.
fn square(name: &[u8; 2]) -> Square {
    let file = name[0].wrapping_sub(b'a') % 8;
    let rank = name[1].wrapping_sub(b'1') % 8;
    Square {
        index: 8 * rank + file,
    }
}

fn by_name(name: &[u8; 4], promotion: Option<Role>) -> Move {
    Move {
        from: square(&[name[0], name[1]]),
        to: square(&[name[2], name[3]]),
        promotion,
    }
}

#[test]
fn moves_are_legal_where_the_laws_say_so(rt: HostRuntime) {
    let rook_on_f5 = position("4k3/8/8/5r2/8/8/8/R3K2R", Color::White, WHITE_RIGHTS, None);
    let rook_on_b8 = position("1r2k3/8/8/8/8/8/8/R3K3", Color::White, WHITE_LONG, None);
    let rook_on_d8 = position("3rk3/8/8/8/8/8/8/R3K3", Color::White, WHITE_LONG, None);
    let rook_on_e4 = position("4k3/8/8/8/4r3/8/8/R3K2R", Color::White, WHITE_RIGHTS, None);
    let knight_on_b1 = position("4k3/8/8/8/8/8/8/RN2K2R", Color::White, WHITE_RIGHTS, None);
    let no_rights = position("4k3/8/8/8/8/8/8/R3K2R", Color::White, NO_RIGHTS, None);
    let pawn_on_a7 = position("8/P7/8/8/8/8/8/k1K5", Color::White, NO_RIGHTS, None);
    let blocked = position("4k3/8/8/8/8/4n3/4P3/4K3", Color::White, NO_RIGHTS, None);
    let pinned = position("4k3/8/8/8/1b6/2N5/8/4K3", Color::White, NO_RIGHTS, None);
    // White's pawn has gone from e2 to e4: taking it en passant would open the rank from the rook
    // on b4 to the king on h4.
    let en_passant = Some(square(b"e3"));
    let rank_opens = position(
        "8/2p5/3p4/KP5r/1R2Pp1k/8/6P1/8",
        Color::Black,
        NO_RIGHTS,
        en_passant,
    );
    let rank_stays = position(
        "8/2p5/1R1p4/KP5r/4Pp1k/8/6P1/8",
        Color::Black,
        NO_RIGHTS,
        en_passant,
    );
    for (at, name, promotion, legal) in [
        (rook_on_f5, b"e1g1", None, false),
        (rook_on_f5, b"e1c1", None, true),
        (rook_on_b8, b"e1c1", None, true),
        (rook_on_d8, b"e1c1", None, false),
        (rook_on_e4, b"e1g1", None, false),
        (rook_on_e4, b"e1f1", None, true),
        (knight_on_b1, b"e1c1", None, false),
        (knight_on_b1, b"e1g1", None, true),
        (no_rights, b"e1g1", None, false),
        (pawn_on_a7, b"a7a8", None, false),
        (pawn_on_a7, b"a7a8", Some(Role::Pawn), false),
        (pawn_on_a7, b"a7a8", Some(Role::Knight), true),
        (pawn_on_a7, b"a7a8", Some(Role::Bishop), true),
        (pawn_on_a7, b"a7a8", Some(Role::Rook), true),
        (pawn_on_a7, b"a7a8", Some(Role::Queen), true),
        (pawn_on_a7, b"a7a8", Some(Role::King), false),
        (blocked, b"e2e4", None, false),
        (blocked, b"e2e3", None, false),
        (pinned, b"c3e2", None, false),
        (pinned, b"c3d5", None, false),
        (rank_opens, b"f4e3", None, false),
        (rank_stays, b"f4e3", None, true),
    ] {
        assert!(rt; is_valid(&at));
        assert_eq!(rt; is_legal(&at, by_name(name, promotion)), legal);
    }
}

#[test]
fn an_en_passant_square_counts_where_a_pawn_can_be_taken(rt: HostRuntime) {
    for (placement, same) in [
        // no black pawn beside e4
        ("rnbqkbnr/pppppppp/8/8/4P3/8/PPPP1PPP/RNBQKBNR", true),
        ("rnbqkbnr/ppp1pppp/8/8/3pP3/8/PPPP1PPP/RNBQKBNR", false),
        // the rank would be opened to the king
        ("8/2p5/3p4/KP5r/1R2Pp1k/8/6P1/8", true),
    ] {
        let without = position(placement, Color::Black, NO_RIGHTS, None);
        let with = Position {
            en_passant: Some(square(b"e3")),
            ..without
        };
        assert!(rt; is_valid(&without) && is_valid(&with));
        assert_eq!(rt; is_same(&without, &with), same);
    }
}
