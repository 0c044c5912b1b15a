//! Moves in SAN, read and written, on moves and texts that are known from outside.
ghost use Rattle.std.specs.Prelude.{◌≢◌, ◌↔◌, AllPairs, Contains};
ghost use Rattle.explorer_model.specs.declared.chess.Move.{Move as AMove};
ghost use Rattle.explorer_model.specs.Chess.{Legal};
ghost use Rattle.explorer_model.specs.San.{IsMarked};

use arrayvec::ArrayVec;
use explorer_model::chess::{Color, Move, Piece, Position, Rights, Role};
use explorer_model::fault::SanFault;
use explorer_model::notation::CheckMark;
use explorer_model::square::Square;
use legal_moves::board::Board;
use legal_moves::valid::start;
use san_codec::{read, read_on, write};
use std::process::Abort;

/// How the side that is to move stands.
fn mark_of(board: &Board) -> CheckMark
    ensures { IsMarked board.now result }
{
    if !board.checked() {
        CheckMark::Quiet
    } else if board.has_move() {
        CheckMark::Check
    } else {
        CheckMark::Mate
    }
}

const ALL_RIGHTS: Rights = Rights {
    white_short: true,
    white_long: true,
    black_short: true,
    black_long: true,
};

const NO_RIGHTS: Rights = Rights {
    white_short: false,
    white_long: false,
    black_short: false,
    black_long: false,
};

/// The piece that a letter of FEN names.
fn piece(letter: u8) -> Option<Piece> {
    let color = if letter.is_ascii_uppercase() {
        Color::White
    } else {
        Color::Black
    };
    let role = match letter.to_ascii_lowercase() {
        b'p' => Role::Pawn,
        b'n' => Role::Knight,
        b'b' => Role::Bishop,
        b'r' => Role::Rook,
        b'q' => Role::Queen,
        _ => Role::King,
    };
    Some(Piece { color, role })
}

/// The position whose pieces the first field of a FEN text places.
fn position(placement: &str, turn: Color, rights: Rights) -> Position {
    let mut squares = [None; 64];
    // FEN goes from a8 to h8, and ends with h1.
    let mut place = 0u8;
    for letter in placement.bytes() {
        match letter {
            b'/' => {}
            b'1'..=b'8' => place = place.wrapping_add(letter - b'0'),
            _ => {
                squares[(place ^ 56) as usize % 64] = piece(letter);
                place = place.wrapping_add(1);
            }
        }
    }
    Position {
        squares,
        turn,
        rights,
        en_passant: None,
    }
}

/// The square that is written by a file and a rank, as `e4`.
fn square(file: u8, rank: u8) -> Square {
    Square {
        index: 8 * (rank.wrapping_sub(b'1') % 8) + file.wrapping_sub(b'a') % 8,
    }
}

/// The first and the last square of a move by their names, and what it promotes to.
type Named<'a> = (&'a [u8; 4], Option<Role>);

fn by_name(named: Named) -> Move {
    let (name, promotion) = named;
    Move {
        from: square(name[0], name[1]),
        to: square(name[2], name[3]),
        promotion,
    }
}

type Reading<'a> = (&'a str, Result<Named<'a>, SanFault>);

fn wanted_of(reading: &Result<Named, SanFault>) -> Result<Move, SanFault> {
    match reading {
        Ok(named) => Ok(by_name(*named)),
        Err(fault) => Err(*fault),
    }
}

fn check_readings(rt: &impl Abort, at: &Position, rows: &[Reading]) {
    let Some(board) = Board::of(at) else {
        panic!(rt; "the position is not valid");
    };
    for (text, reading) in rows {
        let wanted = wanted_of(reading);
        assert_eq!(rt; read_among_legal(&board, text), wanted, "{text}");
        assert_eq!(rt; read_on(text.as_bytes(), &board), wanted, "{text}");
    }
}

fn read_among_legal(board: &Board, text: &str) -> Result<Move, SanFault> {
    read(text.as_bytes(), &board.position(), board.legal().as_slice())
}

fn check_texts(rt: &impl Abort, at: &Position, rows: &[(Named, &str)]) {
    let Some(board) = Board::of(at) else {
        panic!(rt; "the position is not valid");
    };
    for (named, wanted) in rows {
        let Some(text) = text_of(&board, by_name(*named)) else {
            panic!(rt; "{wanted} is not legal");
        };
        assert_eq!(rt; text.as_slice(), wanted.as_bytes(), "{wanted}");
    }
}

/// The written form of a move, if it is legal.
fn text_of(board: &Board, named: Move) -> Option<ArrayVec<u8, 8>> {
    let legal = board.legal();
    for m in legal.as_slice() {
        if *m == named {
            return Some(write_legal(board, legal.as_slice(), *m));
        }
    }
    None
}

fn write_legal(board: &Board, legal: &[Move], m: Move) -> ArrayVec<u8, 8>
    requires each { (m : AMove) → Contains legal.now m ↔ Legal board.now m }
    requires once { AllPairs (λ a b. a ≢ b) legal.now }
    requires legal { Legal board.now m }
{
    write(&board.position(), legal, m, mark_of(&board.play(m)))
}

#[test]
fn pinned_knight_is_no_rival(rt: HostRuntime) {
    // 1. d4 Nf6 2. c4 e6 3. Nc3 Bb4 4. e3 b6
    let at = position(
        "rnbqk2r/p1pp1ppp/1p2pn2/8/1bPP4/2N1P3/PP3PPP/R1BQKBNR",
        Color::White,
        ALL_RIGHTS,
    );
    let move_of_g1 = (b"g1e2", None);
    check_readings(
        &rt,
        &at,
        &[
            ("Nge2", Ok(move_of_g1)),
            ("Ne2", Ok(move_of_g1)),
            ("Nce2", Err(SanFault::NoSuchMove)),
        ],
    );
    check_texts(&rt, &at, &[(move_of_g1, "Ne2")]);
}

#[test]
fn texts_of_the_start_are_read(rt: HostRuntime) {
    check_readings(
        &rt,
        &start(),
        &[
            ("e4", Ok((b"e2e4", None))),
            ("e2e4", Ok((b"e2e4", None))),
            ("ee4", Ok((b"e2e4", None))),
            ("Ng1f3", Ok((b"g1f3", None))),
            ("Nc3+", Ok((b"b1c3", None))),
            ("Nc3#+#", Ok((b"b1c3", None))),
            ("Nxf3", Err(SanFault::NoSuchMove)),
            ("e5", Err(SanFault::NoSuchMove)),
            ("O-O", Err(SanFault::NoSuchMove)),
            ("Pe4", Err(SanFault::NotSan)),
            ("e4!", Err(SanFault::NotSan)),
            ("e4=", Err(SanFault::NotSan)),
            ("", Err(SanFault::NotSan)),
        ],
    );
}

#[test]
fn castling_is_read_and_written(rt: HostRuntime) {
    let at = position("r3k2r/8/8/8/8/8/8/R3K2R", Color::White, ALL_RIGHTS);
    check_readings(
        &rt,
        &at,
        &[
            ("O-O", Ok((b"e1g1", None))),
            ("0-0", Ok((b"e1g1", None))),
            ("0-O-0+", Ok((b"e1c1", None))),
            ("Kg1", Err(SanFault::NoSuchMove)),
        ],
    );
    check_texts(
        &rt,
        &at,
        &[
            ((b"e1g1", None), "O-O"),
            ((b"e1c1", None), "O-O-O"),
            ((b"a1a8", None), "Rxa8+"),
        ],
    );
}

#[test]
fn promotions_and_captures_are_named(rt: HostRuntime) {
    let placement = "3r2k1/4P3/8/8/8/8/1p4K1/B7";
    let white = position(placement, Color::White, NO_RIGHTS);
    check_readings(
        &rt,
        &white,
        &[
            ("exd8=Q", Ok((b"e7d8", Some(Role::Queen)))),
            ("exd8Q", Ok((b"e7d8", Some(Role::Queen)))),
            ("e8=N", Ok((b"e7e8", Some(Role::Knight)))),
            ("exd8", Err(SanFault::NoSuchMove)),
            ("ed8=Q", Err(SanFault::NoSuchMove)),
            ("exe8=Q", Err(SanFault::NoSuchMove)),
            ("Bb2", Err(SanFault::NoSuchMove)),
            ("Bxb2", Ok((b"a1b2", None))),
        ],
    );
    check_texts(
        &rt,
        &white,
        &[
            ((b"e7d8", Some(Role::Queen)), "exd8=Q+"),
            ((b"e7e8", Some(Role::Knight)), "e8=N"),
            ((b"a1b2", None), "Bxb2"),
        ],
    );
    let black = position(placement, Color::Black, NO_RIGHTS);
    check_readings(
        &rt,
        &black,
        &[("bxa1=N+", Ok((b"b2a1", Some(Role::Knight))))],
    );
}

#[test]
fn starts_are_named_where_they_must_be(rt: HostRuntime) {
    let queens = position("8/k7/8/8/4Q2Q/8/2K5/7Q", Color::White, NO_RIGHTS);
    check_texts(
        &rt,
        &queens,
        &[
            ((b"e4e1", None), "Qee1"),
            ((b"h1e1", None), "Q1e1"),
            ((b"h4e1", None), "Qh4e1"),
            ((b"h4g5", None), "Qg5"),
        ],
    );
    check_readings(
        &rt,
        &queens,
        &[
            ("Qh4e1", Ok((b"h4e1", None))),
            ("Qhe1", Err(SanFault::Ambiguous)),
            ("Q4e1", Err(SanFault::Ambiguous)),
        ],
    );
    let mate = position("6k1/5ppp/8/8/8/8/8/R5K1", Color::White, NO_RIGHTS);
    check_texts(&rt, &mate, &[((b"a1a8", None), "Ra8#")]);
}

#[test]
fn rivals_promotions_and_captures_are_told_apart(rt: HostRuntime) {
    // The rook of e4 is pinned by that of e8.
    let rooks = position("4r2k/8/8/8/R3R3/8/8/4K3", Color::White, NO_RIGHTS);
    check_readings(
        &rt,
        &rooks,
        &[
            ("Rd4", Ok((b"a4d4", None))),
            ("Red4", Err(SanFault::NoSuchMove)),
            ("Re6", Ok((b"e4e6", None))),
            ("Rxe8+", Ok((b"e4e8", None))),
            ("Re8", Err(SanFault::NoSuchMove)),
            ("Rxd4", Err(SanFault::NoSuchMove)),
        ],
    );
    let pawns = position("3r3k/2P1P3/8/8/8/8/8/4K3", Color::White, NO_RIGHTS);
    check_readings(
        &rt,
        &pawns,
        &[
            ("cxd8=Q", Ok((b"c7d8", Some(Role::Queen)))),
            ("exd8=N", Ok((b"e7d8", Some(Role::Knight)))),
            ("xd8=Q", Err(SanFault::Ambiguous)),
            ("cd8=Q", Err(SanFault::NoSuchMove)),
            ("cxd8", Err(SanFault::NoSuchMove)),
        ],
    );
    let crossed = Position {
        en_passant: Some(square(b'd', b'6')),
        ..position("4k3/8/8/3pP3/1B6/8/8/4K3", Color::White, NO_RIGHTS)
    };
    check_readings(
        &rt,
        &crossed,
        &[
            ("exd6", Ok((b"e5d6", None))),
            ("ed6", Err(SanFault::NoSuchMove)),
            ("Bd6", Ok((b"b4d6", None))),
            ("Bxd6", Err(SanFault::NoSuchMove)),
        ],
    );
}
