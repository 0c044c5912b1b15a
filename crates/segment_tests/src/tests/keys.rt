//! Keys whose bytes are known from the layout, and bytes that are no key.
use explorer_model::chess::{Color, Piece, Position, Rights, Role};
use explorer_model::square::Square;
use packed_keys::{PositionKey, pack, unpack};

const NO_RIGHTS: Rights = Rights {
    white_short: false,
    white_long: false,
    black_short: false,
    black_long: false,
};

const START_KEY: PositionKey = [
    0x24, 0x53, 0x36, 0x42, 0x11, 0x11, 0x11, 0x11, 0, 0, 0, 0, 0, 0, 0, 0, 0, 0, 0, 0, 0, 0, 0, 0,
    0x77, 0x77, 0x77, 0x77, 0x8a, 0xb9, 0x9c, 0xa8, 0x1e, 0x00,
];

/// The key is read as this position.
fn is_read_as(key: &PositionKey, position: &Position) -> bool {
    match unpack(key) {
        None => false,
        Some(read) => {
            read.squares == position.squares
                && read.turn == position.turn
                && read.rights == position.rights
                && read.en_passant == position.en_passant
        }
    }
}

/// White's king on a1, Black's on b1 and on h8.
fn three_kings() -> [Option<Piece>; 64] {
    let mut squares = [None; 64];
    squares[0] = Some(Piece {
        color: Color::White,
        role: Role::King,
    });
    squares[1] = Some(Piece {
        color: Color::Black,
        role: Role::King,
    });
    squares[63] = squares[1];
    squares
}

/// The starting position (FIDE 2.3).
fn start() -> Position {
    let home = [
        Role::Rook,
        Role::Knight,
        Role::Bishop,
        Role::Queen,
        Role::King,
        Role::Bishop,
        Role::Knight,
        Role::Rook,
    ];
    let piece = |color, role| Some(Piece { color, role });
    let mut squares = [None; 64];
    for file in 0..8 {
        squares[file] = piece(Color::White, home[file]);
        squares[8 + file] = piece(Color::White, Role::Pawn);
        squares[48 + file] = piece(Color::Black, Role::Pawn);
        squares[56 + file] = piece(Color::Black, home[file]);
    }
    let rights = Rights {
        white_short: true,
        white_long: true,
        black_short: true,
        black_long: true,
    };
    Position {
        squares,
        turn: Color::White,
        rights,
        en_passant: None,
    }
}

#[test]
fn start_has_its_key(rt: HostRuntime) {
    assert_eq!(rt; pack(&start()), START_KEY);
    assert!(rt; is_read_as(&START_KEY, &start()));
}

#[test]
fn last_bytes_tell_turn_rights_and_en_passant(rt: HostRuntime) {
    let (white, black) = (Color::White, Color::Black);
    let e3 = Some(Square { index: 20 });
    let h8 = Some(Square { index: 63 });
    for (turn, rights, en_passant, state, last) in [
        (white, NO_RIGHTS, None, 0, 0),
        (black, NO_RIGHTS, e3, 1, 21),
        (
            white,
            Rights {
                white_short: true,
                ..NO_RIGHTS
            },
            h8,
            2,
            64,
        ),
        (
            white,
            Rights {
                white_long: true,
                ..NO_RIGHTS
            },
            None,
            4,
            0,
        ),
        (
            black,
            Rights {
                black_short: true,
                ..NO_RIGHTS
            },
            None,
            9,
            0,
        ),
        (
            black,
            Rights {
                black_long: true,
                ..NO_RIGHTS
            },
            e3,
            17,
            21,
        ),
    ] {
        let position = Position {
            squares: three_kings(),
            turn,
            rights,
            en_passant,
        };
        let key = pack(&position);
        let told = (key[0], key[31], key[32], key[33]);
        assert_eq!(rt; told, (0xc6, 0xc0, state, last));
        assert!(rt; is_read_as(&key, &position));
    }
}

#[test]
fn bytes_that_are_no_key(rt: HostRuntime) {
    for (place, byte) in [
        (0, 0x0d),
        (0, 0xd0),
        (31, 0x0f),
        (31, 0xf0),
        (32, 32),
        (32, 255),
        (33, 65),
        (33, 255),
    ] {
        let mut bytes = START_KEY;
        bytes[place] = byte;
        assert!(rt; unpack(&bytes).is_none());
    }
}
