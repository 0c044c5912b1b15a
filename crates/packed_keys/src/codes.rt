//! What each byte of a key says: the pieces of two squares, the state, the en passant square.
ghost use Rattle.std.specs.Prelude.{◌≡◌, ◌≤◌, ◌<◌, ◌+◌, ◌*◌, ◌%◌};
ghost use Rattle.explorer_model.specs.Keys.{role_code, color_code, piece_code, turn_code, state_code, en_passant_code};

use explorer_model::chess::{Color, Piece, Rights, Role};
use explorer_model::square::Square;

/// The greatest code of a square: Black's king.
pub const LAST_PIECE: u8 = 12;

/// The greatest state: Black to move, with all four rights.
pub const LAST_STATE: u8 = 31;

/// The greatest code of an en passant square: h8.
pub const LAST_EN_PASSANT: u8 = 64;

/// 0 for an empty square, 1 to 6 for White's pieces, 7 to 12 for Black's.
pub fn piece_code(occupant: Option<Piece>) -> u8
    ensures code { result ≡ piece_code occupant }
    ensures small { result ≤ 12 }
{
    match occupant {
        None => 0,
        Some(piece) => match piece.color {
            Color::White => role_code(piece.role),
            Color::Black => 6 + role_code(piece.role),
        },
    }
}

/// What stands on a square of this code, 0 to 12.
pub fn piece_of_code(code: u8) -> Option<Piece>
    requires { code ≤ 12 }
    ensures { piece_code result ≡ code }
{
    if code == 0 {
        return None;
    }
    if code > 6 {
        return Some(Piece {
            color: Color::Black,
            role: role_of_code(code - 6),
        });
    }
    Some(Piece {
        color: Color::White,
        role: role_of_code(code),
    })
}

/// Bit 0 for Black to move, bits 1 to 4 for White's short and long castling and Black's.
pub fn state_code(turn: Color, rights: Rights) -> u8
    ensures { result ≡ state_code turn rights }
{
    let black_moves = match turn {
        Color::White => 0,
        Color::Black => 1,
    };
    let white = 2 * u8::from(rights.white_short) + 4 * u8::from(rights.white_long);
    let black = 8 * u8::from(rights.black_short) + 16 * u8::from(rights.black_long);
    black_moves + white + black
}

/// The side to move, by the lowest bit.
pub fn turn_of_code(state: u8) -> Color
    ensures { turn_code result ≡ state % 2 }
{
    if state % 2 == 0 {
        Color::White
    } else {
        Color::Black
    }
}

/// The rights to castle, by the four bits above the lowest.
pub fn rights_of_code(state: u8) -> Rights
    requires { state < 32 }
    ensures { (turn : Color) → turn_code turn ≡ state % 2 → state_code turn result ≡ state }
{
    Rights {
        white_short: state / 2 % 2 == 1,
        white_long: state / 4 % 2 == 1,
        black_short: state / 8 % 2 == 1,
        black_long: state / 16 == 1,
    }
}

/// 0 without an en passant square, else the square's index plus 1.
pub fn en_passant_code(square: Option<Square>) -> u8
    ensures { result ≡ en_passant_code square }
{
    match square {
        None => 0,
        Some(square) => square.index + 1,
    }
}

/// The en passant square of a code, 0 for none to 64.
pub fn en_passant_of_code(code: u8) -> Option<Square>
    requires { code ≤ 64 }
    ensures { en_passant_code result ≡ code }
{
    if code == 0 {
        return None;
    }
    Some(Square { index: code - 1 })
}

fn role_code(role: Role) -> u8
    ensures code { result ≡ role_code role }
    ensures small { result ≤ 6 }
{
    match role {
        Role::Pawn => 1,
        Role::Knight => 2,
        Role::Bishop => 3,
        Role::Rook => 4,
        Role::Queen => 5,
        Role::King => 6,
    }
}

fn role_of_code(code: u8) -> Role
    requires positive { 1 ≤ code }
    requires small { code ≤ 6 }
    ensures { role_code result ≡ code }
{
    match code {
        1 => Role::Pawn,
        2 => Role::Knight,
        3 => Role::Bishop,
        4 => Role::Rook,
        5 => Role::Queen,
        _ => Role::King,
    }
}
