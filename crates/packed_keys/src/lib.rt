//! Positions as keys: 34 bytes that name a position exactly, to sort and to store it by.
//!
//! Byte `i` below 32 has square `2 * i` in its low four bits and square `2 * i + 1` in its high
//! four: 0 for an empty square, 1 to 6 for White's pawn, knight, bishop, rook, queen and king, 7 to
//! 12 for Black's. Byte 32 has bit 0 for Black to move, and bits 1 to 4 for White's short and long
//! castling and Black's. Byte 33 is 0 without an en passant square, else the square's index plus 1.
#![tactic(auto)]

ghost use Rattle.std.specs.Prelude.{◌≡◌, ◌++◌, ◌∷◌, [], length, IfSome, IfNone};
ghost use Rattle.explorer_model.specs.Keys.{key, state_code, en_passant_code, HasKey, IsKey};

mod codes;
pub mod laws;
mod squares;

use crate::codes::{
    LAST_EN_PASSANT, LAST_PIECE, LAST_STATE, en_passant_code, en_passant_of_code, piece_of_code,
    rights_of_code, state_code, turn_of_code,
};
pub use crate::squares::{pack_squares, write_square};
use explorer_model::chess::{Color, Position, Rights};
use explorer_model::square::Square;

/// The key of a position, as the head of this file tells its bytes.
pub type PositionKey = [u8; 34];

/// The key of a position, valid or not.
pub fn pack(position: &Position) -> PositionKey
    ensures key { result ≡ key position.now }
    ensures board { length position.now.squares ≡ 64 }
{
    let squares = pack_squares(&position.squares);
    key_of(
        &squares,
        position.turn,
        position.rights,
        position.en_passant,
    )
}

/// The key of a position whose squares are packed.
pub fn key_of(
    squares: &[u8; 32],
    turn: Color,
    rights: Rights,
    en_passant: Option<Square>,
) -> PositionKey
    ensures { result
        ≡ squares.now ++ state_code turn rights ∷ en_passant_code en_passant ∷ [] }
{
    let mut key = [0u8; 34];
    key[..32].copy_from_slice(squares);
    key[32] = state_code(turn, rights);
    key[33] = en_passant_code(en_passant);
    key
}

/// The position that has this key, valid or not.
pub fn unpack(bytes: &PositionKey) -> Option<Position>
    ensures some { IfSome result (λ p. HasKey p bytes.now) }
    ensures none { IfNone result (¬ IsKey bytes.now) }
{
    let state = bytes[32];
    let en_passant = bytes[33];
    if state > LAST_STATE || en_passant > LAST_EN_PASSANT {
        return None;
    }
    let mut squares = [None; 64];
    for byte in 0..32usize {
        let low = bytes[byte] % 16;
        let high = bytes[byte] / 16;
        if low > LAST_PIECE || high > LAST_PIECE {
            return None;
        }
        squares[2 * byte] = piece_of_code(low);
        squares[2 * byte + 1] = piece_of_code(high);
    }
    Some(Position {
        squares,
        turn: turn_of_code(state),
        rights: rights_of_code(state),
        en_passant: en_passant_of_code(en_passant),
    })
}
