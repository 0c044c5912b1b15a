//! The squares of a board, two to a byte.
ghost use Rattle.std.specs.Prelude.{◌≡◌, ◌<◌, List, Option, length, slice_set};
ghost use Rattle.explorer_model.specs.Keys.{packed};
ghost use Rattle.explorer_model.specs.declared.chess.Piece.{Piece as APiece};

use crate::codes::piece_code;
use explorer_model::chess::Piece;

/// The first 32 bytes of a key.
pub fn pack_squares(squares: &[Option<Piece>; 64]) -> [u8; 32]
    ensures bytes { result ≡ packed squares.now }
    ensures board { length squares.now ≡ 64 }
{
    let mut bytes = [0u8; 32];
    for byte in 0..32usize {
        let low = piece_code(squares[2 * byte]);
        let high = piece_code(squares[2 * byte + 1]);
        bytes[byte] = low + 16 * high;
    }
    bytes
}

/// Puts a piece, or none, on a square of those that are packed.
pub fn write_square(bytes: &mut [u8; 32], square: u8, occupant: Option<Piece>)
    requires { square < 64 }
    ensures { (squares : List (Option APiece)) → length squares ≡ 64 → bytes.old ≡ packed squares
        → bytes.new ≡ packed (slice_set squares square occupant) }
{
    let at = (square / 2) as usize;
    let code = piece_code(occupant);
    if square % 2 == 0 {
        bytes[at] = bytes[at] / 16 * 16 + code;
        return;
    }
    bytes[at] = bytes[at] % 16 + 16 * code;
}
