//! The letters and digits of pieces and squares (PGN 8.2.3.1, 8.2.3.2).
ghost use Rattle.std.specs.Prelude.{◌≡◌};
ghost use Rattle.explorer_model.specs.Letters.{letter_of, file_named, rank_named};

use crate::chess::Role;

/// The capital letter of a piece.
pub fn letter_of(role: Role) -> u8
    ensures { result ≡ letter_of role }
{
    match role {
        Role::Pawn => b'P',
        Role::Knight => b'N',
        Role::Bishop => b'B',
        Role::Rook => b'R',
        Role::Queen => b'Q',
        Role::King => b'K',
    }
}

/// 0 to 7 for the letters a to h.
pub fn file_named(byte: u8) -> Option<u8>
    ensures { result ≡ file_named byte }
{
    match byte {
        b'a'..=b'h' => Some(byte - b'a'),
        _ => None,
    }
}

/// 0 to 7 for the digits 1 to 8.
pub fn rank_named(byte: u8) -> Option<u8>
    ensures { result ≡ rank_named byte }
{
    match byte {
        b'1'..=b'8' => Some(byte - b'1'),
        _ => None,
    }
}
