//! The letters and digits of pieces and squares, read and written.
ghost use Rattle.std.specs.Prelude.{◌≡◌, ◌+◌, ◌<◌, ◌≤◌, ◌++◌};
ghost use Rattle.arrayvec.specs.ArrayVec.{array_vec_len};
ghost use Rattle.explorer_model.specs.Letters.{small_letter, role_of, square_named, square_text};
ghost use Rattle.explorer_model.specs.Fen.{all_roles};

use arrayvec::ArrayVec;
use explorer_model::chess::Role;
use explorer_model::letters::{file_named, rank_named};
use explorer_model::square::{file_of, rank_of};

/// The small letter of a piece.
pub fn small_letter(role: Role) -> u8
    ensures { result ≡ small_letter role }
{
    match role {
        Role::Pawn => b'p',
        Role::Knight => b'n',
        Role::Bishop => b'b',
        Role::Rook => b'r',
        Role::Queen => b'q',
        Role::King => b'k',
    }
}

/// The role whose capital letter this is.
pub fn role_named(letter: u8) -> Option<Role>
    ensures { result ≡ role_of all_roles letter }
{
    match letter {
        b'P' => Some(Role::Pawn),
        b'N' => Some(Role::Knight),
        b'B' => Some(Role::Bishop),
        b'R' => Some(Role::Rook),
        b'Q' => Some(Role::Queen),
        b'K' => Some(Role::King),
        _ => None,
    }
}

/// The index of the square that a file's letter and a rank's digit name.
pub fn square_named(file: u8, rank: u8) -> Option<u8>
    ensures { result ≡ square_named file rank }
{
    Some(8 * rank_named(rank)? + file_named(file)?)
}

/// Appends the two bytes of a square.
pub fn push_square<const N: usize>(text: &mut ArrayVec<u8, N>, square: u8)
    requires room { array_vec_len text.old + 2 ≤ N }
    requires on_board { square < 64 }
    ensures text { text.new.items ≡ text.old.items ++ square_text square }
    ensures len { array_vec_len text.new ≡ array_vec_len text.old + 2 }
{
    text.push(b'a' + file_of(square));
    text.push(b'1' + rank_of(square));
}
