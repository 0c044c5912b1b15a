//! The first field of a FEN text: where the pieces stand.
ghost use Rattle.std.specs.Prelude.{◌≡◌, ◌+◌, ◌<◌, ◌++◌, ◌∷◌, List, Option, Some, None, IfSome, IfNone, replicate, length};
ghost use Rattle.std.specs.Option.{option_copied};
ghost use Rattle.arrayvec.specs.ArrayVec.{array_vec_len};
ghost use Rattle.explorer_model.specs.declared.chess.Piece.{Piece as APiece};
ghost use Rattle.explorer_model.specs.Fen.{piece_named, squares_named, rank_squares, placement};
ghost use Rattle.fen_uci.specs.Ranks.{ranks_of};

use crate::letters::role_named;
use crate::splits::split_before;
use arrayvec::ArrayVec;
use explorer_model::chess::{Color, Piece, piece_of};

/// The squares of the board as a text places pieces on them, ranks from the eighth to the first.
pub fn placement(text: &[u8]) -> Option<[Option<Piece>; 64]>
    ensures { result ≡ placement text.now }
{
    let mut squares = [None; 64];
    let mut rest = Some(text);
    for rank in (0..8usize).rev() {
        let (first, below) = split_rank(rest?);
        squares[8 * rank..8 * rank + 8].copy_from_slice(&rank_squares(first)?);
        rest = below;
    }
    match rest {
        None => Some(squares),
        Some(_) => None,
    }
}

/// The text of the highest rank, and that of the ranks below it where there are any.
fn split_rank(text: &[u8]) -> (&[u8], Option<&[u8]>)
    ensures { ranks_of (Some text.now) ≡ result.0.now ∷ ranks_of (option_copied result.1) }
{
    let (rank, rest) = split_before(text, b'/');
    match rest.split_first() {
        None => (rank, None),
        Some((_, below)) => (rank, Some(below)),
    }
}

/// The squares of a rank, from file a to file h.
fn rank_squares(text: &[u8]) -> Option<[Option<Piece>; 8]>
    ensures { result ≡ rank_squares text.now }
{
    let mut rank = ArrayVec::new();
    for byte in text {
        push_named(&mut rank, *byte)?;
    }
    rank.into_inner().ok()
}

/// Appends the squares that a letter or a digit stands for; `None` where it is neither, or where
/// the rank has no room for them.
fn push_named(rank: &mut ArrayVec<Option<Piece>, 8>, byte: u8) -> Option<()>
    ensures some { IfSome result (λ done. (here : List (Option APiece))
        × (squares_named byte ≡ Some here) × (rank.new.items ≡ rank.old.items ++ here)) }
    ensures none { IfNone result ((here : List (Option APiece)) → squares_named byte ≡ Some here
        → 8 < array_vec_len rank.old + length here) }
{
    match byte {
        b'1'..=b'8' => push_empty(rank, byte - b'0'),
        _ => rank.try_push(piece_named(byte)?).ok(),
    }
}

/// Appends empty squares, as far as there is room; `None` where there is not enough.
fn push_empty(rank: &mut ArrayVec<Option<Piece>, 8>, run: u8) -> Option<()>
    ensures some { IfSome result (λ done. rank.new.items ≡ rank.old.items ++ replicate run None) }
    ensures none { IfNone result (8 < array_vec_len rank.old + run) }
{
    for _square in 0..run {
        rank.try_push(None).ok()?;
    }
    Some(())
}

/// The piece that a letter names: a small letter's code is 32 above its capital's.
fn piece_named(letter: u8) -> Option<Option<Piece>>
    ensures { result ≡ piece_named letter }
{
    match role_named(letter) {
        Some(role) => Some(piece_of(Color::White, role)),
        None => Some(piece_of(Color::Black, role_named(letter.saturating_sub(32))?)),
    }
}
