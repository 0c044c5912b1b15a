//! What stands on the squares, and what attacks what.
ghost use Rattle.std.specs.Prelude.{◌≡◌, ℕ, ◌<◌, ◌↔◌, IsTrue};
ghost use Rattle.explorer_model.specs.Board.{piece_at, IsEmpty, IsBetween, IsRankAhead, PawnDiagonal, IsOpen, RoleAttacks, PieceAttacks, Attacks, IsAttacked, InCheck};

use crate::geometry::{
    files_apart, is_between, is_bishop_line, is_king_step, is_knight_step, is_rook_line,
};
use explorer_model::chess::{Color, Piece, Role, is_of_color, is_piece, piece_at};
use explorer_model::square::rank_of;

/// No piece stands there.
pub fn is_empty(occupant: Option<Piece>) -> bool
    ensures { IsTrue result ↔ IsEmpty occupant }
{
    match occupant {
        None => true,
        Some(_) => false,
    }
}

/// Square `b` is one rank ahead of `a`, as a pawn of the colour goes (FIDE 3.7.1).
pub fn is_rank_ahead(color: Color, a: u8, b: u8) -> bool
    ensures { IsTrue result ↔ IsRankAhead color a b }
{
    match color {
        Color::White => rank_of(b) == rank_of(a) + 1,
        Color::Black => rank_of(a) == rank_of(b) + 1,
    }
}

/// A pawn of the colour on `a` attacks `b` (FIDE 3.7.3).
pub fn is_pawn_diagonal(color: Color, a: u8, b: u8) -> bool
    ensures { IsTrue result ↔ PawnDiagonal color a b }
{
    is_rank_ahead(color, a, b) && files_apart(a, b) == 1
}

/// No piece stands between two squares.
pub fn is_open(squares: &[Option<Piece>; 64], a: u8, b: u8) -> bool
    ensures { IsTrue result ↔ IsOpen squares.now a b }
{
    for s in 0..64u8 {
        if cuts_off(squares, a, s, b) {
            return false;
        }
    }
    true
}

/// The piece, were it on `a`, would attack `b` (FIDE 3.1 to 3.8).
pub fn role_attacks(squares: &[Option<Piece>; 64], piece: Piece, a: u8, b: u8) -> bool
    ensures { IsTrue result ↔ RoleAttacks squares.now piece.color piece.role a b }
{
    match piece.role {
        Role::Pawn => is_pawn_diagonal(piece.color, a, b),
        Role::Knight => is_knight_step(a, b),
        Role::Bishop => is_bishop_line(a, b) && is_open(squares, a, b),
        Role::Rook => is_rook_line(a, b) && is_open(squares, a, b),
        Role::Queen => (is_rook_line(a, b) || is_bishop_line(a, b)) && is_open(squares, a, b),
        Role::King => is_king_step(a, b),
    }
}

/// The piece on `a` attacks `b`; an empty square attacks none.
pub fn attacks(squares: &[Option<Piece>; 64], a: u8, b: u8) -> bool
    requires { a < 64 }
    ensures { IsTrue result ↔ Attacks squares.now a b }
{
    match piece_at(squares, a) {
        None => false,
        Some(piece) => role_attacks(squares, piece, a, b),
    }
}

/// A piece of the colour attacks the square.
pub fn is_attacked(squares: &[Option<Piece>; 64], color: Color, s: u8) -> bool
    ensures { IsTrue result ↔ IsAttacked squares.now color s }
{
    for a in 0..64u8 {
        if is_of_color(color, piece_at(squares, a)) && attacks(squares, a, s) {
            return true;
        }
    }
    false
}

/// A king of the colour is attacked (FIDE 3.9).
pub fn in_check(squares: &[Option<Piece>; 64], color: Color) -> bool
    ensures { IsTrue result ↔ InCheck squares.now color }
{
    for k in 0..64u8 {
        if is_piece(color, Role::King, piece_at(squares, k))
            && is_attacked(squares, color.opponent(), k)
        {
            return true;
        }
    }
    false
}

/// Does a piece stand on `s`, strictly between `a` and `b`?
fn cuts_off(squares: &[Option<Piece>; 64], a: u8, s: u8, b: u8) -> bool
    requires { s < 64 }
    ensures { IsTrue result ↔ (IsBetween a s b × ¬ IsEmpty (piece_at squares.now s)) }
{
    is_between(a, s, b) && !is_empty(piece_at(squares, s))
}
