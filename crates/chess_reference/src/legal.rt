//! Which moves are legal, and which positions are the same.
ghost use Rattle.std.specs.Prelude.{◌≡◌, ℕ, ◌<◌, ◌↔◌, IsTrue, length};
ghost use Rattle.explorer_model.specs.declared.chess.Role.TheVariants.{Pawn};
ghost use Rattle.explorer_model.specs.Board.{piece_at, IsPiece};
ghost use Rattle.explorer_model.specs.Chess.{IsCastlingPathSafe, Legal, IsSquare, IsValid, quiet, CanCaptureEnPassant, Same};

use crate::board::{in_check, is_attacked};
use crate::play::squares_after;
use crate::pseudo_legal::{castles, is_pseudo_legal};
use explorer_model::chess::{Move, Piece, Position, Role, is_piece};
use explorer_model::square::{Square, halfway};

/// The move is legal (FIDE 3.10).
pub fn is_legal(position: &Position, m: Move) -> bool
    ensures { IsTrue result ↔ Legal position.now m }
{
    if !is_pseudo_legal(position, m) {
        return false;
    }
    if in_check(&squares_after(position, m), position.turn) {
        return false;
    }
    !castles(position, m) || is_castling_path_safe(position, m)
}

/// Are the squares on which the king stands, which it crosses and to which it goes not attacked?
pub fn is_castling_path_safe(position: &Position, m: Move) -> bool
    ensures { IsTrue result ↔ IsCastlingPathSafe position.now m }
{
    let (from, to) = (m.from.index, m.to.index);
    let enemy = position.turn.opponent();
    if is_attacked(&position.squares, enemy, from) {
        return false;
    }
    if is_attacked(&position.squares, enemy, halfway(from, to)) {
        return false;
    }
    !is_attacked(&position.squares, enemy, to)
}

/// The en passant square, where a pawn can legally be taken there.
pub fn legal_en_passant(position: &Position) -> Option<Square>
    requires { IsValid position.now }
    ensures { (s : ℕ) → IsSquare result s ↔ CanCaptureEnPassant position.now s }
{
    let to = position.en_passant?;
    if can_capture_en_passant(position, to) {
        Some(to)
    } else {
        None
    }
}

/// Are these the same position?
pub fn is_same(p: &Position, q: &Position) -> bool
    requires p_valid { IsValid p.now }
    requires q_valid { IsValid q.now }
    ensures { IsTrue result ↔ Same p.now q.now }
{
    if !are_squares_equal(&p.squares, &q.squares) {
        return false;
    }
    if p.turn != q.turn || p.rights != q.rights {
        return false;
    }
    is_square_equal(legal_en_passant(p), legal_en_passant(q))
}

/// Can a pawn legally be taken on this square, the en passant square?
fn can_capture_en_passant(position: &Position, to: Square) -> bool
    requires valid { IsValid position.now }
    requires crossed { position.now.en_passant ≡ Some to }
    ensures { IsTrue result ↔ CanCaptureEnPassant position.now to.index }
{
    for index in 0..64u8 {
        if can_pawn_go(position, Square { index }, to) {
            return true;
        }
    }
    false
}

/// Can a pawn on this square legally go there, without promotion?
fn can_pawn_go(position: &Position, from: Square, to: Square) -> bool
    ensures { IsTrue result
        ↔ (IsPiece position.now.turn Pawn (piece_at position.now.squares from.index)
        × Legal position.now (quiet from to)) }
{
    let m = Move {
        from,
        to,
        promotion: None,
    };
    is_piece(position.turn, Role::Pawn, position.piece_at(from)) && is_legal(position, m)
}

fn are_squares_equal(p: &[Option<Piece>; 64], q: &[Option<Piece>; 64]) -> bool
    requires p_board { length p.now ≡ 64 }
    requires q_board { length q.now ≡ 64 }
    ensures { IsTrue result ↔ (p.now ≡ q.now) }
{
    for s in 0..64 {
        if p[s] != q[s] {
            return false;
        }
    }
    true
}

fn is_square_equal(a: Option<Square>, b: Option<Square>) -> bool
    ensures { IsTrue result ↔ ((s : ℕ) → IsSquare a s ↔ IsSquare b s) }
{
    match (a, b) {
        (None, None) => true,
        (Some(a), Some(b)) => a.index == b.index,
        (None, Some(_)) => false,
        (Some(_), None) => false,
    }
}
