//! What a move leaves on the squares.
ghost use Rattle.std.specs.Prelude.{◌≡◌, ◌<◌};
ghost use Rattle.explorer_model.specs.Chess.{is_taken_en_passant, rook_leaves, rook_arrives, placed, squares_after};

use explorer_model::chess::{Move, Piece, Position, Role, arriving_piece, piece_at, piece_of};
use explorer_model::square::halfway;

/// Does the pawn on this square go, as one that is taken en passant?
pub fn is_taken_en_passant(position: &Position, m: Move, s: u8) -> bool
    ensures { result ≡ is_taken_en_passant position.now m s }
{
    position.takes_en_passant(m) && s == m.captured_en_passant()
}

/// Does the rook leave this square in castling?
pub fn rook_leaves(position: &Position, m: Move, s: u8) -> bool
    ensures { result ≡ rook_leaves position.now m s }
{
    position.is_castling(m) && s == position.turn.rook_home(m.castling_side())
}

/// Does the rook come to this square in castling?
pub fn rook_arrives(position: &Position, m: Move, s: u8) -> bool
    ensures { result ≡ rook_arrives position.now m s }
{
    position.is_castling(m) && s == halfway(m.from.index, m.to.index)
}

/// What stands on a square after the move.
#[tactic(auto, unfolding(explorer_model::specs::Chess::placed))]
pub fn piece_after(position: &Position, m: Move, s: u8) -> Option<Piece>
    requires { s < 64 }
    ensures { result ≡ placed position.now m s }
{
    if s == m.to.index {
        return arriving_piece(position.piece_at(m.from), m.promotion);
    }
    if s == m.from.index || is_taken_en_passant(position, m, s) || rook_leaves(position, m, s) {
        return None;
    }
    if rook_arrives(position, m, s) {
        return piece_of(position.turn, Role::Rook);
    }
    piece_at(&position.squares, s)
}

/// What stands on each square behind a move.
pub fn squares_after(position: &Position, m: Move) -> [Option<Piece>; 64]
    ensures { result ≡ squares_after position.now m }
{
    let mut squares = [None; 64];
    for s in 0..64u8 {
        squares[s as usize] = piece_after(position, m, s);
    }
    squares
}
