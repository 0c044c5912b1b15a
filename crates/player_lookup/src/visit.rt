//! The first time that a game comes to a position. Squares are compared before a tidy form is made.
ghost use Rattle.std.specs.Prelude.{◌≡◌, ◌↔◌, IsTrue, slice_get, take};
ghost use Rattle.explorer_model.specs.declared.chess.Position.{Position as APosition};
ghost use Rattle.explorer_model.specs.Chess.{IsValid};
ghost use Rattle.explorer_model.specs.Tidy.{IsTidied};
ghost use Rattle.explorer_model.specs.Visits.{AreLegalFrom, FirstVisit, stage_limit, stages};

use explorer_model::chess::{Move, Piece, Position};
use explorer_model::square::Square;
use legal_moves::board::Board;
use legal_moves::laws::tidy_is_determined;

/// The number of positions in which a game is looked for: those of plies 0 to 50.
const STAGE_LIMIT: usize = 51;

/// The move that follows where the moves from a root first come to a position with this tidy form,
/// or None where they don't come there.
pub fn visit_of(root: &Position, moves: &[Move], tidy: &Position) -> Option<Option<Move>>
    requires valid { IsValid root.now }
    requires legal { AreLegalFrom root.now moves.now }
    ensures { (at : APosition) → IsTidied at tidy.now
        → FirstVisit at (take stage_limit (stages root.now moves.now)) result }
{
    let mut board = Board::of_valid(*root);
    for ply in 0..STAGE_LIMIT {
        let next = move_at(moves, ply);
        if has_tidy_form(&board, tidy) {
            return Some(next);
        }
        match next {
            Some(step) => board.play_on(step),
            None => return None,
        }
    }
    None
}

/// Whether the position is the tidy form of the board.
fn has_tidy_form(board: &Board, tidy: &Position) -> bool
    ensures { IsTrue result ↔ IsTidied board.now tidy.now }
{
    // law: a position has one tidy form
    tidy_is_determined();
    if !has_same_pieces(board.as_position(), tidy) {
        return false;
    }
    is_same_square(board.tidy_en_passant(), tidy.en_passant)
}

/// Whether the squares, the side to move and the rights are the same.
fn has_same_pieces(a: &Position, b: &Position) -> bool
    ensures { IsTrue result ↔ ((a.now.squares ≡ b.now.squares)
        × (a.now.turn ≡ b.now.turn) × (a.now.rights ≡ b.now.rights)) }
{
    if !has_same_turn_and_rights(a, b) {
        return false;
    }
    has_same_squares(&a.squares, &b.squares)
}

fn has_same_turn_and_rights(a: &Position, b: &Position) -> bool
    ensures { IsTrue result ↔ ((a.now.turn ≡ b.now.turn) × (a.now.rights ≡ b.now.rights)) }
{
    a.turn == b.turn && a.rights == b.rights
}

fn has_same_squares(a: &[Option<Piece>; 64], b: &[Option<Piece>; 64]) -> bool
    ensures { IsTrue result ↔ (a.now ≡ b.now) }
{
    *a == *b
}

fn is_same_square(a: Option<Square>, b: Option<Square>) -> bool
    ensures { IsTrue result ↔ (a ≡ b) }
{
    match (a, b) {
        (None, None) => true,
        (Some(a), Some(b)) => a.index == b.index,
        _ => false,
    }
}

/// The move of a ply, counted from 0.
fn move_at(moves: &[Move], ply: usize) -> Option<Move>
    ensures { result ≡ slice_get moves.now ply }
{
    moves.get(ply).copied()
}
