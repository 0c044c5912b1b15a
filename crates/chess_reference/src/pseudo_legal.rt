//! How the pieces move, before it is asked whether that leaves the own king attacked.
ghost use Rattle.std.specs.Prelude.{◌≡◌, ◌<◌, ◌↔◌, IsTrue};
ghost use Rattle.explorer_model.specs.Chess.{IsSquare, IsPromotion, Promotes, PawnSteps, PawnDoubleSteps, PawnCaptures, CastlesTo, Castles, RoleMoves, PieceMoves, PseudoLegal};

use crate::board::{attacks, is_empty, is_open, is_pawn_diagonal, is_rank_ahead};
use crate::geometry::ranks_apart;
use explorer_model::chess::{
    Color, Move, Piece, Position, Role, Side, is_of_color, is_piece, piece_at,
};
use explorer_model::square::{Square, file_of, halfway, rank_of};

/// The square, if there is one, has this index.
pub fn is_square(square: Option<Square>, s: u8) -> bool
    ensures { IsTrue result ↔ IsSquare square s }
{
    match square {
        None => false,
        Some(square) => square.index == s,
    }
}

/// Is this what a pawn may become?
pub fn is_promotion(promotion: Option<Role>) -> bool
    ensures { IsTrue result ↔ IsPromotion promotion }
{
    match promotion {
        None | Some(Role::Pawn) | Some(Role::King) => false,
        Some(Role::Knight) | Some(Role::Bishop) | Some(Role::Rook) | Some(Role::Queen) => true,
    }
}

/// Does the move of a pawn name what it becomes exactly where it reaches its last rank?
pub fn promotes(color: Color, m: Move) -> bool
    ensures { IsTrue result ↔ Promotes color m }
{
    if rank_of(m.to.index) == color.last_rank() {
        is_promotion(m.promotion)
    } else {
        m.promotion.is_none()
    }
}

/// A pawn goes one square ahead (FIDE 3.7.1).
pub fn pawn_steps(position: &Position, m: Move) -> bool
    ensures { IsTrue result ↔ PawnSteps position.now m }
{
    file_of(m.from.index) == file_of(m.to.index)
        && is_rank_ahead(position.turn, m.from.index, m.to.index)
        && is_empty(position.piece_at(m.to))
}

/// A pawn goes two squares ahead from its first rank (FIDE 3.7.2).
pub fn pawn_double_steps(position: &Position, m: Move) -> bool
    ensures { IsTrue result ↔ PawnDoubleSteps position.now m }
{
    let (from, to) = (m.from.index, m.to.index);
    rank_of(from) == position.turn.pawn_rank()
        && file_of(from) == file_of(to)
        && ranks_apart(from, to) == 2
        && is_empty(piece_at(&position.squares, halfway(from, to)))
        && is_empty(piece_at(&position.squares, to))
}

/// A pawn captures, also in passing (FIDE 3.7.3).
pub fn pawn_captures(position: &Position, m: Move) -> bool
    ensures { IsTrue result ↔ PawnCaptures position.now m }
{
    let to = m.to.index;
    is_pawn_diagonal(position.turn, m.from.index, to)
        && (is_of_color(position.turn.opponent(), piece_at(&position.squares, to))
            || is_square(position.en_passant, to))
}

/// The king castles to that side (FIDE 3.8.2).
pub fn castles_to(side: Side, position: &Position, m: Move) -> bool
    ensures { IsTrue result ↔ CastlesTo side position.now m }
{
    let (color, from) = (position.turn, m.from.index);
    position.rights.has(color, side)
        && from == color.king_home()
        && m.to.index == color.king_target(side)
        && is_piece(color, Role::King, piece_at(&position.squares, from))
        && is_open(&position.squares, color.king_home(), color.rook_home(side))
}

/// The king castles.
pub fn castles(position: &Position, m: Move) -> bool
    ensures { IsTrue result ↔ Castles position.now m }
{
    castles_to(Side::Short, position, m) || castles_to(Side::Long, position, m)
}

/// May a piece of this role make the move?
pub fn role_moves(position: &Position, role: Role, m: Move) -> bool
    ensures { IsTrue result ↔ RoleMoves position.now role m }
{
    let (from, to) = (m.from.index, m.to.index);
    match role {
        Role::Pawn => {
            (pawn_steps(position, m)
                || pawn_double_steps(position, m)
                || pawn_captures(position, m))
                && promotes(position.turn, m)
        }
        Role::King => (attacks(&position.squares, from, to) || castles(position, m))
            && m.promotion.is_none(),
        Role::Knight | Role::Bishop | Role::Rook | Role::Queen => {
            attacks(&position.squares, from, to) && m.promotion.is_none()
        }
    }
}

/// What stands on the first square may make the move, check aside.
pub fn piece_moves(position: &Position, occupant: Option<Piece>, m: Move) -> bool
    ensures { IsTrue result ↔ PieceMoves position.now occupant m }
{
    match occupant {
        None => false,
        Some(piece) => role_moves(position, piece.role, m),
    }
}

/// The move is one of the side to move that may leave its king attacked.
pub fn is_pseudo_legal(position: &Position, m: Move) -> bool
    ensures { IsTrue result ↔ PseudoLegal position.now m }
{
    let occupant = position.piece_at(m.from);
    is_of_color(position.turn, occupant)
        && !is_of_color(position.turn, position.piece_at(m.to))
        && piece_moves(position, occupant, m)
}
