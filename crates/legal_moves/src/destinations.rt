//! Where the pieces of the side to move may go, as sets of squares, before it is asked whether that
//! leaves their king attacked.
ghost use Rattle.std.specs.Prelude.{◌≡◌, ◌≢◌, ◌<◌, ◌↔◌, ◌⊎◌, ℕ};
ghost use Rattle.step_tables.specs.Bitboard.{Holds};
ghost use Rattle.explorer_model.specs.declared.chess.Move.{Move};
ghost use Rattle.explorer_model.specs.declared.chess.Role.TheVariants.{Pawn};
ghost use Rattle.explorer_model.specs.Board.{file_of, rank_of, piece_at, IsRankAhead, IsOfColor, IsPiece, PawnDiagonal, RoleAttacks};
ghost use Rattle.explorer_model.specs.Chess.{last_rank, PawnSteps, PawnDoubleSteps, PawnCaptures, CastlesTo, IsSquare};
ghost use Rattle.legal_moves.specs.Listing.{IsDestination};
ghost use Rattle.legal_moves.specs.EnemySets.{IsInfoOf};

use crate::check_info::CheckInfo;
use crate::enemy_sets::is_clear;
use explorer_model::chess::{Color, Piece, Position, Role, Side};
use explorer_model::square::{Square, rank_of};
use step_tables::{
    Bitboard, bishop_targets, black_pawn_targets, contains, king_targets, knight_targets, only,
    open_targets, queen_targets, rook_targets, white_pawn_targets,
};

/// Where the piece on a square may go.
pub fn destinations(position: &Position, info: &CheckInfo, from: Square) -> Bitboard
    requires informed { IsInfoOf position.now info.now }
    requires own { IsOfColor position.now.turn (piece_at position.now.squares from.index) }
    ensures { (m : Move) → m.from.index ≡ from.index
        → Holds result m.to.index ↔ IsDestination position.now m }
{
    let Some(piece) = position.squares[from.index as usize] else {
        return 0;
    };
    match piece.role {
        Role::Pawn => {
            pawn_advances(position, info, from.index) | pawn_captures(position, info, from.index)
        }
        Role::King => {
            attacks(position, info, piece, from.index)
                | castling(position, info, Side::Short)
                | castling(position, info, Side::Long)
        }
        Role::Knight | Role::Bishop | Role::Rook | Role::Queen => {
            attacks(position, info, piece, from.index)
        }
    }
}

/// The squares that a pawn attacks.
pub fn pawn_diagonals(color: Color, from: u8) -> Bitboard
    requires { from < 64 }
    ensures { (to : ℕ) → to < 64 → Holds result to ↔ PawnDiagonal color from to }
{
    match color {
        Color::White => white_pawn_targets(from),
        Color::Black => black_pawn_targets(from),
    }
}

/// Where a pawn may go straight ahead.
pub fn pawn_advances(position: &Position, info: &CheckInfo, from: u8) -> Bitboard
    requires informed { IsInfoOf position.now info.now }
    requires on_board { from < 64 }
    requires pawn { IsPiece position.now.turn Pawn (piece_at position.now.squares from) }
    ensures { (m : Move) → m.from.index ≡ from
        → Holds result m.to.index ↔ (PawnSteps position.now m ⊎ PawnDoubleSteps position.now m) }
{
    let next = ahead(position.turn, from);
    if contains(info.enemy_sets.occupied, next) {
        return 0;
    }
    if rank_of(from) != position.turn.pawn_rank() {
        return only(next);
    }
    let second = ahead(position.turn, next);
    if contains(info.enemy_sets.occupied, second) {
        return only(next);
    }
    only(next) | only(second)
}

/// The next square in front of a pawn.
fn ahead(color: Color, square: u8) -> u8
    requires on_board { square < 64 }
    requires inside { rank_of square ≢ last_rank color }
    ensures on_board { result < 64 }
    ensures file { file_of square ≡ file_of result }
    ensures rank { IsRankAhead color square result }
{
    match color {
        Color::White => square + 8,
        Color::Black => square - 8,
    }
}

/// Where a pawn may capture.
pub fn pawn_captures(position: &Position, info: &CheckInfo, from: u8) -> Bitboard
    requires informed { IsInfoOf position.now info.now }
    requires on_board { from < 64 }
    ensures { (m : Move) → m.from.index ≡ from
        → Holds result m.to.index ↔ PawnCaptures position.now m }
{
    pawn_diagonals(position.turn, from) & (info.enemies | en_passant_square(position))
}

/// The en passant square, if there is one.
fn en_passant_square(position: &Position) -> Bitboard
    ensures { (to : ℕ) → to < 64 → Holds result to ↔ IsSquare position.now.en_passant to }
{
    match position.en_passant {
        None => 0,
        Some(square) => only(square.index),
    }
}

/// The squares that a piece attacks, but for those of the side to move.
fn attacks(position: &Position, info: &CheckInfo, piece: Piece, from: u8) -> Bitboard
    requires informed { IsInfoOf position.now info.now }
    requires on_board { from < 64 }
    ensures { (to : ℕ) → to < 64 → Holds result to ↔
        (RoleAttacks position.now.squares piece.color piece.role from to
        × ¬ IsOfColor position.now.turn (piece_at position.now.squares to)) }
{
    // Read, so that the proof has it as one of the two colours.
    let _turn = position.turn;
    let own = info.own;
    let occupied = info.enemy_sets.occupied;
    match piece.role {
        Role::Pawn => except(pawn_diagonals(piece.color, from), own),
        Role::Knight => except(knight_targets(from), own),
        Role::Bishop => open_targets(from, except(bishop_targets(from), own), occupied),
        Role::Rook => open_targets(from, except(rook_targets(from), own), occupied),
        Role::Queen => open_targets(from, except(queen_targets(from), own), occupied),
        Role::King => except(king_targets(from), own),
    }
}

/// The squares of one set that are not in another.
fn except(bitboard: Bitboard, others: Bitboard) -> Bitboard
    ensures { (s : ℕ) → s < 64 → Holds result s ↔ (Holds bitboard s × ¬ Holds others s) }
{
    bitboard & !others
}

/// Where castling toward this side takes the king.
fn castling(position: &Position, info: &CheckInfo, side: Side) -> Bitboard
    requires { IsInfoOf position.now info.now }
    ensures { (m : Move) → m.from.index ≡ info.now.king
        → Holds result m.to.index ↔ CastlesTo side position.now m }
{
    let color = position.turn;
    if !position.rights.has(color, side) {
        return 0;
    }
    if !is_clear(
        info.enemy_sets.occupied,
        color.king_home(),
        color.rook_home(side),
    ) {
        return 0;
    }
    only(color.king_target(side))
}
