//! Which positions are valid, and the starting position.
ghost use Rattle.std.specs.Prelude.{◌≡◌, ◌<◌, ◌≤◌, ◌↔◌, IsTrue, length, count_by};
ghost use Rattle.explorer_model.specs.declared.chess.Color.TheVariants.{White, Black};
ghost use Rattle.explorer_model.specs.Board.{IsEmpty, InCheck};
ghost use Rattle.explorer_model.specs.Chess.{start, start_squares, back_rank, is_king_of, is_of_color, HasPieces, IsPawn, HasPawnsInside};
ghost use Rattle.explorer_model.specs.Chess.{RightStands, RightsStand, HasCrossed, EnPassantStands, IsValid};

use crate::enemy_sets::EnemySets;
use crate::piece_sets::PieceSets;
use explorer_model::chess::{
    Color, Piece, Position, Rights, Role, Side, is_of_color, is_piece, piece_at, piece_of,
};
use explorer_model::square::rank_of;
use step_tables::{lowest, without};

/// Is this a valid position?
pub fn is_valid(position: &Position) -> bool
    ensures { IsTrue result ↔ IsValid position.now }
{
    if !has_valid_pieces(&position.squares) {
        return false;
    }
    if in_check(&position.squares, position.turn.opponent()) {
        return false;
    }
    rights_stand(position) && en_passant_stands(position)
}

/// Is the king of this colour attacked, or one of its kings?
pub fn in_check(squares: &[Option<Piece>; 64], color: Color) -> bool
    ensures { IsTrue result ↔ InCheck squares.now color }
{
    let sets = PieceSets::of(squares);
    let enemy = color.opponent();
    let enemy_sets = EnemySets::of(&sets, enemy);
    let mut rest = sets.of_color(color) & sets.kings;
    while rest != 0 {
        let king = lowest(rest);
        if enemy_sets.is_attacked(enemy, king) {
            return true;
        }
        rest = without(rest, king);
    }
    false
}

/// Has this colour one king, and at most 16 pieces?
pub fn has_pieces(squares: &[Option<Piece>; 64], color: Color) -> bool
    ensures { IsTrue result ↔ HasPieces squares.now color }
{
    count_kings(squares, color) == 1 && count_pieces(squares, color) <= 16
}

/// Is no pawn on rank 1 or 8?
pub fn has_pawns_inside(squares: &[Option<Piece>; 64]) -> bool
    ensures { IsTrue result ↔ HasPawnsInside squares.now }
{
    for s in 0..64u8 {
        if is_pawn(piece_at(squares, s)) && (rank_of(s) == 0 || rank_of(s) == 7) {
            return false;
        }
    }
    true
}

/// Has a pawn just crossed this square, where `turn` is to move now?
pub fn has_crossed(squares: &[Option<Piece>; 64], turn: Color, s: u8) -> bool
    ensures { IsTrue result ↔ HasCrossed squares.now turn s }
{
    match turn {
        Color::White => {
            rank_of(s) == 5
                && is_empty(piece_at(squares, s))
                && is_empty(piece_at(squares, s + 8))
                && is_piece(Color::Black, Role::Pawn, piece_at(squares, s - 8))
        }
        Color::Black => {
            rank_of(s) == 2
                && is_empty(piece_at(squares, s))
                && is_empty(piece_at(squares, s - 8))
                && is_piece(Color::White, Role::Pawn, piece_at(squares, s + 8))
        }
    }
}

/// The starting position (FIDE 2.3), with all four rights.
pub fn start() -> Position
    ensures { result ≡ start }
{
    let rights = Rights {
        white_short: true,
        white_long: true,
        black_short: true,
        black_long: true,
    };
    Position {
        squares: start_squares(),
        turn: Color::White,
        rights,
        en_passant: None,
    }
}

/// Are the pieces those of a valid position, and no pawn where none can be?
fn has_valid_pieces(squares: &[Option<Piece>; 64]) -> bool
    ensures { IsTrue result ↔ ((length squares.now ≡ 64)
        × HasPieces squares.now White × HasPieces squares.now Black × HasPawnsInside squares.now) }
{
    if squares.len() != 64 {
        return false;
    }
    has_pieces(squares, Color::White)
        && has_pieces(squares, Color::Black)
        && has_pawns_inside(squares)
}

fn rights_stand(position: &Position) -> bool
    ensures { IsTrue result ↔ RightsStand position.now }
{
    rights_of_stand(position, Color::White) && rights_of_stand(position, Color::Black)
}

fn rights_of_stand(position: &Position, color: Color) -> bool
    ensures { IsTrue result ↔ ((side : Side) → RightStands position.now color side) }
{
    right_stands(position, color, Side::Short) && right_stands(position, color, Side::Long)
}

/// Does this right, if it is there, stand with its king and rook on their first squares?
fn right_stands(position: &Position, color: Color, side: Side) -> bool
    ensures { IsTrue result ↔ RightStands position.now color side }
{
    if !position.rights.has(color, side) {
        return true;
    }
    let king = piece_at(&position.squares, color.king_home());
    let rook = piece_at(&position.squares, color.rook_home(side));
    is_piece(color, Role::King, king) && is_piece(color, Role::Rook, rook)
}

fn en_passant_stands(position: &Position) -> bool
    ensures { IsTrue result ↔ EnPassantStands position.now }
{
    match position.en_passant {
        None => true,
        Some(square) => has_crossed(&position.squares, position.turn, square.index),
    }
}

fn count_kings(squares: &[Option<Piece>; 64], color: Color) -> usize
    ensures { result ≡ count_by (is_king_of color) squares.now }
{
    squares
        .iter()
        .filter(|occupant| is_king_of(color, **occupant))
        .count()
}

fn is_king_of(color: Color, occupant: Option<Piece>) -> bool
    ensures { result ≡ is_king_of color occupant }
{
    match occupant {
        None => false,
        Some(piece) => piece.color == color && piece.role == Role::King,
    }
}

fn count_pieces(squares: &[Option<Piece>; 64], color: Color) -> usize
    ensures { result ≡ count_by (is_of_color color) squares.now }
{
    squares
        .iter()
        .filter(|occupant| is_of_color(color, **occupant))
        .count()
}

fn is_pawn(occupant: Option<Piece>) -> bool
    ensures { IsTrue result ↔ IsPawn occupant }
{
    match occupant {
        None => false,
        Some(piece) => piece.role == Role::Pawn,
    }
}

fn is_empty(occupant: Option<Piece>) -> bool
    ensures { IsTrue result ↔ IsEmpty occupant }
{
    match occupant {
        None => true,
        Some(_) => false,
    }
}

fn start_squares() -> [Option<Piece>; 64]
    ensures { result ≡ start_squares }
{
    let mut squares = [None; 64];
    squares[0..8].copy_from_slice(&back_rank(Color::White));
    squares[8..16].fill(piece_of(Color::White, Role::Pawn));
    squares[48..56].fill(piece_of(Color::Black, Role::Pawn));
    squares[56..64].copy_from_slice(&back_rank(Color::Black));
    squares
}

/// The pieces of a side's first rank, from file a on.
fn back_rank(color: Color) -> [Option<Piece>; 8]
    ensures { result ≡ back_rank color }
{
    let piece = |role| Some(Piece { color, role });
    [
        piece(Role::Rook),
        piece(Role::Knight),
        piece(Role::Bishop),
        piece(Role::Queen),
        piece(Role::King),
        piece(Role::Bishop),
        piece(Role::Knight),
        piece(Role::Rook),
    ]
}
