//! Playing a move: what leaves, what goes and what arrives.
ghost use Rattle.std.specs.Prelude.{◌≡◌, ◌<◌, None, IsTrue, length, slice_set};
ghost use Rattle.explorer_model.specs.Board.{piece_at};
ghost use Rattle.explorer_model.specs.Chess.{squares_after, after, is_double_step, keeps_right, rights_after, halfway_square, en_passant_after};
ghost use Rattle.legal_moves.specs.PieceSets.{IsKept, IsPlain, is_home, sets_in};

use crate::piece_sets::PieceSets;
use explorer_model::chess::{
    Color, Move, Piece, Position, Rights, Role, Side, arriving_piece, piece_of,
};
use explorer_model::square::{Square, halfway};

/// Plays a move in place.
#[inline(always)]
pub fn play_on(position: &mut Position, sets: &mut PieceSets, m: Move)
    requires { IsKept position.old sets.old }
    ensures position { position.new ≡ after position.old m }
    ensures told { sets.new ≡ sets_in position.new.squares }
{
    let turn = position.turn;
    let rights = rights_after(position, m);
    let en_passant = en_passant_after(position, m);
    move_pieces(position, sets, m);
    position.turn = turn.opponent();
    position.rights = rights;
    position.en_passant = en_passant;
}

/// Moves the pieces: most moves only put one onto another square.
fn move_pieces(position: &mut Position, sets: &mut PieceSets, m: Move)
    requires { IsKept position.old sets.old }
    ensures squares { position.new.squares ≡ squares_after position.old m }
    ensures told { sets.new ≡ sets_in position.new.squares }
{
    if is_plain(position, m) {
        return carry(&mut position.squares, sets, m.from.index, m.to.index);
    }
    write_pieces(position, sets, m);
}

/// Is the move no castling, no capture en passant and no promotion?
fn is_plain(position: &Position, m: Move) -> bool
    ensures { IsTrue result → IsPlain position.now m }
{
    if position.takes_en_passant(m) || position.is_castling(m) {
        return false;
    }
    m.promotion.is_none()
}

/// Moves the pieces of any move, in at most four writes: a rook that castles goes first, or a pawn
/// that is taken en passant.
fn write_pieces(position: &mut Position, sets: &mut PieceSets, m: Move)
    requires { IsKept position.old sets.old }
    ensures squares { position.new.squares ≡ squares_after position.old m }
    ensures told { sets.new ≡ sets_in position.new.squares }
{
    let (from, to) = (m.from.index, m.to.index);
    let taking = position.takes_en_passant(m);
    let castles = position.is_castling(m);
    let turn = position.turn;
    let arrives = arriving_piece(position.squares[from as usize], m.promotion);
    let squares = &mut position.squares;
    if taking {
        write(squares, sets, m.captured_en_passant(), None);
    } else if castles {
        write(squares, sets, halfway(from, to), piece_of(turn, Role::Rook));
        write(squares, sets, turn.rook_home(m.castling_side()), None);
    }
    write(squares, sets, from, None);
    write(squares, sets, to, arrives);
}

/// Puts a piece, or none, on a square.
fn write(
    squares: &mut [Option<Piece>; 64],
    sets: &mut PieceSets,
    square: u8,
    occupant: Option<Piece>,
)
    requires on_board { square < 64 }
    requires whole { length squares.old ≡ 64 }
    requires told { sets.old ≡ sets_in squares.old }
    ensures squares { squares.new ≡ slice_set squares.old square occupant }
    ensures told { sets.new ≡ sets_in squares.new }
{
    sets.write(square, occupant);
    squares[square as usize] = occupant;
}

/// Puts what stands on a square onto another one.
fn carry(squares: &mut [Option<Piece>; 64], sets: &mut PieceSets, from: u8, to: u8)
    requires from_on_board { from < 64 }
    requires to_on_board { to < 64 }
    requires whole { length squares.old ≡ 64 }
    requires told { sets.old ≡ sets_in squares.old }
    ensures squares { squares.new
        ≡ slice_set (slice_set squares.old from None) to (piece_at squares.old from) }
    ensures told { sets.new ≡ sets_in squares.new }
{
    let occupant = squares[from as usize];
    sets.carry(from, to);
    squares[from as usize] = None;
    squares[to as usize] = occupant;
}

/// The rights that are left after a move.
fn rights_after(position: &Position, m: Move) -> Rights
    ensures { result ≡ rights_after position.now m }
{
    if !is_home(m.from.index) && !is_home(m.to.index) {
        return position.rights;
    }
    Rights {
        white_short: keeps_right(position, m, Color::White, Side::Short),
        white_long: keeps_right(position, m, Color::White, Side::Long),
        black_short: keeps_right(position, m, Color::Black, Side::Short),
        black_long: keeps_right(position, m, Color::Black, Side::Long),
    }
}

/// Does a king or a rook that may castle stand on the square at first?
fn is_home(square: u8) -> bool
    ensures { result ≡ is_home square }
{
    matches!(square, 0 | 4 | 7 | 56 | 60 | 63)
}

/// The square that a pawn crosses, if the move is a pawn's step of two.
fn en_passant_after(position: &Position, m: Move) -> Option<Square>
    ensures { result ≡ en_passant_after position.now m }
{
    if is_double_step(position, m) {
        Some(halfway_square(m.from, m.to))
    } else {
        None
    }
}

fn keeps_right(position: &Position, m: Move, color: Color, side: Side) -> bool
    ensures { result ≡ keeps_right position.now m color side }
{
    position.rights.has(color, side)
        && m.from.index != color.king_home()
        && m.from.index != color.rook_home(side)
        && m.to.index != color.rook_home(side)
}

fn is_double_step(position: &Position, m: Move) -> bool
    ensures { result ≡ is_double_step position.now m }
{
    match position.piece_at(m.from) {
        Some(piece) => piece.role == Role::Pawn && m.from.rank().abs_diff(m.to.rank()) == 2,
        None => false,
    }
}

fn halfway_square(a: Square, b: Square) -> Square
    ensures { result ≡ halfway_square a b }
{
    Square {
        index: halfway(a.index, b.index),
    }
}
