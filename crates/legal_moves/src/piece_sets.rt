//! Where the pieces of a board stand, as sets of squares that are kept while moves are played.
ghost use Rattle.std.specs.Prelude.{◌≡◌, ◌<◌, ◌↔◌, ℕ, List, Option, IsTrue};
ghost use Rattle.step_tables.specs.Bitboard.{Holds};
ghost use Rattle.explorer_model.specs.declared.chess.Piece.{Piece};
ghost use Rattle.explorer_model.specs.Board.{IsOfColor};
ghost use Rattle.explorer_model.specs.Chess.{is_of_color};
ghost use Rattle.explorer_model.specs.San.{IsRole};
ghost use Rattle.legal_moves.specs.EnemySets.{IsBitboardOf};
ghost use Rattle.legal_moves.specs.PieceSets.{is_of, set_of, sets_in, IsSetWritten, AreWritten, IsSetCarried, AreCarried};

use explorer_model::chess::{Color, Piece, Role, is_of_color};
use step_tables::{Bitboard, contains, only, without};

/// The squares of the pieces of each colour, and of each role.
#[derive(Clone, Copy, Debug)]
pub struct PieceSets {
    pub white: Bitboard,
    pub black: Bitboard,
    pub pawns: Bitboard,
    pub knights: Bitboard,
    pub bishops: Bitboard,
    pub rooks: Bitboard,
    pub queens: Bitboard,
    pub kings: Bitboard,
}

impl PieceSets {
    /// The sets of what stands on these squares.
    pub fn of(squares: &[Option<Piece>; 64]) -> PieceSets
        ensures { result ≡ sets_in squares.now }
    {
        PieceSets {
            white: squares_of_color(squares, Color::White),
            black: squares_of_color(squares, Color::Black),
            pawns: squares_of_role(squares, Role::Pawn),
            knights: squares_of_role(squares, Role::Knight),
            bishops: squares_of_role(squares, Role::Bishop),
            rooks: squares_of_role(squares, Role::Rook),
            queens: squares_of_role(squares, Role::Queen),
            kings: squares_of_role(squares, Role::King),
        }
    }

    /// The squares of the pieces of this colour.
    pub fn of_color(&self, color: Color) -> Bitboard
        ensures { (squares : List (Option Piece)) → self.now ≡ sets_in squares
            → IsBitboardOf (IsOfColor color) squares result }
    {
        match color {
            Color::White => self.white,
            Color::Black => self.black,
        }
    }

    /// The squares of the pieces of this role.
    pub fn of_role(&self, role: Role) -> Bitboard
        ensures { (squares : List (Option Piece)) → self.now ≡ sets_in squares
            → IsBitboardOf (IsRole role) squares result }
    {
        match role {
            Role::Pawn => self.pawns,
            Role::Knight => self.knights,
            Role::Bishop => self.bishops,
            Role::Rook => self.rooks,
            Role::Queen => self.queens,
            Role::King => self.kings,
        }
    }

    /// Puts a piece, or none, on a square.
    pub fn write(&mut self, square: u8, occupant: Option<Piece>)
        requires { square < 64 }
        ensures { AreWritten self.old square occupant self.new }
    {
        self.white = write_square(self.white, square, is_of_color(Color::White, occupant));
        self.black = write_square(self.black, square, is_of_color(Color::Black, occupant));
        self.pawns = write_square(self.pawns, square, is_of(Role::Pawn, occupant));
        self.knights = write_square(self.knights, square, is_of(Role::Knight, occupant));
        self.bishops = write_square(self.bishops, square, is_of(Role::Bishop, occupant));
        self.rooks = write_square(self.rooks, square, is_of(Role::Rook, occupant));
        self.queens = write_square(self.queens, square, is_of(Role::Queen, occupant));
        self.kings = write_square(self.kings, square, is_of(Role::King, occupant));
    }

    /// Puts what stands on a square onto another one.
    pub fn carry(&mut self, from: u8, to: u8)
        requires from_on_board { from < 64 }
        requires to_on_board { to < 64 }
        ensures { AreCarried self.old from to self.new }
    {
        self.white = carry_square(self.white, from, to);
        self.black = carry_square(self.black, from, to);
        self.pawns = carry_square(self.pawns, from, to);
        self.knights = carry_square(self.knights, from, to);
        self.bishops = carry_square(self.bishops, from, to);
        self.rooks = carry_square(self.rooks, from, to);
        self.queens = carry_square(self.queens, from, to);
        self.kings = carry_square(self.kings, from, to);
    }
}

fn squares_of_color(squares: &[Option<Piece>; 64], color: Color) -> Bitboard
    ensures { result ≡ set_of (is_of_color color) squares.now }
{
    let mut bitboard = 0;
    for s in 0..64u8 {
        if is_of_color(color, squares[s as usize]) {
            bitboard |= only(s);
        }
    }
    bitboard
}

fn squares_of_role(squares: &[Option<Piece>; 64], role: Role) -> Bitboard
    ensures { result ≡ set_of (is_of role) squares.now }
{
    let mut bitboard = 0;
    for s in 0..64u8 {
        if is_of(role, squares[s as usize]) {
            bitboard |= only(s);
        }
    }
    bitboard
}

fn is_of(role: Role, occupant: Option<Piece>) -> bool
    ensures { result ≡ is_of role occupant }
{
    match occupant {
        None => false,
        Some(piece) => piece.role == role,
    }
}

/// The set with the square or without it.
fn write_square(bitboard: Bitboard, square: u8, there: bool) -> Bitboard
    requires { square < 64 }
    ensures { IsSetWritten bitboard square there result }
{
    without(bitboard, square) | only_if(there, square)
}

/// The square alone, or none.
fn only_if(there: bool, square: u8) -> Bitboard
    requires { square < 64 }
    ensures { (b : ℕ) → b < 64 → Holds result b ↔ ((b ≡ square) × IsTrue there) }
{
    u64::from(there) << square
}

/// The set once what stands on a square is put onto another one.
fn carry_square(bitboard: Bitboard, from: u8, to: u8) -> Bitboard
    requires from_on_board { from < 64 }
    requires to_on_board { to < 64 }
    ensures { IsSetCarried bitboard from to result }
{
    let there = contains(bitboard, from);
    write_square(write_square(bitboard, from, false), to, there)
}
