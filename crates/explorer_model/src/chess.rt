//! Pieces, boards, positions and moves (FIDE).
ghost use Rattle.std.specs.Prelude.{◌≡◌, ◌<◌, ◌↔◌, IsTrue};
ghost use Rattle.std.proofs.Common.{rules};
ghost use Rattle.std.specs.Cmp.{partial_order_from_own_ties};
ghost use Rattle.std.specs.Cmp.Rules.{comparing};
ghost use Rattle.std.specs.Ordering.{on, nat_cmp, as_partial_cmp};
ghost use Rattle.explorer_model.specs.Board.{opponent, piece_of, piece_at, IsOfColor, IsPiece};
ghost use Rattle.explorer_model.specs.Chess.{home_rank, pawn_rank, last_rank, king_home, rook_home, king_target, has_right};
ghost use Rattle.explorer_model.specs.Chess.{is_of_color, takes_en_passant, is_castling, castling_side, captured_en_passant, arriving};

use crate::square::Square;
use std::cmp::Ordering;

/// The colour of a side and of its pieces.
#[derive(Clone, Copy, Debug, PartialEq, Eq)]
pub enum Color {
    White,
    Black,
}

impl Color {
    /// The other side.
    pub fn opponent(self) -> Color
        ensures { result ≡ opponent self }
    {
        match self {
            Color::White => Color::Black,
            Color::Black => Color::White,
        }
    }

    /// The rank of the king and the rooks at the start, counted from 0 as all ranks are.
    pub fn home_rank(self) -> u8
        ensures { result ≡ home_rank self }
    {
        match self {
            Color::White => 0,
            Color::Black => 7,
        }
    }

    /// The rank of the pawns at the start.
    pub fn pawn_rank(self) -> u8
        ensures { result ≡ pawn_rank self }
    {
        match self {
            Color::White => 1,
            Color::Black => 6,
        }
    }

    /// The rank on which pawns are promoted.
    pub fn last_rank(self) -> u8
        ensures { result ≡ last_rank self }
    {
        match self {
            Color::White => 7,
            Color::Black => 0,
        }
    }

    /// The index of the king's first square.
    pub fn king_home(self) -> u8
        ensures { result ≡ king_home self }
    {
        8 * self.home_rank() + 4
    }

    /// The index of a rook's first square.
    pub fn rook_home(self, side: Side) -> u8
        ensures { result ≡ rook_home self side }
    {
        match side {
            Side::Short => 8 * self.home_rank() + 7,
            Side::Long => 8 * self.home_rank(),
        }
    }

    /// The index of the square to which castling takes the king (FIDE 3.8.2).
    pub fn king_target(self, side: Side) -> u8
        ensures { result ≡ king_target self side }
    {
        match side {
            Side::Short => 8 * self.home_rank() + 6,
            Side::Long => 8 * self.home_rank() + 2,
        }
    }
}

/// What a piece is (FIDE 2.2).
#[derive(Clone, Copy, Debug, PartialEq, Eq)]
pub enum Role {
    Pawn,
    Knight,
    Bishop,
    Rook,
    Queen,
    King,
}

impl Role {
    ghost use Rattle.explorer_model.specs.Order.{role_index};

    /// The place among the roles, 0 to 5.
    pub fn index(self) -> u8
        ensures { result ≡ role_index self }
    {
        match self {
            Role::Pawn => 0,
            Role::Knight => 1,
            Role::Bishop => 2,
            Role::Rook => 3,
            Role::Queen => 4,
            Role::King => 5,
        }
    }
}

impl Ord for Role {
    ghost use Rattle.explorer_model.specs.Order.{role_index};

    ghost cmp = { on role_index nat_cmp };

    ghost total = { Prim.search (comparing, rules) };

    ghost matches_partial_cmp = { Prim.search (comparing, rules) };

    ghost matches_eq = { Prim.search (comparing, rules) };

    fn cmp(&self, other: &Role) -> Ordering {
        self.index().cmp(&other.index())
    }
}

impl PartialOrd for Role {
    ghost use Rattle.explorer_model.specs.Order.{role_index};

    ghost partial_cmp = { as_partial_cmp (on role_index nat_cmp) };

    ghost laws = { partial_order_from_own_ties (Prim.search (comparing, rules))
        (Prim.search (comparing, rules)) };

    fn partial_cmp(&self, other: &Role) -> Option<Ordering> {
        Some(self.cmp(other))
    }
}

/// A piece of one side.
#[derive(Clone, Copy, Debug, PartialEq, Eq)]
pub struct Piece {
    pub color: Color,
    pub role: Role,
}

/// The two ways to castle: `Short` is toward file h, `Long` toward file a.
#[derive(Clone, Copy, Debug, PartialEq, Eq)]
pub enum Side {
    Short,
    Long,
}

/// The castling that is still allowed by what moved before (FIDE 3.8.2.1): `short` is toward
/// file h, `long` toward file a.
#[derive(Clone, Copy, Debug, PartialEq, Eq)]
pub struct Rights {
    pub white_short: bool,
    pub white_long: bool,
    pub black_short: bool,
    pub black_long: bool,
}

impl Rights {
    /// Whether the side may still castle that way.
    pub fn has(self, color: Color, side: Side) -> bool
        ensures { result ≡ has_right self color side }
    {
        match (color, side) {
            (Color::White, Side::Short) => self.white_short,
            (Color::White, Side::Long) => self.white_long,
            (Color::Black, Side::Short) => self.black_short,
            (Color::Black, Side::Long) => self.black_long,
        }
    }
}

/// Where the pieces stand, who is to move, and what earlier moves leave open. `en_passant` is the
/// square that a pawn crossed in the move before. Not every value is a valid position.
#[derive(Clone, Copy, Debug)]
pub struct Position {
    pub squares: [Option<Piece>; 64],
    pub turn: Color,
    pub rights: Rights,
    pub en_passant: Option<Square>,
}

impl Position {
    /// What stands on the square.
    pub fn piece_at(&self, square: Square) -> Option<Piece>
        ensures { result ≡ piece_at self.now.squares square.index }
    {
        piece_at(&self.squares, square.index)
    }

    /// Does a pawn go to the en passant square? The question is meant for a legal move.
    pub fn takes_en_passant(&self, m: Move) -> bool
        ensures { result ≡ takes_en_passant self.now m }
    {
        match (self.piece_at(m.from), self.en_passant) {
            (Some(piece), Some(square)) => piece.role == Role::Pawn && square.index == m.to.index,
            _ => false,
        }
    }

    /// Does the king go two squares? The question is meant for a legal move.
    pub fn is_castling(&self, m: Move) -> bool
        ensures { result ≡ is_castling self.now m }
    {
        match self.piece_at(m.from) {
            Some(piece) => piece.role == Role::King && m.from.file().abs_diff(m.to.file()) == 2,
            None => false,
        }
    }
}

/// A move as its two squares; castling is the king's move of two squares.
#[derive(Clone, Copy, Debug, Default, PartialEq, Eq, PartialOrd, Ord)]
pub struct Move {
    pub from: Square,
    pub to: Square,
    pub promotion: Option<Role>,
}

impl Move {
    /// The side toward which castling goes, if the move is castling.
    pub fn castling_side(self) -> Side
        ensures { result ≡ castling_side self }
    {
        if self.to.file() == 6 {
            Side::Short
        } else {
            Side::Long
        }
    }

    /// The index of the square of the pawn that the move takes, if it takes one en passant
    /// (FIDE 3.7.3.1).
    pub fn captured_en_passant(self) -> u8
        ensures { result ≡ captured_en_passant self }
    {
        8 * self.from.rank() + self.to.file()
    }
}

/// The piece, as it stands on a square.
pub fn piece_of(color: Color, role: Role) -> Option<Piece>
    ensures { result ≡ piece_of color role }
{
    Some(Piece { color, role })
}

/// What stands on the square with this index.
pub fn piece_at(squares: &[Option<Piece>; 64], square: u8) -> Option<Piece>
    requires { square < 64 }
    ensures { result ≡ piece_at squares.now square }
{
    squares[square as usize]
}

/// Is it a piece of this colour?
pub fn is_of_color(color: Color, occupant: Option<Piece>) -> bool
    ensures value { result ≡ is_of_color color occupant }
    ensures fact { IsTrue result ↔ IsOfColor color occupant }
{
    match occupant {
        None => false,
        Some(piece) => piece.color == color,
    }
}

/// Is it a piece of this colour and role?
pub fn is_piece(color: Color, role: Role, occupant: Option<Piece>) -> bool
    ensures { IsTrue result ↔ IsPiece color role occupant }
{
    match occupant {
        None => false,
        Some(piece) => piece.color == color && piece.role == role,
    }
}

/// What arrives where a piece goes: the piece itself, or what the pawn becomes.
pub fn arriving_piece(occupant: Option<Piece>, promotion: Option<Role>) -> Option<Piece>
    ensures { result ≡ arriving occupant promotion }
{
    match (occupant, promotion) {
        (None, _) => None,
        (Some(piece), None) => Some(piece),
        (Some(piece), Some(role)) => piece_of(piece.color, role),
    }
}
