//! Where the pieces stand, as sets of squares, and which squares they attack.
ghost use Rattle.std.specs.Prelude.{◌≡◌, ◌<◌, ◌↔◌, ◌⊎◌, ℕ, List, Option, IsTrue};
ghost use Rattle.step_tables.specs.Bitboard.{Holds};
ghost use Rattle.explorer_model.specs.Board.{IsBetween, PawnDiagonal, KnightStep, KingStep, RookLine, BishopLine};
ghost use Rattle.explorer_model.specs.declared.chess.Piece.{Piece};
ghost use Rattle.legal_moves.specs.EnemySets.{Describes, IsClear, HasSuch, LeapsTo, SlidesTo, IsEmptied, IsFilled};
ghost use Rattle.legal_moves.specs.PieceSets.{sets_in};

use crate::piece_sets::PieceSets;
use explorer_model::chess::Color;
use step_tables::{
    Bitboard, between, bishop_targets, black_pawn_targets, is_disjoint, king_targets,
    knight_targets, lowest, only, rook_targets, white_pawn_targets, without,
};

/// All occupied squares, and those on which pieces of one side, the enemy, stand, by the way they
/// go.
#[derive(Clone, Copy)]
pub struct EnemySets {
    pub occupied: Bitboard,
    pub pawns: Bitboard,
    pub knights: Bitboard,
    /// Bishops and queens.
    pub diagonals: Bitboard,
    /// Rooks and queens.
    pub straights: Bitboard,
    pub king: Bitboard,
}

impl EnemySets {
    /// The bitboards of a board with these pieces.
    pub fn of(sets: &PieceSets, enemy: Color) -> EnemySets
        ensures { (squares : List (Option Piece)) → sets.now ≡ sets_in squares
            → Describes squares enemy result }
    {
        let theirs = sets.of_color(enemy);
        EnemySets {
            occupied: sets.white | sets.black,
            pawns: theirs & sets.pawns,
            knights: theirs & sets.knights,
            diagonals: theirs & (sets.bishops | sets.queens),
            straights: theirs & (sets.rooks | sets.queens),
            king: theirs & sets.kings,
        }
    }

    fn leaps_to(&self, enemy: Color, square: u8) -> bool
        requires { square < 64 }
        ensures { IsTrue result ↔ LeapsTo self.now enemy square }
    {
        pawn_attacks(self.pawns, enemy, square)
            || knight_attacks(self.knights, square)
            || king_attacks(self.king, square)
    }

    #[inline(always)]
    fn slides_to(&self, square: u8) -> bool
        requires { square < 64 }
        ensures { IsTrue result ↔ SlidesTo self.now square }
    {
        straight_attacks(self.occupied, self.straights, square)
            || diagonal_attacks(self.occupied, self.diagonals, square)
    }

    /// Does the enemy attack the square?
    #[inline(always)]
    pub fn is_attacked(&self, enemy: Color, square: u8) -> bool
        requires { square < 64 }
        ensures { IsTrue result ↔ (LeapsTo self.now enemy square ⊎ SlidesTo self.now square) }
    {
        self.leaps_to(enemy, square) || self.slides_to(square)
    }

    /// The bitboards where nothing stands on the square.
    pub fn clear_square(&self, square: u8) -> EnemySets
        requires { square < 64 }
        ensures { IsEmptied self.now square result }
    {
        EnemySets {
            occupied: without(self.occupied, square),
            pawns: without(self.pawns, square),
            knights: without(self.knights, square),
            diagonals: without(self.diagonals, square),
            straights: without(self.straights, square),
            king: without(self.king, square),
        }
    }

    /// The bitboards where a piece that is no enemy stands on the square.
    pub fn fill_square(&self, square: u8) -> EnemySets
        requires { square < 64 }
        ensures { IsFilled self.now square result }
    {
        EnemySets {
            occupied: self.occupied | only(square),
            ..self.clear_square(square)
        }
    }
}

/// Is no square between two squares in the set?
pub fn is_clear(occupied: Bitboard, a: u8, b: u8) -> bool
    requires a_on_board { a < 64 }
    requires b_on_board { b < 64 }
    ensures { IsTrue result ↔ IsClear occupied a b }
{
    is_disjoint(between(a, b), occupied)
}

fn pawn_attacks(pawns: Bitboard, color: Color, square: u8) -> bool
    requires { square < 64 }
    ensures { IsTrue result ↔ HasSuch pawns (λ a. PawnDiagonal color a square) }
{
    // A pawn attacks a square exactly where a pawn of the other colour there would attack it.
    match color {
        Color::White => meet(pawns, black_pawn_targets(square)),
        Color::Black => meet(pawns, white_pawn_targets(square)),
    }
}

/// Do two sets have a square in common?
fn meet(bitboard: Bitboard, other: Bitboard) -> bool
    ensures { IsTrue result ↔ HasSuch bitboard (λ a. Holds other a) }
{
    bitboard & other != 0
}

fn knight_attacks(knights: Bitboard, square: u8) -> bool
    requires { square < 64 }
    ensures { IsTrue result ↔ HasSuch knights (λ a. KnightStep a square) }
{
    meet(knights, knight_targets(square))
}

fn king_attacks(king: Bitboard, square: u8) -> bool
    requires { square < 64 }
    ensures { IsTrue result ↔ HasSuch king (λ a. KingStep a square) }
{
    meet(king, king_targets(square))
}

fn straight_attacks(occupied: Bitboard, straights: Bitboard, square: u8) -> bool
    requires { square < 64 }
    ensures { IsTrue result
        ↔ HasSuch straights (λ a. RookLine a square × IsClear occupied a square) }
{
    is_one_clear(occupied, straights & rook_targets(square), square)
}

/// Is the way from one of these squares clear?
fn is_one_clear(occupied: Bitboard, sliders: Bitboard, square: u8) -> bool
    requires { square < 64 }
    ensures { IsTrue result ↔ HasSuch sliders (λ a. IsClear occupied a square) }
{
    let mut rest = sliders;
    while rest != 0 {
        let slider = lowest(rest);
        if is_clear(occupied, slider, square) {
            return true;
        }
        rest = without(rest, slider);
    }
    false
}

fn diagonal_attacks(occupied: Bitboard, diagonals: Bitboard, square: u8) -> bool
    requires { square < 64 }
    ensures { IsTrue result
        ↔ HasSuch diagonals (λ a. BishopLine a square × IsClear occupied a square) }
{
    is_one_clear(occupied, diagonals & bishop_targets(square), square)
}
