//! Tables of pieces that leap.
ghost use Rattle.std.specs.Prelude.{◌≡◌, ◌↔◌, ℕ, ◌<◌, IsTrue};
ghost use Rattle.step_tables.specs.Bitboard.{Holds};
ghost use Rattle.step_tables.specs.Step.{IsReached};
ghost use Rattle.step_tables.specs.Test.{has_reached};

use crate::bitboard::Bitboard;
use crate::cases::{OFF_FILE_A, OFF_FILE_H, each_square, leaper, reached, step};
use crate::step::Step;

/// A piece that leaps: its steps, and for each square the squares that they reach.
pub struct Leaper<const N: usize> {
    /// The steps.
    pub steps: [Step; N],
    /// For each square, from a1 to h8, the squares that are a step away.
    pub bitboards: &'static [Bitboard; 64],
    pub ghost right: { IsTrue (has_reached steps bitboards.now) },
}

impl<const N: usize> Leaper<N> {
    /// The squares that are one of the steps away from `square`.
    pub fn targets(&self, square: u8) -> Bitboard
        requires { square < 64 }
        ensures { (b : ℕ) → b < 64 → (Holds result b ↔ IsReached self.now.steps square b) }
    {
        self.bitboards[square as usize]
    }
}

/// The steps of a knight.
pub const KNIGHT: Leaper<8> = leaper!(
    [north north east] [north east east] [south east east] [south south east]
    [south south west] [south west west] [north west west] [north north west]
);

/// The steps of a king.
pub const KING: Leaper<8> = leaper!(
    [north] [north east] [east] [south east] [south] [south west] [west] [north west]
);

/// The two squares that a white pawn attacks.
pub const WHITE_PAWN: Leaper<2> = leaper!([north east] [north west]);

/// The two squares that a black pawn attacks.
pub const BLACK_PAWN: Leaper<2> = leaper!([south east] [south west]);
