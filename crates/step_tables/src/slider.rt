//! Tables of pieces that slide.
ghost use Rattle.std.specs.Prelude.{◌≡◌, ◌↔◌, ℕ, ◌<◌, ◌≤◌, IsTrue};
ghost use Rattle.step_tables.specs.Bitboard.{Holds};
ghost use Rattle.step_tables.specs.Step.{IsAhead, IsInSight, direction_at};
ghost use Rattle.step_tables.specs.Test.{has_lines, has_sights};

use crate::bitboard::Bitboard;
use crate::cases::{crossed, each_square, files, line, lines, slider, step};
use crate::step::Step;

/// A piece that slides: its directions, and for each square the squares on the lines that leave it
/// on an empty board.
#[derive(Clone, Copy)]
pub struct Slider<const N: usize> {
    /// The directions, each as its first step.
    pub directions: [Step; N],
    /// For each square, from a1 to h8, the line in each direction.
    pub lines: &'static [[Bitboard; N]; 64],
    /// For each square, from a1 to h8, all its lines together.
    pub bitboards: &'static [Bitboard; 64],
    pub ghost few: { N ≤ 8 },
    pub ghost right_lines: { IsTrue (has_lines N directions lines.now) },
    pub ghost right_bitboards: { IsTrue (has_sights directions bitboards.now) },
}

impl<const N: usize> Slider<N> {
    /// The squares on all the lines that leave `square`.
    pub fn targets(&self, square: u8) -> Bitboard
        requires { square < 64 }
        ensures { (b : ℕ) → b < 64
            → (Holds result b ↔ IsInSight self.now.directions square b) }
    {
        self.bitboards[square as usize]
    }

    /// The squares on the line that leaves `square` in the direction of this number.
    pub fn line(&self, square: u8, direction: usize) -> Bitboard
        requires on_board { square < 64 }
        requires known { direction < N }
        ensures { (b : ℕ) → b < 64
            → (Holds result b ↔ IsAhead (direction_at self.now.directions direction) square b) }
    {
        self.lines[square as usize][direction]
    }
}

/// The lines of a rook: toward rank 8, file h, rank 1 and file a.
pub const ROOK: Slider<4> = slider!(rook: [north] [east] [south] [west]);

/// The lines of a bishop: up toward file h, down toward file h, down toward file a and up toward
/// file a.
pub const BISHOP: Slider<4> = slider!(bishop: [north east] [south east] [south west] [north west]);

/// The lines of a queen: the rook's four, then the bishop's four.
pub const QUEEN: Slider<8> = slider!(
    queen: [north] [east] [south] [west] [north east] [south east] [south west] [north west]
);
