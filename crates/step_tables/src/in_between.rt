//! Tables of the squares between two.
ghost use Rattle.std.specs.Prelude.{◌≡◌, ◌↔◌, ℕ, ◌<◌, ◌≤◌};
ghost use Rattle.step_tables.specs.Bitboard.{Holds};
ghost use Rattle.step_tables.specs.Squares.{IsBetween, IsUnblocked};

use crate::bitboard::{Bitboard, is_disjoint, lowest, only, without};
use crate::cases::passed;

/// The squares strictly between a1 and a square, as if the board went on to the left of file a: by
/// how many ranks up that square lies, and by how many files to the right, from seven files to the
/// left.
static BETWEEN: [[Bitboard; 15]; 8] = [
    [
        0, 0, 0, 0, 0, 0, 0, 0, 0, 0x02, 0x06, 0x0E, 0x1E, 0x3E, 0x7E,
    ],
    passed!(1: . . . . . . w n e . . . . . .),
    passed!(2: . . . . . w . n . e . . . . .),
    passed!(3: . . . . w . . n . . e . . . .),
    passed!(4: . . . w . . . n . . . e . . .),
    passed!(5: . . w . . . . n . . . . e . .),
    passed!(6: . w . . . . . n . . . . . e .),
    passed!(7: w . . . . . . n . . . . . . e),
];

/// The squares strictly between two squares of one rank, file or diagonal; none where they share no
/// line.
pub fn between(a: u8, b: u8) -> Bitboard
    requires a_on_board { a < 64 }
    requires b_on_board { b < 64 }
    ensures { (s : ℕ) → s < 64 → (Holds result s ↔ IsBetween a s b) }
{
    if a < b {
        between_ascending(a, b)
    } else {
        between_ascending(b, a)
    }
}

/// The squares of a set that are not cut off from `square`: no occupied square lies strictly
/// between. Those of a slider's targets are the squares that it attacks (FIDE 3.5).
pub fn open_targets(square: u8, targets: Bitboard, occupied: Bitboard) -> Bitboard
    requires { square < 64 }
    ensures { (b : ℕ) → b < 64
        → (Holds result b ↔ (Holds targets b × IsUnblocked occupied square b)) }
{
    let mut seen = 0;
    let mut rest = targets;
    while rest != 0 {
        let target = lowest(rest);
        rest = without(rest, target);
        if is_disjoint(between(square, target), occupied) {
            seen |= only(target);
        }
    }
    seen
}

fn between_ascending(low: u8, high: u8) -> Bitboard
    requires in_order { low ≤ high }
    requires on_board { high < 64 }
    ensures { (s : ℕ) → s < 64 → (Holds result s ↔ IsBetween low s high) }
{
    let ranks = high / 8 - low / 8;
    let files = 7 + high % 8 - low % 8;
    BETWEEN[ranks as usize][files as usize] << low
}
