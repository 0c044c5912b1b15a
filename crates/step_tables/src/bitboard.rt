//! Bitboards as sets of squares: bit `b` stands for square `b`.

ghost use Rattle.std.specs.Prelude.{◌≡◌, ◌≢◌, ◌↔◌, ℕ, ◌<◌, IsTrue};
ghost use Rattle.std.specs.Iterator.{YieldsFirst, item_count};
ghost use Rattle.step_tables.specs.Bitboard.{Holds, squares_of};

/// A set of squares.
pub type Bitboard = u64;

/// The squares of a set, from the lowest to the highest.
#[derive(Clone, Copy)]
pub struct Squares {
    /// The squares that are left.
    pub bitboard: Bitboard,
}

impl Squares {
    /// The squares of this set.
    pub fn of(bitboard: Bitboard) -> Self
        ensures { result.bitboard ≡ bitboard }
    {
        Squares { bitboard }
    }
}

impl Iterator for Squares {
    type Item = u8;

    ghost next_gives = { YieldsFirst (λ s. squares_of s.bitboard) };

    ghost remaining = { item_count (λ s. squares_of s.bitboard) };

    fn next(&mut self) -> Option<u8> {
        if self.bitboard == 0 {
            return None;
        }
        let square = lowest(self.bitboard);
        self.bitboard = without(self.bitboard, square);
        Some(square)
    }
}

/// The set of one square.
pub fn only(square: u8) -> Bitboard
    requires { square < 64 }
    ensures { (b : ℕ) → b < 64 → (Holds result b ↔ (b ≡ square)) }
{
    1 << square
}

/// Whether the square is in the set.
pub fn contains(bitboard: Bitboard, square: u8) -> bool
    requires { square < 64 }
    ensures { IsTrue result ↔ Holds bitboard square }
{
    bitboard >> square & 1 == 1
}

/// Whether two sets have no square in common.
pub fn is_disjoint(bitboard: Bitboard, other: Bitboard) -> bool
    ensures { IsTrue result ↔ ((b : ℕ) → b < 64 → Holds bitboard b → ¬ Holds other b) }
{
    bitboard & other == 0
}

/// The lowest square of a set.
pub fn lowest(bitboard: Bitboard) -> u8
    requires { bitboard ≢ 0 }
    ensures on_board { result < 64 }
    ensures within { Holds bitboard result }
    ensures first { (b : ℕ) → b < result → ¬ Holds bitboard b }
{
    bitboard.trailing_zeros() as u8
}

/// The set without one square.
pub fn without(bitboard: Bitboard, square: u8) -> Bitboard
    requires { square < 64 }
    ensures others { (b : ℕ) → b < 64 → (Holds result b ↔ (Holds bitboard b × b ≢ square)) }
    ensures less { Holds bitboard square → result < bitboard }
{
    bitboard & !(1 << square)
}
