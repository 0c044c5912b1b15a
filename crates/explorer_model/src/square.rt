//! The squares of a board.
ghost use Rattle.std.specs.Prelude.{◌≡◌, ℕ, ◌<◌};
ghost use Rattle.explorer_model.specs.Board.{file_of, rank_of, halfway};

/// A square of the board: `8 * rank + file`, so a1 is 0, h1 is 7 and h8 is 63.
#[derive(Clone, Copy, Debug, PartialEq, Eq, PartialOrd, Ord)]
pub struct Square {
    pub index: u8,
    pub ghost on_board: { index < 64 },
}

impl Square {
    /// 0 for file a to 7 for file h.
    pub fn file(self) -> u8
        ensures { result ≡ file_of self.index }
    {
        file_of(self.index)
    }

    /// 0 for rank 1 to 7 for rank 8.
    pub fn rank(self) -> u8
        ensures { result ≡ rank_of self.index }
    {
        rank_of(self.index)
    }
}

impl Default for Square {
    ghost is_default = { λ square. square.index ≡ 0 };

    /// The square a1.
    fn default() -> Self {
        Square { index: 0 }
    }
}

/// The file of the square with this index, 0 for file a to 7 for file h.
pub fn file_of(square: u8) -> u8
    ensures { result ≡ file_of square }
{
    square % 8
}

/// The rank of the square with this index, 0 for rank 1 and up.
pub fn rank_of(square: u8) -> u8
    ensures { result ≡ rank_of square }
{
    square / 8
}

/// The square halfway between two squares, which a castling king or a pawn's step of two crosses.
pub fn halfway(a: u8, b: u8) -> u8
    requires a_on_board { a < 64 }
    requires b_on_board { b < 64 }
    ensures { result ≡ halfway a b }
{
    (a + b) / 2
}
