//! Files, ranks and lines. Squares are numbers below 64, files and ranks count from 0.
ghost use Rattle.std.specs.Prelude.{◌≡◌, ◌<◌, ◌↔◌, IsTrue};
ghost use Rattle.explorer_model.specs.Board.{files_apart, ranks_apart, RookLine, BishopLine, AreAligned, IsBetween, KnightStep, KingStep};

use explorer_model::square::{file_of, rank_of};

/// How many files lie from one square to another, 0 to 7.
pub fn files_apart(a: u8, b: u8) -> u8
    ensures { result ≡ files_apart a b }
{
    file_of(a).abs_diff(file_of(b))
}

/// How many ranks lie from one square to another.
pub fn ranks_apart(a: u8, b: u8) -> u8
    ensures { result ≡ ranks_apart a b }
{
    rank_of(a).abs_diff(rank_of(b))
}

/// Are two squares on one file or rank?
pub fn is_rook_line(a: u8, b: u8) -> bool
    ensures { IsTrue result ↔ RookLine a b }
{
    a != b && (files_apart(a, b) == 0 || ranks_apart(a, b) == 0)
}

/// Are two squares on one diagonal?
pub fn is_bishop_line(a: u8, b: u8) -> bool
    ensures { IsTrue result ↔ BishopLine a b }
{
    a != b && files_apart(a, b) == ranks_apart(a, b)
}

/// A knight goes from one square to the other (FIDE 3.6).
pub fn is_knight_step(a: u8, b: u8) -> bool
    ensures { IsTrue result ↔ KnightStep a b }
{
    let (files, ranks) = (files_apart(a, b), ranks_apart(a, b));
    (files == 1 && ranks == 2) || (files == 2 && ranks == 1)
}

/// The squares are neighbours (FIDE 3.8.1).
pub fn is_king_step(a: u8, b: u8) -> bool
    ensures { IsTrue result ↔ KingStep a b }
{
    a != b && files_apart(a, b) <= 1 && ranks_apart(a, b) <= 1
}

/// Is `s` strictly between `a` and `b`, on their file, rank or diagonal?
pub fn is_between(a: u8, s: u8, b: u8) -> bool
    ensures { IsTrue result ↔ IsBetween a s b }
{
    are_aligned(a, s, b)
        && files_apart(a, s) + files_apart(s, b) == files_apart(a, b)
        && ranks_apart(a, s) + ranks_apart(s, b) == ranks_apart(a, b)
}

fn are_aligned(a: u8, s: u8, b: u8) -> bool
    ensures { IsTrue result ↔ AreAligned a s b }
{
    if is_rook_line(a, b) && is_rook_line(a, s) && is_rook_line(s, b) {
        return true;
    }
    is_bishop_line(a, b) && is_bishop_line(a, s) && is_bishop_line(s, b)
}
