//! The squares that each piece reaches on an empty board.

ghost use Rattle.std.specs.Prelude.{◌≡◌, ◌↔◌, ℕ, ◌<◌};
ghost use Rattle.step_tables.specs.Bitboard.{Holds};
ghost use Rattle.step_tables.specs.Piece.{KnightStep, KingStep, WhitePawnStep, BlackPawnStep, rook_directions, bishop_directions, queen_directions};
ghost use Rattle.step_tables.specs.Step.{IsAhead, AtMostInSight, direction_at};
ghost use Rattle.step_tables.specs.Squares.{RookLine, BishopLine, QueenLine};

use crate::bitboard::Bitboard;
use crate::leaper::{BLACK_PAWN, KING, KNIGHT, WHITE_PAWN};
use crate::slider::{BISHOP, QUEEN, ROOK, Slider};

/// The squares that a knight on `square` steps to.
pub fn knight_targets(square: u8) -> Bitboard
    requires { square < 64 }
    ensures { (b : ℕ) → b < 64 → (Holds result b ↔ KnightStep square b) }
{
    let table = &KNIGHT;
    table.targets(square)
}

/// The squares that a king on `square` steps to.
pub fn king_targets(square: u8) -> Bitboard
    requires { square < 64 }
    ensures { (b : ℕ) → b < 64 → (Holds result b ↔ KingStep square b) }
{
    let table = &KING;
    table.targets(square)
}

/// The squares that a white pawn on `square` attacks.
pub fn white_pawn_targets(square: u8) -> Bitboard
    requires { square < 64 }
    ensures { (b : ℕ) → b < 64 → (Holds result b ↔ WhitePawnStep square b) }
{
    let table = &WHITE_PAWN;
    table.targets(square)
}

/// The squares that a black pawn on `square` attacks.
pub fn black_pawn_targets(square: u8) -> Bitboard
    requires { square < 64 }
    ensures { (b : ℕ) → b < 64 → (Holds result b ↔ BlackPawnStep square b) }
{
    let table = &BLACK_PAWN;
    table.targets(square)
}

/// The squares that a rook on `square` reaches on an empty board.
pub fn rook_targets(square: u8) -> Bitboard
    requires { square < 64 }
    ensures { (b : ℕ) → b < 64 → (Holds result b ↔ RookLine square b) }
{
    rook().targets(square)
}

/// The squares that a bishop on `square` reaches on an empty board.
pub fn bishop_targets(square: u8) -> Bitboard
    requires { square < 64 }
    ensures { (b : ℕ) → b < 64 → (Holds result b ↔ BishopLine square b) }
{
    bishop().targets(square)
}

/// The squares that a queen on `square` reaches on an empty board.
pub fn queen_targets(square: u8) -> Bitboard
    requires { square < 64 }
    ensures { (b : ℕ) → b < 64 → (Holds result b ↔ QueenLine square b) }
{
    queen().targets(square)
}

/// The squares ahead of a rook on `square` in one of its directions: toward rank 8, file h, rank 1
/// and file a.
pub fn rook_line(square: u8, direction: usize) -> Bitboard
    requires on_board { square < 64 }
    requires known { direction < 4 }
    ensures { (b : ℕ) → b < 64
        → (Holds result b ↔ IsAhead (direction_at rook_directions direction) square b) }
{
    rook().line(square, direction)
}

/// The squares ahead of a bishop on `square` in one of its directions: up toward file h, down
/// toward file h, down toward file a and up toward file a.
pub fn bishop_line(square: u8, direction: usize) -> Bitboard
    requires on_board { square < 64 }
    requires known { direction < 4 }
    ensures { (b : ℕ) → b < 64
        → (Holds result b ↔ IsAhead (direction_at bishop_directions direction) square b) }
{
    bishop().line(square, direction)
}

/// The squares ahead of a queen on `square` in one of its directions: the rook's four, then the
/// bishop's four.
pub fn queen_line(square: u8, direction: usize) -> Bitboard
    requires on_board { square < 64 }
    requires known { direction < 8 }
    ensures { (b : ℕ) → b < 64
        → (Holds result b ↔ IsAhead (direction_at queen_directions direction) square b) }
{
    queen().line(square, direction)
}

/// A law: the eight lines that leave a square have at most 27 squares.
pub fn queen_bound()
    ensures { AtMostInSight queen_directions 27 }
{}

// Each table of lines is taken at one place, where its entries are tested against its directions.

fn rook() -> Slider<4>
    ensures { result.directions ≡ rook_directions }
{
    ROOK
}

fn bishop() -> Slider<4>
    ensures { result.directions ≡ bishop_directions }
{
    BISHOP
}

fn queen() -> Slider<8>
    ensures { result.directions ≡ queen_directions }
{
    QUEEN
}
