//! Where the pieces step: for each square the squares that a piece reaches on an empty board, as
//! bitboards.
//!
//! A square is its index from 0 to 63, `8 * rank + file`, so a1 is 0 and h8 is 63. A bitboard is a
//! set of squares: bit `b` stands for square `b`.
#![tactic(auto)]

mod bitboard;
mod cases;
mod in_between;
mod leaper;
mod pieces;
mod slider;
mod step;

pub use bitboard::{Bitboard, Squares, contains, is_disjoint, lowest, only, without};
pub use in_between::{between, open_targets};
pub use leaper::{BLACK_PAWN, KING, KNIGHT, Leaper, WHITE_PAWN};
pub use pieces::{
    bishop_line, bishop_targets, black_pawn_targets, king_targets, knight_targets, queen_bound,
    queen_line, queen_targets, rook_line, rook_targets, white_pawn_targets,
};
pub use slider::{BISHOP, QUEEN, ROOK, Slider};
pub use step::Step;
