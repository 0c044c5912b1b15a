//! The legal moves of chess: a board is a valid position, and each legal move that is played on it
//! leaves another.
//!
//! ```rust
//! let mut board = Board::start();
//! let moves = board.legal();
//! // One of the twenty moves from the start.
//! board.play_on(moves[0]);
//! let position = board.position();
//! ```
#![tactic(auto)]

pub mod board;
mod check_info;
mod check_masks;
mod destinations;
mod enemy_sets;
mod generate;
pub mod laws;
mod piece_sets;
mod pins;
mod play;
mod sources;
mod tidy;
pub mod valid;
