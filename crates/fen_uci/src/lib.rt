//! Positions in Forsyth-Edwards notation (PGN 16.1) and moves in the notation of UCI, read and
//! written.
//!
//! ```rust
//! let board = read_fen(b"4k3/8/8/8/8/8/8/4K2R w K - 0 1")?;
//! // The king's move onto its own rook means castling.
//! let castling = read_uci(b"e1h1", &board)?;
//! // e1g1
//! let text = write_uci(castling);
//! ```
#![tactic(auto)]

mod fields;
pub mod laws;
mod letters;
mod placement;
mod reader;
mod splits;
mod state;
mod uci;
mod writer;

pub use reader::read_fen;
pub use uci::{read_uci, write_uci};
pub use writer::write_fen;
