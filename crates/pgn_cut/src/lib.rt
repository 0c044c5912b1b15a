//! Cuts a stream of PGN games into the texts of single games, in whatever pieces the stream comes.
//!
//! ```rust
//! let mut cutter = Cutter::new();
//! while !piece.is_empty() {
//!     let fed = cutter.feed(alloc, piece)?;
//!     if let Some(Cut::Text(text)) = fed.cut {
//!         // The text that ended, with its place in the stream.
//!     }
//!     piece = &piece[fed.taken..];
//! }
//! let last = cutter.end();
//! ```
#![tactic(auto)]

pub mod cut;
pub mod cutter;
mod front;
pub mod laws;
mod mark;
mod scan;
mod text;
