//! A player's games, replayed from their texts.
//!
//! ```rust
//! index.extend(alloc, &snapshot)?;
//! let found = player_look(alloc, &index, &snapshot, &query, &mut steps)?;
//! ```
#![tactic(auto)]

mod asked;
mod games;
pub mod laws;
mod lines;
mod look;
mod rows;
mod segments;
mod visit;
mod wanted;

pub use look::player_look;
