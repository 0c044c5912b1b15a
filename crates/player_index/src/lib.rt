//! The games of players, by name and colour, over what is published.
//!
//! ```rust
//! let mut index = PlayerIndex::new(alloc);
//! index.extend(alloc, &snapshot)?;
//! for entry in index.range(&snapshot, &player, Color::White, &mut steps) {
//!     // The number of a game that the player had White in.
//! }
//! ```
#![tactic(auto)]

mod entry;
mod extending;
mod games;
mod index;
pub mod laws;
mod names;
mod order;
mod search;

pub use entry::Entry;
pub use index::PlayerIndex;
pub use query_params::player_query;
