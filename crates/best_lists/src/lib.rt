//! The best four of any number of listed games, by rating or by month.
//!
//! ```rust
//! let better = Best4::<ByRating>::one(5200, 7);
//! let both = Best4::one(4800, 3).join(&better);
//! // Game 7, whose ratings add up to 5200, and then game 3.
//! let entries = both.entries();
//! ```
#![tactic(auto)]

mod best4;
mod entry;
pub mod laws;
mod ranking;

pub use best4::Best4;
pub use entry::Entry;
pub use ranking::{ByMonth, ByRating, Ranking};
