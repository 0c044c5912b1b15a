//! What a game's text consists of (PGN 5 to 10).
#![tactic(auto)]

mod byte_table;
mod bytes;
mod items;
pub mod laws;
mod pair;
mod reading;
mod span;
mod spanned;

pub use reading::{parts, spanned_parts};
pub use span::Span;
pub use spanned::SpannedParts;
