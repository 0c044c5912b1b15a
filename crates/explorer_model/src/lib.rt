//! The plain types of the explorer, and in `specs` the definitions that all contracts cite: the
//! rules of chess, notation, archives and their games, queries and answers, stores, and the wire.
//!
//! ```rust
//! // The knight's move from g1 to f3, and whether the side to move may still castle short.
//! let (from, to) = (Square { index: 6 }, Square { index: 21 });
//! let m = Move { from, to, promotion: None };
//! let open = position.rights.has(position.turn, Side::Short);
//! ```
#![tactic(auto)]

pub mod answer;
pub mod archive;
pub mod bytes;
pub mod chess;
pub mod fault;
pub mod label;
pub mod laws;
pub mod letters;
pub mod list;
pub mod notation;
pub mod opening;
pub mod player;
pub mod query;
pub mod square;
pub mod store;
pub mod store_laws;
pub mod text;
mod texts;
pub mod timeline_laws;
pub mod wire;
pub mod wire_laws;
