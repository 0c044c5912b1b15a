//! Segments: batches that stand one after another in a journal, with the rows that count their
//! games, in packed blocks.
//!
//! ```rust
//! let segment = Segment::of(alloc, 0, tally)?;
//! let mut walk = segment.rows_at(&key, &mut steps);
//! while let Some(row) = walk.next(&mut steps) {
//!     // A row of the position that the key names.
//! }
//! ```
#![tactic(auto)]

mod block;
mod block_cursor;
mod both;
mod encoded_rows;
mod held_batch;
mod held_row;
mod key_order;
mod key_room;
mod lane;
pub mod laws;
mod mark;
mod moved_row;
mod packed_rows;
mod row_walk;
mod rows_cursor;
mod segment;
mod single_game;
mod steps;
mod until;

pub use held_row::HeldRow;
pub use key_order::order_of_row_keys;
pub use packed_rows::PackedRows;
pub use row_walk::RowWalk;
pub use segment::kept::Kept;
pub use segment::{Segment, Span};
pub use steps::Steps;
