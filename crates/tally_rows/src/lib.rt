//! What games count for in each position that they visit: rows, their sums and their best games.
#![tactic(auto)]

mod counted_row;
mod grid;
mod key_range;
pub mod laws;
mod row;
mod row_key;
mod rows;
mod single;
mod sort_entry;
mod tally;

pub use counted_row::{CountedAs, CountedRow};
pub use grid::{Cell, Grid};
pub use key_range::{KeyRange, first_word};
pub use packed_keys::PositionKey;
pub use row::{Row, counts_of, month_number};
pub use row_key::RowKey;
pub use rows::rows_of;
pub use single::Single;
pub use sort_entry::word_at;
pub use tally::Tally;
