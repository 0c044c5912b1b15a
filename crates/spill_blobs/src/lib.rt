//! Segments whose rows stand in a scratch file: rows as bytes, and how they are found there again.
//!
//! ```rust
//! let mut set = SpillSet::new(alloc);
//! set.add(alloc, segment, &mut port)?;
//! let rows = set.rows(alloc, 0, &position, &mut port, &mut steps)?;
//! ```
#![tactic(auto)]

mod distinct;
mod fields;
mod index;
pub mod laws;
mod lists;
mod part;
mod port_fault;
mod row_block;
mod row_bytes;
mod set;
mod sheet;
mod sound_rows;
mod walk;
mod walk_fault;

pub use port_fault::PortFault;
pub use set::SpillSet;
