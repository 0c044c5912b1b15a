//! A list of segments that one publisher changes and that passes read without waiting. No pass ever
//! sees less than it saw, and the place of each batch is drawn by one drawer.
//!
//! ```rust
//! // The drawer draws the batch's place.
//! let note = publisher.put(&rt, segment, &mut drawer)?;
//! pass.learn(note);
//! // The snapshot has the segment's batch, and keeps it whatever is published later.
//! let snapshot = pass.enter(alloc)?;
//! ```
#![tactic(auto)]

mod book;
mod fault;
mod front;
mod held;
mod history;
mod index;
pub mod laws;
mod list;
mod list_writer;
mod note;
mod pass;
mod places;
mod published;
mod publisher;
mod rule;
mod seat;
mod snapshot;
mod tokens;
mod unnamed;
mod views;

pub use fault::EnterFault;
pub use index::Index;
pub use list::{List, SharedSegment};
pub use note::Note;
pub use pass::Pass;
pub use places::Drawer;
pub use publisher::Publisher;
pub use snapshot::Snapshot;
pub use unnamed::{Named, Unnamed, open_list};
