//! Changes that could not be published.
use crate::list::SharedSegment;

/// A change that waits outside the writer.
#[derive(Drop)]
pub enum Held {
    Add(SharedSegment),
    Join(usize, SharedSegment),
}
