//! Two segments as one, merged in ranges of keys side by side.
#![tactic(auto)]

pub mod laws;
mod merging;
mod ranges;
mod shifting;
mod side;

pub use ranges::merge;
