//! Answers from rows.
#![tactic(auto)]

mod answer;
pub mod laws;
mod lines;
mod part_rows;
mod segment_rows;
mod set_games;
pub mod snapshot;
mod through;

pub use answer::look_segments;
pub use snapshot::look;
pub use through::look_through;
