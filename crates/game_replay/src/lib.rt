//! One game from its text: its tags read, its moves replayed by the Laws of Chess.
#![tactic(auto)]

pub mod laws;
mod moves;
mod replaying;
mod score;
mod tagged;

pub use replaying::replay;
