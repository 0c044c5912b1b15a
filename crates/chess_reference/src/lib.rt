//! The legality of moves and the sameness of positions as programs that follow their definitions:
//! plain, slow, and each proved to say what its definition says. The listed moves of a board are
//! measured against them.
#![tactic(auto)]

pub mod board;
pub mod geometry;
pub mod legal;
pub mod play;
pub mod pseudo_legal;
