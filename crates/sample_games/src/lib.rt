//! Games drawn at random, as PGN: legal moves that are picked by a generator, under tags that are
//! drawn likewise. Each is the same on every machine.
#![tactic(auto)]

mod draws;
mod header;
pub mod laws;
mod movetext;
mod sampling;

pub use sampling::sample;
