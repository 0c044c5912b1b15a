//! The host of a run: what hands out disks, files, doors and scratch files by their names, and takes
//! them back; its form over the system, and its form in memory.
#![tactic(auto)]

mod counts;
mod host;
pub mod laws;
mod memory;
mod real;

pub use host::Host;
pub use memory::{MemAddress, MemCall, MemFile, MemHost, MemLinks, Named};
pub use real::RealHost;
