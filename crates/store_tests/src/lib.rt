//! Tests of the store's crates together: a batch as a segment, two segments as one, the list of
//! segments that passes enter while it is changed, and a desk for all commits.
#![tactic(auto)]

pub mod lives;
#[cfg(test)]
mod tests;
