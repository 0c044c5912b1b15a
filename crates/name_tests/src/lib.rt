//! Tests of what is told by names: of openings, and of players' games over what is published.
#![tactic(auto)]

#[cfg(test)]
mod tests;
