//! Tests of imports: of one who stores alone, of some at one desk, and of bodies on connections.
#![tactic(auto)]

#[cfg(test)]
mod tests;
