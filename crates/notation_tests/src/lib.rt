//! Tests of chess, and of what reads and writes games and their notation: streams cut into texts, the
//! parts of a text, what its tags say, moves and positions, games, query strings, and games drawn at
//! random.
#![tactic(auto)]

#[cfg(test)]
mod tests;
