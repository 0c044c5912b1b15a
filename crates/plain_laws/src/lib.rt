//! Laws of plain values: lists, options, results, orderings and numbers.
//!
//! The library's own laws are cited from the library. These it doesn't have, and several crates need
//! them; `specs` states them, each with its proof, and there is no code.
#![tactic(auto)]
