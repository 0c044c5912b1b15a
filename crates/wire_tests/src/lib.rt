//! Tests of what the program says to the outside: words of the command line, requests and replies of
//! connections, bodies of answers, and hosts.
#![tactic(auto)]

#[cfg(test)]
mod tests;
