//! What a query string asks: its parameters, or the first that is malformed.
#![tactic(auto)]

mod asking;
mod given;
pub mod laws;
mod lists;
mod pairs;
mod parameters;
mod player_asking;
mod player_parameters;
mod position;
mod values;

pub use asking::query;
pub use player_asking::player_query;
