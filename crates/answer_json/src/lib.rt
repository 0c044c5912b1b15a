//! What the explorer writes: the JSON of answers and the words of refusals.
#![tactic(auto)]

pub mod answer;
mod game;
pub mod laws;
mod line;
mod opening;
mod pieces;
mod player;
pub mod refusal;
mod stored;
mod texts;

pub use player::{lent_player_body, player_body};
pub use stored::stored_body;
