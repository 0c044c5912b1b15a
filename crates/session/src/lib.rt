//! Connections: the replies to their requests, over what a pass has seen.
#![tactic(auto)]

mod answering;
mod backend;
mod doors;
mod importing;
mod kept_answers;
pub mod laws;
mod player_answering;
mod reader;
mod replying;
mod serving;

pub use answering::{answer, answer_by};
pub use doors::{DoorEnd, serve_door};
pub use importing::{import, learn_notes, learn_receipts};
pub use kept_answers::{Answers, Asking};
pub use player_answering::answer_player;
pub use serving::{Ended, serve_all, serve_connection, serve_named};
