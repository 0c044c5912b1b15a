//! What is asked, ready to be looked for in games.
use explorer_model::chess::Position;
use explorer_model::player::PlayerQuery;
use packed_keys::PositionKey;

/// A query, with the tidy form of the position that it asks for, and the key of that.
#[derive(Clone, Copy)]
pub struct Asked<'a> {
    pub query: &'a PlayerQuery,
    pub tidy: &'a Position,
    pub key: PositionKey,
}
