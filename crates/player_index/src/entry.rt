//! Entries of an index.
use explorer_model::chess::Color;

/// A game by its number among all games, from 0, and the colour of one of its players.
#[derive(Clone, Copy, Debug)]
pub struct Entry {
    pub number: u32,
    pub color: Color,
}
