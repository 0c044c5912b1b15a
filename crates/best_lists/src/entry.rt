//! A game in a list of games.

/// A listed game.
#[derive(Clone, Copy, Debug, Default, PartialEq, Eq, Hash)]
pub struct Entry {
    /// What the game is listed by, the greater the better: the sum of both players' ratings, or `12 * year + month`.
    pub rank: u32,
    /// The game's place in the archive, from 0.
    pub number: u32,
}
