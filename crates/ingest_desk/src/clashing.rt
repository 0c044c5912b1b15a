//! Texts whose ids are stored.
/// A text of a batch whose id a stored game has.
#[derive(Clone, Copy, Debug, Default, PartialEq, Eq)]
pub struct Clashing {
    /// The place of the text in its batch, from 0.
    pub place: u32,
    /// The number of the stored game.
    pub number: u32,
}
