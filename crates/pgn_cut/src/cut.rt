//! What a stream is cut into.
use explorer_model::archive::Placed;

/// What a stream of games is cut into. A place is an offset in the stream.
#[derive(Debug, Drop)]
pub enum Cut {
    /// The text of one game, of at most 65,536 bytes.
    Text(Placed),
    /// A text that is longer than that, and its length in bytes.
    TooLong { place: u64, length: u64 },
    /// Something other than white space stands before the first text: the place of its first byte.
    Preamble { place: u64 },
}

/// What was done with a piece: how many of its bytes were taken, and the cut that ended with them.
#[derive(Debug, Drop)]
pub struct Fed {
    pub taken: usize,
    pub cut: Option<Cut>,
}
