//! A text's tags and move tokens.
use crate::span::Span;
use explorer_model::archive::{Ending, Tags};

/// What a game's text consists of, its move tokens as spans of it.
#[derive(Debug, Drop)]
pub struct SpannedParts {
    pub tags: Tags,
    /// In the order of the text.
    pub spans: Vec<Span>,
    pub termination: Option<Ending>,
}
