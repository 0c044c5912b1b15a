//! Places of move tokens.
ghost use Rattle.std.specs.Prelude.{◌≡◌, length};
ghost use Rattle.pgn_lex.specs.Span.{bytes_of, IsWithin};

/// A move token as a span of its text: the offset of its first byte, and of what follows it.
#[derive(Clone, Copy, Debug)]
pub struct Span {
    pub start: u32,
    pub end: u32,
}

impl Span {
    /// The bytes of the span.
    pub fn of(self, text: &[u8]) -> &[u8]
        requires { IsWithin (length text.now) self }
        ensures { result.now ≡ bytes_of text.now self }
    {
        &text[self.start as usize..self.end as usize]
    }
}
