//! The byte order mark at the start of a stream.
ghost use Rattle.std.specs.Prelude.{◌≡◌, ◌<◌, []};

use crate::front::Front;

/// The byte order mark of UTF-8.
const MARK: [u8; 3] = [0xef, 0xbb, 0xbf];

/// The first `count` bytes of a mark are all that came of the stream.
#[derive(Clone, Copy, Debug)]
pub struct MarkPrefix {
    pub count: usize,
    ghost short: { count < 3 },
}

/// Where the stream stands after more of a mark, or something else.
pub enum Marked {
    /// The piece ends within the mark.
    Prefix(MarkPrefix),
    /// The mark is whole, or none can come; the first `taken` bytes of the piece belong to it.
    Past { front: Front, taken: usize },
}

impl MarkPrefix {
    ghost use Rattle.pgn_cut.specs.Front.{refusal_of};
    ghost use Rattle.pgn_cut.specs.Mark.{cuts_of_mark, Marks, IsWithoutMark};

    /// Looks for the rest of the mark in the next piece.
    pub fn feed(self, piece: &[u8]) -> Marked
        ensures { Marks self.count piece.now result }
    {
        let (_, missing) = MARK.split_at(self.count);
        if piece.starts_with(missing) {
            let front = Front {
                came: 3,
                first: None,
                matched: 1,
            };
            return Marked::Past {
                front,
                taken: missing.len(),
            };
        }
        if missing.starts_with(piece) {
            return Marked::Prefix(MarkPrefix {
                count: self.count + piece.len(),
            });
        }
        Marked::Past {
            front: self.without_mark(),
            taken: 0,
        }
    }

    /// The place of the first byte that is no white space, where the stream ends.
    pub fn end(self) -> Option<u64>
        ensures { refusal_of result ≡ cuts_of_mark self.count [] }
    {
        if self.count == 0 { None } else { Some(0) }
    }

    /// The bytes that came are no part of a mark.
    fn without_mark(self) -> Front
        ensures { IsWithoutMark self.count result }
    {
        if self.count == 0 {
            return Front {
                came: 0,
                first: None,
                matched: 1,
            };
        }
        Front {
            came: self.count as u64,
            first: Some(0),
            matched: 0,
        }
    }
}
