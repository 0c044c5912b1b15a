//! Ranges of keys.
ghost use Rattle.std.specs.Prelude.{◌≡◌, ◌≤◌};
ghost use Rattle.tally_rows.specs.Within.{first_word, is_word_in};

use crate::sort_entry::word_at;
use packed_keys::PositionKey;

/// Keys whose first eight bytes spell a number from one on, and below another where there is one.
#[derive(Clone, Copy, Debug)]
pub struct KeyRange {
    pub from: u64,
    pub below: Option<u64>,
}

impl KeyRange {
    /// Whether the keys with this first word are in the range.
    pub fn contains_word(&self, word: u64) -> bool
        ensures { result ≡ is_word_in self.now word }
    {
        match self.below {
            Some(below) => self.from <= word && word < below,
            None => self.from <= word,
        }
    }
}

/// The number that the first eight bytes of a key spell, the first of them worth the most.
pub fn first_word(key: &PositionKey) -> u64
    ensures { result ≡ first_word key.now }
{
    word_at(key, 0)
}
