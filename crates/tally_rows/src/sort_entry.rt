//! What singles are sorted by: their parts as few large numbers.
ghost use Rattle.std.specs.Prelude.{◌≡◌, ℕ, ◌+◌, ◌<◌, ◌≤◌, ◌^◌, length, slice_index};
ghost use Rattle.tally_rows.specs.SortEntry.{spelled, promotion_code, next_code, rest_of, Tells, same_numbers};

use crate::RowKey;
use explorer_model::chess::{Move, Role};

/// The parts of a single as numbers that compare as the parts do, in the order of their worth, and
/// the single's place in a list. Machine words compare and move far faster than the bytes of a key.
#[derive(Clone, Copy, Debug, PartialEq, Eq, PartialOrd, Ord)]
pub struct SortEntry {
    /// Bytes 0 to 7 of the key; the next three words are those behind them.
    pub first: u64,
    pub second: u64,
    pub third: u64,
    pub fourth: u64,
    /// The last 2 bytes of the key, 2 bytes of the next move, 2 of the year, 1 of the month and 1 of the speed.
    pub rest: u64,
    pub group: u16,
    pub at: u32,
}

impl SortEntry {
    /// The entry of the single at a place, which has these parts.
    pub fn of(row_key: &RowKey, at: u32) -> SortEntry
        ensures place { result.at ≡ at }
        ensures parts { Tells result row_key.now }
    {
        SortEntry {
            first: word_at(&row_key.key, 0),
            second: word_at(&row_key.key, 8),
            third: word_at(&row_key.key, 16),
            fourth: word_at(&row_key.key, 24),
            rest: rest_of(row_key),
            group: row_key.group.value,
            at,
        }
    }

    /// Whether both have the same numbers, whatever their places.
    pub fn has_numbers_of(&self, other: &SortEntry) -> bool
        ensures { result ≡ same_numbers self.now other.now }
    {
        self.first == other.first
            && self.second == other.second
            && self.third == other.third
            && self.fourth == other.fourth
            && self.rest == other.rest
            && self.group == other.group
    }
}

/// The number that the eight bytes from a place on spell, the first of them worth the most.
pub fn word_at(key: &[u8], at: usize) -> u64
    requires within { at + 8 ≤ length key.now }
    requires long { length key.now < 2 ^ 32 }
    ensures value { result ≡ spelled key.now at 8 }
    ensures bytes { (i : ℕ) → slice_index key.now i < 256 }
{
    u64::from_be_bytes([
        key[at],
        key[at + 1],
        key[at + 2],
        key[at + 3],
        key[at + 4],
        key[at + 5],
        key[at + 6],
        key[at + 7],
    ])
}

/// The end of the key, the next move, the month and the speed.
fn rest_of(row_key: &RowKey) -> u64
    ensures value { result ≡ rest_of row_key.now }
    ensures year { row_key.now.month.year < 2 ^ 16 }
    ensures month { row_key.now.month.month < 2 ^ 8 }
{
    let key_end = 256 * u64::from(row_key.key[32]) + u64::from(row_key.key[33]);
    let next = u64::from(next_code(row_key.next));
    let year = u64::from(row_key.month.year);
    let month = u64::from(row_key.month.month);
    let speed = u64::from(row_key.speed.index());
    key_end * 0x1_0000_0000_0000 + next * 0x1_0000_0000 + year * 0x1_0000 + month * 0x100 + speed
}

/// 0 where the game ends, else 1 and 6 bits of the square left, 6 of the target and 3 of the promotion.
fn next_code(next: Option<Move>) -> u16
    ensures { result ≡ next_code next }
{
    match next {
        None => 0,
        Some(step) => {
            let from = u16::from(step.from.index);
            let to = u16::from(step.to.index);
            1 + 512 * from + 8 * to + u16::from(promotion_code(step.promotion))
        }
    }
}

/// 0 without a promotion.
fn promotion_code(promotion: Option<Role>) -> u8
    ensures value { result ≡ promotion_code promotion }
    ensures small { result < 8 }
{
    match promotion {
        None => 0,
        Some(role) => 1 + role.index(),
    }
}
