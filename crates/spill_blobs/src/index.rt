//! The keys by which walks begin.
ghost use Rattle.std.specs.Prelude.{◌≡◌, ℕ, ◌+◌, ◌≤◌, ◌<◌, ◌^◌, true, false, [], length, slice_index_or};
ghost use Rattle.spill_blobs.specs.Index.{AreRising};
ghost use Rattle.spill_blobs.specs.Marks.{is_less, count_of_less};

use packed_keys::PositionKey;
use segment_blocks::Steps;
use std::sync::ledger::Ledger;

/// How many of the keys, which rise, are less than the key. A step is a key that is compared.
pub fn count_less<L: Ledger>(keys: &[PositionKey], key: &PositionKey, steps: &mut Steps<L>) -> usize
    requires { AreRising keys.now }
    ensures within { result ≤ length keys.now }
    ensures less { (k : ℕ) → k < result → is_less key.now (slice_index_or keys.now k []) ≡ true }
    ensures others { (k : ℕ) → result ≤ k → k < length keys.now
        → is_less key.now (slice_index_or keys.now k []) ≡ false }
    ensures count { result ≡ count_of_less key.now keys.now }
    ensures cost { (digits : ℕ) → length keys.now < 2 ^ digits → steps.new ≤ steps.old + digits }
{
    let mut first = 0;
    let mut size = keys.len();
    while size > 0 {
        let half = size / 2;
        steps.tick();
        if stands_before(&keys[first + half], key) {
            first += half + 1;
            size -= half + 1;
        } else {
            size = half;
        }
    }
    first
}

/// Whether one key is less than another.
fn stands_before(one: &PositionKey, key: &PositionKey) -> bool
    ensures { result ≡ is_less key.now one.now }
{
    one.cmp(key).is_lt()
}
