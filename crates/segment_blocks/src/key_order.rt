//! The order of keys.
ghost use Rattle.std.specs.Prelude.{◌≡◌, ◌≤◌, drop};
ghost use Rattle.std.specs.Cmp.Lexicographic.{slice_cmp};
ghost use Rattle.std.specs.Ordering.{nat_cmp};
ghost use Rattle.segment_blocks.specs.Prefix.{common_len};
ghost use Rattle.tally_rows.specs.RowKey.{row_order};

use std::cmp::Ordering;
use tally_rows::{PositionKey, RowKey, word_at};

/// How rows stand whose games have so much in common.
#[tactic(auto, unfolding(tally_rows::specs::RowKey::row_order))]
pub fn order_of_row_keys(a: &RowKey, b: &RowKey) -> Ordering
    ensures { result ≡ row_order a.now b.now }
{
    match order_of_keys(&a.key, &b.key) {
        Ordering::Equal => order_at_a_key(a, b),
        order => order,
    }
}

/// How rows of one key stand.
#[inline(always)]
#[tactic(auto, unfolding(tally_rows::specs::RowKey::row_order))]
pub fn order_at_a_key(a: &RowKey, b: &RowKey) -> Ordering
    requires { a.now.key ≡ b.now.key }
    ensures { result ≡ row_order a.now b.now }
{
    match a.next.cmp(&b.next) {
        Ordering::Equal => {}
        order => return order,
    }
    match a.month.cmp(&b.month) {
        Ordering::Equal => {}
        order => return order,
    }
    a.speed.cmp(&b.speed).then(a.group.cmp(&b.group))
}

/// How two keys stand. Machine words compare far faster than the bytes of a key.
pub fn order_of_keys(a: &PositionKey, b: &PositionKey) -> Ordering
    ensures { result ≡ slice_cmp nat_cmp a.now b.now }
{
    for word in 0..4usize {
        let first = word_at(a, 8 * word);
        let second = word_at(b, 8 * word);
        if first != second {
            return first.cmp(&second);
        }
    }
    order_of_ends(a, b)
}

/// How two keys stand that begin alike in just so many bytes.
pub fn order_behind(a: &PositionKey, b: &PositionKey, shared: u8) -> Ordering
    requires within { shared ≤ 34 }
    requires shared { shared ≡ common_len a.now b.now }
    ensures { result ≡ slice_cmp nat_cmp a.now b.now }
{
    if shared == 34 {
        return Ordering::Equal;
    }
    let at = usize::from(shared);
    a[at].cmp(&b[at])
}

/// How two keys stand that have their first 32 bytes in common.
fn order_of_ends(a: &PositionKey, b: &PositionKey) -> Ordering
    ensures { result ≡ slice_cmp nat_cmp (drop 32 a.now) (drop 32 b.now) }
{
    if a[32] != b[32] {
        return a[32].cmp(&b[32]);
    }
    a[33].cmp(&b[33])
}
