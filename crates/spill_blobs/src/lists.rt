//! Best lists at the front of bytes.
ghost use Rattle.std.specs.Prelude.{◌≡◌, ◌≢◌, ◌≤◌, ◌+◌, ◌*◌, ◌-◌, ◌^◌, ◌<◌, ℕ, List, ◌∷◌, ◌++◌, IfSome, IfNone, IsTrue, ◌↔◌, length, replicate};
ghost use Rattle.std.specs.List.{AllByRecursion, flat_map};
ghost use Rattle.best_lists.specs.declared.entry.Entry.{Entry as Listed};
ghost use Rattle.explorer_model.specs.Best.{best};
ghost use Rattle.spill_blobs.specs.RowBlocks.{entry_bytes, list_bytes, AreFew, Fits, IsList};

use crate::fields::{take_byte, take_u32};
use arrayvec::ArrayVec;
use best_lists::laws::best_of_both;
use best_lists::{Best4, Entry, Ranking};

/// The list that the first 33 bytes are, and the bytes behind it. None where they are no list.
pub fn take_list<O: Ranking>(bytes: &[u8]) -> Option<(Best4<O>, &[u8])>
    requires { 33 ≤ length bytes.now }
    ensures some { IfSome result (λ taken. IsList O.before taken.0
        × (bytes.now ≡ list_bytes taken.0 ++ taken.1.now)
        × (length taken.1.now + 33 ≡ length bytes.now)) }
    ensures none { IfNone result ((entries : List Listed) (rest : List ℕ)
        → IsList O.before entries → bytes.now ≢ list_bytes entries ++ rest) }
{
    let (block, rest) = bytes.split_at(33);
    let entries = entries_of(block)?;
    let list = best_of::<O>(entries.as_slice());
    if have_same_entries(list.entries(), entries.as_slice()) {
        Some((list, rest))
    } else {
        None
    }
}

/// Whether both lists have the same entries.
fn have_same_entries(a: &[Entry], b: &[Entry]) -> bool
    ensures { IsTrue result ↔ a.now ≡ b.now }
{
    a == b
}

/// The best four of the entries.
fn best_of<O: Ranking>(entries: &[Entry]) -> Best4<O>
    ensures { result ≡ best O.before 4 entries.now }
{
    // law: the best of two lists together are those of the best of each.
    best_of_both::<O>();
    let mut list = Best4::empty();
    for entry in entries {
        list = list.join(&Best4::one(entry.rank, entry.number));
    }
    list
}

/// The entries that 33 bytes are, in whatever order. None where they are none.
fn entries_of(block: &[u8]) -> Option<ArrayVec<Entry, 4>>
    requires { length block.now ≡ 33 }
    ensures some { IfSome result (λ entries. AreFew entries.items
        × (block.now ≡ list_bytes entries.items)) }
    ensures none { IfNone result ((entries : List Listed) → AreFew entries
        → block.now ≢ list_bytes entries) }
{
    let (count, rest) = take_byte(block);
    if count > 4 {
        return None;
    }
    let mut rest = rest;
    let mut entries = ArrayVec::new();
    while entries.len() < usize::from(count) {
        let (entry, more) = take_entry(rest);
        entries.push(entry);
        rest = more;
    }
    if are_zeros(rest) { Some(entries) } else { None }
}

fn take_entry(bytes: &[u8]) -> (Entry, &[u8])
    requires { 8 ≤ length bytes.now }
    ensures is { bytes.now ≡ entry_bytes result.0 ++ result.1.now }
    ensures fits { Fits result.0 }
    ensures left { length result.1.now + 8 ≡ length bytes.now }
{
    let (rank, rest) = take_u32(bytes);
    let (number, rest) = take_u32(rest);
    (Entry { rank, number }, rest)
}

fn are_zeros(bytes: &[u8]) -> bool
    ensures { IsTrue result ↔ bytes.now ≡ replicate (length bytes.now) 0 }
{
    for byte in bytes {
        if *byte != 0 {
            return false;
        }
    }
    true
}
