//! Places in a list of entries.
ghost use Rattle.std.specs.Prelude.{◌≡◌, ℕ, ◌+◌, ◌*◌, ◌≤◌, ◌<◌, ◌^◌, true, false, length, map, slice_index_or};
ghost use Rattle.std.specs.Arc.{arc_value};
ghost use Rattle.best_lists.proofs.Ranked.{InOrder};
ghost use Rattle.player_index.specs.Entries.{before, entries_in, is_below, seat_by};
ghost use Rattle.player_index.specs.Index.{IsRange};
ghost use Rattle.row_sums.specs.Listing.{classes_in};
ghost use Rattle.player_index.specs.declared.entry.Entry.{Entry as AnEntry};

use crate::entry::Entry;
use crate::order::{Place, compare_to};
use segment_blocks::{Segment, Steps};
use std::sync::Arc;
use std::sync::ledger::Ledger;

/// Where the entries of a player in a colour begin and end. The place is behind all of these. A
/// step is an entry that is compared.
pub fn ends_of<L: Ledger>(
    segments: &[Arc<Segment>],
    entries: &[Entry],
    end: &Place<'_>,
    steps: &mut Steps<L>,
) -> (usize, usize)
    requires entries { entries.now ≡ entries_in (classes_in (map arc_value segments.now)) }
    requires end { end.now.number ≡ length (classes_in (map arc_value segments.now)) }
    ensures range { IsRange (classes_in (map arc_value segments.now)) entries.now
        end.now.name.now end.now.color result.0 result.1 }
    ensures cost { (digits : ℕ) → length entries.now < 2 ^ digits
        → steps.new ≤ steps.old + 2 * digits }
{
    let first = Place { number: 0, ..*end };
    let from = count_below(segments, entries, &first, steps);
    let to = count_below(segments, entries, end, steps);
    (from, to)
}

/// How many entries stand before the place. A step is an entry that is compared.
pub fn count_below<L: Ledger>(
    segments: &[Arc<Segment>],
    entries: &[Entry],
    place: &Place<'_>,
    steps: &mut Steps<L>,
) -> usize
    requires { InOrder (before (classes_in (map arc_value segments.now))) entries.now }
    ensures within { result ≤ length entries.now }
    ensures below { (k : ℕ) (d : AnEntry) → k < result
        → is_below (classes_in (map arc_value segments.now))
        (seat_by place.now.name.now place.now.color, place.now.number)
        (slice_index_or entries.now k d) ≡ true }
    ensures above { (k : ℕ) (d : AnEntry) → result ≤ k → k < length entries.now
        → is_below (classes_in (map arc_value segments.now))
        (seat_by place.now.name.now place.now.color, place.now.number)
        (slice_index_or entries.now k d) ≡ false }
    ensures cost { (digits : ℕ) → length entries.now < 2 ^ digits
        → steps.new ≤ steps.old + digits }
{
    let mut first = 0;
    let mut size = entries.len();
    while size > 0 {
        let half = size / 2;
        steps.tick();
        if is_below(segments, &entries[first + half], place) {
            first += half + 1;
            size -= half + 1;
        } else {
            size = half;
        }
    }
    first
}

/// Whether the entry stands before the place.
fn is_below(segments: &[Arc<Segment>], entry: &Entry, place: &Place<'_>) -> bool
    ensures { result ≡ is_below (classes_in (map arc_value segments.now))
        (seat_by place.now.name.now place.now.color, place.now.number) entry.now }
{
    compare_to(segments, entry, place).is_lt()
}
