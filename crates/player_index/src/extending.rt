//! More games for an index.
ghost use Rattle.std.specs.Prelude.{◌≡◌, ◌+◌, ◌-◌, ◌≤◌, ◌<◌, ◌^◌, length, map, IfOk};
ghost use Rattle.std.specs.Arc.{arc_value};
ghost use Rattle.std.specs.Ordering.{is_lt};
ghost use Rattle.best_lists.proofs.Ranked.{InOrder, puts, ranked};
ghost use Rattle.player_index.specs.Entries.{before, entries_from};
ghost use Rattle.row_sums.specs.Listing.{classes_in};

use crate::entry::Entry;
use crate::order::{compare_entries, place_of};
use crate::search::count_below;
use explorer_model::chess::Color;
use segment_blocks::{Segment, Steps};
use std::alloc::{AllocError, Global};
use std::sync::Arc;
use std::sync::ledger::Ledger;

/// The entries of games of the segments, from one number to another, in their order.
pub fn sorted_entries(
    alloc: Global,
    segments: &[Arc<Segment>],
    from: u32,
    to: u32,
) -> Result<Vec<Entry>, AllocError>
    requires { from ≤ to }
    ensures { IfOk result (λ entries. entries.items
        ≡ ranked (before (classes_in (map arc_value segments.now)))
        (entries_from from (to - from))) }
{
    let mut entries = entries_between(alloc, from, to)?;
    entries.sort_unstable_by(
        |a, b|
            ensures { is_lt result
                ≡ before (classes_in (map arc_value segments.entry.now)) a.now b.now }
        { compare_entries(segments, a, b) },
    );
    Ok(entries)
}

/// The entries of games from one number to another.
fn entries_between(alloc: Global, from: u32, to: u32) -> Result<Vec<Entry>, AllocError>
    requires { from ≤ to }
    ensures { IfOk result (λ entries. entries.items ≡ entries_from from (to - from)) }
{
    let mut entries = Vec::new(alloc);
    for number in from..to {
        entries.push(Entry {
            number,
            color: Color::White,
        })?;
        entries.push(Entry {
            number,
            color: Color::Black,
        })?;
    }
    Ok(entries)
}

/// Both lists in one. Each of `more` is looked for among the others, which are copied in runs.
pub fn merge_entries<L: Ledger>(
    alloc: Global,
    segments: &[Arc<Segment>],
    entries: &[Entry],
    more: &[Entry],
    steps: &mut Steps<L>,
) -> Result<Vec<Entry>, AllocError>
    requires entries { InOrder (before (classes_in (map arc_value segments.now))) entries.now }
    requires more { InOrder (before (classes_in (map arc_value segments.now))) more.now }
    requires few { length entries.now + length more.now < 2 ^ 32 }
    ensures { IfOk result (λ all. all.items
        ≡ puts (before (classes_in (map arc_value segments.now))) more.now entries.now) }
{
    let mut all = Vec::with_capacity(alloc, entries.len() + more.len())?;
    let mut at = 0;
    for entry in more {
        let place = place_of(segments, entry);
        let run = count_below(segments, &entries[at..], &place, steps);
        all.extend_from_slice(&entries[at..at + run])?;
        all.push(*entry)?;
        at += run;
    }
    all.extend_from_slice(&entries[at..])?;
    Ok(all)
}
