//! The rows of singles.
ghost use Rattle.std.specs.Prelude.{◌≡◌, ℕ, Bool, List, map, IfOk, ◌<◌, ◌^◌, length, vec_len};
ghost use Rattle.std.specs.List.{All};
ghost use Rattle.tally_rows.specs.Row.{row_of, combined_rows};
ghost use Rattle.tally_rows.specs.Single.{AreSingles};
ghost use Rattle.tally_rows.specs.SortEntry.{any_single, picked, IsEntryIn};
ghost use Rattle.tally_rows.specs.Tallied.{Tallied};
ghost use Rattle.tally_rows.specs.Track.{Track};
ghost use Rattle.tally_rows.specs.Within.{AreSinglesWithin, TalliedWithin};
ghost use Rattle.tally_rows.specs.declared.single.Single.{Single};

use crate::sort_entry::SortEntry;
use crate::{CountedRow, Single};
use std::alloc::{AllocError, Global};

/// The rows of games, from the singles of each of them in each position that it visits.
pub fn rows_of(alloc: Global, singles: Vec<Single>) -> Result<Vec<CountedRow>, AllocError>
    requires { vec_len singles < 2 ^ 32 }
    ensures all { IfOk result (λ rows. (tracks : List Track) → AreSingles tracks singles.items
        → Tallied tracks rows.items) }
    ensures within { IfOk result (λ rows. (test : List ℕ → Bool) (tracks : List Track)
        → AreSinglesWithin test tracks singles.items → TalliedWithin test tracks rows.items) }
{
    let mut entries = entries_of(alloc, singles.as_slice())?;
    entries.sort_unstable();
    combine_sorted(alloc, singles.as_slice(), entries.as_slice())
}

/// An entry for each single, in the same order.
fn entries_of(alloc: Global, singles: &[Single]) -> Result<Vec<SortEntry>, AllocError>
    requires { length singles.now < 2 ^ 32 }
    ensures all { IfOk result (λ entries. (other : Single)
        → picked singles.now entries.items other ≡ singles.now) }
    ensures told { IfOk result (λ entries. (other : Single)
        → All (IsEntryIn singles.now other) entries.items) }
{
    let mut entries = Vec::with_capacity(alloc, singles.len())?;
    for single in singles {
        let at = entries.len() as u32;
        entries.push(SortEntry::of(&single.row_key, at))?;
    }
    Ok(entries)
}

/// The rows of the singles that entries stand for. Those of one row stand next to each other.
fn combine_sorted(
    alloc: Global,
    singles: &[Single],
    entries: &[SortEntry],
) -> Result<Vec<CountedRow>, AllocError>
    requires told { All (IsEntryIn singles.now any_single) entries.now }
    requires few { length entries.now < 2 ^ 32 }
    ensures { IfOk result (λ rows. rows.items
        ≡ combined_rows (map row_of (picked singles.now entries.now any_single))) }
{
    let mut rows = Vec::with_capacity(alloc, entries.len())?;
    if entries.is_empty() {
        return Ok(rows);
    }
    rows.push(CountedRow::of(&singles[entries[0].at as usize]))?;
    for place in 1..entries.len() {
        let entry = &entries[place];
        let single = &singles[entry.at as usize];
        if entry.has_numbers_of(&entries[place - 1]) {
            let end = rows.len() - 1;
            rows[end].add(alloc, single)?;
        } else {
            rows.push(CountedRow::of(single))?;
        }
    }
    Ok(rows)
}
