//! Lists of games in which no game stands twice.
ghost use Rattle.std.specs.Prelude.{◌≡◌, ◌<◌, ◌↔◌, ℕ, List, ◌++◌, map, length, IsTrue, IfOk};
ghost use Rattle.std.specs.List.{AllByRecursion};
ghost use Rattle.spill_blobs.specs.Distinct.{AreMarked, Marks};
ghost use Rattle.spill_blobs.specs.SoundRows.{numbers_in, AreDifferent};

use best_lists::Entry;
use std::alloc::{AllocError, Global};
use tally_rows::Row;

/// Whether no game stands twice in the rows' best lists by rating, whose numbers are below `n`.
pub fn are_tops_different(alloc: Global, n: u32, rows: &[Row]) -> Result<bool, AllocError>
    requires { AllByRecursion (λ row. AllByRecursion (λ entry. entry.number < n) row.top) rows.now }
    ensures { IfOk result (λ different.
        IsTrue different ↔ AreDifferent (numbers_in (λ row. row.top) rows.now)) }
{
    let mut marked = Vec::from_elem(alloc, false, n as usize)?;
    for row in rows {
        if !mark_all(&mut marked, row.top.entries()) {
            return Ok(false);
        }
    }
    Ok(true)
}

/// The same of the latest games.
pub fn are_recents_different(alloc: Global, n: u32, rows: &[Row]) -> Result<bool, AllocError>
    requires { AllByRecursion
        (λ row. AllByRecursion (λ entry. entry.number < n) row.recent) rows.now }
    ensures { IfOk result (λ different.
        IsTrue different ↔ AreDifferent (numbers_in (λ row. row.recent) rows.now)) }
{
    let mut marked = Vec::from_elem(alloc, false, n as usize)?;
    for row in rows {
        if !mark_all(&mut marked, row.recent.entries()) {
            return Ok(false);
        }
    }
    Ok(true)
}

/// Marks the games of a list. Says whether none of them was marked before, and none stands twice.
fn mark_all(marked: &mut [bool], entries: &[Entry]) -> bool
    requires { AllByRecursion (λ entry. entry.number < length marked.old) entries.now }
    ensures { (numbers : List ℕ) → AreMarked marked.old numbers → AreDifferent numbers
        → Marks result marked.new (numbers ++ map (λ entry. entry.number) entries.now) }
{
    for entry in entries {
        let place = entry.number as usize;
        if marked[place] {
            return false;
        }
        marked[place] = true;
    }
    true
}
