//! Groups that are counted apart, each by itself.
ghost use Rattle.std.specs.Prelude.{◌≡◌, ◌<◌, ◌+◌, ◌^◌, IfOk, Ok, length, map};
ghost use Rattle.std.specs.List.{All, AllZip};
ghost use Rattle.import_run.specs.Apart.{CanTally, IsTalliedGroup};

use crate::text_group::{TalliedGroup, TextGroup};
use outside::Gate;
use side_by_side::{Workers, all_made, map_each};
use std::alloc::{AllocError, Global};
use std::sync::Wait;
use std::thread::Threads;

/// Counts groups. One worker counts a group from its texts to its packed rows, and then takes the next
/// one; a group alone is counted by all of them.
pub(crate) fn count_each<R: Wait + Threads + Sync, G: Gate>(
    rt: &R,
    alloc: Global,
    groups: Vec<TextGroup>,
    workers: Workers,
    gate: &G,
) -> Result<Vec<TalliedGroup>, AllocError>
    requires tallies { All CanTally groups.items }
    ensures { IfOk result (λ tallied. AllZip IsTalliedGroup groups.items tallied.items) }
{
    if groups.len() < 2 {
        return count_alone(rt, alloc, groups, workers, gate);
    }
    let enter = |leaf: usize|
        requires { leaf + 1 < 2 ^ 64 }
    { gate.pass(leaf + 1) };
    let count = |group: TextGroup| -> Result<TalliedGroup, AllocError>
        requires { CanTally group }
        ensures { IfOk result (IsTalliedGroup group) }
    { group.pack(rt, alloc) };
    let results = map_each(rt, alloc, workers.count, groups, &enter, &count)?;
    all_made(alloc, results)
}

/// Counts a group that is the only one, if there is one.
fn count_alone<R: Threads + Sync, G: Gate>(
    rt: &R,
    alloc: Global,
    groups: Vec<TextGroup>,
    workers: Workers,
    gate: &G,
) -> Result<Vec<TalliedGroup>, AllocError>
    requires tallies { All CanTally groups.items }
    ensures { IfOk result (λ tallied. AllZip IsTalliedGroup groups.items tallied.items) }
{
    let mut counted = Vec::with_capacity(alloc, groups.len())?;
    'counting: for group in groups {
        counted.push(group.tally(rt, alloc, workers, gate)?)?;
    }
    Ok(counted)
}
