//! Calls side by side, of which each leaf takes the next one as it gets to it.
ghost use Rattle.std.specs.Prelude.{◌≡◌, ℕ, ◌<◌, ◌≤◌, IfOk, IfSome, None, length, replicate};
ghost use Rattle.std.specs.Fork.{GivesEach};
ghost use Rattle.std.specs.List.{All, flat_map};
ghost use Rattle.side_by_side.specs.Taking.{AreGiven, IsGiven, TakesGiven, put_all, taken_by};

use crate::map_leaves;
use std::alloc::{AllocError, Global};
use std::marker::{Send, Sync};
use std::sync::atomic::{AtomicUsize, Ordering};
use std::thread::Threads;

/// What `f` gives for each index below `count`, in order. Leaves, as many as `workers`, run side by
/// side: each takes the next index as long as one is left, so that none waits for a slow one, and
/// enters once its first one is taken, or none is left. The calling thread is one of them.
pub fn map_taken<R: Threads + Sync, X: Send + Drop, E: Fn(usize) + Sync, F: Fn(usize) -> X + Sync>(
    rt: &R,
    alloc: Global,
    workers: usize,
    count: usize,
    enter: &E,
    f: &F,
) -> Result<Vec<X>, AllocError>
    requires enters { (leaf : ℕ) → leaf < workers → E.pre enter.now leaf }
    requires accepts { (i : ℕ) → i < count → F.pre f.now i }
    ensures len { IfOk result (λ made. length made.items ≡ count) }
    ensures each { IfOk result (λ made. GivesEach F.Fn f.now count made.items) }
{
    let next = AtomicUsize::new(0);
    let leaf = |number: usize| -> Result<Vec<(usize, X)>, AllocError>
        requires { E.pre enter.now number × ((i : ℕ) → i < count → F.pre f.now i) }
        ensures { TakesGiven F.Fn f.entry.now result }
    {
        let first = next.fetch_add(1, Ordering::SeqCst);
        enter(number);
        take_all(alloc, &next, first, count, f)
    };
    let leaves = map_leaves(rt, alloc, workers, &leaf)?;
    let slots = slots_of(alloc, count, leaves)?;
    fill_slots(alloc, slots, f)
}

/// Calls `f` with the first index, and then takes the next one as long as one is left below `count`.
fn take_all<X: Drop, F: Fn(usize) -> X>(
    alloc: Global,
    next: &AtomicUsize,
    first: usize,
    count: usize,
    f: &F,
) -> Result<Vec<(usize, X)>, AllocError>
    requires { (i : ℕ) → i < count → F.pre f.now i }
    ensures { TakesGiven F.Fn f.now result }
{
    let mut taken = Vec::new(alloc);
    let mut index = first;
    for _ in 0..count {
        if count <= index {
            break;
        }
        taken.push((index, f(index)))?;
        index = next.fetch_add(1, Ordering::SeqCst);
    }
    Ok(taken)
}

/// What leaves took, each at its index.
pub(crate) fn slots_of<X: Drop>(
    alloc: Global,
    count: usize,
    leaves: Vec<Result<Vec<(usize, X)>, AllocError>>,
) -> Result<Vec<Option<X>>, AllocError>
    ensures { IfOk result (λ slots. slots.items
        ≡ put_all (replicate count None) (flat_map taken_by leaves.items)) }
{
    let mut slots = empty_slots(alloc, count)?;
    for leaf in leaves {
        put_all(&mut slots, leaf?);
    }
    Ok(slots)
}

/// So many slots in which nothing stands.
fn empty_slots<X: Drop>(alloc: Global, count: usize) -> Result<Vec<Option<X>>, AllocError>
    ensures { IfOk result (λ slots. slots.items ≡ replicate count None) }
{
    let mut slots = Vec::with_capacity(alloc, count)?;
    for _ in 0..count {
        slots.push(None)?;
    }
    Ok(slots)
}

/// Puts what a leaf took at its indices, each of which has a slot.
pub(crate) fn put_all<X: Drop>(slots: &mut Vec<Option<X>>, taken: Vec<(usize, X)>)
    ensures { slots.new.items ≡ put_all slots.old.items taken.items }
{
    for (index, x) in taken {
        if index < slots.len() {
            slots[index] = Some(x);
        }
    }
}

/// What stands in each slot, or what `f` gives for its index.
fn fill_slots<X: Drop, F: Fn(usize) -> X>(
    alloc: Global,
    slots: Vec<Option<X>>,
    f: &F,
) -> Result<Vec<X>, AllocError>
    requires accepts { (i : ℕ) → i < length slots.items → F.pre f.now i }
    requires given { AreGiven F.Fn f.now slots.items }
    ensures len { IfOk result (λ made. length made.items ≡ length slots.items) }
    ensures each { IfOk result (λ made. GivesEach F.Fn f.now (length slots.items) made.items) }
{
    let mut made = Vec::with_capacity(alloc, slots.len())?;
    for slot in slots {
        made.push(given_at(made.len(), slot, f))?;
    }
    Ok(made)
}

/// What stands in the slot. Where nothing does, as leaves leave none, `f` is called here.
fn given_at<X: Drop, F: Fn(usize) -> X>(index: usize, slot: Option<X>, f: &F) -> X
    requires accepts { F.pre f.now index }
    requires given { IfSome slot (λ x. IsGiven F.Fn f.now (index, x)) }
    ensures { IsGiven F.Fn f.now (index, result) }
{
    match slot {
        Some(x) => x,
        None => f(index),
    }
}
