//! Calls side by side, in threads that take the next call as they get to it.
//!
//! The calling thread makes all threads, one after another, and is the last of them itself: no
//! thread waits for others to be made by one that was just made. Where no thread can be made, the
//! calls are made in order.
#![tactic(auto)]

ghost use Rattle.std.specs.Prelude.{◌≡◌, ℕ, ◌+◌, ◌^◌, ◌<◌, ◌≤◌, IfOk, length};
ghost use Rattle.std.specs.Fork.{GivesEach};
ghost use Rattle.std.specs.Fork.Halves.{GivesFrom};
ghost use denote.Param.Send.{IsSend, IsSync};

mod each;
mod made;
mod taking;
mod workers;

pub use each::map_each;
pub use made::all_made;
use std::alloc::{AllocError, Global};
use std::marker::{Send, Sync};
use std::thread::{Threads, join};
pub use taking::map_taken;
pub use workers::Workers;

/// What `f` gives for each leaf below `count`, in order, each in a thread of its own where one can be
/// made. The calling thread is the last one.
fn map_leaves<R: Threads + Sync, X: Send + Drop, F: Fn(usize) -> X + Sync>(
    rt: &R,
    alloc: Global,
    count: usize,
    f: &F,
) -> Result<Vec<X>, AllocError>
    requires { (i : ℕ) → i < count → F.pre f.now i }
    ensures len { IfOk result (λ made. length made.items ≡ count) }
    ensures each { IfOk result (λ made. GivesEach F.Fn f.now count made.items) }
{
    if count == 0 {
        return Ok(Vec::new(alloc));
    }
    calls_from(rt, alloc, 0, count, f)
}

/// The first call goes to a thread of its own, and then those behind it are made.
#[cycle(calls)]
fn calls_from<R: Threads + Sync, X: Send + Drop, F: Fn(usize) -> X + Sync>(
    rt: &R,
    alloc: Global,
    from: usize,
    count: usize,
    f: &F,
) -> Result<Vec<X>, AllocError>
    requires some { 0 < count }
    requires room { from + count < 2 ^ 64 }
    requires accepts { (i : ℕ) → from ≤ i → i < from + count → F.pre f.now i }
    ensures { IfOk result (λ made. GivesFrom F.Fn f.now from count made.items) }
{
    if count == 1 {
        let mut made = Vec::new(alloc);
        made.push(f(from))?;
        return Ok(made);
    }
    let next = from + 1;
    let rest = count - 1;
    let first = move || -> X
        requires { IsSync F.row × IsSend X.row × F.pre f.now from }
        ensures { F.post f.entry.now from result }
    { f(from) };
    let behind = move || -> Result<Vec<X>, AllocError>
        requires { IsSync R.row × IsSync F.row × IsSend X.row × (0 < rest)
            × (next + rest < 2 ^ 64)
            × ((i : ℕ) → next ≤ i → i < next + rest → F.pre f.now i) }
        ensures { IfOk result (λ made. GivesFrom F.Fn f.entry.now next rest made.items) }
    { calls_from(rt, alloc, next, rest, f) };
    let (x, made) = join(rt, first, behind);
    let mut all = made?;
    all.insert(0, x)?;
    Ok(all)
}
