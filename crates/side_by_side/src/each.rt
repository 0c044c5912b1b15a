//! Calls side by side, of which each leaf takes the next job as it gets to it.
ghost use Rattle.std.specs.Prelude.{◌≡◌, ℕ, List, [], ◌<◌, IfOk, Some, length, map};
ghost use Rattle.std.specs.Fork.{AcceptsJobs, GivesJobs};
ghost use Rattle.side_by_side.specs.Each.{IsJob, TakesJobs};

use crate::map_leaves;
use crate::taking::{put_all, slots_of};
use std::alloc::{AllocError, Global};
use std::marker::{Brand, PhantomData, Send, Sync};
use std::sync::{Mutex, Wait};
use std::thread::Threads;
use std::vec::IntoIter;

/// What `f` gives for each job, in order. Leaves, as many as `workers`, run side by side: each
/// enters, and then takes the next job as long as one is left, so that none waits for a slow one.
/// The calling thread is one of them. Where `workers` is 0, it makes all calls and doesn't enter.
pub fn map_each<
    R: Threads + Wait + Sync,
    J: Send + Drop,
    X: Send + Drop,
    E: Fn(usize) + Sync,
    F: Fn(J) -> X + Sync,
>(
    rt: &R,
    alloc: Global,
    workers: usize,
    jobs: Vec<J>,
    enter: &E,
    f: &F,
) -> Result<Vec<X>, AllocError>
    requires enters { (leaf : ℕ) → leaf < workers → E.pre enter.now leaf }
    requires accepts { AcceptsJobs F.Fn f.now jobs.items }
    ensures len { IfOk result (λ made. length made.items ≡ length jobs.items) }
    ensures each { IfOk result (λ made. GivesJobs F.Fn f.now jobs.items made.items) }
{
    map_given::<Brand, R, J, X, E, F>(rt, alloc, workers, jobs, enter, f)
}

/// The jobs that one call of `map_each` was given, which contracts alone see. It picks them.
trait Given<J> {
    ghost jobs: { List J };
}

impl<J> Given<J> for Brand {
    ghost jobs = { [] };
}

/// A job that no leaf has taken yet. Whoever takes it from the lock knows which one it is.
#[derive(Drop)]
struct Waiting<J, B: Given<J>> {
    number: usize,
    job: J,
    of: PhantomData<B>,
    ghost is_job: { IsJob B.jobs number job },
}

/// The jobs that no leaf has taken yet, in order.
type Queue<J, B> = Mutex<IntoIter<Waiting<J, B>>>;

/// What `map_each` does, with `B` for the jobs.
fn map_given<
    B: Given<J> + Send,
    R: Threads + Wait + Sync,
    J: Send + Drop,
    X: Send + Drop,
    E: Fn(usize) + Sync,
    F: Fn(J) -> X + Sync,
>(
    rt: &R,
    alloc: Global,
    workers: usize,
    jobs: Vec<J>,
    enter: &E,
    f: &F,
) -> Result<Vec<X>, AllocError>
    requires given { jobs.items ≡ B.jobs }
    requires enters { (leaf : ℕ) → leaf < workers → E.pre enter.now leaf }
    requires accepts { AcceptsJobs F.Fn f.now jobs.items }
    ensures len { IfOk result (λ made. length made.items ≡ length jobs.items) }
    ensures each { IfOk result (λ made. GivesJobs F.Fn f.now jobs.items made.items) }
{
    let count = jobs.len();
    let waiting: Vec<Waiting<J, B>> = waiting_of(alloc, jobs)?;
    let queue = Mutex::new(waiting.into_iter());
    let leaf = |number: usize| -> Result<Vec<(usize, X)>, AllocError>
        requires { E.pre enter.now number × AcceptsJobs F.Fn f.now B.jobs }
        ensures { TakesJobs F.Fn f.entry.now B.jobs result }
    {
        enter(number);
        take_each(rt, alloc, &queue, count, f)
    };
    let leaves = map_leaves(rt, alloc, workers, &leaf)?;
    let mut slots = slots_of(alloc, count, leaves)?;
    // Leaves that end well leave no job. Where there are no leaves, all jobs are left.
    let left = take_each(rt, alloc, &queue, count, f)?;
    put_all(&mut slots, left);
    all_of(alloc, slots)
}

/// The jobs, each with its number.
fn waiting_of<J: Drop, B: Given<J>>(
    alloc: Global,
    jobs: Vec<J>,
) -> Result<Vec<Waiting<J, B>>, AllocError>
    requires { jobs.items ≡ B.jobs }
{
    let mut waiting = Vec::with_capacity(alloc, jobs.len())?;
    for job in jobs {
        waiting.push(Waiting {
            number: waiting.len(),
            job,
            of: PhantomData,
        })?;
    }
    Ok(waiting)
}

/// Takes the next job as long as one is left, and calls `f` with it.
fn take_each<R: Wait, J: Drop, X: Drop, B: Given<J>, F: Fn(J) -> X>(
    rt: &R,
    alloc: Global,
    queue: &Queue<J, B>,
    count: usize,
    f: &F,
) -> Result<Vec<(usize, X)>, AllocError>
    requires { AcceptsJobs F.Fn f.now B.jobs }
    ensures { TakesJobs F.Fn f.now B.jobs result }
{
    let mut taken = Vec::new(alloc);
    for _ in 0..count {
        let next = queue.lock(rt).next();
        match next {
            Some(waiting) => taken.push((waiting.number, f(waiting.job)))?,
            None => break,
        }
    }
    Ok(taken)
}

/// What stands in the slots, of which none is empty.
fn all_of<X: Drop>(alloc: Global, slots: Vec<Option<X>>) -> Result<Vec<X>, AllocError>
    ensures { IfOk result (λ made. slots.items ≡ map Some made.items) }
{
    let mut made = Vec::with_capacity(alloc, slots.len())?;
    for slot in slots {
        match slot {
            Some(x) => made.push(x)?,
            // No slot is empty: each job was taken, and gave a result with its number.
            None => return Err(AllocError),
        }
    }
    Ok(made)
}
