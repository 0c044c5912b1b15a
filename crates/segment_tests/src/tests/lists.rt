//! The list that readers enter.
ghost use Rattle.std.specs.Prelude.{◌≡◌};

use published_index::{Index, List, Pass, Publisher, Unnamed, open_list};
use std::alloc::Global;
use std::marker::Brand;
use std::process::Abort;
use std::sync::{Mutex, MutexGuard, Wait};
use std::test::Fail;
use std::thread::{Threads, join};

#[test]
fn empty_list_is_entered_by_two_threads(rt: HostRuntime) -> Result<(), Fail> {
    let alloc: Global = rt.alloc();
    let unnamed = open_list(&rt, alloc, List::of(Vec::new(alloc)), 2)?;
    enters::<Brand, _>(&rt, alloc, unnamed)
}

fn enters<J: Index + Send + Sync, R: Threads + Wait + Abort + Sync>(
    rt: &R,
    alloc: Global,
    unnamed: Unnamed,
) -> Result<(), Fail>
    requires { unnamed.name ≡ J.name }
{
    let (publisher, mut passes, _drawer) = match unnamed.named::<J>(alloc) {
        Ok(index) => index,
        Err(unnamed) => {
            unnamed.close(rt);
            return Err(Fail::from("no room for the passes"));
        }
    };
    let entering = passes.pop();
    let learning = passes.pop();
    let desk = Mutex::new(publisher);
    let (seen, front) = join(
        rt,
        || enter_by(alloc, entering),
        || learn_note(rt, &desk, learning),
    );
    let (is_idle, segments) = close_list(rt, alloc, desk.into_inner())?;
    assert_eq!(rt; (seen, front), (Some((0, 0, 0)), Some(0)));
    assert_eq!(rt; (is_idle, segments), (true, (0, 0)));
    Ok(())
}

/// Enters the list by a pass: how many batches it has, how many the pass knows, and how many of
/// these it has not read.
fn enter_by<J: Index>(alloc: Global, pass: Option<Pass<J>>) -> Option<(u32, u32, u64)> {
    let mut pass = pass?;
    let snapshot = pass.enter(alloc).ok()?;
    Some((snapshot.batches(), pass.front(), pass.unread()))
}

/// Has a pass learn what a note of the publisher's says, and gives how many batches it knows then.
fn learn_note<J: Index, R: Wait>(
    rt: &R,
    desk: &Mutex<Publisher<J>>,
    pass: Option<Pass<J>>,
) -> Option<u32> {
    let mut publisher = desk.lock(rt);
    let note = publisher.tell();
    MutexGuard::unlock(publisher);
    let mut pass = pass?;
    pass.learn(note);
    Some(pass.front())
}

/// Closes the list: whether nothing was held, and how many segments a snapshot and the list had.
fn close_list<J: Index, R: Wait>(
    rt: &R,
    alloc: Global,
    publisher: Publisher<J>,
) -> Result<(bool, (usize, usize)), Fail> {
    let mut publisher = publisher;
    let is_idle = matches!(publisher.retry(rt), Ok(None));
    let snapshot = publisher.snapshot(alloc);
    let listed = publisher.list().segments().len();
    publisher.close(rt);
    Ok((is_idle, (snapshot?.segments().len(), listed)))
}
