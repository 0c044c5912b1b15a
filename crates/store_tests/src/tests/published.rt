//! The published list of segments.
ghost use Rattle.std.specs.Prelude.{◌≡◌, IfOk};
ghost use Rattle.std.specs.Arc.{arc_value};
ghost use Rattle.published_index.specs.Changes.{CanJoin};
ghost use Rattle.published_index.specs.Places.{HasAllParts};

use super::{merge_both, one_game};
use outside::FreeGate;
use published_index::{
    Drawer, Index, List, Named, Note, Pass, Publisher, SharedSegment, Unnamed, open_list,
};
use std::alloc::Global;
use std::marker::Brand;
use std::process::Abort;
use std::sync::{Arc, Mutex, MutexGuard, Wait};
use std::test::Fail;
use std::thread::{Threads, join};

/// How many segments the list has at the end of the test of many puts.
const PUTS: u32 = 60;

/// The publisher, the passes and the drawer of an index.
fn name_index<J: Index, R: Wait>(rt: &R, alloc: Global, unnamed: Unnamed) -> Result<Named<J>, Fail>
    requires { unnamed.name ≡ J.name }
    ensures { IfOk result (λ index. HasAllParts index.2) }
{
    match unnamed.named::<J>(alloc) {
        Ok(index) => Ok(index),
        Err(unnamed) => {
            unnamed.close(rt);
            Err(Fail::from("no room for the passes"))
        }
    }
}

/// Puts the segment of one more game, where the list has room for it.
fn put<J: Index, R: Threads + Wait + Sync>(
    rt: &R,
    alloc: Global,
    publisher: &mut Publisher<J>,
    drawer: &mut Drawer<J>,
) -> Result<Note<J>, Fail>
    ensures { drawer.new.parts ≡ drawer.old.parts }
{
    publisher.retry(rt)?;
    if publisher.list().segments().len() >= 64 {
        return Err(Fail::from("the list is full"));
    }
    let end = publisher.list().batches();
    let segment = one_game(rt, alloc, end, "1. e4 e5")?;
    let segment = Arc::new(alloc, segment)?;
    Ok(publisher.put(rt, segment, drawer)?)
}

/// What passes see of two puts.
#[derive(Debug, PartialEq, Eq, Drop)]
struct Seen {
    /// How many batches a snapshot has that was entered between the puts, and one behind them.
    between: u32,
    behind: u32,
    /// How many the first snapshot has in the end.
    kept: u32,
    /// The front of a pass that only learnt the second note.
    learnt: u32,
}

fn put_twice<J: Index, R: Threads + Wait + Sync>(
    rt: &R,
    alloc: Global,
    publisher: &mut Publisher<J>,
    drawer: &mut Drawer<J>,
    mut passes: Vec<Pass<J>>,
) -> Result<Seen, Fail> {
    let mut entering = passes.pop().ok_or("a pass")?;
    let mut learning = passes.pop().ok_or("a second pass")?;
    put(rt, alloc, publisher, drawer)?;
    let first = entering.enter(alloc)?;
    let between = first.batches();
    let note = put(rt, alloc, publisher, drawer)?;
    let behind = entering.enter(alloc)?.batches();
    learning.learn(note);
    Ok(Seen {
        between,
        behind,
        kept: first.batches(),
        learnt: learning.front(),
    })
}

fn sees_puts<J: Index, R: Threads + Wait + Abort + Sync>(
    rt: &R,
    alloc: Global,
    unnamed: Unnamed,
) -> Result<(), Fail>
    requires { unnamed.name ≡ J.name }
{
    let (mut publisher, passes, mut drawer) = name_index::<J, R>(rt, alloc, unnamed)?;
    let seen = put_twice(rt, alloc, &mut publisher, &mut drawer, passes);
    publisher.close(rt);
    let wanted = Seen {
        between: 1,
        behind: 2,
        kept: 1,
        learnt: 2,
    };
    assert_eq!(rt; seen?, wanted);
    Ok(())
}

#[test]
fn second_put_is_seen_without_a_note(rt: HostRuntime) -> Result<(), Fail> {
    let alloc: Global = rt.alloc();
    let unnamed = open_list(&rt, alloc, List::of(Vec::new(alloc)), 2)?;
    sees_puts::<Brand, _>(&rt, alloc, unnamed)
}

/// Whether each of 10,000 entries gives a snapshot.
fn always_enters<J: Index>(alloc: Global, pass: Option<Pass<J>>) -> bool {
    let Some(mut pass) = pass else {
        return false;
    };
    for _ in 0..10_000 {
        if pass.enter(alloc).is_err() {
            return false;
        }
    }
    true
}

/// Puts batches of one game, each under the lock.
fn put_many<J: Index, R: Threads + Wait + Sync>(
    rt: &R,
    alloc: Global,
    desk: &Mutex<Publisher<J>>,
    mut drawer: Drawer<J>,
) -> Result<(), Fail> {
    for _ in 0..PUTS {
        let mut publisher = desk.lock(rt);
        let note = put(rt, alloc, &mut *publisher, &mut drawer);
        MutexGuard::unlock(publisher);
        let _note = note?;
    }
    Ok(())
}

fn enters_during_puts<J: Index + Send + Sync, R: Threads + Wait + Abort + Sync>(
    rt: &R,
    alloc: Global,
    unnamed: Unnamed,
) -> Result<(), Fail>
    requires { unnamed.name ≡ J.name }
{
    let (publisher, mut passes, drawer) = name_index::<J, R>(rt, alloc, unnamed)?;
    let first = passes.pop();
    let second = passes.pop();
    let desk = Mutex::new(publisher);
    let (entered, put) = join(
        rt,
        || join(
            rt,
            || always_enters(alloc, first),
            || always_enters(alloc, second),
        ),
        || put_many(rt, alloc, &desk, drawer),
    );
    let publisher = desk.into_inner();
    let batches = publisher.list().batches();
    publisher.close(rt);
    put?;
    assert_eq!(rt; entered, (true, true));
    assert_eq!(rt; batches, PUTS);
    Ok(())
}

#[test]
fn each_enter_gives_a_snapshot_while_another_thread_puts(rt: HostRuntime) -> Result<(), Fail> {
    let alloc: Global = rt.alloc();
    let unnamed = open_list(&rt, alloc, List::of(Vec::new(alloc)), 2)?;
    enters_during_puts::<Brand, _>(&rt, alloc, unnamed)
}

/// The two segments of the list as one.
fn both_segments<R: Threads + Sync>(
    rt: &R,
    alloc: Global,
    list: &List,
) -> Result<SharedSegment, Fail>
    ensures { IfOk result (λ segment. CanJoin list.now 0 (arc_value segment)) }
{
    let segments = list.segments();
    if segments.len() != 2 {
        return Err(Fail::from("not two segments"));
    }
    let whole = merge_both(rt, alloc, &segments[0], &segments[1], 2, &FreeGate)?;
    Ok(Arc::new(alloc, whole)?)
}

/// How many segments a snapshot has that was entered before the segments were joined, and how many
/// segments and batches one has that was entered behind it.
fn join_while_held<J: Index, R: Threads + Wait + Sync>(
    rt: &R,
    alloc: Global,
    publisher: &mut Publisher<J>,
    drawer: &mut Drawer<J>,
    mut passes: Vec<Pass<J>>,
) -> Result<(usize, usize, u32), Fail> {
    let mut pass = passes.pop().ok_or("a pass")?;
    put(rt, alloc, publisher, drawer)?;
    put(rt, alloc, publisher, drawer)?;
    let before = pass.enter(alloc)?;
    join_both(rt, alloc, publisher)?;
    let behind = pass.enter(alloc)?;
    Ok((
        before.segments().len(),
        behind.segments().len(),
        behind.batches(),
    ))
}

/// Publishes both segments of the list as one.
fn join_both<J: Index, R: Threads + Wait + Sync>(
    rt: &R,
    alloc: Global,
    publisher: &mut Publisher<J>,
) -> Result<Note<J>, Fail> {
    publisher.retry(rt)?;
    let whole = both_segments(rt, alloc, publisher.list())?;
    Ok(publisher.replace(rt, 0, whole)?)
}

fn keeps_segments<J: Index, R: Threads + Wait + Abort + Sync>(
    rt: &R,
    alloc: Global,
    unnamed: Unnamed,
) -> Result<(), Fail>
    requires { unnamed.name ≡ J.name }
{
    let (mut publisher, passes, mut drawer) = name_index::<J, R>(rt, alloc, unnamed)?;
    let seen = join_while_held(rt, alloc, &mut publisher, &mut drawer, passes);
    publisher.close(rt);
    assert_eq!(rt; seen?, (2, 1, 2));
    Ok(())
}

#[test]
fn snapshot_keeps_its_segments_when_they_are_joined(rt: HostRuntime) -> Result<(), Fail> {
    let alloc: Global = rt.alloc();
    let unnamed = open_list(&rt, alloc, List::of(Vec::new(alloc)), 1)?;
    keeps_segments::<Brand, _>(&rt, alloc, unnamed)
}

/// How many shares there are of a segment before it is joined with another, and behind that, with
/// the one that counts them.
fn shares_of_joined<J: Index, R: Threads + Wait + Sync>(
    rt: &R,
    alloc: Global,
    publisher: &mut Publisher<J>,
    drawer: &mut Drawer<J>,
) -> Result<(usize, usize), Fail> {
    put(rt, alloc, publisher, drawer)?;
    put(rt, alloc, publisher, drawer)?;
    let first = publisher.list().segments().first().ok_or("a segment")?;
    let share = Arc::try_clone(first)?;
    let before = Arc::strong_count(&share);
    join_both(rt, alloc, publisher)?;
    Ok((before, Arc::strong_count(&share)))
}

fn lets_segments_go<J: Index, R: Threads + Wait + Abort + Sync>(
    rt: &R,
    alloc: Global,
    unnamed: Unnamed,
) -> Result<(), Fail>
    requires { unnamed.name ≡ J.name }
{
    let (mut publisher, _passes, mut drawer) = name_index::<J, R>(rt, alloc, unnamed)?;
    let shares = shares_of_joined(rt, alloc, &mut publisher, &mut drawer);
    publisher.close(rt);
    assert_eq!(rt; shares?, (3, 1));
    Ok(())
}

#[test]
fn published_list_lets_joined_segments_go(rt: HostRuntime) -> Result<(), Fail> {
    let alloc: Global = rt.alloc();
    let unnamed = open_list(&rt, alloc, List::of(Vec::new(alloc)), 1)?;
    lets_segments_go::<Brand, _>(&rt, alloc, unnamed)
}

/// Two drawers put a batch each, one behind the other, and are one again. That each of the two places
/// was drawn once is proved of what `settle` is lent.
fn put_by_two<J: Index, R: Threads + Wait + Sync>(
    rt: &R,
    alloc: Global,
    publisher: &mut Publisher<J>,
    rest: &mut Drawer<J>,
) -> Result<(), Fail>
    requires { HasAllParts rest.old }
{
    let mut mine = publisher.another(rest);
    put(rt, alloc, publisher, &mut mine)?;
    put(rt, alloc, publisher, rest)?;
    publisher.take(rest, mine);
    publisher.settle(rt, rest);
    Ok(())
}

fn settles<J: Index, R: Threads + Wait + Abort + Sync>(
    rt: &R,
    alloc: Global,
    unnamed: Unnamed,
) -> Result<(), Fail>
    requires { unnamed.name ≡ J.name }
{
    let (mut publisher, _passes, mut rest) = name_index::<J, R>(rt, alloc, unnamed)?;
    let outcome = put_by_two(rt, alloc, &mut publisher, &mut rest);
    let batches = publisher.list().batches();
    publisher.close(rt);
    outcome?;
    assert_eq!(rt; batches, 2);
    Ok(())
}

#[test]
fn two_drawers_put_and_are_one_again(rt: HostRuntime) -> Result<(), Fail> {
    let alloc: Global = rt.alloc();
    let unnamed = open_list(&rt, alloc, List::of(Vec::new(alloc)), 1)?;
    settles::<Brand, _>(&rt, alloc, unnamed)
}
