//! Published lists of segments, with games of named players.
ghost use Rattle.std.specs.Prelude.{◌≡◌, ◌≤◌, length, IsTrue, IfOk};
ghost use Rattle.std.specs.Arc.{arc_value};
ghost use Rattle.std.specs.List.{All};
ghost use Rattle.published_index.specs.Changes.{CanJoin};
ghost use Rattle.segment_blocks.specs.Segment.{span_of_both};

use batch_tally::tally;
use explorer_model::archive::{Bytes, Placed};
use outside::FreeGate;
use published_index::{Drawer, Index, List, Named, Note, Publisher, SharedSegment, Unnamed};
use segment_blocks::Segment;
use std::alloc::{AllocError, Global};
use std::sync::{Arc, Wait};
use std::test::Fail;
use std::thread::Threads;
use tally_rows::Tally;

/// White's name and Black's.
pub(super) type Names = (&'static str, &'static str);

/// The publisher, the passes and the drawer of an index.
pub(super) fn name_index<J: Index, R: Wait>(
    rt: &R,
    alloc: Global,
    unnamed: Unnamed,
) -> Result<Named<J>, Fail>
    requires { unnamed.name ≡ J.name }
{
    match unnamed.named::<J>(alloc) {
        Ok(index) => Ok(index),
        Err(unnamed) => {
            unnamed.close(rt);
            Err(Fail::from("no room for the passes"))
        }
    }
}

/// Puts a batch of games of these players, where the list has room for it.
pub(super) fn put<J: Index, R: Threads + Wait + Sync>(
    rt: &R,
    alloc: Global,
    publisher: &mut Publisher<J>,
    drawer: &mut Drawer<J>,
    games: &[Names],
) -> Result<Note<J>, Fail> {
    let mut texts = Vec::new(alloc);
    for (number, names) in games.iter().enumerate() {
        texts.push(text(alloc, number, *names)?)?;
    }
    put_texts(rt, alloc, publisher, drawer, texts)
}

/// Puts a batch of texts, where the list has room for it.
pub(super) fn put_texts<J: Index, R: Threads + Wait + Sync>(
    rt: &R,
    alloc: Global,
    publisher: &mut Publisher<J>,
    drawer: &mut Drawer<J>,
    texts: Vec<Placed>,
) -> Result<Note<J>, Fail> {
    publisher.retry(rt)?;
    if publisher.list().segments().len() >= 64 {
        return Err(Fail::from("the list is full"));
    }
    let end = publisher.list().batches();
    let segment = segment_of(alloc, end, tally_of(rt, alloc, texts)?)?;
    let segment = Arc::new(alloc, segment)?;
    Ok(publisher.put(rt, segment, drawer)?)
}

/// Publishes the first two segments of the list as one.
pub(super) fn join_first<J: Index, R: Threads + Wait + Sync>(
    rt: &R,
    alloc: Global,
    publisher: &mut Publisher<J>,
) -> Result<Note<J>, Fail> {
    publisher.retry(rt)?;
    let both = join_segments(rt, alloc, publisher.list())?;
    Ok(publisher.replace(rt, 0, both)?)
}

/// A game of these players, with this number in its id.
fn text(alloc: Global, number: usize, names: Names) -> Result<Placed, AllocError> {
    let (white, black) = names;
    let text = format!(in alloc;
        "[Event \"Rated blitz game\"]\n[Site \"https://lichess.org/{number:08}\"]\n\
         [White \"{white}\"]\n[Black \"{black}\"]\n[Result \"1-0\"]\n[UTCDate \"2020.01.15\"]\n\
         [WhiteElo \"1500\"]\n[BlackElo \"1400\"]\n[TimeControl \"300+0\"]\n\n1. e4 e5 1-0\n"
    )?;
    Ok(Placed {
        place: 0,
        bytes: Bytes::from_vec(text.into_bytes()),
    })
}

/// The tally of a batch of texts, where they are few and short.
fn tally_of<R: Threads + Sync>(rt: &R, alloc: Global, texts: Vec<Placed>) -> Result<Tally, Fail> {
    if 512 < texts.len() || !are_short(texts.as_slice()) {
        return Err(Fail::from("many texts, or a long one"));
    }
    let tally = tally(rt, alloc, texts, 1, &FreeGate)?.tally;
    Ok(tally.ok_or("no game")?)
}

fn are_short(texts: &[Placed]) -> bool
    ensures { IsTrue result → All (λ text. length text.bytes ≤ 65536) texts.now }
{
    for text in texts {
        if 65_536 < text.bytes.len() {
            return false;
        }
    }
    true
}

/// The segment of a batch that stands at this place in the journal.
fn segment_of(alloc: Global, first: u32, tally: Tally) -> Result<Segment, Fail>
    ensures first { IfOk result (λ segment. segment.span.first ≡ first) }
    ensures one { IfOk result (λ segment. length segment.span.batches ≡ 1) }
{
    if first == u32::MAX {
        return Err(Fail::from("no place behind the batch"));
    }
    Ok(Segment::of(alloc, first, tally)?)
}

/// The segment of both, where they can be merged.
fn merge_both<R: Threads + Sync>(
    rt: &R,
    alloc: Global,
    left: &Segment,
    right: &Segment,
) -> Result<Segment, Fail>
    ensures { IfOk result (λ segment. segment.span
        ≡ span_of_both left.now.span right.now.span) }
{
    let (before, behind) = (left.span(), right.span());
    if u64::from(before.first) + u64::from(before.count) != u64::from(behind.first)
        || 262_144 < u64::from(left.games()) + u64::from(right.games())
    {
        return Err(Fail::from("two segments that can't be merged"));
    }
    Ok(segment_merge::merge(rt, alloc, left, right, 1, &FreeGate)?)
}

/// The first two segments of the list as one.
fn join_segments<R: Threads + Sync>(
    rt: &R,
    alloc: Global,
    list: &List,
) -> Result<SharedSegment, Fail>
    ensures { IfOk result (λ segment. CanJoin list.now 0 (arc_value segment)) }
{
    let segments = list.segments();
    if segments.len() < 2 {
        return Err(Fail::from("not two segments"));
    }
    let both = merge_both(rt, alloc, &segments[0], &segments[1])?;
    Ok(Arc::new(alloc, both)?)
}
