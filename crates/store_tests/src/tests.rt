//! Segments of worked games.
mod answers;
mod commits;
mod cuts;
mod desk;
mod held;
mod labels;
mod merges;
mod published;
mod readies;
mod samples;
mod segments;
mod spills;
mod stores;

ghost use Rattle.std.specs.Prelude.{◌≡◌, ◌≤◌, ◌<◌, length, IsTrue, IfOk};
ghost use Rattle.std.specs.List.{All};
ghost use Rattle.segment_blocks.specs.Segment.{span_of_both};

use batch_tally::tally;
use explorer_model::archive::{Bytes, Placed};
use outside::{FreeGate, Gate};
use segment_blocks::Segment;
use std::alloc::{AllocError, Global};
use std::test::Fail;
use std::thread::Threads;
use tally_rows::Tally;

/// How many games a whole batch has.
const BATCH: u32 = 512;

/// A worked game that White won, with this number as its id, of a month from January 2010 on.
fn text(alloc: Global, number: u32, months: u32, moves: &str) -> Result<Placed, AllocError> {
    let (year, month) = (2010 + months / 12, 1 + months % 12);
    let text = format!(in alloc;
        "[Event \"Rated blitz game\"]\n[Site \"https://lichess.org/{number:08}\"]\n\
         [White \"Ann\"]\n[Black \"Bob\"]\n[Result \"1-0\"]\n[UTCDate \"{year}.{month:02}.15\"]\n\
         [WhiteElo \"1500\"]\n[BlackElo \"1400\"]\n[TimeControl \"300+0\"]\n\n{moves} 1-0\n"
    )?;
    Ok(Placed {
        place: u64::from(number),
        bytes: Bytes::from_vec(text.into_bytes()),
    })
}

/// The tally of the texts, where they are few and short.
fn tally_of<R: Threads + Sync>(rt: &R, alloc: Global, texts: Vec<Placed>) -> Result<Tally, Fail> {
    if 512 < texts.len() || !are_short(texts.as_slice()) {
        return Err(Fail::from("many texts, or a long one"));
    }
    let tally = tally(rt, alloc, texts, 1, &FreeGate)?.tally;
    Ok(tally.ok_or("no game")?)
}

fn are_short(texts: &[Placed]) -> bool
    ensures { IsTrue result → All (λ text. length text.bytes ≤ 65536) texts.now }
{
    for text in texts {
        if 65_536 < text.bytes.len() {
            return false;
        }
    }
    true
}

/// The tally of a whole batch. All its games begin with e4, in so many months, and each second one
/// goes on with e5, the others with c5.
fn tally_of_batch<R: Threads + Sync>(rt: &R, alloc: Global, months: u32) -> Result<Tally, Fail>
    requires { 0 < months }
{
    let mut texts = Vec::new(alloc);
    for number in 0..BATCH {
        let moves = if number % 2 == 0 {
            "1. e4 e5"
        } else {
            "1. e4 c5"
        };
        texts.push(text(alloc, number, number % months, moves)?)?;
    }
    tally_of(rt, alloc, texts)
}

/// The segment of a batch that stands at this place in the journal.
fn segment_of(alloc: Global, first: u32, tally: Tally) -> Result<Segment, Fail>
    ensures first { IfOk result (λ segment. segment.span.first ≡ first) }
    ensures one { IfOk result (λ segment. length segment.span.batches ≡ 1) }
{
    if first == u32::MAX {
        return Err(Fail::from("no place behind the batch"));
    }
    Ok(Segment::of(alloc, first, tally)?)
}

/// The segment of a batch of one game.
fn one_game<R: Threads + Sync>(
    rt: &R,
    alloc: Global,
    first: u32,
    moves: &str,
) -> Result<Segment, Fail>
    ensures first { IfOk result (λ segment. segment.span.first ≡ first) }
    ensures one { IfOk result (λ segment. length segment.span.batches ≡ 1) }
{
    let mut texts = Vec::new(alloc);
    texts.push(text(alloc, first, 0, moves)?)?;
    segment_of(alloc, first, tally_of(rt, alloc, texts)?)
}

/// The segment of both, where they can be merged.
fn merge_both<R: Threads + Sync, G: Gate>(
    rt: &R,
    alloc: Global,
    left: &Segment,
    right: &Segment,
    workers: usize,
    gate: &G,
) -> Result<Segment, Fail>
    ensures { IfOk result (λ segment. segment.span
        ≡ span_of_both left.now.span right.now.span) }
{
    let (before, behind) = (left.span(), right.span());
    if u64::from(before.first) + u64::from(before.count) != u64::from(behind.first)
        || 262_144 < u64::from(left.games()) + u64::from(right.games())
        || workers == 0
        || 16 < workers
    {
        return Err(Fail::from("two segments that can't be merged"));
    }
    Ok(segment_merge::merge(rt, alloc, left, right, workers, gate)?)
}
