//! Answers from each way to cut ten batches into segments.
ghost use Rattle.std.specs.Prelude.{◌≡◌, ◌<◌, ◌≤◌, length};
ghost use Rattle.explorer_model.specs.Chess.{IsValid};

use super::{merge_both, segment_of, tally_of};
use explorer_model::answer::{Found, Totals};
use explorer_model::archive::{Bytes, Placed};
use explorer_model::query::Query;
use lookup::look_segments;
use outside::FreeGate;
use published_index::SharedSegment;
use query_params::query;
use segment_blocks::Steps;
use std::alloc::{AllocError, Global};
use std::marker::Brand;
use std::process::Abort;
use std::str;
use std::sync::Arc;
use std::sync::ledger::{Blank, Ledger};
use std::test::Fail;
use std::thread::Threads;

const RESULTS: [&str; 3] = ["1-0", "1/2-1/2", "0-1"];

const MOVES: [&str; 4] = ["1. e4 e5", "1. e4 c5", "1. d4 d5", "1. e4 e5 2. Nf3"];

/// A game whose result, moves, month, ratings and time control are told by its number.
fn varied_game(alloc: Global, number: u32) -> Result<Placed, AllocError> {
    let (result, moves) = (RESULTS[(number % 3) as usize], MOVES[(number % 4) as usize]);
    let (month, time) = (1 + number % 5, 60 + number % 2 * 240);
    let (white, black) = (1000 + number % 32 * 50, 1100 + number % 7 * 100);
    let text = format!(in alloc;
        "[Event \"Rated game\"]\n[Site \"https://lichess.org/{number:08}\"]\n\
         [White \"Ann\"]\n[Black \"Bob\"]\n[Result \"{result}\"]\n[UTCDate \"2020.{month:02}.15\"]\n\
         [WhiteElo \"{white}\"]\n[BlackElo \"{black}\"]\n[TimeControl \"{time}+0\"]\n\n\
         {moves} {result}\n"
    )?;
    Ok(Placed {
        place: 0,
        bytes: Bytes::from_vec(text.into_bytes()),
    })
}

/// The batch at this place. It has one to three games, whose numbers begin with three times the
/// place.
fn batch<R: Threads + Sync>(rt: &R, alloc: Global, place: u32) -> Result<SharedSegment, Fail>
    requires { place < 10 }
{
    let mut texts = Vec::new(alloc);
    for game in 0..1 + place % 3 {
        texts.push(varied_game(alloc, 3 * place + game)?)?;
    }
    let tally = tally_of(rt, alloc, texts)?;
    Ok(Arc::new(alloc, segment_of(alloc, place, tally)?)?)
}

fn ten_batches<R: Threads + Sync>(rt: &R, alloc: Global) -> Result<Vec<SharedSegment>, Fail> {
    let mut batches = Vec::new(alloc);
    for place in 0..10 {
        batches.push(batch(rt, alloc, place)?)?;
    }
    Ok(batches)
}

/// The batches as segments, of which one begins at batch `n` where bit `n` is set, and at batch 0.
fn cut<R: Threads + Sync>(
    rt: &R,
    alloc: Global,
    batches: &[SharedSegment],
    begins: u32,
) -> Result<Vec<SharedSegment>, Fail> {
    let mut segments = Vec::new(alloc);
    let mut rest = begins;
    for batch in batches {
        let last = if rest % 2 == 0 { segments.pop() } else { None };
        segments.push(join_last(rt, alloc, last, batch)?)?;
        rest /= 2;
    }
    Ok(segments)
}

/// The last segment and the batch behind it as one, or the batch alone.
fn join_last<R: Threads + Sync>(
    rt: &R,
    alloc: Global,
    last: Option<SharedSegment>,
    batch: &SharedSegment,
) -> Result<SharedSegment, Fail> {
    match last {
        Some(last) => {
            let both = merge_both(rt, alloc, &last, batch, 1, &FreeGate)?;
            Ok(Arc::new(alloc, both)?)
        }
        None => Ok(Arc::try_clone(batch)?),
    }
}

/// What is found in the journal of the segments, as text.
fn told_by(alloc: Global, segments: &[SharedSegment], asked: &str) -> Result<String, Fail> {
    let Ok(query) = query(alloc, asked.as_bytes()) else {
        return Err(Fail::from("a query"));
    };
    if 64 < segments.len() {
        return Err(Fail::from("at most 64 segments"));
    }
    Ok(told_in(alloc, segments, &query)?)
}

fn told_in(alloc: Global, segments: &[SharedSegment], query: &Query) -> Result<String, AllocError>
    requires valid { IsValid query.now.at }
    requires top { query.now.top ≤ 4 }
    requires recent { query.now.recent ≤ 4 }
    requires few { length segments.now ≤ 64 }
{
    told_uncounted::<Brand>(alloc, segments, query, Blank::new(1))
}

/// The same, where no steps are counted.
fn told_uncounted<L: Ledger>(
    alloc: Global,
    segments: &[SharedSegment],
    query: &Query,
    blank: Blank,
) -> Result<String, AllocError>
    requires valid { IsValid query.now.at }
    requires top { query.now.top ≤ 4 }
    requires recent { query.now.recent ≤ 4 }
    requires few { length segments.now ≤ 64 }
    requires name { blank.name ≡ L.name }
    requires parts { blank.parts ≡ L.parts }
    requires some { 0 < L.parts }
{
    let mut steps = Steps::<L>::new(blank);
    let found = look_segments(alloc, segments, query, &mut steps)?;
    text_of_found(alloc, &found)
}

/// All games, the games of each move, and then the whole answer.
fn text_of_found(alloc: Global, found: &Found) -> Result<String, AllocError> {
    let mut text = String::new(alloc);
    push_totals(alloc, &mut text, "all", &found.totals)?;
    for line in found.moves.as_slice() {
        let san = str::from_utf8(line.san.as_slice()).unwrap_or("?");
        push_totals(alloc, &mut text, san, &line.totals)?;
    }
    text.push_str(format!(in alloc; "{found:?}")?.as_str())?;
    Ok(text)
}

fn push_totals(
    alloc: Global,
    text: &mut String,
    name: &str,
    totals: &Totals,
) -> Result<(), AllocError> {
    let (white, draws, black) = (totals.white, totals.draws, totals.black);
    text.push_str(format!(in alloc; "{name} {white}/{draws}/{black} ")?.as_str())
}

/// Each way to cut the batches gives this answer.
fn all_cuts_give<R: Threads + Abort + Sync>(
    rt: &R,
    alloc: Global,
    batches: &[SharedSegment],
    asked: &str,
    answer: &str,
) -> Result<(), Fail> {
    for way in 0..512u32 {
        let segments = cut(rt, alloc, batches, 2 * way)?;
        assert_eq!(rt; segments.len(), 1 + way.count_ones() as usize);
        let text = told_by(alloc, segments.as_slice(), asked)?;
        assert!(rt; text.as_str() == answer, "{asked}, cut {way:b}");
    }
    Ok(())
}

// Counted by hand: of the numbers 0, 3, 4, 6, 7, 8, 9, 12, 13, 15, 16, 17, 18, 21, 22, 24, 25, 26
// and 27 those are won by White that three divides.
const ANSWERS: [(&str, &str); 2] = [
    ("history=true", "all 10/6/3 e4 8/5/2 d4 2/1/1 "),
    ("play=e2e4&since=2020-03", "all 5/3/2 e5 4/2/1 c5 1/1/1 "),
];

#[test]
fn each_way_to_cut_ten_batches_answers_alike(rt: HostRuntime) -> Result<(), Fail> {
    let batches = ten_batches(&rt, rt.alloc())?;
    for (asked, wanted) in ANSWERS {
        let whole = cut(&rt, rt.alloc(), batches.as_slice(), 0)?;
        let answer = told_by(rt.alloc(), whole.as_slice(), asked)?;
        assert!(rt; answer.as_str().starts_with(wanted), "{answer}");
        all_cuts_give(&rt, rt.alloc(), batches.as_slice(), asked, answer.as_str())?;
    }
    Ok(())
}
