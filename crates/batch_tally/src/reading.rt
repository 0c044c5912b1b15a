//! Texts and the games that they hold.
ghost use Rattle.std.specs.Prelude.{◌≡◌, ℕ, ◌+◌, ◌^◌, ◌<◌, ◌≤◌, ◌++◌, List, length, slice_index_or, IfOk, OnOk};
ghost use Rattle.std.specs.List.{All, AllZip, flat_map};
ghost use Rattle.std.specs.Vec.Iter.{into_iter_items};
ghost use Rattle.explorer_model.specs.Cuts.{text_limit};
ghost use Rattle.batch_tally.specs.Reading.{AreContentsOf, AreRunsFrom, AreShort, IsPartOf, IsReadBehind, IsReadingOf, RunMade, readings_of, run_of};
ghost use Rattle.batch_tally.specs.declared.reading.Contents.{Contents};
ghost use Rattle.batch_tally.specs.declared.reading.Run.{Run};

use crate::kept_game::KeptGame;
use crate::singles::{Count, part_of, push_singles, run_count};
use crate::steps::STAGE_LIMIT;
use explorer_model::archive::{Bytes, Placed};
use explorer_model::fault::{GameFault, Stop};
use game_replay::laws::games_begin_validly;
use game_replay::replay;
use outside::Gate;
use side_by_side::{Workers, all_made, map_taken};
use std::alloc::{AllocError, Global};
use std::sync::Arc;
use std::thread::Threads;
use std::vec::IntoIter;
use tally_rows::Single;

/// A text with its game, or the first of its faults.
#[derive(Drop)]
pub struct Reading {
    /// The offset of the text in its stream.
    pub place: u64,
    pub text: Bytes,
    pub game: Result<KeptGame, GameFault>,
    /// Nothing without a game.
    pub count: Count,
}

/// What a text holds: its game, or the first of its faults.
#[derive(Drop)]
pub struct Contents {
    pub game: Result<KeptGame, GameFault>,
    /// Nothing without a game.
    pub count: Count,
}

/// What a text of a run holds, where the singles of its run are one list.
#[derive(Drop)]
pub struct RunPart {
    pub game: Result<KeptGame, GameFault>,
    /// The place of the first single of the game, and how many there are.
    pub from: usize,
    pub number: usize,
}

/// Texts that are read by one leaf at a time: so many, from a place on.
#[derive(Clone, Copy, Debug)]
pub struct Run {
    pub from: usize,
    pub number: usize,
}

/// The most texts that are read at a time: enough that taking them costs nothing beside, and that
/// few lists are given back.
const LONGEST: usize = 32;

/// And the fewest, but for the last ones: few enough that no leaf is long at work when the others
/// have ended.
const SHORTEST: usize = 2;

/// Each text of at most 65,536 bytes, replayed and counted. As many leaves as there are workers
/// work side by side, each of which goes through the gate and then takes the next texts, a run at
/// a time, as long as some are left.
pub fn read_all<R: Threads + Sync, G: Gate>(
    rt: &R,
    alloc: Global,
    texts: Vec<Placed>,
    workers: Workers,
    gate: &G,
) -> Result<Vec<Reading>, AllocError>
    requires short { All (λ text. length text.bytes ≤ text_limit) texts.items }
    ensures { IfOk result (λ readings. AllZip IsReadingOf texts.items readings.items) }
{
    let given = texts.as_slice();
    let runs = runs_of(alloc, given.len(), workers)?;
    let results = read_runs(rt, alloc, given, runs, workers, gate)?;
    let parts = all_made(alloc, results)?;
    readings_of(alloc, texts, parts)
}

/// Runs of so many texts, one after another. Any do; the first are long, and the last short.
fn runs_of(alloc: Global, texts: usize, workers: Workers) -> Result<Vec<Run>, AllocError>
    ensures { IfOk result (λ runs. AreRunsFrom 0 texts runs.items) }
{
    let mut runs = Vec::new(alloc);
    let mut from = 0;
    for _ in 0..texts {
        let left = texts - from;
        if left <= SHORTEST {
            break;
        }
        let number = share_of(left, workers);
        runs.push(Run { from, number })?;
        from += number;
    }
    let number = texts - from;
    runs.push(Run { from, number })?;
    Ok(runs)
}

/// How many texts the next run has of those that are left: a third of a worker's share of them. Where
/// no other works, it has as many as it may.
fn share_of(left: usize, workers: Workers) -> usize
    ensures { result ≤ left }
{
    if workers.count == 1 {
        return LONGEST.min(left);
    }
    let share = left / workers.count.saturating_mul(3);
    share.max(SHORTEST).min(LONGEST).min(left)
}

/// The contents of the texts of each run.
fn read_runs<R: Threads + Sync, G: Gate>(
    rt: &R,
    alloc: Global,
    texts: &[Placed],
    runs: Vec<Run>,
    workers: Workers,
    gate: &G,
) -> Result<Vec<Result<Vec<Contents>, AllocError>>, AllocError>
    requires { AreShort texts.now }
    ensures count { IfOk result (λ results. length results.items ≡ length runs.items) }
    ensures results { IfOk result (λ results.
        (n : ℕ) (d : RunMade) (r : Run) → n < length runs.items
        → IfOk (slice_index_or results.items n d) (λ made.
        AllZip AreContentsOf (run_of texts.now (slice_index_or runs.items n r)) made.items)) }
{
    let runs = runs.as_slice();
    let enter = |leaf: usize|
        requires { leaf + 1 < 2 ^ 64 }
    { gate.pass(leaf + 1) };
    let read_one = |n: usize| -> Result<Vec<Contents>, AllocError>
        requires { AreShort texts.now × (n < length runs.now) }
        ensures { IfOk result (λ made. (r : Run)
            → AllZip AreContentsOf (run_of texts.entry.now (slice_index_or runs.entry.now n r))
            made.items) }
    { read_run(alloc, texts, runs[n]) };
    let results = map_taken(rt, alloc, workers.count, runs.len(), &enter, &read_one)?;
    let _count = results.as_slice().len();
    Ok(results)
}

/// The contents of the texts of a run.
fn read_run(alloc: Global, texts: &[Placed], run: Run) -> Result<Vec<Contents>, AllocError>
    requires { AreShort texts.now }
    ensures { IfOk result (λ made. AllZip AreContentsOf (run_of texts.now run) made.items) }
{
    let of_run = part_of(texts, run.from, run.number);
    let mut parts = Vec::with_capacity(alloc, of_run.len())?;
    let mut singles = Vec::with_capacity(alloc, of_run.len().saturating_mul(STAGE_LIMIT))?;
    for text in of_run {
        parts.push(read(alloc, &mut singles, text)?)?;
    }
    contents_of(alloc, parts, singles)
}

/// What the text holds. The singles of its game go behind the others.
fn read(alloc: Global, singles: &mut Vec<Single>, text: &Placed) -> Result<RunPart, AllocError>
    requires { length text.now.bytes ≤ text_limit }
    ensures { IfOk result (IsReadBehind singles.old.items singles.new.items text.now) }
{
    games_begin_validly();
    let from = singles.as_slice().len();
    match replay(alloc, text.bytes.as_slice()) {
        Ok(game) => {
            push_singles(alloc, singles, &game)?;
            Ok(RunPart {
                game: Ok(KeptGame::of(game)),
                from,
                number: singles.as_slice().len() - from,
            })
        }
        Err(Stop::Fault(fault)) => Ok(RunPart {
            game: Err(fault),
            from,
            number: 0,
        }),
        Err(Stop::OutOfMemory) => Err(AllocError),
    }
}

/// The contents of texts, whose games have these singles.
fn contents_of(
    alloc: Global,
    parts: Vec<RunPart>,
    singles: Vec<Single>,
) -> Result<Vec<Contents>, AllocError>
    ensures { IfOk result (λ made. (texts : List Placed)
        → AllZip (IsPartOf singles.items) texts parts.items
        → AllZip AreContentsOf texts made.items) }
{
    let run = run_count(alloc, singles)?;
    let mut made = Vec::with_capacity(alloc, parts.len())?;
    for RunPart { game, from, number } in parts {
        let of_run = Arc::try_clone(&run)?;
        let sample = run.sample_of(from, number);
        let count = Count {
            of_run,
            from,
            number,
            sample,
        };
        made.push(Contents { game, count })?;
    }
    Ok(made)
}

/// Each text with its contents, which come in parts.
fn readings_of(
    alloc: Global,
    texts: Vec<Placed>,
    parts: Vec<Vec<Contents>>,
) -> Result<Vec<Reading>, AllocError>
    ensures { IfOk result (λ readings. readings.items
        ≡ readings_of texts.items (flat_map (λ part. part.items) parts.items)) }
{
    let mut readings = Vec::with_capacity(alloc, texts.len())?;
    let mut rest = texts.into_iter();
    for part in parts {
        put_together(&mut readings, &mut rest, part)?;
    }
    Ok(readings)
}

/// Puts the next texts with their contents behind the others.
fn put_together(
    readings: &mut Vec<Reading>,
    texts: &mut IntoIter<Placed, Global>,
    part: Vec<Contents>,
) -> Result<(), AllocError>
    ensures { OnOk result ((behind : List Contents)
        → readings.new.items ++ readings_of (into_iter_items texts.new) behind
        ≡ readings.old.items ++ readings_of (into_iter_items texts.old) (part.items ++ behind)) }
{
    for Contents { game, count } in part {
        let Some(Placed { place, bytes }) = texts.next() else {
            return Ok(());
        };
        readings.push(Reading {
            place,
            text: bytes,
            game,
            count,
        })?;
    }
    Ok(())
}
