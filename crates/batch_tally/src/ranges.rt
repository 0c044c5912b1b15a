//! The rows of accepted games, made in ranges of keys side by side.
ghost use Rattle.std.specs.Prelude.{◌≡◌, ℕ, ◌++◌, ◌+◌, ◌*◌, ◌^◌, ◌≤◌, ◌<◌, Result, Vec, map, length, vec_len, slice_index_or, OnOk, IfOk};
ghost use Rattle.std.specs.List.{All, filter, flat_map};
ghost use Rattle.explorer_model.specs.Imports.{group_limit};
ghost use Rattle.tally_rows.specs.Within.{FollowFrom};
ghost use Rattle.tally_rows.specs.declared.key_range.KeyRange.{KeyRange};
ghost use Rattle.tally_rows.specs.declared.row.Row.{Row};
ghost use Rattle.batch_tally.specs.Accepting.{IsCounted};
ghost use Rattle.batch_tally.specs.Singles.{AreRowsIn, AreRowsOf, is_kept, numbered, singles_in, singles_of, word_of, words_of};
ghost use Rattle.std.specs.declared.alloc.AllocError.{AllocError};
ghost use Rattle.std.specs.declared.alloc.Global.{Global};

use crate::accepting::Accepted;
use crate::singles::Count;
use side_by_side::{Workers, all_made, map_taken};
use std::alloc::{AllocError, Global};
use std::thread::Threads;
use tally_rows::{CountedRow, KeyRange, Single, rows_of};

/// The rows of games, whose numbers are their places, in parts, one after another. There are as many
/// leaves as workers; they work side by side, and each makes the rows of a range of keys after those
/// of another, as long as a range is left.
pub fn row_parts<R: Threads + Sync>(
    rt: &R,
    alloc: Global,
    games: &[Accepted],
    workers: Workers,
) -> Result<Vec<Vec<CountedRow>>, AllocError>
    requires counted { All IsCounted games.now }
    requires few { length games.now ≤ group_limit }
    ensures { IfOk result
        (λ parts. AreRowsOf games.now (flat_map (λ part. part.items) parts.items)) }
{
    tally_rows::laws::ranges_are_tallied();
    let count = count_ranges(workers);
    let ranges = ranges_of(alloc, games, count)?;
    let singles = count_singles(games);
    let results = rows_of_ranges(rt, alloc, games, ranges, workers, singles)?;
    all_made(alloc, results)
}

/// How many ranges there are for so many workers: three for each, of which the first are long and the
/// last short, and one where no other works.
fn count_ranges(workers: Workers) -> usize
    ensures { 1 ≤ result }
{
    if workers.count == 1 {
        return 1;
    }
    workers.count.saturating_mul(3)
}

/// The rows in each range, where all games have so many singles.
fn rows_of_ranges<R: Threads + Sync>(
    rt: &R,
    alloc: Global,
    games: &[Accepted],
    ranges: Vec<KeyRange>,
    workers: Workers,
    singles: usize,
) -> Result<Vec<Result<Vec<CountedRow>, AllocError>>, AllocError>
    requires counted { All IsCounted games.now }
    requires few { length games.now ≤ group_limit }
    ensures count { IfOk result (λ results. length results.items ≡ length ranges.items) }
    ensures results { IfOk result (λ results.
        (n : ℕ) (d : Result (Vec Row Global) AllocError) (r : KeyRange) → n < length ranges.items
        → IfOk (slice_index_or results.items n d) (λ rows.
        AreRowsIn games.now (slice_index_or ranges.items n r) rows.items)) }
{
    let ranges = ranges.as_slice();
    let enter = |_leaf: usize| {};
    let within = |n: usize| -> Result<Vec<CountedRow>, AllocError>
        requires { All IsCounted games.now × (length games.now ≤ group_limit)
            × (n < length ranges.now) }
        ensures { IfOk result (λ rows. (r : KeyRange)
            → AreRowsIn games.entry.now (slice_index_or ranges.entry.now n r) rows.items) }
    { rows_within(alloc, games, ranges[n], room_of(singles, n, ranges.len())) };
    let results = map_taken(rt, alloc, workers.count, ranges.len(), &enter, &within)?;
    let _count = results.as_slice().len();
    Ok(results)
}

/// The rows in a range of keys.
fn rows_within(
    alloc: Global,
    games: &[Accepted],
    range: KeyRange,
    room: usize,
) -> Result<Vec<CountedRow>, AllocError>
    requires counted { All IsCounted games.now }
    requires few { length games.now ≤ group_limit }
    ensures { IfOk result (λ rows. AreRowsIn games.now range rows.items) }
{
    tally_rows::laws::singles_of_passing_keys();
    let singles = singles_within(alloc, games, range, room)?;
    rows_of(alloc, singles)
}

/// What games count for in a range of keys, under their numbers. There is room at once for so many
/// singles, which spares moving them while their list grows.
fn singles_within(
    alloc: Global,
    games: &[Accepted],
    range: KeyRange,
    room: usize,
) -> Result<Vec<Single>, AllocError>
    requires counted { All IsCounted games.now }
    requires few { length games.now ≤ group_limit }
    ensures singles { IfOk result (λ singles. singles.items ≡ singles_in range 0 games.now) }
    ensures few { IfOk result (λ singles. vec_len singles < 2 ^ 32) }
{
    let mut singles = Vec::with_capacity(alloc, room)?;
    let mut number = 0;
    for accepted in games {
        push_within(&mut singles, &accepted.count, range, number)?;
        number += 1;
    }
    Ok(singles)
}

/// Puts what a game of this number counts for in a range of keys behind the others. Words tell which
/// singles those are: the others, which another processor's cache may hold, are not read.
fn push_within(
    singles: &mut Vec<Single>,
    count: &Count,
    range: KeyRange,
    number: u32,
) -> Result<(), AllocError>
    requires { words_of count.now ≡ map word_of (singles_of count.now) }
    ensures { OnOk result (singles.new.items ≡ singles.old.items
        ++ filter (is_kept range) (map (numbered number) (singles_of count.now))) }
{
    let of_game = count.singles();
    let words = count.words();
    for place in 0..words.len() {
        let single = &of_game[place];
        if range.contains_word(words[place]) {
            singles.push(Single { number, ..*single })?;
        }
    }
    Ok(())
}

/// How many of all singles a range is likely to have at the most: a quarter more than its share, but
/// no more than there are.
fn room_of(singles: usize, range: usize, count: usize) -> usize
    requires { 1 ≤ count }
{
    let behind = left_from(singles, range.saturating_add(1), count);
    let share = left_from(singles, range, count).saturating_sub(behind);
    share.saturating_add(share / 4).min(singles)
}

/// How many of all are left for the ranges from this one on: the first ranges have the most, and
/// those that are taken last are short, so that none works long when the others have ended.
fn left_from(all: usize, range: usize, count: usize) -> usize
    requires { 1 ≤ count }
{
    let ranges = count.saturating_sub(range);
    let some = all.saturating_mul(ranges) / count;
    some.saturating_mul(ranges) / count
}

/// How many singles all games have.
fn count_singles(games: &[Accepted]) -> usize {
    let mut count = 0usize;
    for accepted in games {
        count = count.saturating_add(accepted.count.number);
    }
    count
}

/// So many ranges of keys that follow one another. Any do; the sample tells how many singles each has.
fn ranges_of(alloc: Global, games: &[Accepted], count: usize) -> Result<Vec<KeyRange>, AllocError>
    requires { 1 ≤ count }
    ensures { IfOk result (λ ranges. FollowFrom 0 ranges.items) }
{
    let words = sample_of(alloc, games, count)?;
    let mut ranges = Vec::with_capacity(alloc, count)?;
    let mut from = 0;
    for part in 1..count {
        let place = words
            .len()
            .saturating_sub(left_from(words.len(), part, count));
        let below = words.get(place).copied().unwrap_or(from).max(from);
        ranges.push(KeyRange {
            from,
            below: Some(below),
        })?;
        from = below;
    }
    ranges.push(KeyRange { from, below: None })?;
    Ok(ranges)
}

/// The first word of the key of one single of each game, the lesser ones first. One range, which has
/// all keys, needs none.
fn sample_of(alloc: Global, games: &[Accepted], ranges: usize) -> Result<Vec<u64>, AllocError> {
    let mut sample = Vec::new(alloc);
    if ranges == 1 {
        return Ok(sample);
    }
    for accepted in games {
        sample.push(accepted.count.sample)?;
    }
    sample.sort_unstable();
    Ok(sample)
}
