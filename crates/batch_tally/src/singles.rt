//! What a game counts for in each position that it visits.
ghost use Rattle.std.specs.Prelude.{◌≡◌, ◌<◌, [], ◌++◌, map, take, drop, IfOk, OnOk};
ghost use Rattle.std.specs.Arc.{arc_value};
ghost use Rattle.std.specs.List.{list_any};
ghost use Rattle.explorer_model.specs.Chess.{IsValid};
ghost use Rattle.explorer_model.specs.Visits.{AreLegal};
ghost use Rattle.tally_rows.specs.Games.{has_key, first_steps, single_at};
ghost use Rattle.tally_rows.specs.Tallied.{mover_rating};
ghost use Rattle.batch_tally.specs.Singles.{ArePushed, singles_of, word_of, words_of};
ghost use Rattle.batch_tally.specs.Marks.{mark_of, AreMarked};
ghost use Rattle.batch_tally.specs.Steps.{step_as};

use crate::step::Step;
use crate::steps::steps_of;
use explorer_model::archive::{Classes, Game};
use packed_keys::PositionKey;
use std::alloc::{AllocError, Global};
use std::sync::Arc;
use tally_rows::{RowKey, Single, first_word};

/// What the games of a run count for, those of one game behind those of another: one list for all
/// costs less than a list for each.
#[derive(Debug, Drop)]
pub struct RunCount {
    /// A single for each position of a game, at its first visit, under the number 0.
    pub singles: Vec<Single>,
    /// The first word of the key of each single, which tells whether a range of keys has it.
    pub words: Vec<u64>,
}

impl RunCount {
    /// The word of one of so many singles from a place on; 0 without one. The word of the last, spread
    /// by the multiplier 2 to the 64 by the golden ratio, tells which: of each game another one.
    pub fn sample_of(&self, from: usize, number: usize) -> u64 {
        if number == 0 {
            return 0;
        }
        let last = self.word_at(from.wrapping_add(number - 1));
        let spread = last.wrapping_mul(0x9E37_79B9_7F4A_7C15) / 0x1_0000_0000;
        self.word_at(from.wrapping_add(spread as usize % number))
    }

    /// The word at a place; 0 behind the last.
    fn word_at(&self, place: usize) -> u64 {
        self.words.get(place).copied().unwrap_or(0)
    }
}

/// What a game counts for: so many singles of its run, from a place on.
#[derive(Debug, Drop)]
pub struct Count {
    pub of_run: Arc<RunCount>,
    pub from: usize,
    pub number: usize,
    /// The word of one of them, for the sample that ranges of keys are cut by.
    pub sample: u64,
}

impl Count {
    /// The singles of the game.
    pub fn singles(&self) -> &[Single]
        ensures { result.now ≡ singles_of self.now }
    {
        part_of(self.of_run.singles.as_slice(), self.from, self.number)
    }

    /// The words by which the game's singles are sorted first.
    pub fn words(&self) -> &[u64]
        ensures { result.now ≡ words_of self.now }
    {
        part_of(self.of_run.words.as_slice(), self.from, self.number)
    }
}

/// So many items from a place on.
pub fn part_of<T>(items: &[T], from: usize, number: usize) -> &[T]
    ensures { result.now ≡ take number (drop from items.now) }
{
    let rest = &items[from.min(items.len())..];
    &rest[..number.min(rest.len())]
}

/// What the games of a run count for, of which these are the singles.
pub fn run_count(alloc: Global, singles: Vec<Single>) -> Result<Arc<RunCount>, AllocError>
    ensures singles { IfOk result (λ run. (arc_value run).singles ≡ singles) }
    ensures words { IfOk result (λ run. (arc_value run).words.items
        ≡ map word_of (arc_value run).singles.items) }
{
    let words = words_of(alloc, singles.as_slice())?;
    Ok(Arc::new(alloc, RunCount { singles, words })?)
}

/// Puts what a game counts for behind the others.
pub fn push_singles(alloc: Global, singles: &mut Vec<Single>, game: &Game) -> Result<(), AllocError>
    requires valid { IsValid game.now.root }
    requires legal { AreLegal game.now }
    ensures { OnOk result (ArePushed game.now singles.old.items singles.new.items) }
{
    let steps = steps_of(alloc, &game.root, game.moves.as_slice())?;
    push_first_visits(singles, &game.classes, steps.as_slice())
}

/// The first word of the key of each single.
fn words_of(alloc: Global, singles: &[Single]) -> Result<Vec<u64>, AllocError>
    ensures { IfOk result (λ words. words.items ≡ map word_of singles.now) }
{
    let mut words = Vec::with_capacity(alloc, singles.len())?;
    for single in singles {
        words.push(first_word(&single.row_key.key))?;
    }
    Ok(words)
}

/// Puts what a game counts for at each of its steps that is the first one to its position behind
/// the others.
fn push_first_visits(
    singles: &mut Vec<Single>,
    classes: &Classes,
    steps: &[Step],
) -> Result<(), AllocError>
    ensures { OnOk result (singles.new.items ≡ singles.old.items
        ++ map (single_at classes.now 0) (first_steps [] (map step_as steps.now))) }
{
    let mut marks = [false; 256];
    for place in 0..steps.len() {
        let step = &steps[place];
        let known = is_visited(&steps[..place], step, &marks);
        marks[mark_of(step)] = true;
        if !known {
            singles.push(single_of(classes, step))?;
        }
    }
    Ok(())
}

/// Has one of the steps, which are marked, the key of the one that is sought? Most are told apart by their marks.
fn is_visited(steps: &[Step], sought: &Step, marks: &[bool; 256]) -> bool
    requires { AreMarked marks.now steps.now }
    ensures { result ≡ list_any (has_key sought.now.key) (map step_as steps.now) }
{
    if !marks[mark_of(sought)] {
        return false;
    }
    has_key(steps, sought)
}

/// The mark of a step. The multiplier, 2 to the 64 by the golden ratio, spreads tags.
fn mark_of(step: &Step) -> usize
    ensures value { result ≡ mark_of step.now.tag }
    ensures small { result < 256 }
{
    (step.tag.wrapping_mul(0x9E37_79B9_7F4A_7C15) / 0x0100_0000_0000_0000) as usize
}

/// One of the steps has the key of the one that is sought.
fn has_key(steps: &[Step], sought: &Step) -> bool
    ensures { result ≡ list_any (has_key sought.now.key) (map step_as steps.now) }
{
    for step in steps {
        if is_at(step, sought) {
            return true;
        }
    }
    false
}

/// Have the two steps one key? Most that differ are told apart by their tags.
fn is_at(step: &Step, sought: &Step) -> bool
    ensures { result ≡ has_key sought.now.key (step_as step.now) }
{
    if step.tag != sought.tag {
        return false;
    }
    step.key == sought.key
}

/// What the game counts for at a step.
fn single_of(classes: &Classes, step: &Step) -> Single
    ensures { result ≡ single_at classes.now 0 (step_as step.now) }
{
    Single {
        row_key: RowKey {
            key: step.key,
            next: step.next,
            month: classes.month,
            speed: classes.speed,
            group: classes.group,
        },
        number: 0,
        outcome: classes.outcome,
        rating: mover_rating(classes, &step.key),
        sum: u32::from(classes.white.rating) + u32::from(classes.black.rating),
    }
}

/// The rating of the player who is to move in the position of a key.
fn mover_rating(classes: &Classes, key: &PositionKey) -> u16
    ensures { result ≡ mover_rating key.now classes.now }
{
    if key[32] % 2 == 1 {
        classes.black.rating
    } else {
        classes.white.rating
    }
}
