//! The games that an index tells of a player, however it came to cover them.
ghost use Rattle.std.specs.Prelude.{◌≡◌, ◌<◌, IfOk, OnOk};
ghost use Rattle.explorer_model.specs.Timeline.{IsPrefix};
ghost use Rattle.published_index.specs.Cover.{journal_of};

use super::lists::{Names, join_first, name_index, put};
use explorer_model::chess::Color;
use explorer_model::text::Name;
use player_index::PlayerIndex;
use published_index::{Drawer, Index, List, Pass, Publisher, Snapshot, Unnamed, open_list};
use segment_blocks::Steps;
use std::alloc::{AllocError, Global};
use std::marker::Brand;
use std::process::Abort;
use std::sync::Wait;
use std::sync::ledger::{Blank, Ledger};
use std::test::Fail;
use std::thread::Threads;

/// Five batches, with the games of numbers 0 and 1, 2, 3 and 4, 5, and 6 and 7.
const BATCHES: [&[Names]; 5] = [
    &[("Ann", "Bob"), ("ANN", "ann")],
    &[("bob", "aNN")],
    &[("Ärger", "Ann"), ("ärger", "Bob")],
    &[("Anna", "An")],
    &[("ann", "ÄRGER"), ("Cid", "Anne")],
];

/// A player, a colour, and the numbers of the games, worked out by hand.
const RANGES: [(&str, Color, &str); 18] = [
    // one name in three spellings, which has both colours in game 1
    ("Ann", Color::White, " 0 1 6"),
    ("ANN", Color::White, " 0 1 6"),
    ("aNn", Color::Black, " 1 2 3"),
    ("Bob", Color::White, " 2"),
    ("bob", Color::Black, " 0 4"),
    // the case of ASCII letters alone does not count
    ("Ärger", Color::White, " 3"),
    ("ÄRGER", Color::White, " 3"),
    ("Ärger", Color::Black, " 6"),
    ("ärger", Color::White, " 4"),
    ("ärger", Color::Black, ""),
    // a name that begins another is not that one
    ("An", Color::White, ""),
    ("An", Color::Black, " 5"),
    ("Anna", Color::White, " 5"),
    ("Anne", Color::Black, " 7"),
    ("Annex", Color::Black, ""),
    ("cid", Color::White, " 7"),
    // before all names, and behind them
    ("", Color::White, ""),
    ("üÜ", Color::Black, ""),
];

/// When the index is extended: at an `x`. The next batch is put at a `p`, and at a `j` the first two
/// segments become one.
const WAYS: [&str; 5] = [
    "pppppx",
    "pxpxpxpxpx",
    "xpxpppxpx",
    "ppxjppxjjpx",
    "pppppjjjjxx",
];

/// Covers what the pass sees.
pub(super) fn extend<J: Index>(
    alloc: Global,
    pass: &mut Pass<J>,
    index: &mut PlayerIndex,
) -> Result<Snapshot, Fail>
    requires { IsPrefix index.old.batches pass.old.seen }
    ensures all { OnOk result (index.new.batches ≡ pass.new.seen) }
    ensures seen { IfOk result (λ snapshot. pass.new.seen ≡ journal_of snapshot) }
{
    let snapshot = pass.enter(alloc)?;
    index.extend(alloc, &snapshot)?;
    Ok(snapshot)
}

/// An index that is extended in this way, while batches are put and joined.
fn extend_index<J: Index, R: Threads + Wait + Sync>(
    rt: &R,
    alloc: Global,
    publisher: &mut Publisher<J>,
    drawer: &mut Drawer<J>,
    pass: &mut Pass<J>,
    way: &str,
) -> Result<PlayerIndex, Fail>
    ensures { IfOk result (λ index. IsPrefix index.batches pass.new.seen) }
{
    let mut index = PlayerIndex::new(alloc);
    let mut batches = BATCHES.iter();
    for step in way.bytes() {
        match step {
            b'p' => {
                let games = batches.next().ok_or("a batch")?;
                let _note = put(rt, alloc, publisher, drawer, games)?;
            }
            b'j' => {
                let _note = join_first(rt, alloc, publisher)?;
            }
            _ => {
                let _snapshot = extend(alloc, pass, &mut index)?;
            }
        }
    }
    Ok(index)
}

/// The numbers of the games in which the player has the colour, each behind a space.
fn numbers<L: Ledger>(
    alloc: Global,
    index: &PlayerIndex,
    snapshot: &Snapshot,
    asked: (&str, Color),
    blank: Blank,
) -> Result<String, AllocError>
    requires covers { index.now.batches ≡ journal_of snapshot.now }
    requires name { blank.name ≡ L.name }
    requires parts { blank.parts ≡ L.parts }
    requires some { 0 < L.parts }
{
    let (player, color) = asked;
    let player = Name::from_string(String::from_str(alloc, player)?);
    let mut steps = Steps::<L>::new(blank);
    let mut text = String::new(alloc);
    for entry in index.range(snapshot, &player, color, &mut steps) {
        let number = entry.number;
        text.push_str(format!(in alloc; " {number}")?.as_str())?;
    }
    Ok(text)
}

/// Asserts that the index tells the ranges of the table.
fn assert_ranges<R: Abort>(
    rt: &R,
    alloc: Global,
    index: &PlayerIndex,
    snapshot: &Snapshot,
    way: &str,
) -> Result<(), Fail>
    requires { index.now.batches ≡ journal_of snapshot.now }
{
    assert_eq!(rt; index.covered(), 5, "{way}");
    for (player, color, wanted) in RANGES {
        let told = numbers::<Brand>(alloc, index, snapshot, (player, color), Blank::new(1))?;
        assert_eq!(rt; told.as_str(), wanted, "{player}, {color:?}, {way}");
    }
    Ok(())
}

fn tells_ranges<J: Index, R: Threads + Wait + Abort + Sync>(
    rt: &R,
    alloc: Global,
    publisher: &mut Publisher<J>,
    drawer: &mut Drawer<J>,
    mut passes: Vec<Pass<J>>,
    way: &str,
) -> Result<(), Fail> {
    let mut pass = passes.pop().ok_or("a pass")?;
    let mut index = extend_index(rt, alloc, publisher, drawer, &mut pass, way)?;
    let snapshot = extend(alloc, &mut pass, &mut index)?;
    assert_ranges(rt, alloc, &index, &snapshot, way)
}

fn goes_a_way<J: Index, R: Threads + Wait + Abort + Sync>(
    rt: &R,
    alloc: Global,
    unnamed: Unnamed,
    number: usize,
) -> Result<(), Fail>
    requires { unnamed.name ≡ J.name }
{
    let (mut publisher, passes, mut drawer) = name_index::<J, R>(rt, alloc, unnamed)?;
    let told = match WAYS.get(number) {
        Some(way) => tells_ranges(rt, alloc, &mut publisher, &mut drawer, passes, way),
        None => Err(Fail::from("a way")),
    };
    publisher.close(rt);
    told
}

/// Goes the way of this number over a new list.
fn begins_a_way<R: Threads + Wait + Abort + Sync>(
    rt: &R,
    alloc: Global,
    number: usize,
) -> Result<(), Fail> {
    let unnamed = open_list(rt, alloc, List::of(Vec::new(alloc)), 1)?;
    goes_a_way::<Brand, _>(rt, alloc, unnamed, number)
}

#[test]
fn index_tells_the_same_ranges_however_it_was_extended(rt: HostRuntime) -> Result<(), Fail> {
    for number in 0..WAYS.len() {
        begins_a_way(&rt, rt.alloc(), number)?;
    }
    Ok(())
}
