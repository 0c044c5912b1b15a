//! Batches of worked games, tallied.
ghost use Rattle.std.specs.Prelude.{◌≤◌, length, IsTrue};
ghost use Rattle.std.specs.List.{All};

use batch_tally::{Tallying, tally};
use explorer_model::archive::{Bytes, Classes, Placed};
use explorer_model::fault::{GameFault, Refusal, TagFault, TagName, Why};
use outside::{FreeGate, Gate};
use std::alloc::{AllocError, Global};
use std::sync::atomic::{AtomicU64, Ordering};
use std::test::Fail;
use std::thread::{self, Threads};
use tally_rows::CountedRow;

/// A worked game with this id, and this movetext, which ends with `1-0`.
fn text(alloc: Global, place: u64, id: &str, movetext: &str) -> Result<Placed, AllocError> {
    rated_text(alloc, place, id, (1500, 1400), movetext)
}

/// The same with these ratings of White and Black.
pub(super) fn rated_text(
    alloc: Global,
    place: u64,
    id: &str,
    (white, black): (u16, u16),
    movetext: &str,
) -> Result<Placed, AllocError> {
    let text = format!(in alloc;
        "[Event \"Rated blitz game\"]\n[Site \"https://lichess.org/{id}\"]\n\
         [White \"Ann\"]\n[Black \"Bob\"]\n[Result \"1-0\"]\n[UTCDate \"2020.01.15\"]\n\
         [WhiteElo \"{white}\"]\n[BlackElo \"{black}\"]\n[TimeControl \"300+0\"]\n\n{movetext}\n"
    )?;
    Ok(Placed {
        place,
        bytes: Bytes::from_vec(text.into_bytes()),
    })
}

/// The tally of the texts, where they are few and short enough to be tallied.
pub(super) fn tally_texts<R: Threads + Sync, G: Gate>(
    rt: &R,
    alloc: Global,
    texts: Vec<Placed>,
    workers: usize,
    gate: &G,
) -> Result<Option<Tallying>, AllocError> {
    if workers == 0 || 16 < workers || 512 < texts.len() || !are_short(texts.as_slice()) {
        return Ok(None);
    }
    Ok(Some(tally(rt, alloc, texts, workers, gate)?))
}

fn are_short(texts: &[Placed]) -> bool
    ensures { IsTrue result → All (λ text. length text.bytes ≤ 65536) texts.now }
{
    for text in texts {
        if 65_536 < text.bytes.len() {
            return false;
        }
    }
    true
}

/// How many rows a tally has; 0 without one.
fn row_count(tallying: &Option<Tallying>) -> usize {
    match tallying {
        Some(
            Tallying {
                tally: Some(tally),
                ..
            },
        ) => count_rows(tally.row_parts()),
        _ => 0,
    }
}

fn count_rows(parts: &[Vec<CountedRow>]) -> usize {
    let mut count = 0usize;
    for part in parts {
        count = count.saturating_add(part.len());
    }
    count
}

#[test]
fn counts_a_game_once_in_each_position(rt: HostRuntime) -> Result<(), Fail> {
    let table = [
        ("1-0", 1),
        ("1. e4 c5?! 1-0", 3),
        // The starting position comes back with ply 4, and the move there is the first one.
        ("1. Nf3 Nf6 2. Ng1 Ng8 3. e4 1-0", 5),
    ];
    for (movetext, rows) in table {
        for workers in [1, 2, 8, 16] {
            let mut texts = Vec::new(rt.alloc());
            texts.push(text(rt.alloc(), 0, "aaaaaaa1", movetext)?)?;
            let tallying = tally_texts(&rt, rt.alloc(), texts, workers, &FreeGate)?;
            assert_eq!(rt; row_count(&tallying), rows);
        }
    }
    Ok(())
}

/// Two games with moves, one of them twice, and one that is refused but does not block its id.
fn mixed_games(alloc: Global) -> Result<Vec<Placed>, AllocError> {
    let mut texts = Vec::new(alloc);
    texts.push(text(alloc, 0, "aaaaaaa2", "1. e4 1/2")?)?;
    texts.push(text(alloc, 200, "aaaaaaa1", "1. e4 e5 1-0")?)?;
    texts.push(text(alloc, 400, "aaaaaaa2", "1. d4 1-0")?)?;
    texts.push(text(alloc, 600, "aaaaaaa1", "1. c4 1-0")?)?;
    Ok(texts)
}

#[test]
fn refuses_the_second_text_with_an_id(rt: HostRuntime) -> Result<(), Fail> {
    for workers in [1, 2, 8, 16] {
        let texts = mixed_games(rt.alloc())?;
        let Some(tallying) = tally_texts(&rt, rt.alloc(), texts, workers, &FreeGate)? else {
            assert!(rt; false);
            return Ok(());
        };
        assert!(rt; tallying.places.as_slice() == [200, 400].as_slice());
        assert!(rt;
            tallying.refused.as_slice()
                == [
                    Refusal {
                        place: 0,
                        why: Why::Game(GameFault::NoTermination),
                    },
                    Refusal {
                        place: 600,
                        why: Why::Twice { first: 200 },
                    },
                ]
                .as_slice()
        );
        // The start with e4 and with d4, e4 with e5, and the two last positions.
        assert_eq!(rt; row_count(&Some(tallying)), 5);
    }
    Ok(())
}

/// A hundred games of five openings, one of which is refused. The last thirty have the ids of the first.
fn repeating_games(alloc: Global) -> Result<Vec<Placed>, AllocError> {
    let openings = [
        "1. e4 e5 1-0",
        "1. e4 c5 1-0",
        "1. e5 1-0",
        "1. d4 d5 2. c4 1-0",
        "1. Nf3 Nf6 2. Ng1 Ng8 3. e4 1-0",
    ];
    let mut texts = Vec::new(alloc);
    for number in 0..100u64 {
        let id = format!(in alloc; "{:08}", number % 70)?;
        let movetext = openings[number as usize % openings.len()];
        texts.push(text(alloc, number, id.as_str(), movetext)?)?;
    }
    Ok(texts)
}

/// Texts with comments, of players at the bounds of rating groups, one that comes twice, and one
/// with a rating that no player has.
fn games_at_bounds(alloc: Global) -> Result<Vec<Placed>, AllocError> {
    let commented = "1. e4 { [%eval 0.17] [%clk 0:00:30] } 1... c5?! { [%clk 0:00:29] } 1-0";
    let games = [
        ("aaaaaaa1", (1500, 1400), commented),
        ("aaaaaaa2", (2499, 2500), "1. e4 $1 (1. d4 d5) c5 1-0"),
        ("aaaaaaa1", (1500, 1400), "1. e4 1-0"),
        ("aaaaaaa3", (999, 1000), commented),
        ("aaaaaaa4", (4001, 1400), "1. e4 1-0"),
    ];
    let mut texts = Vec::new(alloc);
    for (number, (id, ratings, movetext)) in games.into_iter().enumerate() {
        texts.push(rated_text(alloc, number as u64, id, ratings, movetext)?)?;
    }
    Ok(texts)
}

/// Whether both have the same texts, ids, rows, places and refusals.
fn are_same(first: &Tallying, second: &Tallying) -> bool {
    let (Some(tally), Some(other)) = (&first.tally, &second.tally) else {
        return false;
    };
    have_same_rows(tally.row_parts(), other.row_parts())
        && tally.batch() == other.batch()
        && have_same_ids(tally.classes(), other.classes())
        && first.places.as_slice() == second.places.as_slice()
        && first.refused.as_slice() == second.refused.as_slice()
}

fn have_same_ids(some: &[Classes], others: &[Classes]) -> bool {
    some.len() == others.len()
        && some
            .iter()
            .zip(others)
            .all(|(classes, other)| classes.id == other.id)
}

/// Whether both have the same rows. They have equally many.
fn are_rows(some: &[CountedRow], others: &[CountedRow]) -> bool {
    some.iter()
        .zip(others)
        .all(|(row, other)| row.to_row() == other.to_row())
}

/// Have parts the same rows as the one part of a tally by one worker?
fn have_same_rows(parts: &[Vec<CountedRow>], one: &[Vec<CountedRow>]) -> bool {
    let mut rest = match one.first() {
        Some(rows) => rows.as_slice(),
        None => return parts.is_empty(),
    };
    for part in parts {
        let Some((front, behind)) = rest.split_at_checked(part.len()) else {
            return false;
        };
        if !are_rows(front, part.as_slice()) {
            return false;
        }
        rest = behind;
    }
    rest.is_empty()
}

#[test]
fn tallies_alike_with_every_number_of_workers(rt: HostRuntime) -> Result<(), Fail> {
    let texts = repeating_games(rt.alloc())?;
    let Some(alone) = tally_texts(&rt, rt.alloc(), texts, 1, &FreeGate)? else {
        return Err(Fail::from("too much"));
    };
    // Of 100 texts 20 have no game, and 24 of the last 30 the id of an accepted one.
    assert_eq!(rt; (alone.places.len(), alone.refused.len()), (56, 44));
    for workers in [2, 8, 16] {
        let texts = repeating_games(rt.alloc())?;
        assert!(rt;
            is_tallied_alike(&rt, texts, workers, &alone)?,
            "with {workers} workers"
        );
    }
    Ok(())
}

#[test]
fn tallies_worked_games_alike_with_every_number_of_workers(rt: HostRuntime) -> Result<(), Fail> {
    let texts = games_at_bounds(rt.alloc())?;
    let Some(alone) = tally_texts(&rt, rt.alloc(), texts, 1, &FreeGate)? else {
        return Err(Fail::from("too much"));
    };
    let bad = TagFault::Bad {
        name: TagName::WhiteElo,
    };
    let twice = Refusal {
        place: 2,
        why: Why::Twice { first: 0 },
    };
    let no_rating = Refusal {
        place: 4,
        why: Why::Game(GameFault::Tag(bad)),
    };
    assert!(rt; alone.places.as_slice() == [0, 1, 3].as_slice());
    assert!(rt; alone.refused.as_slice() == [twice, no_rating].as_slice());
    // The start and e4 in three rating groups each, and the last position in as many.
    let rows = match &alone.tally {
        Some(tally) => count_rows(tally.row_parts()),
        None => 0,
    };
    assert_eq!(rt; rows, 9);
    for workers in [2, 8, 16] {
        let texts = games_at_bounds(rt.alloc())?;
        assert!(rt;
            is_tallied_alike(&rt, texts, workers, &alone)?,
            "with {workers} workers"
        );
    }
    Ok(())
}

/// Whether so many workers tally the texts like this.
fn is_tallied_alike<R: AllocGlobal + Threads + Sync>(
    rt: &R,
    texts: Vec<Placed>,
    workers: usize,
    alone: &Tallying,
) -> Result<bool, Fail> {
    let tallying = tally_texts(rt, rt.alloc(), texts, workers, &FreeGate)?;
    Ok(matches!(&tallying, Some(t) if are_same(t, alone)))
}

#[test]
fn tallies_as_many_texts_as_a_batch_has(rt: HostRuntime) -> Result<(), Fail> {
    let mut texts = Vec::new(rt.alloc());
    for number in 0..512u64 {
        let id = format!(in rt.alloc(); "{number:08}")?;
        texts.push(text(rt.alloc(), number, id.as_str(), "1. e4 e5 1-0")?)?;
    }
    let tallying = tally_texts(&rt, rt.alloc(), texts, 8, &FreeGate)?;
    assert_eq!(rt; row_count(&tallying), 3);
    assert!(rt; matches!(&tallying, Some(t) if t.places.len() == 512));
    Ok(())
}

#[test]
fn tallies_the_longest_game(rt: HostRuntime) -> Result<(), Fail> {
    let mut moves = String::new(rt.alloc());
    for _ in 0..256 {
        moves.push_str("Nf3 Nf6 Ng1 Ng8 ")?;
    }
    moves.push_str("1-0")?;
    let mut texts = Vec::new(rt.alloc());
    texts.push(text(rt.alloc(), 0, "aaaaaaa1", moves.as_str())?)?;
    let tallying = tally_texts(&rt, rt.alloc(), texts, 4, &FreeGate)?;
    // Four positions, each with the move that is played there first.
    assert_eq!(rt; row_count(&tallying), 4);
    Ok(())
}

#[test]
fn makes_no_batch_of_refused_texts(rt: HostRuntime) -> Result<(), Fail> {
    let mut texts = Vec::new(rt.alloc());
    texts.push(text(rt.alloc(), 7, "aaaaaaa1", "1. e5 1-0")?)?;
    let tallying = tally_texts(&rt, rt.alloc(), texts, 2, &FreeGate)?;
    assert!(rt; matches!(&tallying, Some(t) if t.tally.is_none() && t.refused.len() == 1));
    Ok(())
}

/// A gate that counts how often it is passed, and sets a bit for each leaf.
#[derive(Drop)]
struct CountingGate {
    passes: AtomicU64,
    leaves: AtomicU64,
}

impl Gate for CountingGate {
    fn pass(&self, leaf: usize) {
        self.passes.fetch_add(1, Ordering::SeqCst);
        self.leaves.fetch_or(1u64 << (leaf % 64), Ordering::SeqCst);
    }
}

#[test]
fn each_leaf_passes_the_gate_once(rt: HostRuntime) -> Result<(), Fail> {
    for count in [0, 1, 3, 512u64] {
        // The leaves are numbered from 1: those of 1, 2, 8 and 16 workers as bits.
        for (workers, leaves) in [(1, 0x2), (2, 0x6), (8, 0x1fe), (16, 0x1fffe)] {
            let mut texts = Vec::new(rt.alloc());
            for place in 0..count {
                texts.push(Placed {
                    place,
                    bytes: Bytes::from_vec(Vec::new(rt.alloc())),
                })?;
            }
            let gate = CountingGate {
                passes: AtomicU64::new(0),
                leaves: AtomicU64::new(0),
            };
            let _ = tally_texts(&rt, rt.alloc(), texts, workers, &gate)?;
            assert_eq!(rt; gate.passes.load(Ordering::SeqCst), workers as u64);
            assert_eq!(rt; gate.leaves.load(Ordering::SeqCst), leaves);
        }
    }
    Ok(())
}

/// A gate that marks each leaf. It holds leaf 1, which has taken its first texts, until leaf 2 has
/// come, or a million turns are over.
#[derive(Drop)]
struct HoldingGate {
    leaves: AtomicU64,
}

impl Gate for HoldingGate {
    fn pass(&self, leaf: usize) {
        if leaf == 1 {
            for _ in 0..1_000_000u32 {
                if self.leaves.load(Ordering::SeqCst) & 4 == 4 {
                    // Leaf 2 has come while leaf 1 was here: both are marked.
                    self.leaves.fetch_or(1, Ordering::SeqCst);
                    break;
                }
                thread::yield_now();
            }
        }
        self.leaves.fetch_or(1u64 << (leaf % 64), Ordering::SeqCst);
    }
}

#[test]
fn two_leaves_run_at_once(rt: HostRuntime) -> Result<(), Fail> {
    let texts = mixed_games(rt.alloc())?;
    let gate = HoldingGate {
        leaves: AtomicU64::new(0),
    };
    let tallying = tally_texts(&rt, rt.alloc(), texts, 2, &gate)?;
    // The mark of both, and leaves 1 and 2.
    assert_eq!(rt; gate.leaves.load(Ordering::SeqCst), 0b111);
    assert!(rt; matches!(&tallying, Some(t) if t.places.as_slice() == [200, 400].as_slice()));
    Ok(())
}
