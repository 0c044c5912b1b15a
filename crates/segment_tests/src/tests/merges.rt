//! Two segments, merged.
ghost use Rattle.std.specs.Prelude.{◌≡◌, ◌<◌};

use super::tallies::{rated_text, tally_texts};
use explorer_model::archive::{Bytes, Placed};
use outside::FreeGate;
use segment_blocks::{Segment, Steps};
use segment_merge::merge;
use std::alloc::{AllocError, Global};
use std::marker::Brand;
use std::sync::ledger::{Blank, Ledger};
use std::test::Fail;
use std::thread::Threads;
use tally_rows::Row;

/// The segment of one game, which stands at this place in the journal.
fn one_game<R: Threads + Sync>(
    rt: &R,
    alloc: Global,
    first: u32,
    ratings: (u16, u16),
    movetext: &str,
) -> Result<Segment, Fail> {
    games(rt, alloc, first, ratings, &[movetext])
}

/// The segment of one batch of games, which stands at this place in the journal.
fn games<R: Threads + Sync>(
    rt: &R,
    alloc: Global,
    first: u32,
    ratings: (u16, u16),
    movetexts: &[&str],
) -> Result<Segment, Fail> {
    let mut texts = Vec::new(alloc);
    for (n, movetext) in movetexts.iter().enumerate() {
        let id = format!(in alloc; "aaaaa{n:03}")?;
        texts.push(rated_text(alloc, n as u64, id.as_str(), ratings, movetext)?)?;
    }
    segment_of(rt, alloc, first, texts)
}

/// The segment of one batch of texts, which stands at this place in the journal.
fn segment_of<R: Threads + Sync>(
    rt: &R,
    alloc: Global,
    first: u32,
    texts: Vec<Placed>,
) -> Result<Segment, Fail> {
    if first == u32::MAX {
        return Err(Fail::from("no place behind the batch"));
    }
    let Some(tallying) = tally_texts(rt, alloc, texts, 1, &FreeGate)? else {
        return Err(Fail::from("no game"));
    };
    let tally = tallying.tally;
    match tally {
        Some(tally) => Ok(Segment::of(alloc, first, tally)?),
        None => Err(Fail::from("no game")),
    }
}

/// The segment of both, where they can be merged.
fn merge_both<R: Threads + Sync>(
    rt: &R,
    alloc: Global,
    left: &Segment,
    right: &Segment,
    workers: usize,
) -> Result<Segment, Fail> {
    let (before, behind) = (left.span(), right.span());
    if u64::from(before.first) + u64::from(before.count) != u64::from(behind.first)
        || 262_144 < u64::from(left.games()) + u64::from(right.games())
        || workers == 0
        || 16 < workers
    {
        return Err(Fail::from("two segments that can't be merged"));
    }
    Ok(merge(rt, alloc, left, right, workers, &FreeGate)?)
}

/// The rows with a move, in their order: the square that it leaves, the games, their sum of ratings,
/// and the number of the best game.
fn rows_with_a_move<L: Ledger>(
    alloc: Global,
    segment: &Segment,
    blank: Blank,
) -> Result<Vec<(u8, u32, u64, u32)>, AllocError>
    requires name { blank.name ≡ L.name }
    requires parts { blank.parts ≡ L.parts }
    requires some { 0 < L.parts }
{
    let mut steps = Steps::<L>::new(blank);
    let mut found = Vec::new(alloc);
    let mut rows = segment.rows_within(None, None, &mut steps);
    while let Some(held) = rows.advance(&mut steps) {
        let row = held.to_row();
        if let (Some(played), Some(best)) = (row.next, row.top.entries().first()) {
            found.push((played.from.index, row.white, row.ratings, best.number))?;
        }
    }
    Ok(found)
}

#[test]
fn rows_of_both_sides_are_put_together_or_in_order(rt: HostRuntime) -> Result<(), Fail> {
    let left = one_game(&rt, rt.alloc(), 0, (1700, 1600), "1. e4 1-0")?;
    // The right game's row at the start stands behind the left one's, before it, and is the same.
    let behind = [(12, 1, 1700, 0), (15, 1, 1800, 1)];
    let before = [(8, 1, 1800, 1), (12, 1, 1700, 0)];
    let together = [(12, 2, 3500, 1)];
    for (movetext, wanted) in [
        ("1. h3 1-0", behind.as_slice()),
        ("1. a3 1-0", before.as_slice()),
        ("1. e4 1-0", together.as_slice()),
    ] {
        let right = one_game(&rt, rt.alloc(), 1, (1800, 1700), movetext)?;
        for workers in [1, 16] {
            let both = merge_both(&rt, rt.alloc(), &left, &right, workers)?;
            let rows = rows_with_a_move::<Brand>(rt.alloc(), &both, Blank::new(1))?;
            assert!(rt;
                rows.as_slice() == wanted,
                "{movetext} with {workers} workers"
            );
        }
    }
    Ok(())
}

/// All rows of a segment, in their order.
pub(super) fn all_rows<L: Ledger>(
    alloc: Global,
    segment: &Segment,
    blank: Blank,
) -> Result<Vec<Row>, AllocError>
    requires name { blank.name ≡ L.name }
    requires parts { blank.parts ≡ L.parts }
    requires some { 0 < L.parts }
{
    let mut steps = Steps::<L>::new(blank);
    let mut found = Vec::new(alloc);
    let mut rows = segment.rows_within(None, None, &mut steps);
    while let Some(row) = rows.next(&mut steps) {
        found.push(row)?;
    }
    Ok(found)
}

#[test]
fn merged_rows_are_those_packed_at_once(rt: HostRuntime) -> Result<(), Fail> {
    // Positions of both sides, some of several games: rows that stand whole at a change of sides.
    let shared = [
        "1. e4 c5 2. Nf3 d6 1-0",
        "1. e4 c5 2. Nf3 d6 1-0",
        "1. d4 d5 2. c4 1-0",
        "1. e4 c5 2. Nc3 1-0",
        "1. d4 d5 2. c4 e6 1-0",
    ];
    // After Black's last move the squares are the same, but only in the first game a pawn may take in
    // passing: the keys differ in their last byte alone.
    let in_passing = ["1. e4 a6 2. e5 d5 1-0", "1. e3 a6 2. e4 d6 3. e5 d5 1-0"];
    // A side of one row.
    let one_row = ["1-0", "1. e4 e5 1-0", "1-0"];
    for movetexts in [shared.as_slice(), in_passing.as_slice(), one_row.as_slice()] {
        let whole = games(&rt, rt.alloc(), 0, (1700, 1600), movetexts)?;
        for cut in 1..movetexts.len() {
            let (before, behind) = movetexts.split_at(cut);
            let left = games(&rt, rt.alloc(), 0, (1700, 1600), before)?;
            let right = games(&rt, rt.alloc(), 1, (1700, 1600), behind)?;
            assert!(rt;
                are_alike(&rt, rt.alloc(), &left, &right, &whole)?,
                "{movetexts:?} cut at {cut}"
            );
        }
    }
    Ok(())
}

/// Moves by which each side moves each of its pawns once, by one square or two as the bits say.
fn pawn_moves(alloc: Global, bits: u32) -> Result<String, AllocError> {
    let mut text = String::new(alloc);
    let mut left = bits;
    for (at, file) in "abcdefgh".chars().enumerate() {
        let white = 3 + left % 2;
        let black = 6 - left / 2 % 2;
        left /= 4;
        let moves = format!(in alloc; "{}. {file}{white} {file}{black} ", at + 1)?;
        text.push_str(moves.as_str())?;
    }
    text.push_str("1-0")?;
    Ok(text)
}

#[test]
fn rows_in_ranges_are_those_packed_at_once(rt: HostRuntime) -> Result<(), Fail> {
    let mut texts = Vec::new(rt.alloc());
    for n in 0..510u32 {
        texts.push(pawn_moves(rt.alloc(), n.wrapping_mul(40_503))?)?;
    }
    let movetexts = borrow_texts(rt.alloc(), texts.as_slice())?;
    let whole = games(&rt, rt.alloc(), 0, (1700, 1600), movetexts.as_slice())?;
    let Some((before, behind)) = movetexts.as_slice().split_at_checked(265) else {
        panic!(rt; "there are not so many games");
    };
    let left = games(&rt, rt.alloc(), 0, (1700, 1600), before)?;
    let right = games(&rt, rt.alloc(), 1, (1700, 1600), behind)?;
    // With several workers the rows are merged in two ranges, the first of which ends at a key.
    assert!(rt; 16 <= left.block_count(), "{} blocks", left.block_count());
    assert!(rt; are_alike(&rt, rt.alloc(), &left, &right, &whole)?);
    Ok(())
}

// ---- rows of all kinds

/// What the rows of a game differ by: ratings, date, time control, and moves.
type Kind = ((u16, u16), &'static str, &'static str, &'static str);

/// Games with captures, castling on both sides, checks, a promotion, pawns taken in passing and a mate;
/// some are alike but for their ratings, month or speed, and some but for their end.
const KINDS: [Kind; 12] = [
    ((1700, 1600), "2020.01.15", "300+0", OPERA),
    ((1700, 1600), "2020.01.20", "300+0", OPERA),
    ((2210, 2190), "2020.01.15", "300+0", OPERA),
    ((1700, 1600), "2019.12.31", "300+0", OPERA),
    ((1700, 1600), "2020.01.15", "60+0", OPERA),
    ((1500, 1400), "2020.01.15", "300+0", SPANISH),
    ((1700, 1600), "2020.01.15", "300+0", SPANISH),
    (
        (1700, 1600),
        "2020.01.15",
        "600+5",
        "1. e4 e5 2. Nf3 Nc6 1-0",
    ),
    ((1700, 1600), "2020.02.01", "300+0", TRAP),
    ((1700, 1600), "2020.02.29", "300+0", TRAP),
    (
        (1700, 1600),
        "2020.01.15",
        "300+0",
        "1. e4 Nf6 2. e5 d5 3. exd6 cxd6 1-0",
    ),
    ((1700, 1600), "2020.01.15", "300+0", "1-0"),
];

/// Morphy against the Duke of Brunswick and Count Isouard, 1858.
const OPERA: &str =
    "1. e4 e5 2. Nf3 d6 3. d4 Bg4 4. dxe5 Bxf3 5. Qxf3 dxe5 6. Bc4 Nf6 7. Qb3 Qe7 8. Nc3 c6 \
    9. Bg5 b5 10. Nxb5 cxb5 11. Bxb5+ Nbd7 12. O-O-O Rd8 13. Rxd7 Rxd7 14. Rd1 Qe6 15. Bxd7+ Nxd7 \
    16. Qb8+ Nxb8 17. Rd8# 1-0";

/// Both sides castle on the king's side.
const SPANISH: &str =
    "1. e4 e5 2. Nf3 Nc6 3. Bb5 a6 4. Ba4 Nf6 5. O-O Be7 6. Re1 b5 7. Bb3 O-O 1-0";

/// Lasker's trap: a pawn becomes a knight.
const TRAP: &str =
    "1. d4 d5 2. c4 e5 3. dxe5 d4 4. e3 Bb4+ 5. Bd2 dxe3 6. Bxb4 exf2+ 7. Ke2 fxg1=N+ 1-0";

/// The segment of one batch of such games, which stands at this place in the journal.
fn games_of_kinds<R: Threads + Sync>(
    rt: &R,
    alloc: Global,
    first: u32,
    kinds: &[Kind],
) -> Result<Segment, Fail> {
    let mut texts = Vec::new(alloc);
    for (n, kind) in kinds.iter().enumerate() {
        texts.push(text_of_kind(alloc, n, kind)?)?;
    }
    segment_of(rt, alloc, first, texts)
}

fn text_of_kind(
    alloc: Global,
    n: usize,
    ((white, black), date, control, movetext): &Kind,
) -> Result<Placed, AllocError> {
    let text = format!(in alloc;
        "[Event \"Rated game\"]\n[Site \"https://lichess.org/aaaaa{n:03}\"]\n\
         [White \"Ann\"]\n[Black \"Bob\"]\n[Result \"1-0\"]\n[UTCDate \"{date}\"]\n\
         [WhiteElo \"{white}\"]\n[BlackElo \"{black}\"]\n[TimeControl \"{control}\"]\n\n{movetext}\n"
    )?;
    Ok(Placed {
        place: n as u64,
        bytes: Bytes::from_vec(text.into_bytes()),
    })
}

#[test]
fn merged_rows_of_all_kinds_are_those_packed_at_once(rt: HostRuntime) -> Result<(), Fail> {
    let whole = games_of_kinds(&rt, rt.alloc(), 0, &KINDS)?;
    assert!(rt; whole.games() == 12, "{} games", whole.games());
    for cut in 1..KINDS.len() {
        let (before, behind) = KINDS.split_at(cut);
        let left = games_of_kinds(&rt, rt.alloc(), 0, before)?;
        let right = games_of_kinds(&rt, rt.alloc(), 1, behind)?;
        assert!(rt;
            are_alike(&rt, rt.alloc(), &left, &right, &whole)?,
            "cut at {cut}"
        );
    }
    Ok(())
}

// ---- blocks of one row, and whole rows where sides change

/// The games of a side. Each of so many numbers, each so much greater than the one before, is a first
/// move of White with a reply, which comes so many times; and there are games without a move.
#[derive(Clone, Copy, Debug)]
struct Side {
    from: usize,
    count: usize,
    step: usize,
    times: usize,
    still: usize,
    /// How many rows they have: one at the start for each first move, or for no move, and two more for
    /// each reply.
    rows: usize,
}

/// Three first moves with 16 replies each, and one with 14, have 128 rows: with the game without a move,
/// the last block has one row.
const ONE_ROW_LAST: Side = Side {
    from: 0,
    count: 62,
    step: 1,
    times: 1,
    still: 1,
    rows: 129,
};

const FULL_BLOCK: Side = Side {
    still: 0,
    rows: 128,
    ..ONE_ROW_LAST
};

const ONE_ROW: Side = Side {
    count: 0,
    rows: 1,
    ..ONE_ROW_LAST
};

/// Each row is one of two games, and stands whole.
const ALL_WHOLE: Side = Side {
    from: 0,
    count: 32,
    step: 2,
    times: 2,
    still: 0,
    rows: 68,
};

/// The others between them, whole too.
const WHOLE_BETWEEN: Side = Side {
    from: 1,
    ..ALL_WHOLE
};

/// The same of one game each, but for those at the start.
const SINGLES_BETWEEN: Side = Side {
    times: 1,
    ..WHOLE_BETWEEN
};

const SIDES: [(Side, Side); 9] = [
    (ONE_ROW_LAST, ONE_ROW_LAST),
    (
        ONE_ROW_LAST,
        Side {
            from: 64,
            ..ONE_ROW_LAST
        },
    ),
    (ONE_ROW_LAST, ONE_ROW),
    (ONE_ROW, ONE_ROW_LAST),
    (FULL_BLOCK, ONE_ROW),
    (ONE_ROW, FULL_BLOCK),
    (ALL_WHOLE, WHOLE_BETWEEN),
    (WHOLE_BETWEEN, ALL_WHOLE),
    (ALL_WHOLE, SINGLES_BETWEEN),
];

/// The movetexts of a side.
fn movetexts_of(alloc: Global, side: &Side) -> Result<Vec<String>, AllocError> {
    let mut texts = Vec::new(alloc);
    for n in 0..side.count {
        let number = side.from.saturating_add(n.saturating_mul(side.step));
        for _ in 0..side.times {
            texts.push(first_moves(alloc, number)?)?;
        }
    }
    for _ in 0..side.still {
        texts.push(format!(in alloc; "1-0")?)?;
    }
    Ok(texts)
}

/// A first move of White, one of eight, and one of 16 replies.
fn first_moves(alloc: Global, number: usize) -> Result<String, AllocError> {
    let files = ["a", "b", "c", "d", "e", "f", "g", "h"];
    let white = files[number / 16 % 8];
    let black = files[number / 2 % 8];
    let rank = 6 - number % 2;
    format!(in alloc; "1. {white}3 {black}{rank} 1-0")
}

/// The movetexts of both sides, and how many are of the left one.
fn movetexts_of_both(
    alloc: Global,
    left: &Side,
    right: &Side,
) -> Result<(Vec<String>, usize), AllocError> {
    let mut texts = movetexts_of(alloc, left)?;
    let cut = texts.len();
    for text in movetexts_of(alloc, right)? {
        texts.push(text)?;
    }
    Ok((texts, cut))
}

fn borrow_texts(alloc: Global, texts: &[String]) -> Result<Vec<&str>, AllocError> {
    let mut all = Vec::new(alloc);
    for text in texts {
        all.push(text.as_str())?;
    }
    Ok(all)
}

#[test]
fn merged_sides_are_those_packed_at_once(rt: HostRuntime) -> Result<(), Fail> {
    for (left, right) in &SIDES {
        assert!(rt;
            are_merged(&rt, rt.alloc(), left, right)?,
            "{left:?} {right:?}"
        );
    }
    Ok(())
}

/// Whether both sides have as many rows as is said, and merged those that they have packed at once.
fn are_merged<R: Threads + Sync>(
    rt: &R,
    alloc: Global,
    left: &Side,
    right: &Side,
) -> Result<bool, Fail> {
    let (texts, cut) = movetexts_of_both(alloc, left, right)?;
    let texts = borrow_texts(alloc, texts.as_slice())?;
    let Some((before, behind)) = texts.as_slice().split_at_checked(cut) else {
        return Ok(false);
    };
    let whole = games(rt, alloc, 0, (1700, 1600), texts.as_slice())?;
    let first = games(rt, alloc, 0, (1700, 1600), before)?;
    let second = games(rt, alloc, 1, (1700, 1600), behind)?;
    Ok(
        has_rows(alloc, &first, left.rows)?
            && has_rows(alloc, &second, right.rows)?
            && are_alike(rt, alloc, &first, &second, &whole)?,
    )
}

/// Whether a segment has so many rows, in full blocks but for the last one.
fn has_rows(alloc: Global, segment: &Segment, count: usize) -> Result<bool, AllocError> {
    let rows = all_rows::<Brand>(alloc, segment, Blank::new(1))?;
    Ok(rows.len() == count && segment.block_count() == count.div_ceil(128))
}

/// Whether two segments merged have the rows of the whole, with one worker and with several.
fn are_alike<R: Threads + Sync>(
    rt: &R,
    alloc: Global,
    left: &Segment,
    right: &Segment,
    whole: &Segment,
) -> Result<bool, Fail> {
    let wanted = all_rows::<Brand>(alloc, whole, Blank::new(1))?;
    for workers in [1, 16] {
        let both = merge_both(rt, alloc, left, right, workers)?;
        let rows = all_rows::<Brand>(alloc, &both, Blank::new(1))?;
        if both.games() != whole.games() || rows.as_slice() != wanted.as_slice() {
            return Ok(false);
        }
    }
    Ok(true)
}
