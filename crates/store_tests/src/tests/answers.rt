//! Answers from five games in one, two and five segments.
ghost use Rattle.std.specs.Prelude.{◌≡◌, ◌≤◌, ◌<◌};
ghost use Rattle.explorer_model.specs.Chess.{IsValid};

use super::{segment_of, tally_of};
use explorer_model::answer::{Found, Listed, MonthLine, MoveLine, Totals};
use explorer_model::archive::{Bytes, Month, Placed};
use explorer_model::list::Items;
use explorer_model::query::{Filter, Query};
use legal_moves::board::Board;
use lookup::look_segments;
use published_index::SharedSegment;
use segment_blocks::{Segment, Steps};
use std::alloc::{AllocError, Global};
use std::marker::Brand;
use std::str;
use std::sync::Arc;
use std::sync::ledger::{Blank, Ledger};
use std::test::Fail;
use std::thread::Threads;

/// A game, told apart by White's name of three letters.
#[derive(Clone, Copy)]
pub(super) struct Played<'a> {
    white: &'a str,
    ratings: (u16, u16),
    time: &'a str,
    date: &'a str,
    moves: &'a str,
    result: &'a str,
}

pub(super) fn text_of(alloc: Global, game: &Played) -> Result<Placed, AllocError> {
    let (white, date, time) = (game.white, game.date, game.time);
    let (own, other) = game.ratings;
    let (moves, result) = (game.moves, game.result);
    let text = format!(in alloc;
        "[Event \"Rated game\"]\n[Site \"https://lichess.org/{white}00000\"]\n\
         [White \"{white}\"]\n[Black \"Bob\"]\n[Result \"{result}\"]\n[UTCDate \"{date}\"]\n\
         [WhiteElo \"{own}\"]\n[BlackElo \"{other}\"]\n[TimeControl \"{time}\"]\n\n{moves} {result}\n"
    )?;
    Ok(Placed {
        place: 0,
        bytes: Bytes::from_vec(text.into_bytes()),
    })
}

/// The segment of games, as the batch at this place in the journal.
fn segment_of_games<R: Threads + Sync>(
    rt: &R,
    alloc: Global,
    place: u32,
    games: &[Played],
) -> Result<Segment, Fail> {
    let mut texts = Vec::new(alloc);
    for game in games {
        texts.push(text_of(alloc, game)?)?;
    }
    segment_of(alloc, place, tally_of(rt, alloc, texts)?)
}

/// What is asked of the starting position.
#[derive(Clone, Copy)]
pub(super) struct Asked {
    filter: Filter,
    moves: u32,
    top: u8,
    recent: u8,
    history: bool,
}

const EVERY_GAME: Filter = Filter {
    speeds: [true; 6],
    groups: [true; 9],
    since: None,
    until: None,
};

fn everything_of(filter: Filter) -> Asked {
    Asked {
        filter,
        moves: 12,
        top: 4,
        recent: 4,
        history: true,
    }
}

pub(super) fn query_of(alloc: Global, asked: &Asked) -> Query
    ensures at { IsValid result.at }
    ensures top { result.top ≤ 4 }
    ensures recent { result.recent ≤ 4 }
{
    let start = Board::start().position();
    Query {
        root: start,
        plays: Items::from_vec(Vec::new(alloc)),
        at: start,
        filter: asked.filter,
        moves: asked.moves,
        top: asked.top.min(4),
        recent: asked.recent.min(4),
        history: asked.history,
    }
}

fn push_totals(alloc: Global, text: &mut String, totals: &Totals) -> Result<(), AllocError> {
    let (white, draws, black) = (totals.white, totals.draws, totals.black);
    text.push_str(format!(in alloc; "{white}/{draws}/{black}")?.as_str())
}

fn push_games(text: &mut String, games: &[Listed]) -> Result<(), AllocError> {
    for game in games {
        text.push_str(" ")?;
        text.push_str(game.classes.white.name.as_str())?;
    }
    Ok(())
}

fn push_moves(alloc: Global, text: &mut String, lines: &[MoveLine]) -> Result<(), AllocError> {
    for line in lines {
        let san = str::from_utf8(line.san.as_slice()).unwrap_or("?");
        let average = line.average;
        text.push_str(format!(in alloc; " {san} {average} ")?.as_str())?;
        push_totals(alloc, text, &line.totals)?;
        if let Some(game) = &line.game {
            text.push_str(" ")?;
            text.push_str(game.classes.white.name.as_str())?;
        }
    }
    Ok(())
}

fn push_months(alloc: Global, text: &mut String, lines: &[MonthLine]) -> Result<(), AllocError> {
    for line in lines {
        let (year, month) = (line.month.year, line.month.month);
        text.push_str(format!(in alloc; " {year}-{month} ")?.as_str())?;
        push_totals(alloc, text, &line.totals)?;
    }
    Ok(())
}

/// The answer in one line; a game stands there as its White's name.
pub(super) fn line_of_found(alloc: Global, found: &Found) -> Result<String, AllocError> {
    let mut text = String::new(alloc);
    push_totals(alloc, &mut text, &found.totals)?;
    text.push_str("; moves")?;
    push_moves(alloc, &mut text, found.moves.as_slice())?;
    text.push_str("; top")?;
    push_games(&mut text, found.top.as_slice())?;
    text.push_str("; recent")?;
    push_games(&mut text, found.recent.as_slice())?;
    if let Some(months) = &found.history {
        text.push_str("; months")?;
        push_months(alloc, &mut text, months.as_slice())?;
    }
    Ok(text)
}

fn ann() -> Played<'static> {
    Played {
        white: "Ann",
        ratings: (1500, 1400),
        time: "300+0",
        date: "2020.01.15",
        moves: "1. e4 e5",
        result: "1-0",
    }
}

fn bea() -> Played<'static> {
    Played {
        white: "Bea",
        ratings: (1702, 1700),
        time: "600+0",
        date: "2020.02.01",
        moves: "1. e4 c5",
        result: "0-1",
    }
}

fn cid() -> Played<'static> {
    Played {
        white: "Cid",
        ratings: (2000, 1900),
        date: "2019.12.31",
        moves: "1. d4 d5",
        result: "1/2-1/2",
        ..ann()
    }
}

fn dan() -> Played<'static> {
    Played {
        white: "Dan",
        ratings: (1500, 1450),
        date: "2020.02.29",
        moves: "1. e4",
        ..ann()
    }
}

fn eve() -> Played<'static> {
    Played {
        white: "Eve",
        moves: "",
        ..ann()
    }
}

/// Everything of the rapid games, of the group of 1400, since January 2020, and until then.
fn narrowed_questions() -> [Asked; 4] {
    let january = Some(Month {
        year: 2020,
        month: 1,
    });
    [
        everything_of(Filter {
            speeds: [false, false, false, true, false, false],
            ..EVERY_GAME
        }),
        everything_of(Filter {
            groups: [false, false, false, true, false, false, false, false, false],
            ..EVERY_GAME
        }),
        everything_of(Filter {
            since: january,
            ..EVERY_GAME
        }),
        everything_of(Filter {
            until: january,
            ..EVERY_GAME
        }),
    ]
}

// Worked out by hand.
const EVERYTHING: &str = "3/1/1; moves e4 1567 2/0/1 d4 2000 0/1/0 Cid; top Cid Bea Dan Ann; \
    recent Dan Bea Ann Cid; months 2019-12 0/1/0 2020-1 2/0/0 2020-2 1/0/1";

const RAPID: &str = "0/0/1; moves e4 1702 0/0/1 Bea; top Bea; recent Bea; months 2020-2 0/0/1";

const GROUP_1400: &str = "3/0/0; moves e4 1500 2/0/0; top Dan Ann; recent Dan Ann; \
    months 2020-1 2/0/0 2020-2 1/0/0";

const SINCE_JANUARY: &str = "3/0/1; moves e4 1567 2/0/1; top Bea Dan Ann; recent Dan Bea Ann; \
    months 2020-1 2/0/0 2020-2 1/0/1";

const UNTIL_JANUARY: &str = "2/1/0; moves d4 2000 0/1/0 Cid e4 1500 1/0/0 Ann; top Cid Ann; \
    recent Ann Cid; months 2019-12 0/1/0 2020-1 2/0/0";

const SHORT: &str = "3/1/1; moves e4 1567 2/0/1; top Cid Bea; recent Dan";

pub(super) fn five_games() -> [Played<'static>; 5] {
    [ann(), bea(), cid(), dan(), eve()]
}

/// Segments of so many of the five games, one segment after another.
fn segments_of<R: Threads + Sync>(
    rt: &R,
    alloc: Global,
    sizes: &[usize],
) -> Result<Vec<SharedSegment>, Fail> {
    let games = five_games();
    let mut segments = Vec::new(alloc);
    let mut rest = &games[..];
    let mut place = 0u32;
    for size in sizes {
        let (front, behind) = rest.split_at_checked(*size).ok_or("too few games")?;
        let segment = segment_of_games(rt, alloc, place, front)?;
        segments.push(Arc::new(alloc, segment)?)?;
        rest = behind;
        place = place.saturating_add(1);
    }
    Ok(segments)
}

/// What is found in the journal of the segments, in one line.
fn told_by_segments<L: Ledger>(
    alloc: Global,
    segments: &[SharedSegment],
    asked: &Asked,
    blank: Blank,
) -> Result<String, Fail>
    requires name { blank.name ≡ L.name }
    requires parts { blank.parts ≡ L.parts }
    requires some { 0 < L.parts }
{
    if 64 < segments.len() {
        return Err(Fail::from("at most 64 segments"));
    }
    let mut steps = Steps::<L>::new(blank);
    let found = look_segments(alloc, segments, &query_of(alloc, asked), &mut steps)?;
    Ok(line_of_found(alloc, &found)?)
}

/// What is found in the journal of the five games in segments of these sizes.
fn told_by_cut<R: Threads + Sync>(
    rt: &R,
    alloc: Global,
    sizes: &[usize],
    asked: &Asked,
) -> Result<String, Fail> {
    let segments = segments_of(rt, alloc, sizes)?;
    told_by_segments::<Brand>(alloc, segments.as_slice(), asked, Blank::new(1))
}

/// What is asked of the five games, and the answer in one line.
pub(super) fn table() -> [(Asked, &'static str); 6] {
    let [rapid, group_1400, since, until] = narrowed_questions();
    let short = Asked {
        moves: 1,
        top: 2,
        recent: 1,
        history: false,
        ..everything_of(EVERY_GAME)
    };
    [
        (everything_of(EVERY_GAME), EVERYTHING),
        (rapid, RAPID),
        (group_1400, GROUP_1400),
        (since, SINCE_JANUARY),
        (until, UNTIL_JANUARY),
        (short, SHORT),
    ]
}

#[test]
fn one_two_and_five_segments_answer_alike(rt: HostRuntime) -> Result<(), Fail> {
    for (asked, answer) in &table() {
        for sizes in [&[5][..], &[2, 3][..], &[1, 1, 1, 1, 1][..]] {
            let told = told_by_cut(&rt, rt.alloc(), sizes, asked)?;
            assert_eq!(rt; told.as_str(), *answer, "in segments of {sizes:?}");
        }
    }
    Ok(())
}
