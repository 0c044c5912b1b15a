//! What is found of players' games.
ghost use Rattle.std.specs.Prelude.{◌≡◌, ◌≤◌, ◌<◌, IfOk, OnOk};
ghost use Rattle.explorer_model.specs.Chess.{IsValid};
ghost use Rattle.explorer_model.specs.Timeline.{IsPrefix};
ghost use Rattle.published_index.specs.Cover.{journal_of};

use super::lists::{join_first, name_index, put_texts};
use super::players::extend;
use explorer_model::answer::{Listed, Totals};
use explorer_model::archive::{Bytes, Month, Placed};
use explorer_model::chess::Color;
use explorer_model::list::Items;
use explorer_model::player::{PlayerFound, PlayerLine, PlayerQuery};
use explorer_model::query::{Filter, Query};
use explorer_model::text::Name;
use fen_uci::read_fen;
use player_index::PlayerIndex;
use player_lookup::player_look;
use published_index::{Drawer, Index, List, Pass, Publisher, Snapshot, Unnamed, open_list};
use segment_blocks::Steps;
use std::alloc::{AllocError, Global};
use std::marker::Brand;
use std::process::Abort;
use std::str;
use std::sync::Wait;
use std::sync::ledger::{Blank, Ledger};
use std::test::Fail;
use std::thread::Threads;

/// A game. White's rating tells it apart.
#[derive(Clone, Copy)]
struct Played {
    event: &'static str,
    white: &'static str,
    black: &'static str,
    ratings: (u16, u16),
    time: &'static str,
    date: &'static str,
    moves: &'static str,
    result: &'static str,
}

/// Games that differ from this one in little.
const ANN: Played = Played {
    event: "Rated game",
    white: "Ann",
    black: "Bob",
    ratings: (1500, 1400),
    time: "300+0",
    date: "2020.01.15",
    moves: "1. e4 e5",
    result: "1-0",
};

/// Three batches, of two games, one and two. In the second game one player has both colours; the
/// fourth comes to the start again, and then to the position after 1. e4.
const BATCHES: [&[Played]; 3] = [
    &[
        ANN,
        Played {
            white: "ANN",
            black: "ann",
            ratings: (1510, 1410),
            date: "2020.02.01",
            moves: "1. d4 d5",
            result: "0-1",
            ..ANN
        },
    ],
    &[Played {
        event: "Casual game",
        white: "bob",
        black: "aNN",
        ratings: (1600, 1700),
        date: "2020.02.15",
        moves: "1. e4 c5",
        result: "1/2-1/2",
        ..ANN
    }],
    &[
        Played {
            event: "Casual game",
            black: "Cid",
            ratings: (1501, 1403),
            time: "600+0",
            date: "2020.03.01",
            moves: "1. Nf3 Nf6 2. Ng1 Ng8 3. e4 e5",
            ..ANN
        },
        Played {
            white: "ann",
            ratings: (1502, 1405),
            result: "0-1",
            ..ANN
        },
    ],
];

/// What is asked. A position is a FEN.
#[derive(Clone, Copy)]
struct Asked {
    player: &'static str,
    color: Color,
    modes: [bool; 2],
    speeds: [bool; 6],
    since: Option<Month>,
    until: Option<Month>,
    at: &'static str,
    moves: u32,
    recent: u8,
}

const START: &str = "rnbqkbnr/pppppppp/8/8/8/8/PPPPPPPP/RNBQKBNR w KQkq - 0 1";

const FEBRUARY: Option<Month> = Some(Month {
    year: 2020,
    month: 2,
});

const WHITE: Asked = Asked {
    player: "Ann",
    color: Color::White,
    modes: [true, true],
    speeds: [true, true, true, true, true, true],
    since: None,
    until: None,
    at: START,
    moves: 12,
    recent: 4,
};

const BLACK: Asked = Asked {
    color: Color::Black,
    ..WHITE
};

/// Behind 1. e4, where no pawn can be taken en passant: only Black's moves leave the position.
const KINGS_PAWN: Asked = Asked {
    at: "rnbqkbnr/pppppppp/8/8/4P3/8/PPPP1PPP/RNBQKBNR b KQkq e3 0 1",
    ..WHITE
};

const ALL_OF_WHITE: &str = "2/0/2; moves e4 1402 1/0/1 d4 1410 0/0/1 1510 Nf3 1403 1/0/0 1501; \
    recent 1501 1510 1502 1500";

const CASUAL_OF_WHITE: &str = "1/0/0; moves Nf3 1403 1/0/0 1501; recent 1501";

const NOTHING: &str = "0/0/0; moves; recent";

/// Answers that were worked out by hand: totals, each move with the mean rating of the opponents, its
/// totals and its only game, and the latest games.
const ANSWERS: [(Asked, &str); 15] = [
    // one name in three spellings
    (WHITE, ALL_OF_WHITE),
    (
        Asked {
            player: "ANN",
            ..WHITE
        },
        ALL_OF_WHITE,
    ),
    (
        Asked {
            player: "aNn",
            ..WHITE
        },
        ALL_OF_WHITE,
    ),
    (
        BLACK,
        "0/1/1; moves d4 1510 0/0/1 1510 e4 1600 0/1/0 1600; recent 1600 1510",
    ),
    (
        Asked {
            modes: [true, false],
            ..WHITE
        },
        "1/0/2; moves e4 1402 1/0/1 d4 1410 0/0/1 1510; recent 1510 1502 1500",
    ),
    (
        Asked {
            modes: [false, true],
            ..WHITE
        },
        CASUAL_OF_WHITE,
    ),
    (
        Asked {
            modes: [false, false],
            ..WHITE
        },
        NOTHING,
    ),
    // rapid games alone
    (
        Asked {
            speeds: [false, false, false, true, false, false],
            ..WHITE
        },
        CASUAL_OF_WHITE,
    ),
    (
        Asked {
            since: FEBRUARY,
            until: FEBRUARY,
            ..WHITE
        },
        "0/0/1; moves d4 1410 0/0/1 1510; recent 1510",
    ),
    (
        Asked {
            moves: 1,
            recent: 1,
            ..WHITE
        },
        "2/0/2; moves e4 1402 1/0/1; recent 1501",
    ),
    (
        Asked {
            moves: 0,
            recent: 0,
            ..WHITE
        },
        "2/0/2; moves; recent",
    ),
    // ratings are the opponents' whoever is to move
    (
        KINGS_PAWN,
        "2/0/1; moves e5 1402 2/0/1; recent 1501 1502 1500",
    ),
    (
        Asked {
            color: Color::Black,
            ..KINGS_PAWN
        },
        "0/1/0; moves c5 1600 0/1/0 1600; recent 1600",
    ),
    // games that end in the position
    (
        Asked {
            at: "rnbqkbnr/pppp1ppp/8/4p3/4P3/8/PPPP1PPP/RNBQKBNR w KQkq - 0 2",
            ..WHITE
        },
        "2/0/1; moves; recent",
    ),
    (
        Asked {
            player: "An",
            ..WHITE
        },
        NOTHING,
    ),
];

/// When the index is extended: at an `x`. The next batch is put at a `p`, and at a `j` the first two
/// segments become one.
const WAYS: [&str; 4] = ["pppx", "pxpxpx", "xpppjx", "ppxjpxjx"];

/// The text of a game, with this number in its id.
fn text(alloc: Global, number: usize, game: &Played) -> Result<Placed, AllocError> {
    let Played {
        event,
        white,
        black,
        ratings,
        time,
        date,
        moves,
        result,
    } = *game;
    let (own, other) = ratings;
    let text = format!(in alloc;
        "[Event \"{event}\"]\n[Site \"https://lichess.org/{number:08}\"]\n\
         [White \"{white}\"]\n[Black \"{black}\"]\n[Result \"{result}\"]\n[UTCDate \"{date}\"]\n\
         [WhiteElo \"{own}\"]\n[BlackElo \"{other}\"]\n[TimeControl \"{time}\"]\n\n{moves} {result}\n"
    )?;
    Ok(Placed {
        place: 0,
        bytes: Bytes::from_vec(text.into_bytes()),
    })
}

fn texts_of(alloc: Global, games: &[Played]) -> Result<Vec<Placed>, AllocError> {
    let mut texts = Vec::new(alloc);
    for (number, game) in games.iter().enumerate() {
        texts.push(text(alloc, number, game)?)?;
    }
    Ok(texts)
}

/// An index that is extended in this way, while batches are put and joined.
fn extend_index<J: Index, R: Threads + Wait + Sync>(
    rt: &R,
    alloc: Global,
    publisher: &mut Publisher<J>,
    drawer: &mut Drawer<J>,
    pass: &mut Pass<J>,
    way: &str,
) -> Result<PlayerIndex, Fail>
    ensures { IfOk result (λ index. IsPrefix index.batches pass.new.seen) }
{
    let mut index = PlayerIndex::new(alloc);
    let mut batches = BATCHES.iter();
    for step in way.bytes() {
        match step {
            b'p' => {
                let games = batches.next().ok_or("a batch")?;
                let _note = put_texts(rt, alloc, publisher, drawer, texts_of(alloc, games)?)?;
            }
            b'j' => {
                let _note = join_first(rt, alloc, publisher)?;
            }
            _ => {
                let _snapshot = extend(alloc, pass, &mut index)?;
            }
        }
    }
    Ok(index)
}

fn query_of(alloc: Global, asked: &Asked) -> Result<PlayerQuery, Fail>
    ensures at { IfOk result (λ query. IsValid query.query.at) }
    ensures recent { IfOk result (λ query. query.query.recent ≤ 4) }
{
    let board = read_fen(asked.at.as_bytes())?;
    Ok(PlayerQuery {
        player: Name::from_string(String::from_str(alloc, asked.player)?),
        color: asked.color,
        modes: asked.modes,
        query: Query {
            root: board.position(),
            plays: Items::from_vec(Vec::new(alloc)),
            at: board.position(),
            filter: Filter {
                speeds: asked.speeds,
                groups: [true; 9],
                since: asked.since,
                until: asked.until,
            },
            moves: asked.moves,
            top: 0,
            recent: asked.recent.min(4),
            history: false,
        },
    })
}

fn push_totals(alloc: Global, text: &mut String, totals: &Totals) -> Result<(), AllocError> {
    let (white, draws, black) = (totals.white, totals.draws, totals.black);
    text.push_str(format!(in alloc; "{white}/{draws}/{black}")?.as_str())
}

/// A game as White's rating.
fn push_game(alloc: Global, text: &mut String, game: &Listed) -> Result<(), AllocError> {
    let rating = game.classes.white.rating;
    text.push_str(format!(in alloc; " {rating}")?.as_str())
}

fn push_line(alloc: Global, text: &mut String, line: &PlayerLine) -> Result<(), AllocError> {
    let san = str::from_utf8(line.san.as_slice()).unwrap_or("?");
    let average = line.average;
    text.push_str(format!(in alloc; " {san} {average} ")?.as_str())?;
    push_totals(alloc, text, &line.totals)?;
    if let Some(game) = &line.game {
        push_game(alloc, text, game)?;
    }
    Ok(())
}

/// The answer in one line.
fn line_of(alloc: Global, found: &PlayerFound) -> Result<String, AllocError> {
    let mut text = String::new(alloc);
    push_totals(alloc, &mut text, &found.totals)?;
    text.push_str("; moves")?;
    for line in found.moves.as_slice() {
        push_line(alloc, &mut text, line)?;
    }
    text.push_str("; recent")?;
    for game in found.recent.as_slice() {
        push_game(alloc, &mut text, game)?;
    }
    Ok(text)
}

fn looked_up<L: Ledger>(
    alloc: Global,
    index: &PlayerIndex,
    snapshot: &Snapshot,
    asked: &Asked,
    blank: Blank,
) -> Result<String, Fail>
    requires covers { index.now.batches ≡ journal_of snapshot.now }
    requires name { blank.name ≡ L.name }
    requires parts { blank.parts ≡ L.parts }
    requires some { 0 < L.parts }
{
    let query = query_of(alloc, asked)?;
    let mut steps = Steps::<L>::new(blank);
    let found = player_look(alloc, index, snapshot, &query, &mut steps)?;
    Ok(line_of(alloc, &found)?)
}

/// Asserts that what is found is what the table says.
fn assert_answers<R: Abort>(
    rt: &R,
    alloc: Global,
    index: &PlayerIndex,
    snapshot: &Snapshot,
    way: &str,
) -> Result<(), Fail>
    requires { index.now.batches ≡ journal_of snapshot.now }
{
    for (asked, wanted) in &ANSWERS {
        let told = looked_up::<Brand>(alloc, index, snapshot, asked, Blank::new(1))?;
        let player = asked.player;
        assert_eq!(rt; told.as_str(), *wanted, "{player}, {way}");
    }
    Ok(())
}

fn finds_answers<J: Index, R: Threads + Wait + Abort + Sync>(
    rt: &R,
    alloc: Global,
    publisher: &mut Publisher<J>,
    drawer: &mut Drawer<J>,
    mut passes: Vec<Pass<J>>,
    way: &str,
) -> Result<(), Fail> {
    let mut pass = passes.pop().ok_or("a pass")?;
    let mut index = extend_index(rt, alloc, publisher, drawer, &mut pass, way)?;
    let snapshot = extend(alloc, &mut pass, &mut index)?;
    assert_answers(rt, alloc, &index, &snapshot, way)
}

fn goes_a_way<J: Index, R: Threads + Wait + Abort + Sync>(
    rt: &R,
    alloc: Global,
    unnamed: Unnamed,
    number: usize,
) -> Result<(), Fail>
    requires { unnamed.name ≡ J.name }
{
    let (mut publisher, passes, mut drawer) = name_index::<J, R>(rt, alloc, unnamed)?;
    let found = match WAYS.get(number) {
        Some(way) => finds_answers(rt, alloc, &mut publisher, &mut drawer, passes, way),
        None => Err(Fail::from("a way")),
    };
    publisher.close(rt);
    found
}

/// Goes the way of this number over a new list.
fn begins_a_way<R: Threads + Wait + Abort + Sync>(
    rt: &R,
    alloc: Global,
    number: usize,
) -> Result<(), Fail> {
    let unnamed = open_list(rt, alloc, List::of(Vec::new(alloc)), 1)?;
    goes_a_way::<Brand, _>(rt, alloc, unnamed, number)
}

#[test]
fn players_games_are_found_however_the_index_was_extended(rt: HostRuntime) -> Result<(), Fail> {
    for number in 0..WAYS.len() {
        begins_a_way(&rt, rt.alloc(), number)?;
    }
    Ok(())
}
