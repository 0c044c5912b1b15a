//! Printed answers, and the words of refusals.
mod players;

ghost use Rattle.std.specs.Prelude.{◌≡◌, ◌∷◌, [], IfOk};
ghost use Rattle.std.specs.List.{All};
ghost use Rattle.answer_json.specs.Plain.{HasPlainId, IsPlainLine, IsPlainFound};

use answer_json::answer::{body, named_body};
use answer_json::refusal::why_text;
use answer_json::stored_body;
use explorer_model::answer::{Found, Listed, MonthLine, MoveLine, Totals};
use explorer_model::archive::{Bytes, Classes, GameId, Group, Mode, Month, Outcome, Player, Speed};
use explorer_model::chess::{Move, Role};
use explorer_model::fault::{GameFault, Refusal, TagFault, TagName, Why};
use explorer_model::list::Items;
use explorer_model::opening::{Naming, Opening};
use explorer_model::square::Square;
use explorer_model::text::Name;
use std::alloc::{AllocError, Global};
use std::test::Fail;

const WHITE_WON: Totals = Totals {
    white: 1,
    draws: 0,
    black: 0,
};

const JANUARY: Month = Month {
    year: 2020,
    month: 1,
};

fn one<T: Drop>(alloc: Global, item: T) -> Result<Items<T>, AllocError>
    ensures { IfOk result (λ items. items ≡ item ∷ []) }
{
    let mut items = Vec::new(alloc);
    items.push(item)?;
    Ok(Items::from_vec(items))
}

fn player(alloc: Global, name: &str, rating: u16) -> Result<Player, AllocError> {
    let name = Name::from_string(String::from_str(alloc, name)?);
    Ok(Player { name, rating })
}

/// A rated game of blitz against Bob.
fn listed_game(
    alloc: Global,
    white: &str,
    outcome: Outcome,
    month: Month,
) -> Result<Listed, AllocError>
    ensures { IfOk result HasPlainId }
{
    Ok(Listed {
        next: Move {
            from: Square { index: 12 },
            to: Square { index: 28 },
            promotion: None,
        },
        classes: Classes {
            id: GameId {
                bytes: *b"aaaaaaa1",
            },
            white: player(alloc, white, 1500)?,
            black: player(alloc, "Bob", 1400)?,
            outcome,
            mode: Mode::Rated,
            speed: Speed::Blitz,
            group: Group { value: 1400 },
            month,
        },
    })
}

/// The game that White won, alone.
fn won_games(alloc: Global, white: &str) -> Result<Items<Listed>, AllocError>
    ensures { IfOk result (All HasPlainId) }
{
    let game = listed_game(alloc, white, Outcome::White, JANUARY)?;
    one(alloc, game)
}

/// The move e4, after which White won.
fn line(alloc: Global, white: &str) -> Result<MoveLine, AllocError>
    ensures { IfOk result IsPlainLine }
{
    let game = listed_game(alloc, white, Outcome::White, JANUARY)?;
    Ok(MoveLine {
        next: game.next,
        san: Bytes::from_vec(Vec::from_slice(alloc, b"e4")?),
        average: 1500,
        totals: WHITE_WON,
        game: Some(game),
    })
}

/// The answer for the start, after one game that White won by the move e4, with a history of so many
/// months if there is one.
fn answer(alloc: Global, white: &str, count: Option<u32>) -> Result<Found, AllocError>
    ensures { IfOk result IsPlainFound }
{
    let line = line(alloc, white)?;
    let history = match count {
        Some(count) => Some(months(alloc, count)?),
        None => None,
    };
    Ok(Found {
        totals: WHITE_WON,
        moves: one(alloc, line)?,
        top: won_games(alloc, white)?,
        recent: won_games(alloc, white)?,
        history,
    })
}

/// What is written for the game that White won.
fn game_text(alloc: Global, white: &str) -> Result<String, AllocError> {
    format!(in alloc;
        "{{\"black\":{{\"name\":\"Bob\",\"rating\":1400}},\"id\":\"aaaaaaa1\",\"mode\":\"rated\",\
         \"month\":\"2020-01\",\"speed\":\"blitz\",\"uci\":\"e2e4\",\
         \"white\":{{\"name\":\"{white}\",\"rating\":1500}},\"winner\":\"white\",\"year\":2020}}"
    )
}

/// What is written for the answer, with the openings of the whole and of the move.
fn answer_text(
    alloc: Global,
    white: &str,
    history: &str,
    whole: &str,
    step: &str,
) -> Result<String, AllocError> {
    let game = game_text(alloc, white)?;
    format!(in alloc;
        "{{\"black\":0,\"draws\":0,{history}\"moves\":[{{\"averageRating\":1500,\
         \"black\":0,\"draws\":0,\"game\":{game},\"opening\":{step},\"san\":\"e4\",\
         \"uci\":\"e2e4\",\"white\":1}}],\"opening\":{whole},\"recentGames\":[{game}],\
         \"topGames\":[{game}],\"white\":1}}"
    )
}

/// The month of the game, so many times.
fn months(alloc: Global, count: u32) -> Result<Items<MonthLine>, AllocError> {
    let mut months = Vec::new(alloc);
    for _ in 0..count {
        months.push(MonthLine {
            month: JANUARY,
            totals: WHITE_WON,
        })?;
    }
    Ok(Items::from_vec(months))
}

/// Whether the answer is written so, with a history of so many months if there is one.
fn is_written(
    alloc: Global,
    white: &str,
    count: Option<u32>,
    text: &str,
) -> Result<bool, AllocError> {
    let found = answer(alloc, white, count)?;
    Ok(body(alloc, &found)?.as_slice() == text.as_bytes())
}

const HISTORY: &str = "\"history\":[{\"black\":0,\"draws\":0,\"month\":\"2020-01\",\"white\":1}],";

#[test]
fn writes_worked_answers(rt: HostRuntime) -> Result<(), Fail> {
    let alloc = rt.alloc();
    let table = [
        ("Ann", "Ann", None, ""),
        ("Ann", "Ann", Some(1), HISTORY),
        ("Ann", "Ann", Some(0), "\"history\":[],"),
        ("\"Ann\" \u{dc}nal\n", "\\\"Ann\\\" \u{dc}nal\\n", None, ""),
    ];
    for (white, written, count, history) in table {
        let text = answer_text(alloc, written, history, "null", "null")?;
        assert!(rt; is_written(alloc, white, count, text.as_str())?, "{text}");
    }
    Ok(())
}

/// The opening B00 of this name.
fn opening(alloc: Global, name: Option<&str>) -> Result<Option<Opening>, AllocError> {
    let Some(name) = name else {
        return Ok(None);
    };
    Ok(Some(Opening {
        eco: Name::from_string(String::from_str(alloc, "B00")?),
        name: Name::from_string(String::from_str(alloc, name)?),
    }))
}

/// The naming of the answer's whole and of its move, by the names of openings.
fn naming(alloc: Global, whole: Option<&str>, step: Option<&str>) -> Result<Naming, AllocError> {
    let step = opening(alloc, step)?;
    let mut moves = Vec::new(alloc);
    moves.push(step)?;
    Ok(Naming {
        whole: opening(alloc, whole)?,
        moves: Items::from_vec(moves),
    })
}

/// Whether the answer with these openings is written so.
fn is_named(
    alloc: Global,
    count: Option<u32>,
    naming: &Naming,
    text: &str,
) -> Result<bool, AllocError> {
    let found = answer(alloc, "Ann", count)?;
    Ok(named_body(alloc, &found, naming)?.as_slice() == text.as_bytes())
}

const KINGS_PAWN: &str = "{\"eco\":\"B00\",\"name\":\"King's Pawn Game\"}";

/// The opening of the whole, as it is written, the opening of the move, as it is written, and whether
/// there is a history.
const OPENINGS: [(Option<&str>, &str, Option<&str>, &str, Option<u32>); 4] = [
    (None, "null", Some("King's Pawn Game"), KINGS_PAWN, None),
    (Some("King's Pawn Game"), KINGS_PAWN, None, "null", None),
    (None, "null", Some("King's Pawn Game"), KINGS_PAWN, Some(1)),
    (
        Some("\"a\\b\"\t\u{41d}"),
        "{\"eco\":\"B00\",\"name\":\"\\\"a\\\\b\\\"\\t\u{41d}\"}",
        Some(""),
        "{\"eco\":\"B00\",\"name\":\"\"}",
        Some(1),
    ),
];

#[test]
fn writes_openings(rt: HostRuntime) -> Result<(), Fail> {
    let alloc = rt.alloc();
    for (whole, whole_text, step, step_text, count) in OPENINGS {
        let history = if count.is_some() { HISTORY } else { "" };
        let text = answer_text(alloc, "Ann", history, whole_text, step_text)?;
        let naming = naming(alloc, whole, step)?;
        assert!(rt; is_named(alloc, count, &naming, text.as_str())?, "{text}");
    }
    Ok(())
}

/// A move that makes a knight of a pawn, after which nobody's game is listed.
fn knight_line(alloc: Global) -> Result<MoveLine, AllocError>
    ensures { IfOk result IsPlainLine }
{
    Ok(MoveLine {
        next: Move {
            from: Square { index: 55 },
            to: Square { index: 63 },
            promotion: Some(Role::Knight),
        },
        san: Bytes::from_vec(Vec::from_slice(alloc, b"h8=N+")?),
        average: 0,
        totals: Totals {
            white: 18446744073709551615,
            draws: 20,
            black: 300,
        },
        game: None,
    })
}

/// A casual game of ultra bullet that was drawn in the year 987.
fn casual_game(alloc: Global) -> Result<Listed, AllocError>
    ensures { IfOk result HasPlainId }
{
    let december = Month {
        year: 987,
        month: 12,
    };
    let mut game = listed_game(alloc, "", Outcome::Draw, december)?;
    game.classes.mode = Mode::Casual;
    game.classes.speed = Speed::UltraBullet;
    Ok(game)
}

/// The answer with both, and nothing else.
fn answer_with_both(alloc: Global) -> Result<Found, AllocError>
    ensures { IfOk result IsPlainFound }
{
    let line = knight_line(alloc)?;
    let moves = one(alloc, line)?;
    let game = casual_game(alloc)?;
    Ok(Found {
        totals: Totals::default(),
        moves,
        top: Items::from_vec(Vec::new(alloc)),
        recent: one(alloc, game)?,
        history: None,
    })
}

#[test]
fn writes_other_values(rt: HostRuntime) -> Result<(), Fail> {
    let alloc = rt.alloc();
    let found = answer_with_both(alloc)?;
    let text =
        "{\"black\":0,\"draws\":0,\"moves\":[{\"averageRating\":0,\"black\":300,\"draws\":20,\
         \"game\":null,\"opening\":null,\"san\":\"h8=N+\",\"uci\":\"h7h8n\",\
         \"white\":18446744073709551615}],\"opening\":null,\"recentGames\":[{\"black\":{\"name\":\
         \"Bob\",\"rating\":1400},\"id\":\"aaaaaaa1\",\"mode\":\"casual\",\"month\":\"0987-12\",\
         \"speed\":\"ultraBullet\",\"uci\":\"e2e4\",\"white\":{\"name\":\"\",\"rating\":1500},\
         \"winner\":null,\"year\":987}],\"topGames\":[],\"white\":0}";
    assert!(rt; body(alloc, &found)?.as_slice() == text.as_bytes());
    Ok(())
}

#[test]
fn writes_what_was_stored(rt: HostRuntime) -> Result<(), Fail> {
    let alloc = rt.alloc();
    let none = stored_body(alloc, 1, 1, &[])?;
    assert!(rt; none.as_slice() == b"{\"batches\":1,\"refused\":[],\"stored\":1}".as_slice());
    let refused = [
        Refusal {
            place: 0,
            why: Why::Repeated { number: 0 },
        },
        Refusal {
            place: 194,
            why: Why::Twice { first: 0 },
        },
    ];
    let two = stored_body(alloc, 2, 0, &refused)?;
    let text = "{\"batches\":2,\"refused\":[{\"place\":0,\"why\":\"Repeated 0\"},\
         {\"place\":194,\"why\":\"Twice 0\"}],\"stored\":0}";
    assert!(rt; two.as_slice() == text.as_bytes());
    Ok(())
}

#[test]
fn says_why(rt: HostRuntime) -> Result<(), Fail> {
    let table = [
        (Why::Preamble, "Preamble"),
        (Why::TooLong { length: 65537 }, "TooLong 65537"),
        (Why::Game(GameFault::Lex { place: 196 }), "Lex 196"),
        (
            Why::Game(GameFault::Tag(TagFault::Missing {
                name: TagName::UtcDate,
            })),
            "Missing UTCDate",
        ),
        (
            Why::Game(GameFault::Tag(TagFault::Bad {
                name: TagName::WhiteElo,
            })),
            "Bad WhiteElo",
        ),
        (
            Why::Game(GameFault::Tag(TagFault::UnknownResult)),
            "UnknownResult",
        ),
        (Why::Game(GameFault::TooManyPlies), "TooManyPlies"),
        (
            Why::Game(GameFault::Illegal { ply: 3, place: 202 }),
            "Illegal 3 202",
        ),
        (Why::Twice { first: 0 }, "Twice 0"),
        (Why::Repeated { number: 18 }, "Repeated 18"),
    ];
    for (why, words) in table {
        assert!(rt; why_text(rt.alloc(), &why)?.as_slice() == words.as_bytes());
    }
    Ok(())
}
