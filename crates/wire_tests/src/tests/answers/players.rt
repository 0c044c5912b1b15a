//! Printed answers to queries for a player's games.
ghost use Rattle.std.specs.Prelude.{IfOk};
ghost use Rattle.answer_json.specs.Plain.{IsPlainPlayerFound, IsPlainPlayerLine};

use super::{KINGS_PAWN, WHITE_WON, game_text, line, naming, one, won_games};
use answer_json::player_body;
use explorer_model::answer::Totals;
use explorer_model::list::Items;
use explorer_model::opening::Naming;
use explorer_model::player::{PlayerFound, PlayerLine};
use std::alloc::{AllocError, Global};
use std::test::Fail;

/// The move e4, after which White won against a player of 1,400.
fn line_of_player(alloc: Global) -> Result<PlayerLine, AllocError>
    ensures { IfOk result IsPlainPlayerLine }
{
    let line = line(alloc, "Ann")?;
    Ok(PlayerLine {
        next: line.next,
        san: line.san,
        average: 1400,
        totals: line.totals,
        game: line.game,
    })
}

/// What Ann played with White, of one game that she won.
fn with_white(alloc: Global) -> Result<PlayerFound, AllocError>
    ensures { IfOk result IsPlainPlayerFound }
{
    let line = line_of_player(alloc)?;
    Ok(PlayerFound {
        totals: WHITE_WON,
        moves: one(alloc, line)?,
        recent: won_games(alloc, "Ann")?,
    })
}

/// What she played with Black: nothing.
fn with_black(alloc: Global) -> PlayerFound
    ensures { IsPlainPlayerFound result }
{
    PlayerFound {
        totals: Totals::default(),
        moves: Items::from_vec(Vec::new(alloc)),
        recent: Items::from_vec(Vec::new(alloc)),
    }
}

/// What is written for her games with White, with the openings of the whole and of the move.
fn white_text(alloc: Global, whole: &str, step: &str) -> Result<String, AllocError> {
    let game = game_text(alloc, "Ann")?;
    format!(in alloc;
        "{{\"black\":0,\"draws\":0,\"moves\":[{{\"averageOpponentRating\":1400,\
         \"black\":0,\"draws\":0,\"game\":{game},\"opening\":{step},\"san\":\"e4\",\
         \"uci\":\"e2e4\",\"white\":1}}],\"opening\":{whole},\"recentGames\":[{game}],\
         \"white\":1}}"
    )
}

const BLACK_TEXT: &str =
    "{\"black\":0,\"draws\":0,\"moves\":[],\"opening\":null,\"recentGames\":[],\"white\":0}";

/// The opening of the whole and of the move, each with its text.
const OPENINGS: [(Option<&str>, &str, Option<&str>, &str); 3] = [
    (None, "null", None, "null"),
    (None, "null", Some("King's Pawn Game"), KINGS_PAWN),
    (Some("King's Pawn Game"), KINGS_PAWN, None, "null"),
];

#[test]
fn writes_the_games_of_a_player(rt: HostRuntime) -> Result<(), Fail> {
    let alloc = rt.alloc();
    let found = with_white(alloc)?;
    for (whole, whole_text, step, step_text) in OPENINGS {
        let naming = naming(alloc, whole, step)?;
        let text = white_text(alloc, whole_text, step_text)?;
        let body = player_body(alloc, &found, &naming)?;
        assert!(rt; body.as_slice() == text.as_bytes(), "{text}");
    }
    Ok(())
}

#[test]
fn writes_that_a_player_has_no_games(rt: HostRuntime) -> Result<(), Fail> {
    let alloc = rt.alloc();
    let nothing = Naming {
        whole: None,
        moves: Items::from_vec(Vec::new(alloc)),
    };
    let body = player_body(alloc, &with_black(alloc), &nothing)?;
    assert!(rt; body.as_slice() == BLACK_TEXT.as_bytes());
    Ok(())
}
