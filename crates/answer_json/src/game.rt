//! The games that an answer lists.
ghost use Rattle.std.specs.Prelude.{◌≡◌, ◌++◌, IfOk, None, OnOk, Some, codes};
ghost use Rattle.std.specs.Option.{option_copied};
ghost use Rattle.std.specs.List.{All};
ghost use Rattle.serde_json.specs.View.{view};
ghost use Rattle.serde_json.specs.Written.{compact_text};
ghost use Rattle.explorer_model.specs.Answer.{array_by, player_value, winner_value, listed_value, game_value};
ghost use Rattle.answer_json.specs.Plain.{HasPlainId, IsPlainGame};

use crate::pieces::push_value;
use crate::texts::{mode_text, month_text, speed_text, text_of};
use explorer_model::answer::Listed;
use explorer_model::archive::{Outcome, Player};
use fen_uci::write_uci;
use serde_json::{Value, json};
use std::alloc::{AllocError, Global};

fn player_value(alloc: Global, player: &Player) -> Result<Value, AllocError>
    ensures { IfOk result (λ value. view value ≡ player_value player.now) }
{
    json!(in alloc; {
        "name": player.name.as_str(),
        "rating": player.rating
    })
}

fn winner_value(alloc: Global, outcome: Outcome) -> Result<Value, AllocError>
    ensures { IfOk result (λ value. view value ≡ winner_value outcome) }
{
    match outcome {
        Outcome::White => json!(in alloc; "white"),
        Outcome::Draw => Ok(Value::Null),
        Outcome::Black => json!(in alloc; "black"),
    }
}

fn listed_value(alloc: Global, game: &Listed) -> Result<Value, AllocError>
    requires { HasPlainId game.now }
    ensures { IfOk result (λ value. view value ≡ listed_value game.now) }
{
    let classes = &game.classes;
    let month = month_text(classes.month);
    let uci = write_uci(game.next);
    json!(in alloc; {
        "black": player_value(alloc, &classes.black)?,
        "id": text_of(&classes.id.bytes),
        "mode": mode_text(classes.mode),
        "month": text_of(&month),
        "speed": speed_text(classes.speed),
        "uci": text_of(uci.as_slice()),
        "white": player_value(alloc, &classes.white)?,
        "winner": winner_value(alloc, classes.outcome)?,
        "year": classes.month.year
    })
}

/// Writes the member with the game of a move, or null where there is none.
pub fn push_game(alloc: Global, body: &mut Vec<u8>, game: Option<&Listed>) -> Result<(), AllocError>
    requires { IsPlainGame (option_copied game) }
    ensures { OnOk result (body.new.items ≡ body.old.items
        ++ (codes ",\"game\":" ++ compact_text (game_value (option_copied game.entry)))) }
{
    let Some(game) = game else {
        return body.extend_from_slice(b",\"game\":null");
    };
    let value = listed_value(alloc, game)?;
    push_value(alloc, body, b",\"game\":", &value)
}

/// The JSON array of listed games.
pub fn games_value(alloc: Global, games: &[Listed]) -> Result<Value, AllocError>
    requires { All HasPlainId games.now }
    ensures { IfOk result (λ value. view value ≡ array_by listed_value games.now) }
{
    let mut values = Vec::with_capacity(alloc, games.len())?;
    for game in games {
        values.push(listed_value(alloc, game)?)?;
    }
    Ok(Value::Array(values))
}
