//! The parameters that a query for a player's games has beside those of other queries.
ghost use Rattle.std.specs.Prelude.{◌≡◌, map, IfOk};
ghost use Rattle.explorer_model.specs.declared.player.PlayerParameter.TheVariants as players;
ghost use Rattle.explorer_model.specs.Players.{color_named, common, demanded, modes_in, player_named};
ghost use Rattle.query_params.specs.Given.{texts};

use crate::given::{bad_player, given_player_value};
use crate::lists::modes_named;
use crate::pairs::Pair;
use explorer_model::chess::Color;
use explorer_model::player::{BadPlayerParameter, PlayerParameter};
use explorer_model::query::BadParameter;
use explorer_model::text::Name;
use std::alloc::{AllocError, Global};

/// The reading of a parameter that all queries have, in a query for a player's games.
pub fn common<A>(reading: Result<A, BadParameter>) -> Result<A, BadPlayerParameter>
    ensures { result ≡ common reading }
{
    match reading {
        Ok(value) => Ok(value),
        Err(fault) => Err(bad_player(PlayerParameter::Common(fault.name))),
    }
}

/// The player's name, which has to be given.
pub fn player(alloc: Global, pairs: &[Pair]) -> Result<Result<Name, BadPlayerParameter>, AllocError>
    ensures { IfOk result (λ name. name ≡ demanded player_named players.Player (map texts pairs.now)) }
{
    match given_player_value(pairs, PlayerParameter::Player) {
        Ok(Some(text)) => Ok(Ok(Name::from_string(String::from_str(alloc, text)?))),
        Ok(None) => Ok(Err(bad_player(PlayerParameter::Player))),
        Err(fault) => Ok(Err(fault)),
    }
}

/// The side that the player has, which has to be given.
pub fn color(pairs: &[Pair]) -> Result<Color, BadPlayerParameter>
    ensures { result ≡ demanded color_named players.Color (map texts pairs.now) }
{
    let Some(text) = given_player_value(pairs, PlayerParameter::Color)? else {
        return Err(bad_player(PlayerParameter::Color));
    };
    color_named(text).ok_or(bad_player(PlayerParameter::Color))
}

#[tactic(auto, unfolding(explorer_model::specs::Players::color_named))]
fn color_named(text: &str) -> Option<Color>
    ensures { result ≡ color_named text.now }
{
    if text == "white" {
        return Some(Color::White);
    }
    if text == "black" {
        return Some(Color::Black);
    }
    None
}

/// Whether rated games count, and whether casual ones do.
pub fn modes(pairs: &[Pair]) -> Result<[bool; 2], BadPlayerParameter>
    ensures { result ≡ modes_in (map texts pairs.now) }
{
    let Some(text) = given_player_value(pairs, PlayerParameter::Modes)? else {
        return Ok([true; 2]);
    };
    modes_named(text).ok_or(bad_player(PlayerParameter::Modes))
}
