//! Values as they are given.
ghost use Rattle.std.specs.Prelude.{◌≡◌, map, option_map};
ghost use Rattle.std.specs.Result.{result_map_both};
ghost use Rattle.explorer_model.specs.Players.{bad_player};
ghost use Rattle.explorer_model.specs.Query.{bad, value_named};
ghost use Rattle.query_params.specs.Given.{texts, given_in, given_once, player_given_in};

use crate::pairs::{Pair, value_named};
use explorer_model::player::{BadPlayerParameter, PlayerParameter};
use explorer_model::query::{BadParameter, Parameter};

/// A parameter that is not well formed.
pub fn bad(name: Parameter) -> BadParameter
    ensures { result ≡ bad name }
{
    BadParameter { name }
}

/// A parameter of a player's games that is not well formed.
pub fn bad_player(name: PlayerParameter) -> BadPlayerParameter
    ensures { result ≡ bad_player name }
{
    BadPlayerParameter { name }
}

/// The value under a name, where it is given and not empty; the fault where it is given twice.
fn given_once<'a, F: Copy>(pairs: &'a [Pair], name: &str, fault: F) -> Result<Option<&'a str>, F>
    ensures { result_map_both (λ value. option_map (λ text. text.now) value)
        (λ fault. fault) result ≡ given_once (value_named name.now (map texts pairs.now)) fault }
{
    match value_named(pairs, name) {
        None => Err(fault),
        Some(text) => {
            if text.is_empty() {
                Ok(None)
            } else {
                Ok(Some(text))
            }
        }
    }
}

/// The value of a parameter, where it is given and not empty.
#[tactic(auto, unfolding(explorer_model::specs::Query::value_in))]
pub fn given_value(pairs: &[Pair], name: Parameter) -> Result<Option<&str>, BadParameter>
    ensures { result_map_both (λ value. option_map (λ text. text.now) value)
        (λ fault. fault) result ≡ given_in name (map texts pairs.now) }
{
    given_once(pairs, name.as_str(), bad(name))
}

/// The value of a parameter of a query for a player's games, where it is given and not empty.
pub fn given_player_value(
    pairs: &[Pair],
    name: PlayerParameter,
) -> Result<Option<&str>, BadPlayerParameter>
    ensures { result_map_both (λ value. option_map (λ text. text.now) value)
        (λ fault. fault) result ≡ player_given_in name (map texts pairs.now) }
{
    given_once(pairs, name.as_str(), bad_player(name))
}
