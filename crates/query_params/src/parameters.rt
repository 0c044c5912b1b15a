//! The parameters that are told by their values alone.
ghost use Rattle.std.specs.Prelude.{◌≡◌, map, None, true, false};
ghost use Rattle.explorer_model.specs.Query.{asked, standard_only, names_given, speed_names, group_names, all_given, bound_named, most_moves, most_games, switch_named};
ghost use Rattle.explorer_model.specs.declared.query.Parameter.TheVariants.{Variant, Speeds, Ratings, Moves, History};
ghost use Rattle.query_params.specs.Given.{texts};

use crate::given::{bad, given_value};
use crate::lists::{groups_named, speeds_named};
use crate::pairs::Pair;
use crate::values::{month_named, number_of, switch_named};
use explorer_model::archive::Month;
use explorer_model::query::{BadParameter, Parameter};

/// Standard chess is the only variant.
pub fn variant(pairs: &[Pair]) -> Result<bool, BadParameter>
    ensures { result ≡ asked standard_only true Variant (map texts pairs.now) }
{
    let Some(text) = given_value(pairs, Parameter::Variant)? else {
        return Ok(true);
    };
    if text == "standard" {
        Ok(true)
    } else {
        Err(bad(Parameter::Variant))
    }
}

/// The speeds that are asked for; all where none is named.
pub fn speeds(pairs: &[Pair]) -> Result<[bool; 6], BadParameter>
    ensures { result ≡ asked (names_given speed_names) (all_given speed_names) Speeds
        (map texts pairs.now) }
{
    let Some(text) = given_value(pairs, Parameter::Speeds)? else {
        return Ok([true; 6]);
    };
    speeds_named(text).ok_or(bad(Parameter::Speeds))
}

/// Rating groups, by the least rating of each.
pub fn groups(pairs: &[Pair]) -> Result<[bool; 9], BadParameter>
    ensures { result ≡ asked (names_given group_names) (all_given group_names) Ratings
        (map texts pairs.now) }
{
    let Some(text) = given_value(pairs, Parameter::Ratings)? else {
        return Ok([true; 9]);
    };
    groups_named(text).ok_or(bad(Parameter::Ratings))
}

/// A bound on the months, if there is one.
pub fn bound(pairs: &[Pair], name: Parameter) -> Result<Option<Month>, BadParameter>
    ensures { result ≡ asked bound_named None name (map texts pairs.now) }
{
    let Some(text) = given_value(pairs, name)? else {
        return Ok(None);
    };
    Ok(Some(month_named(text).ok_or(bad(name))?))
}

/// How many moves are asked for at most; 12 where nothing is said.
pub fn moves(pairs: &[Pair]) -> Result<u32, BadParameter>
    ensures { result ≡ asked most_moves 12 Moves (map texts pairs.now) }
{
    let Some(text) = given_value(pairs, Parameter::Moves)? else {
        return Ok(12);
    };
    number_of(6, text).ok_or(bad(Parameter::Moves))
}

/// How many games a list has at most, which is 4 or fewer.
pub fn most_games(pairs: &[Pair], name: Parameter) -> Result<u8, BadParameter>
    ensures { result ≡ asked most_games 4 name (map texts pairs.now) }
{
    let Some(text) = given_value(pairs, name)? else {
        return Ok(4);
    };
    Ok(number_of(6, text).ok_or(bad(name))?.min(4) as u8)
}

/// Whether the months are asked for; not where nothing is said.
pub fn history(pairs: &[Pair]) -> Result<bool, BadParameter>
    ensures { result ≡ asked switch_named false History (map texts pairs.now) }
{
    let Some(text) = given_value(pairs, Parameter::History)? else {
        return Ok(false);
    };
    switch_named(text).ok_or(bad(Parameter::History))
}
