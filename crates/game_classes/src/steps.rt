//! What all tags of a text say of its game.
ghost use Rattle.std.specs.Prelude.{◌≡◌, IfOk, ok_or, option_map};
ghost use Rattle.explorer_model.specs.declared.fault.TagFault.TheVariants.{Bad};
ghost use Rattle.explorer_model.specs.declared.fault.TagName.TheVariants.{Site, TimeControl};
ghost use Rattle.explorer_model.specs.Classes.{classes, asked, id_of, name_of, outcome_of, rating_of};
ghost use Rattle.explorer_model.specs.Classes.{control_of, date_name, month_of};
ghost use Rattle.explorer_model.specs.Stop.{Gives, GivesBy};

use crate::event::mode_of;
use crate::rating::{group_of, rating_of};
use crate::site::id_of;
use crate::tags::{agrees_on_set_up, is_standard, required_value, value_of};
use crate::time::{control_of, month_of};
use explorer_model::archive::{Classes, GameId, Month, Outcome, Player, Speed, Tag, Tags};
use explorer_model::bytes::utf8_of;
use explorer_model::fault::{Stop, TagFault, TagName};
use explorer_model::text::Name;
use std::alloc::{AllocError, Global};

/// What the tags of a text say of its game, or the first fault in the order in which the archive
/// asks for them.
#[tactic(auto, unfolding(explorer_model::specs::Classes::classes))]
pub fn classes(alloc: Global, tags: &Tags) -> Result<Classes, Stop<TagFault>>
    ensures { Gives result (classes tags.now) }
{
    let tags = tags.as_slice();
    if !is_standard(tags) {
        return Err(Stop::Fault(TagFault::NotStandard));
    }
    if !agrees_on_set_up(tags) {
        return Err(Stop::Fault(TagFault::SetUp));
    }
    let mode = mode_of(required_value(TagName::Event, tags)?);
    let id = site_id(tags)?;
    let white = player_name(TagName::White, tags)?;
    let black = player_name(TagName::Black, tags)?;
    let outcome = outcome_of(required_value(TagName::Result, tags)?)?;
    let white_rating = player_rating(TagName::WhiteElo, tags)?;
    let black_rating = player_rating(TagName::BlackElo, tags)?;
    let speed = speed(tags)?;
    let month = month(tags)?;
    let white = player(alloc, white, white_rating)?;
    let black = player(alloc, black, black_rating)?;
    Ok(Classes {
        id,
        white,
        black,
        outcome,
        mode,
        speed,
        group: group_of(white_rating, black_rating),
        month,
    })
}

/// What a tag's value stands for, where its rule allows it.
fn value_or_fault<T: Copy>(name: TagName, meaning: Option<T>) -> Result<T, Stop<TagFault>>
    ensures { Gives result (ok_or meaning (Bad name)) }
{
    match meaning {
        Some(meaning) => Ok(meaning),
        None => Err(Stop::Fault(TagFault::Bad { name })),
    }
}

fn site_id(tags: &[Tag]) -> Result<GameId, Stop<TagFault>>
    ensures { Gives result (asked Site id_of tags.now) }
{
    value_or_fault(TagName::Site, id_of(required_value(TagName::Site, tags)?))
}

fn player_name(name: TagName, tags: &[Tag]) -> Result<&str, Stop<TagFault>>
    ensures { GivesBy (λ text. text.now) result (asked name name_of tags.now) }
{
    match utf8_of(required_value(name, tags)?) {
        Some(text) => Ok(text),
        None => Err(Stop::Fault(TagFault::Bad { name })),
    }
}

fn player_rating(name: TagName, tags: &[Tag]) -> Result<u16, Stop<TagFault>>
    ensures { Gives result (asked name rating_of tags.now) }
{
    value_or_fault(name, rating_of(required_value(name, tags)?))
}

fn speed(tags: &[Tag]) -> Result<Speed, Stop<TagFault>>
    ensures { Gives result (asked TimeControl control_of tags.now) }
{
    let name = TagName::TimeControl;
    value_or_fault(name, control_of(required_value(name, tags)?))
}

fn month(tags: &[Tag]) -> Result<Month, Stop<TagFault>>
    ensures { Gives result (asked (date_name tags.now) month_of tags.now) }
{
    let name = date_name(tags);
    value_or_fault(name, month_of(required_value(name, tags)?))
}

fn player(alloc: Global, name: &str, rating: u16) -> Result<Player, AllocError>
    ensures { IfOk result (λ player. player ≡ record { name = name.now; rating = rating }) }
{
    let name = Name::from_string(String::from_str(alloc, name)?);
    Ok(Player { name, rating })
}

#[tactic(auto, unfolding(explorer_model::specs::Classes::outcome_of))]
fn outcome_of(text: &[u8]) -> Result<Outcome, Stop<TagFault>>
    ensures { Gives result (outcome_of text.now) }
{
    if text == b"1-0".as_slice() {
        return Ok(Outcome::White);
    }
    if text == b"0-1".as_slice() {
        return Ok(Outcome::Black);
    }
    if text == b"1/2-1/2".as_slice() {
        return Ok(Outcome::Draw);
    }
    if text == b"*".as_slice() {
        return Err(Stop::Fault(TagFault::UnknownResult));
    }
    Err(Stop::Fault(TagFault::Bad {
        name: TagName::Result,
    }))
}

/// The tag that dates the game: that of the date by UTC, where it is there or no other is.
fn date_name(tags: &[Tag]) -> TagName
    ensures { result ≡ date_name tags.now }
{
    if value_of(b"UTCDate", tags).is_none() && value_of(b"Date", tags).is_some() {
        TagName::Date
    } else {
        TagName::UtcDate
    }
}
