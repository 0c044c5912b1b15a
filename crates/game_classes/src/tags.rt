//! The values of tags by their names.

ghost use Rattle.std.specs.Prelude.{◌≡◌, ◌≤◌, ◌<◌, ◌^◌, true, IfSome, option_map, length};
ghost use Rattle.std.specs.Str.{all_ascii_digits};
ghost use Rattle.std.specs.Str.Parse.{digits_value};
ghost use Rattle.explorer_model.specs.Classes.{value_of, required, number_of, is_standard, start_text, set_up_text, agrees_on_set_up};
ghost use Rattle.explorer_model.specs.Stop.{GivesBy};

use explorer_model::archive::{Tag, Tags};
use explorer_model::bytes::are_digits;
use explorer_model::fault::{Stop, TagFault, TagName};

/// The value of the first pair of the name.
pub fn value_of<'a>(name: &[u8], tags: &'a [Tag]) -> Option<&'a [u8]>
    ensures { option_map (λ value. value.now) result ≡ value_of name.now tags.now }
{
    for tag in tags {
        if tag.name.as_slice() == name {
            return Some(tag.value.as_slice());
        }
    }
    None
}

/// The value of a tag that has to be there.
pub fn required_value(name: TagName, tags: &[Tag]) -> Result<&[u8], Stop<TagFault>>
    ensures { GivesBy (λ value. value.now) result (required name tags.now) }
{
    match value_of(name.as_str().as_bytes(), tags) {
        Some(value) => Ok(value),
        None => Err(Stop::Fault(TagFault::Missing { name })),
    }
}

/// The number that one to `most` decimal digits write.
pub fn number_of(most: usize, text: &[u8]) -> Option<u32>
    requires { most ≤ 9 }
    ensures value { result ≡ number_of most text.now }
    ensures short { IfSome result (λ number. number < 10 ^ most) }
{
    if text.is_empty() {
        return None;
    }
    if most < text.len() {
        return None;
    }
    if !are_digits(text) {
        return None;
    }
    Some(digits_value(text))
}

/// The number that the digits write.
pub fn digits_value(text: &[u8]) -> u32
    requires few { length text.now ≤ 9 }
    requires digits { all_ascii_digits text.now ≡ true }
    ensures value { result ≡ digits_value 10 text.now }
    ensures short { result < 10 ^ length text.now }
{
    let mut number = 0;
    for byte in text {
        number = 10 * number + (*byte - b'0') as u32;
    }
    number
}

/// The game is of standard chess.
#[tactic(auto, unfolding(explorer_model::specs::Classes::is_standard))]
pub fn is_standard(tags: &[Tag]) -> bool
    ensures { result ≡ is_standard tags.now }
{
    match value_of(b"Variant", tags) {
        None => true,
        Some(value) => value == b"Standard".as_slice() || value == b"From Position".as_slice(),
    }
}

/// The text of the position that the game begins in: the value of the first tag FEN (PGN 9.7.2).
/// `None` exactly where there is none.
pub fn start_text(tags: &Tags) -> Option<&[u8]>
    ensures { option_map (λ text. text.now) result ≡ start_text tags.now }
{
    value_of(b"FEN", tags.as_slice())
}

/// The tag SetUp is absent, or says whether a position is set up (PGN 9.7.1).
#[tactic(auto, unfolding(explorer_model::specs::Classes::agrees_on_set_up))]
pub fn agrees_on_set_up(tags: &[Tag]) -> bool
    ensures { result ≡ agrees_on_set_up tags.now }
{
    let text = value_of(b"FEN", tags);
    match value_of(b"SetUp", tags) {
        None => true,
        Some(value) => value == set_up_text(text),
    }
}

/// What the tag SetUp says where this is the value of FEN.
fn set_up_text(text: Option<&[u8]>) -> &'static [u8]
    ensures { result.now ≡ set_up_text (option_map (λ text. text.now) text.entry) }
{
    match text {
        None => b"0",
        Some(_) => b"1",
    }
}
