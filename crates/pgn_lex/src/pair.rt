//! Tag pairs (PGN 8.1).
ghost use Rattle.std.specs.Prelude.{◌≡◌, ◌==◌, ◌<◌, ◌≤◌, Some, false, length, option_map, IfSome, IfOk};
ghost use Rattle.std.specs.List.{list_any};
ghost use Rattle.explorer_model.specs.Items.{after_white, after_byte, name_at, closes_string, ends_line, escapes, string_len, unescaped, pair_of};
ghost use Rattle.pgn_lex.specs.Pair.{tag_of, is_plain};

use crate::bytes::{Class, run_len};
use explorer_model::archive::{Bytes, Tag};
use std::alloc::{AllocError, Global};

/// A tag pair (PGN 8.1) as it stands in a text; `string` is what stands between the quotes.
#[derive(Clone, Copy, Debug)]
pub struct Pair<'a> {
    pub name: &'a [u8],
    pub string: &'a [u8],
}

/// The tag pair behind a bracket, and what follows it.
#[tactic(auto, unfolding(explorer_model::specs::Items::pair_of))]
pub fn pair_of(bytes: &[u8]) -> Option<(Pair<'_>, &[u8])>
    ensures value { option_map (λ found. (tag_of found.0, found.1.now)) result ≡ pair_of bytes.now }
    ensures within { IfSome result (λ found. length found.1.now ≤ length bytes.now) }
{
    let (name, rest) = name_at(after_white(bytes))?;
    let quoted = after_byte(b'"', after_white(rest))?;
    let count = string_len(quoted)?;
    let rest = after_byte(b']', after_white(&quoted[count + 1..]))?;
    let string = &quoted[..count];
    Some((Pair { name, string }, rest))
}

fn after_white(bytes: &[u8]) -> &[u8]
    ensures value { result.now ≡ after_white bytes.now }
    ensures within { length result.now ≤ length bytes.now }
{
    &bytes[run_len(bytes, Class::White)..]
}

fn after_byte(wanted: u8, bytes: &[u8]) -> Option<&[u8]>
    ensures value { option_map (λ rest. rest.now) result ≡ after_byte wanted bytes.now }
    ensures within { IfSome result (λ rest. length rest.now ≤ length bytes.now) }
{
    match bytes {
        [first, rest @ ..] if *first == wanted => Some(rest),
        _ => None,
    }
}

#[tactic(auto, unfolding(explorer_model::specs::Items::name_at))]
fn name_at(bytes: &[u8]) -> Option<(&[u8], &[u8])>
    ensures value { option_map (λ found. (found.0.now, found.1.now)) result ≡ name_at bytes.now }
    ensures within { IfSome result (λ found. length found.1.now ≤ length bytes.now) }
{
    let count = run_len(bytes, Class::Name);
    if count == 0 {
        return None;
    }
    Some(bytes.split_at(count))
}

/// How many bytes stand before the closing quote.
fn string_len(bytes: &[u8]) -> Option<usize>
    ensures value { result ≡ string_len false bytes.now }
    ensures within { IfSome result (λ count. count < length bytes.now) }
{
    let mut escaped = false;
    for (at, byte) in bytes.iter().enumerate() {
        if is_plain(*byte) {
            escaped = false;
            continue;
        }
        if closes_string(escaped, *byte) {
            return Some(at);
        }
        if ends_line(*byte) {
            return None;
        }
        escaped = escapes(escaped, *byte, &bytes[at + 1..]);
    }
    None
}

/// The tag that a pair is, as a copy.
pub fn tag(alloc: Global, pair: Pair<'_>) -> Result<Tag, AllocError>
    ensures { IfOk result (λ tag. tag ≡ tag_of pair.entry) }
{
    Ok(Tag {
        name: Bytes::from_vec(Vec::from_slice(alloc, pair.name)?),
        value: Bytes::from_vec(unescape(alloc, pair.string)?),
    })
}

/// The string without the backslashes that escape.
fn unescape(alloc: Global, string: &[u8]) -> Result<Vec<u8>, AllocError>
    ensures { IfOk result (λ value. value.items ≡ unescaped false string.now) }
{
    if !has_backslash(string) {
        return Vec::from_slice(alloc, string);
    }
    let mut value = Vec::new(alloc);
    let mut escaped = false;
    for (at, byte) in string.iter().enumerate() {
        escaped = escapes(escaped, *byte, &string[at + 1..]);
        if !escaped {
            value.push(*byte)?;
        }
    }
    Ok(value)
}

fn has_backslash(string: &[u8]) -> bool
    ensures { result ≡ list_any (λ b. b == 92) string.now }
{
    string.iter().any(|byte| *byte == b'\\')
}

/// Is the byte no quote, backslash or end of a line?
fn is_plain(byte: u8) -> bool
    ensures { result ≡ is_plain byte }
{
    !matches!(byte, b'"' | b'\\' | b'\n' | b'\r')
}

fn closes_string(escaped: bool, byte: u8) -> bool
    ensures { result ≡ closes_string escaped byte }
{
    byte == b'"' && !escaped
}

fn ends_line(byte: u8) -> bool
    ensures { result ≡ ends_line byte }
{
    byte == b'\n' || byte == b'\r'
}

/// Whether the byte is a backslash that escapes the one after it.
fn escapes(escaped: bool, byte: u8, rest: &[u8]) -> bool
    ensures { result ≡ escapes escaped byte rest.now }
{
    if escaped || byte != b'\\' {
        return false;
    }
    matches!(rest, [b'"' | b'\\', ..])
}
