//! The fields of a head by their names (RFC 9110, 5), and what their values say.
ghost use Rattle.std.specs.Prelude.{◌≡◌, ◌≤◌, ◌<◌, ◌^◌, ◌==◌, true, IfSome, map, length, slice_range};
ghost use Rattle.std.specs.List.{All, list_any};
ghost use Rattle.std.specs.Str.{all_ascii_digits};
ghost use Rattle.std.specs.Str.Parse.{digits_value};
ghost use Rattle.httparse.specs.Grammar.{is_ows, trim_ows};
ghost use Rattle.httparse.specs.Spans.{IsHeaderWithin, header_bytes};
ghost use Rattle.explorer_model.specs.Classes.{number_of};
ghost use Rattle.explorer_model.specs.Letters.{is_same_word};
ghost use Rattle.explorer_model.specs.Wire.{has_close, length_by};
ghost use Rattle.http_wire.specs.Fields.{values_in};

use arrayvec::ArrayVec;
use explorer_model::bytes::are_digits;
use httparse::spans::HeaderSpan;

/// The same letters, in any case.
fn is_same_word(a: &[u8], b: &[u8]) -> bool
    ensures { result ≡ is_same_word a.now b.now }
{
    a.eq_ignore_ascii_case(b)
}

/// The values of the fields of a name. The spans are those of fields in `text`.
pub(crate) fn values<'a>(
    text: &'a [u8],
    fields: &[HeaderSpan],
    name: &[u8],
) -> ArrayVec<&'a [u8], 32>
    requires few { length fields.now ≤ 32 }
    requires within { All (IsHeaderWithin (length text.now)) fields.now }
    ensures { map (λ value. value.now) result.items
        ≡ values_in name.now (map (header_bytes text.now) fields.now) }
{
    let mut values = ArrayVec::new();
    for field in fields {
        if is_same_word(name, field.name.of(text)) {
            values.push(field.value.of(text));
        }
    }
    values
}

/// Whether a word between the commas of a field's value is `close`.
pub(crate) fn has_close(value: &[u8]) -> bool
    ensures { result ≡ has_close value.now }
{
    value
        .split(|b| *b == b',')
        .any(|word| is_same_word(b"close", trim_ows(word)))
}

/// The bytes without the spaces and tabs at both ends.
fn trim_ows(bytes: &[u8]) -> &[u8]
    ensures { result.now ≡ trim_ows bytes.now }
{
    let mut start = 0;
    while start < bytes.len() && is_space_or_tab(bytes[start]) {
        start += 1;
    }
    let mut end = bytes.len();
    while start < end && is_space_or_tab(bytes[end - 1]) {
        end -= 1;
    }
    &bytes[start..end]
}

fn is_space_or_tab(byte: u8) -> bool
    ensures { result ≡ is_ows byte }
{
    byte == b' ' || byte == b'\t'
}

/// The body's length by the values of Content-Length, where it is one of at most ten digits.
pub(crate) fn length_by(values: &[&[u8]]) -> Option<u64>
    ensures { result ≡ length_by (map (λ value. value.now) values.now) }
{
    match values {
        [] => Some(0),
        [value] => number_of(value),
        _ => None,
    }
}

/// The number that one to ten decimal digits write.
fn number_of(text: &[u8]) -> Option<u64>
    ensures { result ≡ number_of 10 text.now }
{
    if text.is_empty() || 10 < text.len() || !are_digits(text) {
        return None;
    }
    Some(digits_value(text))
}

fn digits_value(text: &[u8]) -> u64
    requires few { length text.now ≤ 10 }
    requires digits { all_ascii_digits text.now ≡ true }
    ensures { result ≡ digits_value 10 text.now }
{
    let mut number: u64 = 0;
    for byte in text {
        number = 10 * number + (*byte - b'0') as u64;
    }
    number
}
