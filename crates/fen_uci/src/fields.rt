//! The fields of a FEN text, which stand between spaces.
ghost use Rattle.std.specs.Prelude.{◌≡◌, ◌+◌, ◌≤◌, length, drop};
ghost use Rattle.explorer_model.specs.Fen.{fields, field};
ghost use Rattle.fen_uci.specs.Splits.{IsTrimmed};

use crate::splits::split_before;

/// The field of this number, counted from 1; it is empty where it is missing.
pub fn field(text: &[u8], number: usize) -> &[u8]
    requires { 1 ≤ number }
    ensures { result.now ≡ field number text.now }
{
    let mut rest = text;
    for _earlier in 1..number {
        let (_, after) = split_field(rest);
        rest = after;
    }
    let (first, _) = split_field(rest);
    first
}

/// How many fields a text has between its spaces.
pub fn count_fields(text: &[u8]) -> usize
    ensures { result ≡ length (fields text.now) }
{
    let mut count = 0;
    let mut rest = text;
    loop {
        let (first, after) = split_field(rest);
        if first.is_empty() {
            return count;
        }
        count += 1;
        rest = after;
    }
}

/// The first field, which is empty where there is none, and what stands behind it.
fn split_field(text: &[u8]) -> (&[u8], &[u8])
    ensures first { result.0.now ≡ field 1 text.now }
    ensures rest { fields result.1.now ≡ drop 1 (fields text.now) }
    ensures shorter { length result.0.now + length result.1.now ≤ length text.now }
{
    split_before(trim_spaces(text), b' ')
}

/// The text without the spaces that it begins with.
fn trim_spaces(text: &[u8]) -> &[u8]
    ensures same { fields result.now ≡ fields text.now }
    ensures trimmed { IsTrimmed result.now }
    ensures shorter { length result.now ≤ length text.now }
{
    let mut rest = text;
    while let Some((b' ', after)) = rest.split_first() {
        rest = after;
    }
    rest
}
