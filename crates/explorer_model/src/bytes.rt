//! Bytes that are read as text.
ghost use Rattle.std.specs.Prelude.{◌≡◌, option_map};
ghost use Rattle.std.specs.Str.{all_ascii_digits};
ghost use Rattle.explorer_model.specs.Classes.{name_of};

use std::str;

/// Every byte is a decimal digit.
pub fn are_digits(text: &[u8]) -> bool
    ensures { result ≡ all_ascii_digits text.now }
{
    for byte in text {
        if !byte.is_ascii_digit() {
            return false;
        }
    }
    true
}

/// The text that the bytes are, where they are valid UTF-8.
#[tactic(auto, unfolding(crate::specs::Classes::name_of))]
pub fn utf8_of(bytes: &[u8]) -> Option<&str>
    ensures { option_map (λ text. text.now) result ≡ name_of bytes.now }
{
    match str::from_utf8(bytes) {
        Ok(text) => Some(text),
        Err(_) => None,
    }
}
