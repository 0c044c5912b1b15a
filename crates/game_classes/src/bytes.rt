//! Texts taken apart at a byte.

ghost use Rattle.std.specs.Prelude.{◌≡◌, ◌==◌, true, false, IfSome, IfNone};
ghost use Rattle.std.specs.List.{before_first, after_first, after_last, list_any};

use memchr::{memchr, memrchr};

/// What stands before the first such byte, and what stands after it.
pub fn split_once(text: &[u8], byte: u8) -> Option<(&[u8], &[u8])>
    ensures some { IfSome result (λ parts. (list_any (λ b. b == byte) text.now ≡ true)
        × (parts.0.now ≡ before_first (λ b. b == byte) text.now)
        × (parts.1.now ≡ after_first (λ b. b == byte) text.now)) }
    ensures none { IfNone result ((list_any (λ b. b == byte) text.now ≡ false)
        × (before_first (λ b. b == byte) text.now ≡ text.now)) }
{
    let place = memchr(byte, text)?;
    Some((&text[..place], &text[place + 1..]))
}

/// What stands after the last such byte.
pub fn after_last(text: &[u8], byte: u8) -> Option<&[u8]>
    ensures some { IfSome result (λ rest. (list_any (λ b. b == byte) text.now ≡ true)
        × (rest.now ≡ after_last (λ b. b == byte) text.now)) }
    ensures none { IfNone result (list_any (λ b. b == byte) text.now ≡ false) }
{
    let place = memrchr(byte, text)?;
    Some(&text[place + 1..])
}
