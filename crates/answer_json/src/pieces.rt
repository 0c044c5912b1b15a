//! A body that is written piece by piece. It takes no more memory than its bytes and one piece do.
ghost use Rattle.std.specs.Prelude.{◌≡◌, ◌++◌, ◌∷◌, [], decimal, false, true, OnOk};
ghost use Rattle.json.specs.Print.{escape_byte};
ghost use Rattle.serde_json.specs.Data.{string};
ghost use Rattle.serde_json.specs.View.{view};
ghost use Rattle.serde_json.specs.Written.{compact_text, has_float};

use itoa::Buffer;
use serde_json::Value;
use std::alloc::{AllocError, Global};

/// Writes what stands before a value, such as a comma or the name of a member, and the value.
pub fn push_value(
    alloc: Global,
    body: &mut Vec<u8>,
    before: &[u8],
    value: &Value,
) -> Result<(), AllocError>
    requires { has_float (view value.now) ≡ false }
    ensures { OnOk result (body.new.items
        ≡ body.old.items ++ (before.now ++ compact_text (view value.now))) }
{
    body.extend_from_slice(before)?;
    let text = value.to_vec(alloc)?;
    body.extend_from_slice(text.as_slice())
}

/// Writes what stands before a count, and the count.
pub fn push_count(body: &mut Vec<u8>, before: &[u8], count: u64) -> Result<(), AllocError>
    ensures { OnOk result (body.new.items ≡ body.old.items ++ (before.now ++ decimal count)) }
{
    let mut digits = Buffer::new();
    body.extend_from_slice(before)?;
    body.extend_from_slice(digits.format(count).as_bytes())
}

/// Writes what stands before a text, and the text as a string. It makes no value of a text that
/// stands in a string as it is.
pub fn push_text(
    alloc: Global,
    body: &mut Vec<u8>,
    before: &[u8],
    text: &str,
) -> Result<(), AllocError>
    ensures { OnOk result (body.new.items
        ≡ body.old.items ++ (before.now ++ compact_text (string text.now))) }
{
    if !is_unescaped(text.as_bytes()) {
        let value = Value::String(String::from_str(alloc, text)?);
        return push_value(alloc, body, before, &value);
    }
    body.extend_from_slice(before)?;
    body.push(b'"')?;
    body.extend_from_slice(text.as_bytes())?;
    body.push(b'"')?;
    Ok(())
}

/// Whether no byte of a text is escaped in a string.
fn is_unescaped(text: &[u8]) -> bool
    ensures { result ≡ true → compact_text (string text.now) ≡ 34 ∷ (text.now ++ 34 ∷ []) }
{
    for byte in text {
        if is_escaped(*byte) {
            return false;
        }
    }
    true
}

/// Whether the byte is a quotation mark, a backslash or a control character. Most bytes are small
/// letters, which stand behind all of them.
fn is_escaped(byte: u8) -> bool
    ensures { result ≡ false → escape_byte byte ≡ byte ∷ [] }
{
    if byte > b'\\' {
        return false;
    }
    if byte < 32 {
        return true;
    }
    byte == b'"' || byte == b'\\'
}
