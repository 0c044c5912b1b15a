//! Sets of bytes.
ghost use Rattle.std.specs.Prelude.{◌≡◌, ◌==◌, ◌<◌, ◌≤◌, length, position, IfSome};
ghost use Rattle.std.specs.List.{prefix_len};
ghost use Rattle.explorer_model.specs.Items.{is_white, is_of_name, begins_symbol, continues_symbol, lead_of, lead_of_comment, lead_of_bracket, lead_of_sign};
ghost use Rattle.pgn_lex.specs.Bytes.{is_of, lead_as};

use crate::byte_table::{NAMES, SYMBOL_STARTS, SYMBOLS, WHITES};
use memchr::memchr;

/// A set of bytes of which the grammar takes runs.
#[derive(Clone, Copy, Debug, PartialEq, Eq)]
pub enum Class {
    /// White space.
    White,
    /// The letters, digits and `_` of a tag's name (PGN 8.1.1).
    Name,
    /// The first byte of a symbol (PGN 7).
    SymbolStart,
    /// What follows the first byte of a symbol.
    Symbol,
    Digit,
}

impl Class {
    fn has(self, byte: u8) -> bool
        ensures { result ≡ is_of self byte }
    {
        match self {
            Class::White => is_white(byte),
            Class::Name => is_of_name(byte),
            Class::SymbolStart => begins_symbol(byte),
            Class::Symbol => continues_symbol(byte),
            Class::Digit => byte.is_ascii_digit(),
        }
    }
}

/// White space, as texts have it between tokens.
pub fn is_white(byte: u8) -> bool
    ensures { result ≡ is_white byte }
{
    let table = &WHITES;
    table.has(byte)
}

fn is_of_name(byte: u8) -> bool
    ensures { result ≡ is_of_name byte }
{
    let table = &NAMES;
    table.has(byte)
}

fn begins_symbol(byte: u8) -> bool
    ensures { result ≡ begins_symbol byte }
{
    let table = &SYMBOL_STARTS;
    table.has(byte)
}

fn continues_symbol(byte: u8) -> bool
    ensures { result ≡ continues_symbol byte }
{
    let table = &SYMBOLS;
    table.has(byte)
}

/// How many bytes at the front are of the class.
pub fn run_len(bytes: &[u8], class: Class) -> usize
    ensures count { result ≡ prefix_len (is_of class) bytes.now }
    ensures within { result ≤ length bytes.now }
{
    for (at, byte) in bytes.iter().enumerate() {
        if !class.has(*byte) {
            return at;
        }
    }
    bytes.len()
}

/// The offset of the first such byte.
pub fn find(bytes: &[u8], wanted: u8) -> Option<usize>
    ensures place { result ≡ position (λ byte. byte == wanted) bytes.now }
    ensures within { IfSome result (λ at. at < length bytes.now) }
{
    memchr(wanted, bytes)
}

/// What a byte begins.
#[derive(Clone, Copy, Debug, PartialEq, Eq)]
pub enum Lead {
    White,
    /// A comment in braces.
    Comment,
    /// A comment up to the line's end, or an escape line.
    Remark,
    /// A tag pair.
    Bracket,
    Symbol,
    Star,
    /// `.`, `!` or `?`, alone.
    Mark,
    /// A NAG.
    Dollar,
    /// `(`, alone.
    Opening,
    /// `)`, alone.
    Closing,
    Other,
}

/// What a byte begins; `fresh`: it is the first of a line.
#[tactic(auto, unfolding(explorer_model::specs::Items::lead_of))]
pub fn lead_of(byte: u8, fresh: bool) -> Lead
    ensures { lead_as result ≡ lead_of fresh byte }
{
    if is_white(byte) {
        return Lead::White;
    }
    if begins_symbol(byte) {
        return Lead::Symbol;
    }
    if matches!(byte, b'.' | b'!' | b'?') {
        return Lead::Mark;
    }
    lead_of_comment(byte, fresh)
}

fn lead_of_comment(byte: u8, fresh: bool) -> Lead
    ensures { lead_as result ≡ lead_of_comment fresh byte }
{
    if byte == b'{' {
        return Lead::Comment;
    }
    if byte == b';' || fresh && byte == b'%' {
        return Lead::Remark;
    }
    lead_of_bracket(byte)
}

fn lead_of_bracket(byte: u8) -> Lead
    ensures { lead_as result ≡ lead_of_bracket byte }
{
    match byte {
        b'[' => Lead::Bracket,
        b'(' => Lead::Opening,
        b')' => Lead::Closing,
        _ => lead_of_sign(byte),
    }
}

fn lead_of_sign(byte: u8) -> Lead
    ensures { lead_as result ≡ lead_of_sign byte }
{
    match byte {
        b'*' => Lead::Star,
        b'$' => Lead::Dollar,
        _ => Lead::Other,
    }
}
