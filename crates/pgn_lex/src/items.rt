//! The items of a text (PGN 7).
ghost use Rattle.std.specs.Prelude.{◌≡◌, ◌+◌, ◌<◌, ◌≤◌, ◌^◌, length};
ghost use Rattle.std.specs.Char.{is_ascii_digit};
ghost use Rattle.std.specs.List.{list_all};
ghost use Rattle.explorer_model.specs.Items.{ending_of, kind_of_symbol, one_byte, comment_of, remark_of, pair_item_of, nag_of};
ghost use Rattle.pgn_lex.specs.Items.{kind_as, shape_as, shape_at, symbol_at, begins_line, item_as, item_at, IsCut, begins_with_digit};

use crate::bytes::{Class, Lead, find, lead_of, run_len};
use crate::pair::{Pair, pair_of};
use explorer_model::archive::Ending;

/// What an item of a text is (PGN 7).
#[derive(Clone, Copy, Debug)]
pub enum Kind<'a> {
    /// White space, a comment or an escape line.
    Blank,
    Pair(Pair<'a>),
    /// A game termination marker.
    Terminates(Ending),
    /// A symbol that is neither that nor a move number.
    Word,
    /// A move number, a period, a suffix or a NAG.
    Dropped,
    Opens,
    Closes,
    /// No item of the grammar begins here.
    Wrong,
}

/// An item's kind, and how many bytes it has after its first.
#[derive(Clone, Copy, Debug)]
pub struct Shape<'a> {
    pub kind: Kind<'a>,
    pub more: usize,
}

/// An item of a text; `place` is the offset of its first byte.
#[derive(Clone, Copy, Debug)]
pub struct Item<'a> {
    pub kind: Kind<'a>,
    pub place: u32,
    pub text: &'a [u8],
}

/// The item that begins at an offset of the text.
pub fn item_at(text: &[u8], at: usize) -> Item<'_>
    requires within { at < length text.now }
    requires small { length text.now < 2 ^ 32 }
    ensures item { item_as result ≡ item_at at text.now }
    ensures place { result.place ≡ at }
    ensures stands { IsCut text.now (item_as result) }
    ensures some { 0 < length result.text.now }
    ensures within { at + length result.text.now ≤ length text.now }
{
    let bytes = &text[at..];
    let shape = shape_at(bytes, begins_line(text, at));
    Item {
        kind: shape.kind,
        place: at as u32,
        text: &bytes[..shape.more + 1],
    }
}

fn begins_line(text: &[u8], at: usize) -> bool
    requires { at ≤ length text.now }
    ensures { result ≡ begins_line at text.now }
{
    at == 0 || text[at - 1] == b'\n'
}

/// The item that the bytes begin with; `fresh`: a line begins here.
pub fn shape_at(bytes: &[u8], fresh: bool) -> Shape<'_>
    ensures { shape_as result ≡ shape_at fresh bytes.now }
{
    let [byte, rest @ ..] = bytes else {
        return one_byte(Kind::Wrong);
    };
    match lead_of(*byte, fresh) {
        Lead::White => one_byte(Kind::Blank),
        Lead::Comment => comment(rest),
        Lead::Remark => remark(rest),
        Lead::Bracket => pair(rest),
        Lead::Symbol => symbol(bytes),
        Lead::Star => one_byte(Kind::Terminates(Ending::Unknown)),
        Lead::Mark => one_byte(Kind::Dropped),
        Lead::Dollar => nag(rest),
        Lead::Opening => one_byte(Kind::Opens),
        Lead::Closing => one_byte(Kind::Closes),
        Lead::Other => one_byte(Kind::Wrong),
    }
}

fn one_byte(kind: Kind<'_>) -> Shape<'_>
    ensures { shape_as result ≡ one_byte (kind_as kind.entry) }
{
    Shape { kind, more: 0 }
}

#[tactic(auto, unfolding(explorer_model::specs::Items::comment_of))]
fn comment(rest: &[u8]) -> Shape<'_>
    ensures { shape_as result ≡ comment_of rest.now }
{
    match find(rest, b'}') {
        Some(count) => Shape {
            kind: Kind::Blank,
            more: count + 1,
        },
        None => one_byte(Kind::Wrong),
    }
}

#[tactic(auto, unfolding(explorer_model::specs::Items::remark_of))]
fn remark(rest: &[u8]) -> Shape<'_>
    ensures { shape_as result ≡ remark_of rest.now }
{
    let more = find(rest, b'\n').unwrap_or(rest.len());
    Shape {
        kind: Kind::Blank,
        more,
    }
}

#[tactic(auto, unfolding(explorer_model::specs::Items::pair_item_of))]
fn pair(rest: &[u8]) -> Shape<'_>
    ensures { shape_as result ≡ pair_item_of rest.now }
{
    match pair_of(rest) {
        Some((pair, behind)) => Shape {
            kind: Kind::Pair(pair),
            more: rest.len() - behind.len(),
        },
        None => one_byte(Kind::Wrong),
    }
}

#[tactic(auto, unfolding(explorer_model::specs::Items::nag_of))]
fn nag(rest: &[u8]) -> Shape<'_>
    ensures { shape_as result ≡ nag_of rest.now }
{
    match run_len(rest, Class::Digit) {
        0 => one_byte(Kind::Wrong),
        more => Shape {
            kind: Kind::Dropped,
            more,
        },
    }
}

fn symbol(bytes: &[u8]) -> Shape<'_>
    ensures { shape_as result ≡ symbol_at bytes.now }
{
    let [_, rest @ ..] = bytes else {
        return one_byte(Kind::Wrong);
    };
    let more = run_len(rest, Class::Symbol);
    Shape {
        kind: kind_of_symbol(&bytes[..more + 1]),
        more,
    }
}

fn kind_of_symbol(symbol: &[u8]) -> Kind<'_>
    ensures { kind_as result ≡ kind_of_symbol symbol.now }
{
    if !begins_with_digit(symbol) {
        return Kind::Word;
    }
    if is_number(symbol) {
        return Kind::Dropped;
    }
    match ending_of(symbol) {
        Some(ending) => Kind::Terminates(ending),
        None => Kind::Word,
    }
}

/// Is the first byte a digit, as in each move number and each ending?
fn begins_with_digit(symbol: &[u8]) -> bool
    ensures { result ≡ begins_with_digit symbol.now }
{
    match symbol {
        [first, ..] => first.is_ascii_digit(),
        [] => true,
    }
}

fn is_number(symbol: &[u8]) -> bool
    ensures { result ≡ list_all is_ascii_digit symbol.now }
{
    symbol.iter().all(|byte| byte.is_ascii_digit())
}

#[tactic(auto, unfolding(explorer_model::specs::Items::ending_of))]
fn ending_of(symbol: &[u8]) -> Option<Ending>
    ensures { result ≡ ending_of symbol.now }
{
    if symbol == b"1-0".as_slice() {
        return Some(Ending::WhiteWins);
    }
    if symbol == b"0-1".as_slice() {
        return Some(Ending::BlackWins);
    }
    if symbol == b"1/2-1/2".as_slice() {
        return Some(Ending::Drawn);
    }
    None
}
