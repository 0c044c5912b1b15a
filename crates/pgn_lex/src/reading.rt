//! Reading a text item by item.
ghost use Rattle.std.specs.Prelude.{◌≡◌, ◌+◌, ◌<◌, ◌≤◌, ◌^◌, ℕ, List, [], length, map, option_map, IfSome, IfOk, OnOk};
ghost use Rattle.std.specs.List.{All};
ghost use Rattle.explorer_model.specs.Parts.{Section as ASection, after, after_in_heading, after_in_moves, after_in_variation, at_end, parts};
ghost use Rattle.explorer_model.specs.Stop.{Gives, GivesBy};
ghost use Rattle.pgn_lex.specs.Items.{kind_as, item_as, item_at, IsCut};
ghost use Rattle.pgn_lex.specs.Spanned.{spanned_as};
ghost use Rattle.pgn_lex.specs.Reading.{Front, IsReadUpTo, section_as, depth_of, front_of, added, finished};
ghost use Rattle.pgn_lex.specs.Span.{token_in, IsWithin};

use crate::bytes::is_white;
use crate::items::{Item, Kind, item_at};
use crate::pair::tag;
use crate::span::Span;
use crate::spanned::SpannedParts;
use explorer_model::archive::{Bytes, Ending, Parts, Tag, Tags, Token, Tokens};
use explorer_model::fault::{LexFault, Stop};
use std::alloc::{AllocError, Global};

/// Where in a text an item stands. Variations nest; `inner` counts those that are open within the
/// outermost one, which begins at `outer`.
#[derive(Clone, Copy, Debug, PartialEq, Eq)]
enum Section {
    Heading,
    Moves,
    Variation { inner: u32, outer: u32 },
    Ended(Ending),
}

/// The tags and move tokens of a text up to a place.
#[derive(Debug, Drop)]
struct Found {
    tags: Vec<Tag>,
    spans: Vec<Span>,
}

/// What a game's text consists of: its tags, the tokens of its moves outside comments and
/// variations, and its termination; or the first place at which it breaks the grammar.
pub fn parts(alloc: Global, text: &[u8]) -> Result<Parts, Stop<LexFault>>
    requires { length text.now ≤ 65536 }
    ensures { Gives result (parts text.now) }
{
    let spanned = spanned_parts(alloc, text)?;
    let tokens = tokens_of(alloc, text, spanned.spans.as_slice())?;
    Ok(Parts {
        tags: spanned.tags,
        tokens,
        termination: spanned.termination,
    })
}

/// As [`parts`], with the move tokens as spans of the text in place of copies.
pub fn spanned_parts(alloc: Global, text: &[u8]) -> Result<SpannedParts, Stop<LexFault>>
    requires { length text.now ≤ 65536 }
    ensures parts { GivesBy (spanned_as text.now) result (parts text.now) }
    ensures within { IfOk result
        (λ spanned. All (IsWithin (length text.now)) spanned.spans.items) }
{
    let mut found = Found::empty(alloc)?;
    let mut section = Section::Heading;
    let mut at = 0;
    while at < text.len() {
        let item = item_at(text, at);
        let Some(next) = after(section, item.kind, item.place) else {
            return Err(Stop::Fault(LexFault { place: item.place }));
        };
        found.add(alloc, section, item)?;
        section = next;
        let behind = past_period(text, section, at + item.text.len());
        at = past_white(text, behind);
    }
    finish(section, found)
}

/// The place behind a period that stands there among the moves, else the place itself: most move
/// numbers have one behind them.
fn past_period(text: &[u8], section: Section, at: usize) -> usize
    requires { length text.now ≤ 65536 }
    ensures on { at ≤ result }
    ensures read { (front : Front) → IsReadUpTo text.now at (section_as section) front
        → IsReadUpTo text.now result (section_as section) front }
{
    let Section::Moves = section else {
        return at;
    };
    if at < text.len() && text[at] == b'.' {
        return at + 1;
    }
    at
}

/// The place behind a white byte that stands there, else the place itself: most items have one behind them.
fn past_white(text: &[u8], at: usize) -> usize
    requires { length text.now ≤ 65536 }
    ensures on { at ≤ result }
    ensures read { (section : ASection) (front : Front) → IsReadUpTo text.now at section front
        → IsReadUpTo text.now result section front }
{
    if at < text.len() && is_white(text[at]) {
        return at + 1;
    }
    at
}

/// The tokens that spans of a text are, as copies.
fn tokens_of(alloc: Global, text: &[u8], spans: &[Span]) -> Result<Tokens, AllocError>
    requires { All (IsWithin (length text.now)) spans.now }
    ensures { IfOk result (λ tokens. tokens ≡ map (token_in text.now) spans.now) }
{
    let mut tokens = Vec::with_capacity(alloc, spans.len())?;
    for span in spans {
        tokens.push(Token {
            place: span.start,
            text: Bytes::from_vec(Vec::from_slice(alloc, span.of(text))?),
        })?;
    }
    Ok(Tokens::from_vec(tokens))
}

/// Where the text stands after an item, or none where such an item must not stand.
fn after(section: Section, kind: Kind<'_>, place: u32) -> Option<Section>
    requires { depth_of (section_as section) < 2 ^ 32 }
    ensures next { option_map section_as result
        ≡ after (section_as section) (kind_as kind.entry) place }
    ensures depth { IfSome result
        (λ next. depth_of (section_as next) ≤ depth_of (section_as section) + 1) }
{
    if let Kind::Blank = kind {
        return Some(section);
    }
    match section {
        Section::Heading => after_in_heading(kind, place),
        Section::Moves => after_in_moves(kind, place),
        Section::Variation { inner, outer } => after_in_variation(inner, outer, kind),
        Section::Ended(_) => None,
    }
}

fn after_in_heading(kind: Kind<'_>, place: u32) -> Option<Section>
    ensures next { option_map section_as result ≡ after_in_heading (kind_as kind.entry) place }
    ensures depth { IfSome result (λ next. depth_of (section_as next) ≤ 1) }
{
    match kind {
        Kind::Pair(_) => Some(Section::Heading),
        _ => after_in_moves(kind, place),
    }
}

fn after_in_moves(kind: Kind<'_>, place: u32) -> Option<Section>
    ensures next { option_map section_as result ≡ after_in_moves (kind_as kind.entry) place }
    ensures depth { IfSome result (λ next. depth_of (section_as next) ≤ 1) }
{
    match kind {
        Kind::Terminates(ending) => Some(Section::Ended(ending)),
        Kind::Word | Kind::Dropped => Some(Section::Moves),
        Kind::Opens => Some(Section::Variation {
            inner: 0,
            outer: place,
        }),
        _ => None,
    }
}

fn after_in_variation(inner: u32, outer: u32, kind: Kind<'_>) -> Option<Section>
    requires { inner + 1 < 2 ^ 32 }
    ensures next { option_map section_as result
        ≡ after_in_variation inner outer (kind_as kind.entry) }
    ensures depth { IfSome result (λ next. depth_of (section_as next) ≤ inner + 2) }
{
    match kind {
        Kind::Terminates(_) | Kind::Word | Kind::Dropped => {
            Some(Section::Variation { inner, outer })
        }
        Kind::Opens => Some(Section::Variation {
            inner: inner + 1,
            outer,
        }),
        Kind::Closes if inner == 0 => Some(Section::Moves),
        Kind::Closes => Some(Section::Variation {
            inner: inner - 1,
            outer,
        }),
        _ => None,
    }
}

impl Found {
    /// Nothing yet, with room for most games.
    fn empty(alloc: Global) -> Result<Found, AllocError>
        ensures tags { IfOk result (λ found. found.tags.items ≡ []) }
        ensures spans { IfOk result (λ found. found.spans.items ≡ []) }
    {
        Ok(Found {
            tags: Vec::with_capacity(alloc, 16)?,
            spans: Vec::with_capacity(alloc, 128)?,
        })
    }

    /// Adds what an item says; what stands in a variation says nothing.
    fn add(&mut self, alloc: Global, section: Section, item: Item<'_>) -> Result<(), AllocError>
        requires small { item.place + length item.text.now < 2 ^ 32 }
        ensures front { (text : List ℕ) → IsCut text (item_as item.entry)
            → OnOk result (front_of text self.new
            ≡ added (section_as section) (item_as item.entry) (front_of text self.old)) }
        ensures within { (size : ℕ) → item.entry.place + length item.entry.text.now ≤ size
            → All (IsWithin size) self.old.spans.items
            → OnOk result (All (IsWithin size) self.new.spans.items) }
    {
        if let Section::Variation { .. } = section {
            return Ok(());
        }
        match item.kind {
            Kind::Pair(pair) => self.tags.push(tag(alloc, pair)?)?,
            Kind::Word => self.spans.push(span_of(item))?,
            _ => {}
        }
        Ok(())
    }
}

/// The span of an item.
fn span_of(item: Item<'_>) -> Span
    requires { item.place + length item.text.now < 2 ^ 32 }
    ensures start { result.start ≡ item.entry.place }
    ensures end { result.end ≡ item.entry.place + length item.entry.text.now }
{
    Span {
        start: item.place,
        end: item.place + item.text.len() as u32,
    }
}

/// The parts at the text's end, where no variation is open.
fn finish(section: Section, found: Found) -> Result<SpannedParts, Stop<LexFault>>
    ensures parts { (text : List ℕ) → GivesBy (spanned_as text) result
        (finished (section_as section) (front_of text found)) }
    ensures spans { IfOk result (λ spanned. spanned.spans.items ≡ found.spans.items) }
{
    let termination = match section {
        Section::Heading | Section::Moves => None,
        Section::Variation { outer, .. } => {
            return Err(Stop::Fault(LexFault { place: outer }));
        }
        Section::Ended(ending) => Some(ending),
    };
    Ok(SpannedParts {
        tags: Tags::from_vec(found.tags),
        spans: found.spans,
        termination,
    })
}
