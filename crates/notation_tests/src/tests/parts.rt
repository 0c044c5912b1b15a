//! The parts of texts, and the first place at which a text breaks the grammar.
use explorer_model::archive::{Bytes, Parts};
use explorer_model::fault::Stop;
use pgn_lex::{parts, spanned_parts};
use std::alloc::{AllocError, Global};
use std::fmt::Write;
use std::test::Fail;

/// Nine tags; the movetext begins at byte 190.
const TAGS: &str =
    "[Event \"Rated blitz game\"]\n[Site \"https://lichess.org/aaaaaaa1\"]\n[White \"Ann\"]\n\
                    [Black \"Bob\"]\n[Result \"1-0\"]\n[UTCDate \"2020.01.15\"]\n[WhiteElo \"1500\"]\n\
                    [BlackElo \"1400\"]\n[TimeControl \"300+0\"]\n\n";

fn push_bytes(rt: &HostRuntime, line: &mut String, bytes: &Bytes) -> Result<(), Fail> {
    let text = String::from_utf8_lossy(rt.alloc(), bytes.as_slice())?;
    line.push_str(text.as_str())?;
    Ok(())
}

/// The parts in one line: the tags, the tokens with their places, the termination.
fn line_of(rt: &HostRuntime, found: &Parts) -> Result<String, Fail> {
    let mut line = String::new(rt.alloc());
    for tag in found.tags.as_slice() {
        push_bytes(rt, &mut line, &tag.name)?;
        line.push_str("=")?;
        push_bytes(rt, &mut line, &tag.value)?;
        line.push_str(" ")?;
    }
    for token in found.tokens.as_slice() {
        write!(line, "{}:", token.place)?;
        push_bytes(rt, &mut line, &token.text)?;
        line.push_str(" ")?;
    }
    write!(line, "{:?}", found.termination)?;
    Ok(line)
}

fn answer(rt: &HostRuntime, text: &str) -> Result<String, Fail> {
    if text.len() > 65_536 {
        return Ok(String::from_str(rt.alloc(), "too long")?);
    }
    match parts(rt.alloc(), text.as_bytes()) {
        Ok(found) => line_of(rt, &found),
        Err(Stop::Fault(fault)) => Ok(format!(in rt.alloc(); "fault {}", fault.place)?),
        Err(Stop::OutOfMemory) => Ok(String::from_str(rt.alloc(), "no memory")?),
    }
}

/// Movetexts behind the nine tags, with the place of the first fault.
const FAULTS: [(&str, u32); 10] = [
    ("1. e4 {x 1-0", 196),
    ("1. e4 (d4 {x) 1-0", 200),
    ("1. e4 ) 1-0", 196),
    ("1. e4 $ 1-0", 196),
    ("1. e4 ((e5) 1-0", 196),
    ("1. e4 (e5 [A \"b\"]) 1-0", 200),
    ("1. e4 1-0 e5", 200),
    ("1. e4 1-0 .", 200),
    ("1. e4 % 1-0", 196),
    ("1. e4 1-0\n[A \"b\"]", 200),
];

/// Where a text of the nine tags and this movetext is faulty.
fn fault_of(rt: &HostRuntime, movetext: &str) -> Result<Option<u32>, Fail> {
    let text = format!(in rt.alloc(); "{TAGS}{movetext}")?;
    if text.len() > 65_536 {
        return Ok(None);
    }
    Ok(match &parts(rt.alloc(), text.as_bytes()) {
        Err(Stop::Fault(fault)) => Some(fault.place),
        _ => None,
    })
}

#[test]
fn faults_stand_at_their_first_byte(rt: HostRuntime) -> Result<(), Fail> {
    for (movetext, place) in FAULTS {
        assert_eq!(rt; fault_of(&rt, movetext)?, Some(place), "{movetext}");
    }
    Ok(())
}

/// Movetexts and their parts in one line.
const COMMENTED: [(&str, &str); 9] = [
    (
        "1. e4 { [%eval 0.17] [%clk 0:00:30] } 1... c5?! { [%clk 0:00:29] } 1-0",
        "3:e4 43:c5 Some(WhiteWins)",
    ),
    ("1. e4 $14 e5 0-1", "3:e4 10:e5 Some(BlackWins)"),
    ("1. e4 $12-0 1/2-1/2", "3:e4 9:-0 Some(Drawn)"),
    ("e4 (d4 (c4) 1-0 d5) e5 *", "0:e4 20:e5 Some(Unknown)"),
    ("e4 ; } (d4\ne5", "0:e4 11:e5 None"),
    ("e4 {; } e5 ; 1-0", "0:e4 8:e5 None"),
    ("e4\n%(d4 {\ne5 1-0 {x}\n%1-0", "0:e4 10:e5 Some(WhiteWins)"),
    (
        "O-O-O+ exd8=Q# 12 e.p. 1-0",
        "0:O-O-O+ 7:exd8=Q# 18:e 20:p Some(WhiteWins)",
    ),
    ("", "None"),
];

#[test]
fn comments_and_variations_hold_no_tokens(rt: HostRuntime) -> Result<(), Fail> {
    for (text, expected) in COMMENTED {
        assert_eq!(rt; answer(&rt, text)?.as_str(), expected, "{text}");
    }
    Ok(())
}

/// Texts with tags, and their parts in one line.
const TAGGED: [(&str, &str); 9] = [
    ("[White \"Ann\"]\n[Black \"\"]", "White=Ann Black= None"),
    ("[A \"x\"]\n[A \"y\"] e4", "A=x A=y 16:e4 None"),
    ("[A \"x\"]\n% [ {\n[B_1\t\"y\"\n]", "A=x B_1=y None"),
    ("{c}[\nA\"a\\\"b\\\\c\\d\" ];c", "A=a\"b\\c\\d None"),
    ("[A {c} \"x\"]", "fault 0"),
    ("[A \"x\n\"]", "fault 0"),
    ("[A \"x\\\"]", "fault 0"),
    ("[A \"x\" ", "fault 0"),
    ("[\"x\"]", "fault 0"),
];

#[test]
fn tags_are_read_with_their_escapes(rt: HostRuntime) -> Result<(), Fail> {
    for (text, expected) in TAGGED {
        assert_eq!(rt; answer(&rt, text)?.as_str(), expected, "{text}");
    }
    Ok(())
}

/// 30,000 variations, each within the one before, and a move behind them.
fn nested_variations(alloc: Global) -> Result<String, AllocError> {
    let mut text = String::new(alloc);
    for _ in 0..30_000 {
        text.push_str("(")?;
    }
    for _ in 0..30_000 {
        text.push_str(")")?;
    }
    text.push_str(" e4 1-0")?;
    Ok(text)
}

#[test]
fn variations_nest_without_recursion(rt: HostRuntime) -> Result<(), Fail> {
    let text = nested_variations(rt.alloc())?;
    let answer = answer(&rt, text.as_str())?;
    assert_eq!(rt; answer.as_str(), "60001:e4 Some(WhiteWins)");
    Ok(())
}

#[test]
fn spans_are_where_the_tokens_stand(rt: HostRuntime) {
    let text = b"1. e4 (d4) {x} exd5+ 1-0";
    let Ok(spanned) = spanned_parts(rt.alloc(), text) else {
        panic!(rt; "the text is refused");
    };
    let mut found = spanned.spans.as_slice().iter();
    for (start, end) in [(3, 5), (15, 20)] {
        let Some(span) = found.next() else {
            panic!(rt; "a token is missing");
        };
        assert_eq!(rt; (span.start, span.end), (start, end));
    }
    assert!(rt; found.next().is_none());
}
