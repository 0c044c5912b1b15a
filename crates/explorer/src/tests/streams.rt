//! Streams of texts: which games count, and what is reported of the others.
ghost use Rattle.std.specs.Prelude.{◌<◌};

use super::{
    FAULTLESS, NEVER, NO_GAME, ONE_DRAW, ONE_WHITE, Tags, game, game_with_tags, games, one_move,
    run_on,
};
use std::alloc::{AllocError, Global};
use std::sync::Wait;
use std::test::Fail;
use std::thread::Threads;

/// Whether a count of the text at this read size, where no call fails, prints the answer and
/// reports so.
fn counts<R: AllocGlobal + Wait + Threads + Sync>(
    rt: &R,
    text: &str,
    most: usize,
    answer: &str,
    report: &str,
) -> Result<bool, AllocError>
    requires { 0 < most }
{
    let seen = run_on(rt, &["count"], text, most, FAULTLESS)?;
    Ok(seen.is(0, answer, report))
}

/// Whether the counts of the text at three read sizes are so.
fn counts_at_each_size<R: AllocGlobal + Wait + Threads + Sync>(
    rt: &R,
    text: &str,
    answer: &str,
    report: &str,
) -> Result<bool, AllocError> {
    let by_bytes = counts(rt, text, 1, answer, report)?;
    let by_sevens = counts(rt, text, 7, answer, report)?;
    let at_once = counts(rt, text, 4096, answer, report)?;
    Ok(by_bytes && by_sevens && at_once)
}

/// A part of a stream: a game, or what stands between games.
#[derive(Clone, Copy, Debug)]
enum Part {
    /// A game that White won by its tags, with this movetext.
    Won(&'static str),
    Draw,
    Unknown,
    /// A moveless game with this id, rating of White and time control.
    Tagged(&'static str, &'static str, &'static str),
    Between(&'static str),
}

impl Part {
    fn text(self, alloc: Global) -> Result<String, AllocError> {
        match self {
            Part::Won(movetext) => game(alloc, "1-0", movetext),
            Part::Draw => game(alloc, "1/2-1/2", "1/2-1/2"),
            Part::Unknown => game(alloc, "*", "*"),
            Part::Tagged(id, white_rating, time) => {
                let tags = Tags {
                    id,
                    outcome: "1-0",
                    white_rating,
                    black_rating: "1400",
                    time,
                };
                game_with_tags(alloc, &tags, "1-0")
            }
            Part::Between(text) => String::from_str(alloc, text),
        }
    }
}

/// The parts, one behind the other.
fn stream_of(alloc: Global, parts: &[Part]) -> Result<String, AllocError> {
    let mut all = String::new(alloc);
    for part in parts {
        all.push_str(part.text(alloc)?.as_str())?;
    }
    Ok(all)
}

/// Whether the stream of the parts is counted so.
fn parts_are_counted<R: AllocGlobal + Wait + Threads + Sync>(
    rt: &R,
    parts: &[Part],
    answer: &str,
    report: &str,
) -> Result<bool, AllocError> {
    let text = stream_of(rt.alloc(), parts)?;
    counts_at_each_size(rt, text.as_str(), answer, report)
}

const WIN: Part = Part::Won("1-0");

#[test]
fn counts_games_and_reports_the_rest(rt: HostRuntime) -> Result<(), Fail> {
    let mark = Part::Between("\u{feff}");
    let line = Part::Between("\n");
    let table: [(&[Part], &str, &str); 19] = [
        (&[], NO_GAME, ""),
        (&[WIN], ONE_WHITE, ""),
        (&[Part::Draw, Part::Between("\n\n")], ONE_DRAW, ""),
        (&[Part::Unknown, line, WIN], ONE_WHITE, "0 UnknownResult\n"),
        (
            &[
                Part::Between("hello\n"),
                Part::Unknown,
                line,
                Part::Won("0-1"),
                Part::Draw,
            ],
            ONE_DRAW,
            "0 Preamble\n6 UnknownResult\n197 ResultDiffers\n",
        ),
        (&[Part::Between("hello\n"), WIN], ONE_WHITE, "0 Preamble\n"),
        (&[mark, WIN], ONE_WHITE, ""),
        (&[mark, Part::Unknown], NO_GAME, "3 UnknownResult\n"),
        (&[WIN, WIN], ONE_WHITE, "194 Twice 0\n"),
        (
            &[Part::Between("\u{feff} hello\n"), WIN, line, WIN],
            ONE_WHITE,
            "4 Preamble\n205 Twice 10\n",
        ),
        (
            &[Part::Won("1. e4 e5 2. Ke3 1-0"), WIN],
            ONE_WHITE,
            "0 Illegal 3 202\n",
        ),
        (&[Part::Won("1. e4 Zz 1-0")], NO_GAME, "0 NotSan 2 196\n"),
        (&[Part::Won("1. e4 {x 1-0")], NO_GAME, "0 Lex 196\n"),
        (
            &[Part::Won("1. d4 d5 2. Nf3 Nf6 3. Nd2 1-0")],
            NO_GAME,
            "0 Ambiguous 5 213\n",
        ),
        (&[Part::Won("1. e4")], NO_GAME, "0 NoTermination\n"),
        (&[Part::Won("1. e4 0-1")], NO_GAME, "0 ResultDiffers\n"),
        (
            &[Part::Tagged("aaaaaaa1", "1500", "1/40")],
            NO_GAME,
            "0 Bad TimeControl\n",
        ),
        (
            &[Part::Tagged("aaaaaaa1", "4001", "300+0")],
            NO_GAME,
            "0 Bad WhiteElo\n",
        ),
        (
            &[Part::Tagged("aaaaaaa", "4001", "1/40")],
            NO_GAME,
            "0 Bad Site\n",
        ),
    ];
    for (parts, answer, report) in table {
        let told = parts_are_counted(&rt, parts, answer, report)?;
        assert!(rt; told, "{parts:?}");
    }
    Ok(())
}

#[test]
fn reads_texts_of_65536_bytes(rt: HostRuntime) -> Result<(), Fail> {
    let alloc = rt.alloc();
    let with_e4 = one_move(alloc, "", "1500", "e4", "e2e4")?;
    let mut text = game(alloc, "1-0", "1. e4 1-0")?;
    for _ in text.len()..65536 {
        text.push('\n')?;
    }
    assert!(rt; counts(&rt, text.as_str(), 7, with_e4.as_str(), "")?);
    text.push('\n')?;
    assert!(rt; counts(&rt, text.as_str(), 4096, NO_GAME, "0 TooLong 65537\n")?);
    Ok(())
}

/// A text without a result, and so many games.
fn behind_unknown(alloc: Global, count: u32) -> Result<String, AllocError> {
    let mut text = game(alloc, "*", "*")?;
    text.push_str(games(alloc, count)?.as_str())?;
    Ok(text)
}

/// A text ends where the next begins, so that the last one of a stream that is cut off has not
/// ended, and a group is reported once its last text has.
#[test]
fn reports_whole_groups_where_a_read_fails(rt: HostRuntime) -> Result<(), Fail> {
    let alloc = rt.alloc();
    let one_group = behind_unknown(alloc, 511)?;
    let two_groups = behind_unknown(alloc, 512)?;
    let table = [
        (one_group.as_str(), NEVER, "read fault\n"),
        (two_groups.as_str(), NEVER, "0 UnknownResult\nread fault\n"),
        (two_groups.as_str(), 0, "read fault\n"),
        (two_groups.as_str(), 1, "0 UnknownResult\n"),
    ];
    for (text, failing, report) in table {
        let reads = text.len().div_ceil(4096) as u64;
        let seen = run_on(&rt, &["count"], text, 4096, [reads, NEVER, failing])?;
        assert!(rt; seen.is(4, "", report), "{report}");
    }
    Ok(())
}
