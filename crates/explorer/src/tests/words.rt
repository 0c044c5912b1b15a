//! The words of the command line, queries that are refused, and runs that end by a fault.
use super::{NEVER, ONE_WHITE, Seen, game, run_on};
use std::alloc::{AllocError, Global};
use std::test::Fail;

/// A text without a result, and a game that White won.
fn unknown_and_win(alloc: Global) -> Result<String, AllocError> {
    let win = game(alloc, "1-0", "1-0")?;
    let unknown = game(alloc, "*", "*")?;
    format!(in alloc; "{unknown}\n{win}")
}

#[test]
fn tells_of_faults(rt: HostRuntime) -> Result<(), Fail> {
    let text = unknown_and_win(rt.alloc())?;
    let count: &[&str] = &["count"];
    let trial: &[&str] = &["trial", "1", "7"];
    let table = [
        (count, [1, NEVER, NEVER], 4, "", "read fault\n"),
        (count, [2, NEVER, NEVER], 4, "", "read fault\n"),
        (count, [2, NEVER, 0], 4, "", ""),
        (
            count,
            [NEVER, 0, NEVER],
            5,
            "",
            "0 UnknownResult\nwrite fault\n",
        ),
        (count, [NEVER, 0, 0], 5, "", "write fault\n"),
        (count, [NEVER, 0, 1], 5, "", "0 UnknownResult\n"),
        (count, [NEVER, NEVER, 0], 5, ONE_WHITE, "write fault\n"),
        (count, [NEVER, NEVER, 1], 0, ONE_WHITE, "0 UnknownResult\n"),
        (trial, [NEVER, 0, NEVER], 5, "", "write fault\n"),
    ];
    for (words, failing, status, answer, report) in table {
        let seen = run_on(&rt, words, text.as_str(), 200, failing)?;
        assert!(rt; seen.is(status, answer, report), "{status} {report}");
    }
    Ok(())
}

/// The input's first read would fail, so that a run which ends otherwise has read nothing.
#[test]
fn refused_words_and_queries_touch_nothing(rt: HostRuntime) -> Result<(), Fail> {
    let table: [(&[&str], _, _); 9] = [
        (&["fly"], 2, "error: unrecognized subcommand 'fly'\n"),
        (
            &["count", "speeds=blitz,slow&ratings=5"],
            3,
            "bad parameter speeds\n",
        ),
        (&["count", "moves=3&moves=3"], 3, "bad parameter moves\n"),
        (&["count", "moves=-1"], 3, "bad parameter moves\n"),
        (
            &["count", "fen=8/8/8/8/8/8/8/8+w+-+-"],
            3,
            "bad parameter fen\n",
        ),
        (
            &["count", "until=2020-1&since=2020-13"],
            3,
            "bad parameter since\n",
        ),
        (
            &["count", "history=yes&variant=chess960"],
            3,
            "bad parameter variant\n",
        ),
        (
            &["count", "fen=3rk3/8/8/8/8/8/8/R3K3+w+Q+-+0+1&play=e1c1"],
            3,
            "bad parameter play\n",
        ),
        (&["count", "play=e2e5"], 3, "bad parameter play\n"),
    ];
    for (words, status, line) in table {
        let seen = run_on(&rt, words, "", 1, [0, NEVER, NEVER])?;
        assert!(rt; is_refused(&seen, status, line), "{words:?}");
    }
    Ok(())
}

/// Whether the run ended with this status and printed nothing, and its report is this line, behind
/// which the usage stands where words were refused.
fn is_refused(seen: &Seen, status: u8, line: &str) -> bool {
    let reported = seen.streams.errors.bytes();
    let told = match status {
        2 => reported.starts_with(line.as_bytes()),
        _ => reported == line.as_bytes(),
    };
    told && seen.status == status && seen.streams.output.bytes().is_empty()
}
