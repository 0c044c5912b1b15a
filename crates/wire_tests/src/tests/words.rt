//! What words ask for, and what is told of others.
use command_line::parse_words;
use explorer_model::fault::Stop;
use std::alloc::{AllocError, Global};
use std::test::Fail;

/// The words behind the program's name.
fn with_name(alloc: Global, words: &[&str]) -> Result<Vec<String>, AllocError> {
    let mut all = vec![in alloc; String::from_str(alloc, "explorer")?]?;
    for word in words {
        all.push(String::from_str(alloc, word)?)?;
    }
    Ok(all)
}

/// What the words ask for, as `Debug` prints it, or what is told of them.
fn show(alloc: Global, words: &[&str]) -> Result<String, AllocError> {
    let all = with_name(alloc, words)?;
    match parse_words(alloc, all.as_slice()) {
        Ok(command) => Ok(format!(in alloc; "{command:?}")?),
        Err(Stop::Fault(usage)) => Ok(usage.text),
        Err(Stop::OutOfMemory) => Err(AllocError),
    }
}

#[test]
fn each_command_is_read(rt: HostRuntime) -> Result<(), Fail> {
    let alloc = rt.alloc();
    let table: [(&[&str], &str); 24] = [
        (&["batches", "s"], "Batches { store: \"s\", workers: 4 }"),
        (
            &["batches", "--workers", "16", "s"],
            "Batches { store: \"s\", workers: 16 }",
        ),
        (
            &["count"],
            "Count { query: \"\", workers: 4, openings: None }",
        ),
        (
            &["count", "play=e2e4"],
            "Count { query: \"play=e2e4\", workers: 4, openings: None }",
        ),
        (
            &["count", "--workers", "8", "x=1"],
            "Count { query: \"x=1\", workers: 8, openings: None }",
        ),
        (
            &["count", "x=1", "--workers=16"],
            "Count { query: \"x=1\", workers: 16, openings: None }",
        ),
        (
            &["count", "--workers", "1", "--", "-x"],
            "Count { query: \"-x\", workers: 1, openings: None }",
        ),
        (
            &["count", "--openings", "o", "x=1"],
            "Count { query: \"x=1\", workers: 4, openings: Some(\"o\") }",
        ),
        (&["create", "s"], "Create { store: \"s\" }"),
        (
            &["import", "s", "f"],
            "Import { store: \"s\", file: \"f\", workers: 4, label: \"\" }",
        ),
        (
            &["import", "s", "f", "--label", ""],
            "Import { store: \"s\", file: \"f\", workers: 4, label: \"\" }",
        ),
        (
            &["import", "--label", "jan 7", "s", "--workers", "2", "f"],
            "Import { store: \"s\", file: \"f\", workers: 2, label: \"jan 7\" }",
        ),
        (
            &["import", "s", "f", "--label=-\t"],
            "Import { store: \"s\", file: \"f\", workers: 4, label: \"-\\t\" }",
        ),
        (&["migrate", "s", "t"], "Migrate { old: \"s\", new: \"t\" }"),
        (
            &["query", "s"],
            "Query { store: \"s\", query: \"\", workers: 4, openings: None, spill: None }",
        ),
        (
            &["query", "s", "q", "--workers", "2"],
            "Query { store: \"s\", query: \"q\", workers: 2, openings: None, spill: None }",
        ),
        (
            &["query", "s", "--openings="],
            "Query { store: \"s\", query: \"\", workers: 4, openings: Some(\"\"), spill: None }",
        ),
        (
            &["query", "s", "--spill", "x", "q"],
            "Query { store: \"s\", query: \"q\", workers: 4, openings: None, spill: Some(\"x\") }",
        ),
        (
            &["query", "s", "--spill=s", "--openings", "o"],
            "Query { store: \"s\", query: \"\", workers: 4, openings: Some(\"o\"), spill: Some(\"s\") }",
        ),
        (
            &["serve", "s", "a:1"],
            "Serve { store: \"s\", address: \"a:1\", files: [], workers: 4, readers: 4, \
             connections: 1000, openings: None }",
        ),
        (
            &[
                "serve",
                "s",
                "a",
                "f",
                "g",
                "--readers",
                "64",
                "--connections",
                "1000000",
            ],
            "Serve { store: \"s\", address: \"a\", files: [\"f\", \"g\"], workers: 4, readers: 64, \
             connections: 1000000, openings: None }",
        ),
        (
            &["serve", "s", "a", "--openings", "o", "f"],
            "Serve { store: \"s\", address: \"a\", files: [\"f\"], workers: 4, readers: 4, \
             connections: 1000, openings: Some(\"o\") }",
        ),
        (
            &["trial", "2000", "7"],
            "Trial { games: 2000, seed: 7, workers: 4 }",
        ),
        (
            &["trial", "--workers", "8", "131072", "18446744073709551615"],
            "Trial { games: 131072, seed: 18446744073709551615, workers: 8 }",
        ),
    ];
    for (words, command) in table {
        assert_eq!(rt; show(alloc, words)?.as_str(), command);
    }
    Ok(())
}

#[test]
fn other_words_are_refused(rt: HostRuntime) -> Result<(), Fail> {
    let alloc = rt.alloc();
    let table: [(&[&str], &str); 35] = [
        (
            &[],
            "error: 'explorer' requires a subcommand but one was not provided\n",
        ),
        (&["fly"], "error: unrecognized subcommand 'fly'\n"),
        (
            &["--help"],
            "An opening explorer for games of chess\n\nUsage: explorer <COMMAND>\n",
        ),
        (
            &["batches"],
            "error: the following required arguments were not provided:\n  <STORE>\n",
        ),
        (
            &["batches", "s", "t"],
            "error: unexpected argument 't' found\n",
        ),
        (
            &["batches", "--help"],
            "List the batches of a store\n\nUsage: explorer batches [OPTIONS] <STORE>\n",
        ),
        (
            &["count", "a", "b"],
            "error: unexpected argument 'b' found\n",
        ),
        (
            &["count", "--workers", "17"],
            "error: invalid value '17' for '--workers <N>': 17 is not in 1..=16\n",
        ),
        (
            &["count", "--workers", "0"],
            "error: invalid value '0' for '--workers <N>': 0 is not in 1..=16\n",
        ),
        (
            &["count", "--help"],
            "Count the games of standard input, and answer a query\n\nUsage: explorer count [OPTIONS] [QUERY]\n",
        ),
        (
            &["count", "--openings", "a", "--openings", "b"],
            "error: the argument '--openings <FILE>' cannot be used multiple times\n",
        ),
        (
            &["count", "--spill", "x"],
            "error: unexpected argument '--spill' found\n",
        ),
        (
            &["create"],
            "error: the following required arguments were not provided:\n  <STORE>\n",
        ),
        (
            &["import", "s"],
            "error: the following required arguments were not provided:\n  <FILE>\n",
        ),
        (
            &["import", "s", "f", "--label"],
            "error: a value is required for '--label <TEXT>' but none was supplied\n",
        ),
        (
            &["import", "s", "f", "--label", "a", "--label", "a"],
            "error: the argument '--label <TEXT>' cannot be used multiple times\n",
        ),
        (
            &["import", "--help"],
            "Import the games of a file into a store\n\n\
             Usage: explorer import [OPTIONS] <STORE> <FILE>\n\n\
             Arguments:\n  \
             <STORE>  The file of the store\n  \
             <FILE>   A file of games in PGN\n\n\
             Options:\n      \
             --workers <N>   How many threads work at once, 1 to 16 [default: 4]\n      \
             --label <TEXT>  The label of the batches that are stored, at most 64 bytes\n  \
             -h, --help          Print help\n",
        ),
        (
            &["import", "s", "f", "g", "--label", "a"],
            "error: unexpected argument 'g' found\n",
        ),
        (
            &["import", "s", "f", "--openings", "o"],
            "error: unexpected argument '--openings' found\n",
        ),
        (
            &["migrate", "s"],
            "error: the following required arguments were not provided:\n  <NEW>\n",
        ),
        (
            &["migrate", "s", "t", "u"],
            "error: unexpected argument 'u' found\n",
        ),
        (
            &["migrate", "s", "t", "--workers", "4"],
            "error: unexpected argument '--workers' found\n",
        ),
        (
            &["query", "s", "q", "r"],
            "error: unexpected argument 'r' found\n",
        ),
        (
            &["query", "s", "--spill"],
            "error: a value is required for '--spill <NAME>' but none was supplied\n",
        ),
        (
            &["query", "s", "--spill", "x", "--spill", "x"],
            "error: the argument '--spill <NAME>' cannot be used multiple times\n",
        ),
        (
            &["serve", "s"],
            "error: the following required arguments were not provided:\n  <ADDRESS>\n",
        ),
        (
            &["serve", "s", "a", "--spill", "x"],
            "error: unexpected argument '--spill' found\n",
        ),
        (
            &["serve", "s", "a", "--readers", "65"],
            "error: invalid value '65' for '--readers <N>': 65 is not in 1..=64\n",
        ),
        (
            &["serve", "s", "a", "--readers", "0"],
            "error: invalid value '0' for '--readers <N>': 0 is not in 1..=64\n",
        ),
        (
            &["serve", "s", "a", "--connections", "0"],
            "error: invalid value '0' for '--connections <N>': 0 is not in 1..=1000000\n",
        ),
        (
            &["serve", "s", "a", "--connections", "1000001"],
            "error: invalid value '1000001' for '--connections <N>': 1000001 is not in 1..=1000000\n",
        ),
        (
            &["trial", "5"],
            "error: the following required arguments were not provided:\n  <SEED>\n",
        ),
        (
            &["trial", "0", "7"],
            "error: invalid value '0' for '<GAMES>': 0 is not in 1..=131072\n",
        ),
        (
            &["trial", "131073", "7"],
            "error: invalid value '131073' for '<GAMES>': 131073 is not in 1..=131072\n",
        ),
        (
            &["trial", "5", "x"],
            "error: invalid value 'x' for '<SEED>': invalid digit found in string\n",
        ),
    ];
    for (words, front) in table {
        let text = show(alloc, words)?;
        assert!(rt; text.as_str().starts_with(front), "{text}");
    }
    Ok(())
}
