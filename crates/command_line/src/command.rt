//! What a run is asked to do.
ghost use Rattle.std.specs.Prelude.{◌≡◌, ◌≤◌, ◌<◌, ◌^◌, Some, IfOk, codes, map, option_map, string_bytes};
ghost use Rattle.clap.specs.Walk.{first_of};
ghost use Rattle.clap.specs.Words.{found_of, rows_of, subcommand_rows_of};
ghost use Rattle.command_line.specs.Task.{Bounds, number_in, task_named, task_said, word_in, words_in, workers_in as workers_given};
ghost use Rattle.command_line.specs.Words.{IsInBounds, IsTaken, task_in};

use clap::ArgMatches;
use std::alloc::{AllocError, Global};

/// What a run is asked to do. Each command that counts games does it by 1 to 16 workers.
#[derive(Debug, Drop)]
pub enum Command {
    /// List the batches of a store.
    Batches {
        store: String,
        workers: u8,
    },
    /// Count the games of the input, and answer the query, which is empty where none is given. Here
    /// and below, answers are named by the file of openings of this name, where one is given.
    Count {
        query: String,
        workers: u8,
        openings: Option<String>,
    },
    /// Make a store without a game.
    Create {
        store: String,
    },
    /// Import a file into a store under a label, which is empty where none is given.
    Import {
        store: String,
        file: String,
        workers: u8,
        label: String,
    },
    /// Make a store of the batches of a store in the first format.
    Migrate {
        old: String,
        new: String,
    },
    /// Answer a query over a store, with rows in the scratch file of this name, where one is given.
    Query {
        store: String,
        query: String,
        workers: u8,
        openings: Option<String>,
        spill: Option<String>,
    },
    /// Serve a store at an address by 1 to 64 readers, each for 1 to 1,000,000 connections, while
    /// files are imported into it.
    Serve {
        store: String,
        address: String,
        files: Vec<String>,
        workers: u8,
        readers: u8,
        connections: u32,
        openings: Option<String>,
    },
    /// Store 1 to 131,072 sample games that are drawn from the seed, and count them.
    Trial {
        games: u32,
        seed: u64,
        workers: u8,
    },
}

/// The command that the matches of the command line say.
pub fn command_of(alloc: Global, matches: &ArgMatches<'_>) -> Result<Command, AllocError>
    requires { IsTaken (subcommand_rows_of matches.now) }
    ensures task { IfOk result (λ command.
        task_said (subcommand_rows_of matches.now) ≡ Some (task_in command)) }
    ensures bounds { IfOk result (λ command. IsInBounds (task_in command)) }
{
    if let Some(given) = matches.subcommand_matches("batches") {
        return batches_of(alloc, given);
    }
    if let Some(given) = matches.subcommand_matches("count") {
        return count_of(alloc, given);
    }
    if let Some(given) = matches.subcommand_matches("create") {
        return create_of(alloc, given);
    }
    if let Some(given) = matches.subcommand_matches("import") {
        return import_of(alloc, given);
    }
    if let Some(given) = matches.subcommand_matches("migrate") {
        return migrate_of(alloc, given);
    }
    if let Some(given) = matches.subcommand_matches("query") {
        return query_of(alloc, given);
    }
    if let Some(given) = matches.subcommand_matches("serve") {
        return serve_of(alloc, given);
    }
    let Some(given) = matches.subcommand_matches("trial") else {
        unreachable!();
    };
    Ok(trial_of(given))
}

fn batches_of(alloc: Global, given: &ArgMatches<'_>) -> Result<Command, AllocError>
    ensures task { IfOk result (λ command.
        task_named (codes "batches") (rows_of (found_of given.now)) ≡ Some (task_in command)) }
    ensures bounds { IfOk result (λ command. IsInBounds (task_in command)) }
{
    Ok(Command::Batches {
        store: word_of(alloc, given, "store")?,
        workers: workers_of(given),
    })
}

fn count_of(alloc: Global, given: &ArgMatches<'_>) -> Result<Command, AllocError>
    ensures task { IfOk result (λ command.
        task_named (codes "count") (rows_of (found_of given.now)) ≡ Some (task_in command)) }
    ensures bounds { IfOk result (λ command. IsInBounds (task_in command)) }
{
    Ok(Command::Count {
        query: word_of(alloc, given, "query")?,
        workers: workers_of(given),
        openings: optional_word_of(alloc, given, "openings")?,
    })
}

fn create_of(alloc: Global, given: &ArgMatches<'_>) -> Result<Command, AllocError>
    ensures task { IfOk result (λ command.
        task_named (codes "create") (rows_of (found_of given.now)) ≡ Some (task_in command)) }
    ensures bounds { IfOk result (λ command. IsInBounds (task_in command)) }
{
    Ok(Command::Create {
        store: word_of(alloc, given, "store")?,
    })
}

fn import_of(alloc: Global, given: &ArgMatches<'_>) -> Result<Command, AllocError>
    ensures task { IfOk result (λ command.
        task_named (codes "import") (rows_of (found_of given.now)) ≡ Some (task_in command)) }
    ensures bounds { IfOk result (λ command. IsInBounds (task_in command)) }
{
    Ok(Command::Import {
        store: word_of(alloc, given, "store")?,
        file: word_of(alloc, given, "file")?,
        workers: workers_of(given),
        label: word_of(alloc, given, "label")?,
    })
}

fn migrate_of(alloc: Global, given: &ArgMatches<'_>) -> Result<Command, AllocError>
    ensures task { IfOk result (λ command.
        task_named (codes "migrate") (rows_of (found_of given.now)) ≡ Some (task_in command)) }
    ensures bounds { IfOk result (λ command. IsInBounds (task_in command)) }
{
    Ok(Command::Migrate {
        old: word_of(alloc, given, "old")?,
        new: word_of(alloc, given, "new")?,
    })
}

fn query_of(alloc: Global, given: &ArgMatches<'_>) -> Result<Command, AllocError>
    ensures task { IfOk result (λ command.
        task_named (codes "query") (rows_of (found_of given.now)) ≡ Some (task_in command)) }
    ensures bounds { IfOk result (λ command. IsInBounds (task_in command)) }
{
    Ok(Command::Query {
        store: word_of(alloc, given, "store")?,
        query: word_of(alloc, given, "query")?,
        workers: workers_of(given),
        openings: optional_word_of(alloc, given, "openings")?,
        spill: optional_word_of(alloc, given, "spill")?,
    })
}

fn serve_of(alloc: Global, given: &ArgMatches<'_>) -> Result<Command, AllocError>
    ensures task { IfOk result (λ command.
        task_named (codes "serve") (rows_of (found_of given.now)) ≡ Some (task_in command)) }
    ensures bounds { IfOk result (λ command. IsInBounds (task_in command)) }
{
    Ok(Command::Serve {
        store: word_of(alloc, given, "store")?,
        address: word_of(alloc, given, "address")?,
        files: words_of(alloc, given, "file")?,
        workers: workers_of(given),
        readers: number_of(given, "readers", 1, 64, 4) as u8,
        connections: number_of(given, "connections", 1, 1_000_000, 1000) as u32,
        openings: optional_word_of(alloc, given, "openings")?,
    })
}

fn trial_of(given: &ArgMatches<'_>) -> Command
    ensures task { task_named (codes "trial") (rows_of (found_of given.now)) ≡ Some (task_in result) }
    ensures bounds { IsInBounds (task_in result) }
{
    Command::Trial {
        games: number_of(given, "games", 1, 131_072, 1) as u32,
        seed: number_of(given, "seed", 0, u64::MAX, 0),
        workers: workers_of(given),
    }
}

/// What is given under a name, or nothing.
fn word_of(alloc: Global, given: &ArgMatches<'_>, name: &str) -> Result<String, AllocError>
    ensures { IfOk result (λ word.
        string_bytes word ≡ word_in name.now (rows_of (found_of given.now))) }
{
    String::from_str(alloc, given.get_str(name).unwrap_or(""))
}

/// What is given under a name, where something is.
fn optional_word_of(
    alloc: Global,
    given: &ArgMatches<'_>,
    name: &str,
) -> Result<Option<String>, AllocError>
    ensures { IfOk result (λ word.
        option_map string_bytes word ≡ first_of name.now (rows_of (found_of given.now))) }
{
    let Some(text) = given.get_str(name) else {
        return Ok(None);
    };
    let word = String::from_str(alloc, text)?;
    Ok(Some(word))
}

/// All that is given under a name.
fn words_of(alloc: Global, given: &ArgMatches<'_>, name: &str) -> Result<Vec<String>, AllocError>
    ensures { IfOk result (λ words.
        map string_bytes words.items ≡ words_in name.now (rows_of (found_of given.now))) }
{
    let Some(texts) = given.get_strs(name) else {
        return Ok(Vec::new(alloc));
    };
    let mut words = Vec::new(alloc);
    'copying: for text in texts {
        words.push(String::from_str(alloc, text)?)?;
    }
    Ok(words)
}

fn workers_of(given: &ArgMatches<'_>) -> u8
    ensures number { result ≡ workers_given (rows_of (found_of given.now)) }
    ensures least { 1 ≤ result }
    ensures most { result ≤ 16 }
{
    number_of(given, "workers", 1, 16, 4) as u8
}

/// The number that is given under a name, where one within the bounds is. The command line takes no
/// other.
fn number_of(given: &ArgMatches<'_>, name: &str, least: u64, most: u64, default: u64) -> u64
    requires some { least ≤ default }
    requires few { default ≤ most }
    ensures number { let bounds : Bounds = record { least = least; most = most } in
        result ≡ number_in name.now bounds default (rows_of (found_of given.now)) }
    ensures least { least ≤ result }
    ensures most { result ≤ most }
{
    let Some(number) = given.get_one::<u64>(name) else {
        return default;
    };
    if number < least || number > most {
        return default;
    }
    number
}
