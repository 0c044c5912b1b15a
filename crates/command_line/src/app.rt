//! The command line, as `clap` has it.
ghost use Rattle.std.specs.Prelude.{◌≡◌, ◌∷◌, [], false, IfOk, codes};
ghost use Rattle.clap.specs.Words.{app_of, new_app, rule_of, shape_of, with_rule, with_subcommand};
ghost use Rattle.clap.specs.declared.builder.command.Command.TheViews.{out-Command as fields_of};
ghost use Rattle.command_line.specs.Task.{
  bare_app,
  batches_shape,
  connections_bounds,
  count_shape,
  create_shape,
  explorer_app,
  files_rule,
  games_bounds,
  import_shape,
  migrate_shape,
  number_rule,
  openings_rule,
  option_rule,
  optional_rule,
  query_shape,
  readers_bounds,
  required_rule,
  seed_bounds,
  serve_shape,
  spill_rule,
  text_rule,
  trial_shape,
  with_rules,
  with_shapes,
  workers_rule,
};

use clap::{Arg, ArgAction, Command, value_parser};
use std::alloc::{AllocError, Global};

/// The command line.
pub fn explorer_command<'a>(alloc: Global) -> Result<Command<'a>, AllocError>
    ensures { IfOk result (λ command. app_of command ≡ explorer_app) }
{
    let command = command_without_service(alloc)?;
    let command = with_command(command, serve_command(alloc)?)?;
    with_command(command, trial_command(alloc)?)
}

/// The command line with the first six of its subcommands.
fn command_without_service<'a>(alloc: Global) -> Result<Command<'a>, AllocError>
    ensures { IfOk result (λ command.
        app_of command ≡ with_shapes bare_app
        (batches_shape ∷ count_shape ∷ create_shape ∷ import_shape ∷ migrate_shape ∷ query_shape
        ∷ [])) }
{
    let command = command_without_answers(alloc)?;
    let command = with_command(command, migrate_command(alloc)?)?;
    with_command(command, query_command(alloc)?)
}

/// The command line with the first four of its subcommands.
fn command_without_answers<'a>(alloc: Global) -> Result<Command<'a>, AllocError>
    ensures { IfOk result (λ command.
        app_of command ≡ with_shapes bare_app
        (batches_shape ∷ count_shape ∷ create_shape ∷ import_shape ∷ [])) }
{
    let command = command_without_imports(alloc)?;
    let command = with_command(command, create_command(alloc)?)?;
    with_command(command, import_command(alloc)?)
}

/// The command line with the first two of its subcommands.
fn command_without_imports<'a>(alloc: Global) -> Result<Command<'a>, AllocError>
    ensures { IfOk result (λ command.
        app_of command ≡ with_shapes bare_app (batches_shape ∷ count_shape ∷ [])) }
{
    let command = with_command(bare_command(alloc), batches_command(alloc)?)?;
    with_command(command, count_command(alloc)?)
}

/// The command line without its subcommands.
fn bare_command<'a>(alloc: Global) -> Command<'a>
    ensures { app_of result ≡ bare_app }
{
    Command::new(alloc, "explorer")
        .about("An opening explorer for games of chess")
        .disable_help_subcommand(true)
        .subcommand_required(true)
}

fn batches_command<'a>(alloc: Global) -> Result<Command<'a>, AllocError>
    ensures shape { IfOk result (λ command. shape_of command ≡ batches_shape) }
    ensures globals { IfOk result (λ command. (fields_of command).has_globals ≡ false) }
{
    let command = Command::new(alloc, "batches").about("List the batches of a store");
    with_args(command, store_arg(alloc), workers_arg(alloc))
}

fn count_command<'a>(alloc: Global) -> Result<Command<'a>, AllocError>
    ensures shape { IfOk result (λ command. shape_of command ≡ count_shape) }
    ensures globals { IfOk result (λ command. (fields_of command).has_globals ≡ false) }
{
    let command = Command::new(alloc, "count").about(
        "Count the games of standard input, and answer a query",
    );
    let command = with_arg(command, query_arg(alloc))?;
    with_args(command, workers_arg(alloc), openings_arg(alloc))
}

fn create_command<'a>(alloc: Global) -> Result<Command<'a>, AllocError>
    ensures shape { IfOk result (λ command. shape_of command ≡ create_shape) }
    ensures globals { IfOk result (λ command. (fields_of command).has_globals ≡ false) }
{
    let command = Command::new(alloc, "create").about("Make a store without a game");
    with_arg(command, store_arg(alloc))
}

fn import_command<'a>(alloc: Global) -> Result<Command<'a>, AllocError>
    ensures shape { IfOk result (λ command. shape_of command ≡ import_shape) }
    ensures globals { IfOk result (λ command. (fields_of command).has_globals ≡ false) }
{
    let command = Command::new(alloc, "import").about("Import the games of a file into a store");
    let command = with_args(command, store_arg(alloc), file_arg(alloc))?;
    with_args(command, workers_arg(alloc), label_arg(alloc))
}

fn migrate_command<'a>(alloc: Global) -> Result<Command<'a>, AllocError>
    ensures shape { IfOk result (λ command. shape_of command ≡ migrate_shape) }
    ensures globals { IfOk result (λ command. (fields_of command).has_globals ≡ false) }
{
    let command = Command::new(alloc, "migrate").about(
        "Make a store of the batches of a store in the first format",
    );
    with_args(command, old_arg(alloc), new_arg(alloc))
}

fn query_command<'a>(alloc: Global) -> Result<Command<'a>, AllocError>
    ensures shape { IfOk result (λ command. shape_of command ≡ query_shape) }
    ensures globals { IfOk result (λ command. (fields_of command).has_globals ≡ false) }
{
    let command = Command::new(alloc, "query").about("Answer a query over the games of a store");
    let command = with_args(command, store_arg(alloc), query_arg(alloc))?;
    let command = with_args(command, workers_arg(alloc), openings_arg(alloc))?;
    with_arg(command, spill_arg(alloc))
}

fn serve_command<'a>(alloc: Global) -> Result<Command<'a>, AllocError>
    ensures shape { IfOk result (λ command. shape_of command ≡ serve_shape) }
    ensures globals { IfOk result (λ command. (fields_of command).has_globals ≡ false) }
{
    let command = serve_command_of_texts(alloc)?;
    let command = with_args(command, workers_arg(alloc), readers_arg(alloc))?;
    with_args(command, connections_arg(alloc), openings_arg(alloc))
}

/// The same without its options.
fn serve_command_of_texts<'a>(alloc: Global) -> Result<Command<'a>, AllocError>
    ensures app { IfOk result (λ command.
        app_of command ≡ with_rules (new_app (codes "serve"))
        (required_rule (codes "store") ∷ required_rule (codes "address") ∷ files_rule ∷ [])) }
    ensures globals { IfOk result (λ command. (fields_of command).has_globals ≡ false) }
{
    let command = Command::new(alloc, "serve").about(
        "Answer queries over HTTP, and import files and posted games meanwhile",
    );
    let command = with_args(command, store_arg(alloc), address_arg(alloc))?;
    with_arg(command, files_arg(alloc))
}

fn trial_command<'a>(alloc: Global) -> Result<Command<'a>, AllocError>
    ensures shape { IfOk result (λ command. shape_of command ≡ trial_shape) }
    ensures globals { IfOk result (λ command. (fields_of command).has_globals ≡ false) }
{
    let command = Command::new(alloc, "trial").about(
        "Store sample games that are drawn from a seed, and count them",
    );
    let command = with_args(command, games_arg(alloc), seed_arg(alloc))?;
    with_arg(command, workers_arg(alloc))
}

fn query_arg<'a>(alloc: Global) -> Arg<'a>
    ensures rule { rule_of result ≡ optional_rule (codes "query") }
    ensures local { result.global ≡ false }
{
    Arg::new(alloc, "query")
        .value_name("QUERY")
        .help("What is asked, as the query of a URL")
}

fn store_arg<'a>(alloc: Global) -> Arg<'a>
    ensures rule { rule_of result ≡ required_rule (codes "store") }
    ensures local { result.global ≡ false }
{
    Arg::new(alloc, "store")
        .value_name("STORE")
        .required(true)
        .help("The file of the store")
}

fn old_arg<'a>(alloc: Global) -> Arg<'a>
    ensures rule { rule_of result ≡ required_rule (codes "old") }
    ensures local { result.global ≡ false }
{
    Arg::new(alloc, "old").value_name("OLD").required(true).help(
        "The file of the store in the first format, which is only read",
    )
}

fn new_arg<'a>(alloc: Global) -> Arg<'a>
    ensures rule { rule_of result ≡ required_rule (codes "new") }
    ensures local { result.global ≡ false }
{
    Arg::new(alloc, "new")
        .value_name("NEW")
        .required(true)
        .help("The file of the store that is made")
}

fn file_arg<'a>(alloc: Global) -> Arg<'a>
    ensures rule { rule_of result ≡ required_rule (codes "file") }
    ensures local { result.global ≡ false }
{
    Arg::new(alloc, "file")
        .value_name("FILE")
        .required(true)
        .help("A file of games in PGN")
}

fn address_arg<'a>(alloc: Global) -> Arg<'a>
    ensures rule { rule_of result ≡ required_rule (codes "address") }
    ensures local { result.global ≡ false }
{
    Arg::new(alloc, "address")
        .value_name("ADDRESS")
        .required(true)
        .help("Where to listen, as 127.0.0.1:9002")
}

fn files_arg<'a>(alloc: Global) -> Arg<'a>
    ensures rule { rule_of result ≡ files_rule }
    ensures local { result.global ≡ false }
{
    Arg::new(alloc, "file")
        .value_name("FILE")
        .action(ArgAction::Append)
        .num_args(0usize..)
        .help("Files of games in PGN, to be imported meanwhile")
}

fn games_arg<'a>(alloc: Global) -> Arg<'a>
    ensures rule { rule_of result ≡ number_rule (codes "games") games_bounds }
    ensures local { result.global ≡ false }
{
    Arg::new(alloc, "games")
        .value_name("GAMES")
        .required(true)
        .value_parser(value_parser!(u64).range(1..=131_072))
        .help("How many games are drawn, 1 to 131072")
}

fn seed_arg<'a>(alloc: Global) -> Arg<'a>
    ensures rule { rule_of result ≡ number_rule (codes "seed") seed_bounds }
    ensures local { result.global ≡ false }
{
    Arg::new(alloc, "seed")
        .value_name("SEED")
        .required(true)
        .value_parser(value_parser!(u64))
        .help("The number that the games are drawn from")
}

fn workers_arg<'a>(alloc: Global) -> Arg<'a>
    ensures rule { rule_of result ≡ workers_rule }
    ensures local { result.global ≡ false }
{
    Arg::new(alloc, "workers")
        .long("workers")
        .value_name("N")
        .value_parser(value_parser!(u64).range(1..=16))
        .default_value("4")
        .help("How many threads work at once, 1 to 16")
}

fn label_arg<'a>(alloc: Global) -> Arg<'a>
    ensures rule { rule_of result ≡ text_rule (codes "label") }
    ensures local { result.global ≡ false }
{
    Arg::new(alloc, "label")
        .long("label")
        .value_name("TEXT")
        .help("The label of the batches that are stored, at most 64 bytes")
}

fn openings_arg<'a>(alloc: Global) -> Arg<'a>
    ensures rule { rule_of result ≡ openings_rule }
    ensures local { result.global ≡ false }
{
    Arg::new(alloc, "openings")
        .long("openings")
        .value_name("FILE")
        .help("A file of openings, by which answers are named")
}

fn spill_arg<'a>(alloc: Global) -> Arg<'a>
    ensures rule { rule_of result ≡ spill_rule }
    ensures local { result.global ≡ false }
{
    Arg::new(alloc, "spill")
        .long("spill")
        .value_name("NAME")
        .help("A scratch file, which is emptied, for what memory is not to hold")
}

fn readers_arg<'a>(alloc: Global) -> Arg<'a>
    ensures rule { rule_of result ≡ option_rule (codes "readers") readers_bounds (codes "4") }
    ensures local { result.global ≡ false }
{
    Arg::new(alloc, "readers")
        .long("readers")
        .value_name("N")
        .value_parser(value_parser!(u64).range(1..=64))
        .default_value("4")
        .help("How many connections are served at once, 1 to 64")
}

fn connections_arg<'a>(alloc: Global) -> Arg<'a>
    ensures rule { rule_of result
        ≡ option_rule (codes "connections") connections_bounds (codes "1000") }
    ensures local { result.global ≡ false }
{
    Arg::new(alloc, "connections")
        .long("connections")
        .value_name("N")
        .value_parser(value_parser!(u64).range(1..=1_000_000))
        .default_value("1000")
        .help("How many connections each reader serves before it ends, 1 to 1000000")
}

/// The command with two more arguments, the first one before the second.
fn with_args<'a>(
    command: Command<'a>,
    first: Arg<'a>,
    second: Arg<'a>,
) -> Result<Command<'a>, AllocError>
    requires first_local { first.global ≡ false }
    requires second_local { second.global ≡ false }
    ensures app { IfOk result (λ new. app_of new
        ≡ with_rule (with_rule (app_of command.entry) (rule_of first.entry)) (rule_of second.entry)) }
    ensures globals { IfOk result (λ new.
        (fields_of new).has_globals ≡ (fields_of command.entry).has_globals) }
{
    let command = with_arg(command, first)?;
    with_arg(command, second)
}

fn with_arg<'a>(command: Command<'a>, arg: Arg<'a>) -> Result<Command<'a>, AllocError>
    requires { arg.global ≡ false }
    ensures app { IfOk result (λ new.
        app_of new ≡ with_rule (app_of command.entry) (rule_of arg.entry)) }
    ensures globals { IfOk result (λ new.
        (fields_of new).has_globals ≡ (fields_of command.entry).has_globals) }
{
    command.arg(arg)
}

fn with_command<'a>(command: Command<'a>, below: Command<'a>) -> Result<Command<'a>, AllocError>
    requires { (fields_of below).has_globals ≡ false }
    ensures { IfOk result (λ new.
        app_of new ≡ with_subcommand (app_of command.entry) (shape_of below.entry)) }
{
    command.subcommand(below)
}
