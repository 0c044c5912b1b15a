//! The run of the program, from its words to its status.
ghost use Rattle.std.specs.Prelude.{◌≡◌, ◌∷◌, [], MatchResult, map, string_bytes};
ghost use Rattle.std.specs.Process.{exit_status};
ghost use Rattle.outside.specs.Stream.{Writes};
ghost use Rattle.explorer.specs.Lines.{IsTold, Stopped, TellsOf, ending_of, status_of};
ghost use Rattle.explorer.specs.Run.{Ends, IsWordless, Runs};
ghost use Rattle.command_line.specs.Words.{IsInBounds, task_in};
ghost use Rattle.explorer.specs.World.{world};
ghost use Rattle.explorer.specs.declared.fault.Fault.{Fault as AFault};

use crate::count::count;
use crate::create::create;
use crate::fault::Fault;
use crate::import_store::import_store;
use crate::list_batches::list_batches;
use crate::migrate::migrate;
use crate::openings::book_of;
use crate::order::{ImportOrder, Order, SpillOrder};
use crate::query::spilled::query_spilled;
use crate::query::store::query_store;
use crate::serve::serve;
use crate::status::Status;
use crate::trial::trial;
use command_line::{Command, UsageError, parse_words};
use explorer_model::fault::Stop;
use host::Host;
use outside::{Sink, Source};
use side_by_side::Workers;
use std::process::ExitCode;
use std::sync::Wait;
use std::thread::Threads;

/// Runs on the words of the command line, or on the fault by which they cannot be had, and gives the
/// status with which the process is to end.
pub fn start<R: AllocGlobal + Wait + Threads + Sync, I: Source, O: Sink, E: Sink, H: Host>(
    rt: &R,
    words: Result<Vec<String>, Fault>,
    input: &mut I,
    output: &mut O,
    errors: &mut E,
    host: &mut H,
) -> ExitCode
    ensures { let before = world (I.source input.old) (O.sink output.old) (E.sink errors.old)
        (H.host host.old) in
        let after = world (I.source input.new) (O.sink output.new) (E.sink errors.new)
        (H.host host.new) in
        MatchResult words
        (λ words. Runs (map string_bytes words.items) before after (exit_status result))
        (λ fault. IsWordless fault before after (exit_status result)) }
{
    let status = match words {
        Ok(words) => run(rt, words.as_slice(), input, output, errors, host),
        Err(fault) => report_fault(fault, errors),
    };
    ExitCode::from(status.number)
}

/// Does all that the program does: what the words ask for, of which the first is the program's
/// name.
pub fn run<R: AllocGlobal + Wait + Threads + Sync, I: Source, O: Sink, E: Sink, H: Host>(
    rt: &R,
    words: &[String],
    input: &mut I,
    output: &mut O,
    errors: &mut E,
    host: &mut H,
) -> Status
    ensures { let before = world (I.source input.old) (O.sink output.old) (E.sink errors.old)
        (H.host host.old) in
        let after = world (I.source input.new) (O.sink output.new) (E.sink errors.new)
        (H.host host.new) in
        Runs (map string_bytes words.now) before after result.number }
{
    match parse_words(rt.alloc(), words) {
        Ok(command) => {
            let outcome = run_command(rt, command, input, output, errors, host);
            report_outcome(outcome, errors)
        }
        Err(Stop::Fault(usage)) => report_usage(usage, errors),
        Err(Stop::OutOfMemory) => report_fault(Fault::OutOfMemory, errors),
    }
}

/// Does what the command asks for.
fn run_command<R: AllocGlobal + Wait + Threads + Sync, I: Source, O: Sink, E: Sink, H: Host>(
    rt: &R,
    command: Command,
    input: &mut I,
    output: &mut O,
    errors: &mut E,
    host: &mut H,
) -> Result<(), Fault>
    requires { IsInBounds (task_in command) }
    ensures { let before = world (I.source input.old) (O.sink output.old) (E.sink errors.old)
        (H.host host.old) in
        let after = world (I.source input.new) (O.sink output.new) (E.sink errors.new)
        (H.host host.new) in
        Ends (task_in command) before after (ending_of result) }
{
    match command {
        Command::Batches { store, workers } => {
            let workers = Workers {
                count: usize::from(workers),
            };
            list_batches(rt, store, workers, output, host)
        }
        Command::Count {
            query,
            workers,
            openings,
        } => count(
            rt,
            query.as_bytes(),
            openings,
            Workers {
                count: usize::from(workers),
            },
            input,
            output,
            errors,
            host,
        ),
        Command::Create { store } => create(store, output, host),
        Command::Import {
            store,
            file,
            workers,
            label,
        } => import_store(
            rt,
            ImportOrder {
                store,
                file,
                label,
                workers: Workers {
                    count: usize::from(workers),
                },
            },
            output,
            errors,
            host,
        ),
        Command::Migrate { old, new } => migrate(rt.alloc(), old, new, output, host),
        Command::Query {
            store,
            query,
            workers,
            openings,
            spill,
        } => match spill {
            None => query_store(
                rt,
                store,
                query.as_bytes(),
                openings,
                Workers {
                    count: usize::from(workers),
                },
                output,
                host,
            ),
            Some(spill) => query_spilled(
                rt,
                SpillOrder {
                    store,
                    spill,
                    workers: Workers {
                        count: usize::from(workers),
                    },
                },
                query.as_bytes(),
                openings,
                output,
                host,
            ),
        },
        Command::Serve {
            store,
            address,
            files,
            workers,
            readers,
            connections,
            openings,
        } => {
            let book = match book_of(rt.alloc(), openings, host) {
                Ok(book) => book,
                Err(fault) => return Err(fault),
            };
            let order = Order {
                store,
                address,
                files,
                workers: Workers {
                    count: usize::from(workers),
                },
                readers: usize::from(readers),
                connections,
                book,
            };
            serve(rt, rt.alloc(), order, output, errors, host)
        }
        Command::Trial {
            games,
            seed,
            workers,
        } => trial(
            rt,
            games,
            seed,
            Workers {
                count: usize::from(workers),
            },
            output,
        ),
    }
}

/// Tells of a command's fault, if it came to one, and gives the status.
fn report_outcome<E: Sink>(outcome: Result<(), Fault>, errors: &mut E) -> Status
    ensures status { result.number ≡ status_of (ending_of outcome) }
    ensures told { IsTold (ending_of outcome) (E.sink errors.old) (E.sink errors.new) }
{
    match outcome {
        Ok(()) => Status { number: 0 },
        Err(fault) => report_fault(fault, errors),
    }
}

/// Tells of a fault on the errors sink, where that takes it, and gives its status.
fn report_fault<E: Sink>(fault: Fault, errors: &mut E) -> Status
    ensures status { result.number ≡ status_of (Stopped fault) }
    ensures told { TellsOf fault (E.sink errors.old) (E.sink errors.new) }
{
    fault.tell(errors);
    fault.status()
}

/// Tells on the errors sink, where that takes it, why words are refused.
fn report_usage<E: Sink>(usage: UsageError, errors: &mut E) -> Status
    ensures status { result.number ≡ status_of (Stopped AFault.Usage) }
    ensures text { Writes (string_bytes usage.text ∷ []) (E.sink errors.old) (E.sink errors.new) }
{
    // A fault of the sink changes no status that is not 0.
    let _ = errors.write(usage.text.as_bytes());
    Fault::Usage.status()
}
