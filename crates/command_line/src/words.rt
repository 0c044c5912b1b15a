//! Words are read, or refused.
ghost use Rattle.std.specs.Prelude.{◌≡◌, List, map, string_bytes, Some, None, IfOk, IfErr};
ghost use Rattle.clap.specs.Words.{app_of, kind_of};
ghost use Rattle.explorer_model.specs.declared.fault.Stop.{Stop as AStop};
ghost use Rattle.command_line.specs.Task.{explorer_app, task_of};
ghost use Rattle.command_line.specs.Words.{EndsLine, IsInBounds, IsTold, Refuses, task_in};

use crate::app::explorer_command;
use crate::command::{Command, command_of};
use clap::error::ErrorKind;
use explorer_model::fault::Stop;
use std::alloc::{AllocError, Global};

/// The words ask for no command.
#[derive(Debug, Drop)]
pub struct UsageError {
    /// What the user is told: help, or what is wrong with the words.
    pub text: String,
}

/// The command that the words ask for, of which the first is the program's name.
pub fn parse_words(alloc: Global, words: &[String]) -> Result<Command, Stop<UsageError>>
    ensures task { IfOk result (λ command.
        task_of (map string_bytes words.now) ≡ Some (task_in command)) }
    ensures bounds { IfOk result (λ command. IsInBounds (task_in command)) }
    ensures refused { IfErr result (Refuses (map string_bytes words.now)) }
{
    match explorer_command(alloc)?.try_get_matches_from(words) {
        Ok(matches) => Ok(command_of(alloc, &matches)?),
        Err(error) => Err(usage_error(alloc, error)),
    }
}

fn usage_error(alloc: Global, error: clap::Error) -> Stop<UsageError>
    ensures memory { kind_of error ≡ ErrorKind.OutOfMemory → result ≡ AStop.OutOfMemory }
    ensures told { IsTold result }
{
    if error.kind() == ErrorKind::OutOfMemory {
        return Stop::OutOfMemory;
    }
    match text_of(alloc, &error) {
        Ok(text) => Stop::Fault(UsageError { text }),
        Err(_) => Stop::OutOfMemory,
    }
}

/// The text of an error for the user, with a line end at its end.
fn text_of(alloc: Global, error: &clap::Error) -> Result<String, AllocError>
    ensures { IfOk result (λ text. EndsLine (string_bytes text)) }
{
    let mut text = format!(in alloc; "{error}")?;
    if !text.as_str().ends_with("\n") {
        text.push('\n')?;
    }
    Ok(text)
}
