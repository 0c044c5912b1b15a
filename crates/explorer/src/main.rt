//! The opening explorer: reads games of chess and answers what was played in a position.
#![tactic(auto)]

ghost use Rattle.std.specs.Prelude.{◌≡◌, ◌⊎◌, IfErr};
ghost use Rattle.explorer.specs.declared.fault.Fault.{Fault as AFault};

mod answer;
mod count;
mod create;
mod fault;
mod import_store;
mod importing;
mod laws;
mod list_batches;
mod migrate;
mod opening;
mod openings;
mod order;
mod program;
mod query;
mod report;
mod serve;
mod status;
#[cfg(test)]
mod tests;
mod trial;

use fault::Fault;
use host::RealHost;
use outside::{StdSink, StdSource};
use program::start;
use std::env;
use std::io::ErrorKind;
use std::process::ExitCode;

/// Hands the standard streams and the words of the command line to `start`, whose contract says
/// what the process does and with which status it ends.
fn main(rt: HostRuntime) -> ExitCode {
    let mut input = StdSource::new(rt.stdin());
    let mut output = StdSink::new(rt.stdout());
    let mut errors = StdSink::new(rt.stderr());
    start(
        &rt,
        words_of(&rt),
        &mut input,
        &mut output,
        &mut errors,
        &mut RealHost::new(&rt),
    )
}

/// The words of the command line. A word that is not text is a faulty one.
fn words_of(rt: &HostRuntime) -> Result<Vec<String>, Fault>
    ensures { IfErr result (λ fault. (fault ≡ AFault.Usage) ⊎ (fault ≡ AFault.OutOfMemory)) }
{
    match env::args(rt) {
        Ok(args) => match args.collect(rt.alloc()) {
            Ok(words) => Ok(words),
            Err(_) => Err(Fault::OutOfMemory),
        },
        Err(error) => match error.kind() {
            ErrorKind::OutOfMemory => Err(Fault::OutOfMemory),
            _ => Err(Fault::Usage),
        },
    }
}
