//! The report lines of what is refused.
ghost use Rattle.std.specs.Prelude.{◌≡◌, ◌∷◌, ◌++◌, [], IfOk, MatchResult, OnOk, OnErr};
ghost use Rattle.outside.specs.Stream.{Takes, FailsToTake, Writes};
ghost use Rattle.explorer.specs.Report.{report, report_line};
ghost use Rattle.explorer.specs.Serve.Served.{file_lines};

use answer_json::refusal::why_text;
use explorer_model::fault::{Refusal, Why};
use outside::{Failed, Sink};
use std::alloc::{AllocError, Global};

/// The report lines of refusals.
pub fn report(alloc: Global, refused: &[Refusal]) -> Result<Vec<u8>, AllocError>
    ensures { IfOk result (λ lines. lines.items ≡ report refused.now) }
{
    let mut lines = Vec::new(alloc);
    for refusal in refused {
        push_line(alloc, &mut lines, refusal.place, &refusal.why)?;
    }
    Ok(lines)
}

/// Puts the report lines of a file's refusals behind others, each with the file's name before it.
pub fn push_file_lines(
    alloc: Global,
    lines: &mut Vec<u8>,
    name: &str,
    refused: &[Refusal],
) -> Result<(), AllocError>
    ensures { OnOk result (lines.new.items ≡ lines.old.items ++ file_lines name.now refused.now) }
{
    for refusal in refused {
        lines.extend_from_slice(name.as_bytes())?;
        lines.push(b' ')?;
        push_line(alloc, lines, refusal.place, &refusal.why)?;
    }
    Ok(())
}

/// Writes lines as one chunk, if there are any.
pub fn write_lines<S: Sink>(sink: &mut S, lines: &[u8]) -> Result<(), Failed>
    ensures takes { OnOk result (Takes lines.now (S.sink sink.old) (S.sink sink.new)) }
    ensures fails { OnErr result (FailsToTake lines.now (S.sink sink.old) (S.sink sink.new)) }
{
    if lines.is_empty() {
        return Ok(());
    }
    sink.write(lines)
}

/// Writes lines, if there was memory for them. Whether the write fails is not told.
pub fn write_made<S: Sink>(sink: &mut S, made: Result<Vec<u8>, AllocError>)
    ensures { MatchResult made
        (λ lines. Writes (lines.items ∷ []) (S.sink sink.old) (S.sink sink.new))
        (λ _. S.sink sink.new ≡ S.sink sink.old) }
{
    if let Ok(lines) = made {
        let _ = write_lines(sink, lines.as_slice());
    }
}

fn push_line(alloc: Global, lines: &mut Vec<u8>, place: u64, why: &Why) -> Result<(), AllocError>
    ensures { OnOk result (lines.new.items ≡ lines.old.items ++ report_line place why.now) }
{
    lines.extend_from_slice(place.to_string(alloc)?.as_bytes())?;
    lines.push(b' ')?;
    lines.extend_from_slice(why_text(alloc, why)?.as_slice())?;
    lines.push(b'\n')?;
    Ok(())
}
