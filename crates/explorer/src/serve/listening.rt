//! The line that tells at which address a store is served.
ghost use Rattle.std.specs.Prelude.{◌≡◌, IfOk, OnErr, OnOk};
ghost use Rattle.outside.specs.Stream.{FailsToTake, Takes};
ghost use Rattle.explorer.specs.Serve.{listening_line};

use outside::{Failed, Sink};
use std::alloc::{AllocError, Global};

/// The line, before it is written.
#[derive(Debug, Drop)]
pub struct Line {
    bytes: Vec<u8>,
}

/// The line for an address.
pub fn listening_line(alloc: Global, address: &str) -> Result<Line, AllocError>
    ensures { IfOk result (λ line. line.bytes.items ≡ listening_line address.now) }
{
    let mut bytes = Vec::from_slice(alloc, b"listening ")?;
    bytes.extend_from_slice(address.as_bytes())?;
    bytes.push(b'\n')?;
    Ok(Line { bytes })
}

/// That a line was written, or that its write failed. Only the attempt makes one, and no reader is made
/// without one: so no connection is taken before the address was told.
#[derive(Clone, Copy, Debug)]
pub struct Told {
    written: Result<(), Failed>,
}

impl Told {
    /// Writes the line.
    pub fn tell<O: Sink>(output: &mut O, line: &Line) -> Told
        ensures takes { OnOk result.written
            (Takes line.now.bytes.items (O.sink output.old) (O.sink output.new)) }
        ensures fails { OnErr result.written
            (FailsToTake line.now.bytes.items (O.sink output.old) (O.sink output.new)) }
    {
        Told {
            written: output.write(line.bytes.as_slice()),
        }
    }

    /// Whether the line was written.
    pub fn result(self) -> Result<(), Failed>
        ensures { result ≡ self.written }
    {
        self.written
    }
}
