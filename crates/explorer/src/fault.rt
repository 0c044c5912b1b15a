//! Why a run ends without what its command asks for.
ghost use Rattle.std.specs.Prelude.{◌≡◌, ◌++◌, ◌∷◌, [], ◌≤◌, length, codes};
ghost use Rattle.std.specs.Fmt.{decimal};
ghost use Rattle.outside.specs.Stream.{Writes};
ghost use Rattle.explorer_model.specs.Query.{parameter_text};
ghost use Rattle.explorer.specs.Lines.{AreLinesOf, HasOneLine, Stopped, TellsOf, full_line, openings_line, status_of};

use crate::status::Status;
use arrayvec::ArrayString;
use explorer_model::fault::Stop;
use explorer_model::opening::BookCause;
use explorer_model::query::{BadParameter, Parameter};
use itoa::Buffer;
use outside::{Failed, Sink};
use std::alloc::AllocError;

/// Why a run ends without what its command asks for.
#[derive(Debug, Drop)]
pub enum Fault {
    /// The words ask for no command.
    Usage,
    /// The first parameter of the query that is malformed or given twice.
    BadParameter(Parameter),
    /// The text that is given for a label is none.
    BadLabel,
    ReadFault,
    WriteFault,
    /// A call of a disk failed.
    DiskFault,
    /// A store is to be made where so many bytes stand.
    NotEmpty { size: u64 },
    /// What stands under the name of a store does not begin as one.
    NotAStore,
    /// The store is of the format of this number.
    OtherFormat { number: u32 },
    /// The store has a record off the form behind the gate at this place.
    Damaged { gate: u64 },
    /// A group of the input finds no room: how many games and bytes of texts are stored without it.
    Full { games: u64, bytes: u64 },
    OutOfMemory,
    /// The host has nothing to give under this name.
    CannotOpen { name: String },
    /// A door takes no connection.
    CannotAccept,
    /// The input has 2^40 bytes or more.
    TooMuchInput,
    /// The file of openings has more than 4,194,304 bytes.
    OpeningsTooLong,
    /// The first faulty line of the file of openings; lines count from 1.
    BadOpenings { line: u32, cause: BookCause },
    /// A call of the scratch file failed.
    SpillFault,
    /// What is read back of the part of this number are no rows that were written.
    SpillDamaged { part: u32 },
}

impl From<AllocError> for Fault {
    ghost use Rattle.std.specs.Prelude.{◌≡◌};
    ghost use Rattle.explorer.specs.declared.fault.Fault.{Fault};

    ghost from_gives = { λ _ fault. fault ≡ Fault.OutOfMemory };

    fn from(_error: AllocError) -> Self {
        Fault::OutOfMemory
    }
}

impl From<Failed> for Fault {
    ghost use Rattle.std.specs.Prelude.{◌≡◌};
    ghost use Rattle.explorer.specs.declared.fault.Fault.{Fault};

    ghost from_gives = { λ _ fault. fault ≡ Fault.WriteFault };

    /// A read that failed ends an import, and is no error of a call.
    fn from(_error: Failed) -> Self {
        Fault::WriteFault
    }
}

impl From<Stop<BadParameter>> for Fault {
    ghost use Rattle.std.specs.Prelude.{◌≡◌};
    ghost use Rattle.explorer.specs.Faults.{fault_of_query};

    ghost from_gives = { λ stop fault. fault ≡ fault_of_query stop };

    fn from(stop: Stop<BadParameter>) -> Self {
        match stop {
            Stop::Fault(bad) => Fault::BadParameter(bad.name),
            Stop::OutOfMemory => Fault::OutOfMemory,
        }
    }
}

impl Fault {
    /// The status of a run that ends so.
    pub fn status(&self) -> Status
        ensures { result.number ≡ status_of (Stopped self.now) }
    {
        let number = match self {
            Fault::Usage => 2,
            Fault::BadParameter(_) | Fault::BadLabel => 3,
            Fault::ReadFault => 4,
            Fault::WriteFault => 5,
            Fault::DiskFault => 6,
            Fault::NotEmpty { .. }
            | Fault::NotAStore
            | Fault::OtherFormat { .. }
            | Fault::Damaged { .. } => 7,
            Fault::Full { .. } => 8,
            Fault::OutOfMemory => 9,
            Fault::CannotOpen { .. } | Fault::CannotAccept => 10,
            Fault::TooMuchInput => 11,
            Fault::OpeningsTooLong | Fault::BadOpenings { .. } => 12,
            Fault::SpillFault => 13,
            Fault::SpillDamaged { .. } => 14,
        };
        Status { number }
    }

    /// Tells of it on a sink, where that takes it. No memory is asked for, so that no fault turns
    /// into another.
    pub fn tell<S: Sink>(&self, sink: &mut S)
        ensures { TellsOf self.now (S.sink sink.old) (S.sink sink.new) }
    {
        if let Fault::CannotOpen { name } = self {
            put(sink, b"cannot open ");
            put(sink, name.as_bytes());
            put(sink, b"\n");
            return;
        }
        put(sink, self.line().as_str().as_bytes());
    }

    /// Its line, where that is one piece. That of Usage tells of a word that is not text.
    fn line(&self) -> ArrayString<64>
        requires { HasOneLine self.now }
        ensures { AreLinesOf self.now (result.bytes ∷ []) }
    {
        match self {
            Fault::Usage => fixed_line("error: a word of the command line is not text\n"),
            Fault::BadParameter(parameter) => parameter_line(*parameter),
            Fault::BadLabel => fixed_line("bad parameter label\n"),
            Fault::ReadFault => fixed_line("read fault\n"),
            Fault::WriteFault => fixed_line("write fault\n"),
            Fault::DiskFault => fixed_line("disk fault\n"),
            Fault::NotEmpty { size } => number_line("not empty ", *size),
            Fault::NotAStore => fixed_line("not a store\n"),
            Fault::OtherFormat { number } => number_line("format ", u64::from(*number)),
            Fault::Damaged { gate } => number_line("damaged at ", *gate),
            Fault::Full { games, bytes } => full_line(*games, *bytes),
            Fault::OutOfMemory => fixed_line("out of memory\n"),
            Fault::CannotOpen { .. } => ArrayString::new(),
            Fault::CannotAccept => fixed_line("cannot accept\n"),
            Fault::TooMuchInput => fixed_line("too much input\n"),
            Fault::OpeningsTooLong => fixed_line("openings too long\n"),
            Fault::BadOpenings { line, cause } => openings_line(*line, *cause),
            Fault::SpillFault => fixed_line("spill fault\n"),
            Fault::SpillDamaged { part } => number_line("spill damaged ", u64::from(*part)),
        }
    }
}

/// Writes a piece, where the sink takes it. A fault of the sink changes no status that is not 0.
fn put<S: Sink>(sink: &mut S, piece: &[u8])
    ensures { Writes (piece.now ∷ []) (S.sink sink.old) (S.sink sink.new) }
{
    let _ = sink.write(piece);
}

fn fixed_line(text: &str) -> ArrayString<64>
    requires { length text.now ≤ 64 }
    ensures { result.bytes ≡ text.now }
{
    let mut line = ArrayString::new();
    line.push_str(text);
    line
}

fn parameter_line(parameter: Parameter) -> ArrayString<64>
    ensures { result.bytes ≡ codes "bad parameter " ++ parameter_text parameter ++ codes "\n" }
{
    let mut line = fixed_line("bad parameter ");
    line.push_str(parameter.as_str());
    line.push('\n');
    line
}

fn number_line(words: &str, number: u64) -> ArrayString<64>
    requires { length words.now ≤ 16 }
    ensures { result.bytes ≡ words.now ++ decimal number ++ codes "\n" }
{
    let mut line = fixed_line(words);
    line.push_str(Buffer::new().format(number));
    line.push('\n');
    line
}

fn openings_line(number: u32, cause: BookCause) -> ArrayString<64>
    ensures { result.bytes ≡ openings_line number cause }
{
    let mut line = fixed_line("openings line ");
    line.push_str(Buffer::new().format(number));
    line.push(' ');
    line.push_str(cause.as_str());
    line.push('\n');
    line
}

fn full_line(games: u64, bytes: u64) -> ArrayString<64>
    ensures { result.bytes ≡ full_line games bytes }
{
    let mut line = fixed_line("full ");
    line.push_str(Buffer::new().format(games));
    line.push_str(" games ");
    line.push_str(Buffer::new().format(bytes));
    line.push_str(" bytes\n");
    line
}
