//! Why a call that reads something has no answer.
ghost use Rattle.std.specs.Prelude.{◌≡◌};
ghost use Rattle.explorer_model.specs.declared.fault.Stop.TheVariants.{OutOfMemory};

use std::alloc::AllocError;
use thiserror::Error;

/// Why a call that reads something has no answer: a fault of what it reads, or want of memory.
#[derive(Debug, Drop)]
pub enum Stop<F> {
    Fault(F),
    OutOfMemory,
}

/// A text that breaks the grammar of PGN (PGN 5 to 8), with the offset of the first fault.
#[derive(Clone, Copy, Debug, PartialEq, Eq, Error)]
#[error("the text is no PGN at byte {place}")]
pub struct LexFault {
    pub place: u32,
}

/// A tag that the archive asks for (PGN 8.1).
#[derive(Clone, Copy, Debug, PartialEq, Eq)]
pub enum TagName {
    Event,
    Site,
    White,
    Black,
    Result,
    WhiteElo,
    BlackElo,
    TimeControl,
    UtcDate,
    Date,
}

/// Why the tags of a text name no game of the archive.
#[derive(Clone, Copy, Debug, PartialEq, Eq)]
pub enum TagFault {
    Missing { name: TagName },
    Bad { name: TagName },
    /// A variant other than standard chess.
    NotStandard,
    /// The tag SetUp does not say whether there is a tag FEN (PGN 9.7).
    SetUp,
    /// The result is `*`.
    UnknownResult,
}

/// Why a text names no single legal move (PGN 8.2.3).
#[derive(Clone, Copy, Debug, PartialEq, Eq, Error)]
pub enum SanFault {
    #[error("not in the grammar of SAN")]
    NotSan,
    #[error("no legal move agrees")]
    NoSuchMove,
    #[error("two or more legal moves agree")]
    Ambiguous,
}

/// Why a text holds no game. `place` is an offset in the text, and `ply` counts from 1.
#[derive(Clone, Copy, Debug, PartialEq, Eq)]
pub enum GameFault {
    Lex { place: u32 },
    Tag(TagFault),
    /// The value of the tag FEN is no position; `field` is its first faulty field, 1 to 6.
    BadSetUp { field: u8 },
    NoTermination,
    /// The termination is not the value of the tag Result.
    ResultDiffers,
    /// More than 1,024 move tokens.
    TooManyPlies,
    NotSan { ply: u32, place: u32 },
    Illegal { ply: u32, place: u32 },
    Ambiguous { ply: u32, place: u32 },
}

/// Why a piece of a stream is not counted.
#[derive(Clone, Copy, Debug, PartialEq, Eq)]
pub enum Why {
    /// Bytes other than white space before the first game.
    Preamble,
    /// A text of more than 65,536 bytes, with its length.
    TooLong { length: u64 },
    Game(GameFault),
    /// An earlier text of its group has its id; `first` is that text's place.
    Twice { first: u64 },
    /// A stored game has its id; `number` is that game's number.
    Repeated { number: u32 },
}

/// A piece that is not counted; `place` is its offset in the stream.
#[derive(Clone, Copy, Debug, PartialEq, Eq)]
pub struct Refusal {
    pub place: u64,
    pub why: Why,
}

impl<F> From<AllocError> for Stop<F> {
    ghost from_gives = { λ _ stop. stop ≡ OutOfMemory };

    fn from(_: AllocError) -> Self {
        Stop::OutOfMemory
    }
}
