//! What an import comes to.
use crate::mark::Mark;
use crate::receipt::Receipt;
use explorer_model::archive::Bytes;
use explorer_model::fault::Refusal;
use published_index::{Index, Note};

/// How an import ended.
#[derive(Drop)]
pub enum End<J: Index> {
    /// The input was read to its end, and what becomes of each of its texts is decided.
    Whole,
    /// A read of the input failed, with these counts of its faults.
    ReadFault {
        before: u64,
        after: u64,
    },
    /// A batch could not be stored, with these counts of the disk's faults. It may be stored.
    DiskFault {
        before: u64,
        after: u64,
        mark: Mark<J>,
    },
    /// An earlier batch could not be stored, with these counts, and nothing is stored any more.
    Closed {
        before: u64,
        after: u64,
        mark: Mark<J>,
    },
    /// A batch would pass a limit: so many games and bytes of text are stored. The note has the
    /// whole journal.
    Full {
        games: u64,
        bytes: u64,
        note: Note<J>,
    },
    /// So many bytes were read, and no import reads more.
    TooMuch {
        bytes: u64,
    },
    OutOfMemory,
}

/// What an import came to.
#[derive(Drop)]
pub struct Report<J: Index> {
    /// One for each batch that was stored, in their order.
    pub receipts: Vec<Receipt<J>>,
    /// In the order of their places.
    pub refused: Vec<Refusal>,
    /// The journals in which games with the ids of refused texts stand.
    pub clashes: Vec<Note<J>>,
    pub end: End<J>,
}

/// How an import ended, without what the end has of an index.
#[derive(Clone, Copy, Debug, PartialEq, Eq)]
pub enum ImportEnding {
    Whole,
    ReadFault { before: u64, after: u64 },
    DiskFault { before: u64, after: u64 },
    Closed { before: u64, after: u64 },
    Full { games: u64, bytes: u64 },
    TooMuch { bytes: u64 },
    OutOfMemory,
}

/// A call of an importer, as it is told: the body, how the import ended, and how many games it
/// stored.
#[derive(Debug, Drop)]
pub struct ImportCall {
    pub body: Bytes,
    pub ending: ImportEnding,
    pub games: u32,
}
