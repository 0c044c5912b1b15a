//! Why a batch or a merged segment is refused.
use crate::clashing::Clashing;
use crate::handed::Handed;
use crate::job::Standing;
use crate::mark::Mark;
use arrayvec::ArrayVec;
use published_index::{Index, Note};

/// Why a batch is not acknowledged.
#[derive(Drop)]
pub enum CommitFault<J: Index> {
    /// An earlier commit met a disk fault, with these counts.
    Closed {
        before: u64,
        after: u64,
        mark: Mark<J>,
    },
    /// Texts of the batch have ids of stored games: these, in the order of their places. The note has
    /// the whole journal.
    Clash {
        handed: Handed,
        pairs: ArrayVec<Clashing, 512>,
        note: Note<J>,
    },
    /// The batch would pass a limit: so many games and bytes of text are stored. The note has the
    /// whole journal.
    Full {
        games: u64,
        bytes: u64,
        note: Note<J>,
    },
    /// A call of the disk failed, with these counts of its faults. The batch may be stored.
    DiskFault {
        before: u64,
        after: u64,
        mark: Mark<J>,
    },
    /// Where `stored`, the batch is stored, and waits to be published.
    OutOfMemory {
        stored: bool,
    },
}

/// Why two segments did not become one.
#[derive(Drop)]
pub enum InstallFault {
    /// No neighbours of the list are those of the job; these are the spans that stand there.
    Gone { spans: ArrayVec<Standing, 64> },
    OutOfMemory,
}
