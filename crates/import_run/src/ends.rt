//! How many imports ended by a fault of a store.
ghost use Rattle.std.specs.Prelude.{◌≡◌};
ghost use Rattle.ingest_desk.specs.Importers.{CountsRose, ending_of};
ghost use Rattle.import_run.specs.Counting.{IsMarkedSo, counts_of};

use ingest_desk::{End, ImportEnding, Marks};
use published_index::Index;

/// How many imports ended by a disk fault, by a closed store and by a full one.
#[derive(Debug, Drop)]
pub(crate) struct EndCounts {
    pub(crate) marks: Marks,
    pub(crate) full: u64,
}

impl EndCounts {
    pub(crate) fn new() -> Self
        ensures { counts_of result ≡ record { disk_faults = 0; closed = 0; full = 0 } }
    {
        EndCounts {
            marks: Marks::new(),
            full: 0,
        }
    }

    /// Counts an end.
    pub(crate) fn add<J: Index>(&mut self, end: &End<J>)
        requires { IsMarkedSo end.now }
        ensures { CountsRose (ending_of end.now) (counts_of self.old) (counts_of self.new) }
    {
        match end {
            End::DiskFault { mark, .. } => {
                let _before = self.marks.disk_faults();
                self.marks.add(mark);
            }
            End::Closed { mark, .. } => {
                let _before = self.marks.closed_stores();
                self.marks.add(mark);
            }
            End::Full { .. } => self.full = self.full.saturating_add(1),
            End::Whole | End::ReadFault { .. } | End::TooMuch { .. } | End::OutOfMemory => {}
        }
    }
}

/// How an import ended, without what the end has of an index.
pub fn ending_of<J: Index>(end: &End<J>) -> ImportEnding
    ensures { result ≡ ending_of end.now }
{
    match end {
        End::Whole => ImportEnding::Whole,
        End::ReadFault { before, after } => ImportEnding::ReadFault {
            before: *before,
            after: *after,
        },
        End::DiskFault { before, after, .. } => ImportEnding::DiskFault {
            before: *before,
            after: *after,
        },
        End::Closed { before, after, .. } => ImportEnding::Closed {
            before: *before,
            after: *after,
        },
        End::Full { games, bytes, .. } => ImportEnding::Full {
            games: *games,
            bytes: *bytes,
        },
        End::TooMuch { bytes } => ImportEnding::TooMuch { bytes: *bytes },
        End::OutOfMemory => ImportEnding::OutOfMemory,
    }
}
