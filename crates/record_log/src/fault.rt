//! Why a log is not made, not opened or not added to.
use explorer_model::store::LogFault;
use thiserror::Error;

/// Why a payload was not added to a log. `before` and `after` are the disk's counts of faults.
#[derive(Clone, Copy, Debug, PartialEq, Eq, Error)]
pub enum AppendFault {
    /// An earlier append met a disk fault, with these counts.
    #[error("closed")]
    Closed { before: u64, after: u64 },
    /// A call of the disk failed; what is on it is for the next opening to say.
    #[error("disk fault")]
    DiskFault { before: u64, after: u64 },
    #[error("out of memory")]
    OutOfMemory,
}

/// Why no log was made on a disk.
#[derive(Clone, Copy, Debug, PartialEq, Eq, Error)]
pub enum CreateFault {
    /// The disk has this many bytes.
    #[error("not empty {size}")]
    NotEmpty { size: u64 },
    #[error("disk fault")]
    DiskFault { before: u64, after: u64 },
}

/// Why the log on a disk was not opened.
#[derive(Clone, Copy, Debug, PartialEq, Eq, Error)]
pub enum OpenFault {
    #[error("{0}")]
    Log(LogFault),
    #[error("disk fault")]
    DiskFault { before: u64, after: u64 },
    #[error("out of memory")]
    OutOfMemory,
}

/// A disk that was taken over and is given back, with the reason.
#[derive(Debug, Drop)]
pub struct Back<D, F> {
    pub disk: D,
    pub fault: F,
}
