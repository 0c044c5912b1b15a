//! Why a pass gets no snapshot.
use thiserror::Error;

/// Why a pass got no snapshot.
#[derive(Clone, Copy, Debug, PartialEq, Eq, Error)]
pub enum EnterFault {
    /// The published list could not be read. `before` and `after` are the pass's counts of these.
    #[error("unread")]
    Unread { before: u64, after: u64 },
    #[error("out of memory")]
    OutOfMemory,
}
