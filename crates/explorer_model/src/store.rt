//! Faults of a store's file.
use thiserror::Error;

/// Why the bytes of a file are no log of the format that is asked for.
#[derive(Clone, Copy, Debug, PartialEq, Eq, Error)]
pub enum LogFault {
    /// Fewer than 13 bytes, or other first eight than those of a log.
    #[error("not a store")]
    NotALog,
    #[error("format {number}")]
    OtherFormat { number: u32 },
    /// `at` is the offset of an open gate with no whole record behind it, or with a payload that is
    /// off its form.
    #[error("damaged at {at}")]
    Damaged { at: u64 },
}
