//! Faults of scratch files.

/// Why rows are not written to a scratch file, or not read back.
#[derive(Clone, Copy, Debug, PartialEq, Eq)]
pub enum PortFault {
    /// A read failed. `before` and `after` are the port's counts of failed calls.
    ReadFault { before: u64, after: u64 },
    /// What is read back of the part of this number are no rows that were written.
    Damaged { part: u32 },
    /// The append failed.
    WriteFault { before: u64, after: u64 },
}
