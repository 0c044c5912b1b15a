//! The calls of a disk in memory.
/// A call that a disk in memory remembers.
#[derive(Drop)]
pub enum DiskCall {
    /// A write, which was done or failed.
    Wrote { at: u64, piece: Vec<u8>, done: bool },
    /// A sync that was done.
    Synced,
}
