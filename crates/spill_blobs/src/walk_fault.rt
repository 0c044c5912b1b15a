//! Why a walk over blocks has no rows.
use std::alloc::AllocError;

/// Why a walk has no rows.
#[derive(Clone, Copy, Debug, PartialEq, Eq)]
pub enum WalkFault {
    /// A read failed. `before` and `after` are the port's counts of failed calls.
    ReadFault { before: u64, after: u64 },
    /// A block is no row, or too many rows stand before the key.
    Damaged,
    OutOfMemory,
}

impl From<AllocError> for WalkFault {
    ghost use Rattle.std.specs.Prelude.{◌≡◌};
    ghost use Rattle.spill_blobs.specs.declared.walk_fault.WalkFault.TheVariants.{OutOfMemory};

    ghost from_gives = { λ _ fault. fault ≡ OutOfMemory };

    fn from(_error: AllocError) -> Self {
        WalkFault::OutOfMemory
    }
}
