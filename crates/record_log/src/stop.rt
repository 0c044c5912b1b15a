//! Why a log's file is not read to its end.
ghost use Rattle.std.specs.Prelude.{◌≡◌};
ghost use Rattle.record_log.specs.declared.stop.ReadStop.TheVariants as stops;

use explorer_model::store::LogFault;
use outside::Failed;
use std::alloc::{AllocError, AllocFailed};

/// Why a log's file is not read to its end.
#[derive(Drop)]
pub(crate) enum ReadStop {
    Disk,
    Memory,
    Log(LogFault),
}

impl From<Failed> for ReadStop {
    ghost from_gives = { λ _ stop. stop ≡ stops.Disk };

    fn from(_: Failed) -> Self {
        ReadStop::Disk
    }
}

impl From<AllocError> for ReadStop {
    ghost from_gives = { λ _ stop. stop ≡ stops.Memory };

    fn from(_: AllocError) -> Self {
        ReadStop::Memory
    }
}

impl<T: Drop> From<AllocFailed<T>> for ReadStop {
    ghost from_gives = { λ _ stop. stop ≡ stops.Memory };

    fn from(_: AllocFailed<T>) -> Self {
        ReadStop::Memory
    }
}
