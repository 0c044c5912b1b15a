//! Why a store is not opened through a scratch file.
use explorer_model::fault::Stop;
use record_log::OpenFault;
use spill_blobs::PortFault;
use std::alloc::AllocError;

/// Why a store is not opened through a scratch file.
#[derive(Clone, Copy, Debug, PartialEq, Eq)]
pub enum SpillOpenFault {
    /// What an opening says of the store or its disk; want of memory too.
    Store(OpenFault),
    /// The scratch file: an append failed.
    Port(PortFault),
}

impl From<AllocError> for SpillOpenFault {
    ghost use Rattle.std.specs.Prelude.{◌≡◌};
    ghost use Rattle.record_log.specs.declared.fault.OpenFault.TheVariants.{OutOfMemory};
    ghost use Rattle.ingest_desk.specs.declared.spill_fault.SpillOpenFault.TheVariants.{Store};

    ghost from_gives = { λ _ fault. fault ≡ Store OutOfMemory };

    fn from(_: AllocError) -> Self {
        SpillOpenFault::Store(OpenFault::OutOfMemory)
    }
}

impl From<Stop<PortFault>> for SpillOpenFault {
    ghost use Rattle.std.specs.Prelude.{◌≡◌};
    ghost use Rattle.ingest_desk.specs.Spilling.{fault_of_stop};

    ghost from_gives = { λ stop fault. fault ≡ fault_of_stop stop };

    fn from(stop: Stop<PortFault>) -> Self {
        match stop {
            Stop::Fault(fault) => SpillOpenFault::Port(fault),
            Stop::OutOfMemory => SpillOpenFault::Store(OpenFault::OutOfMemory),
        }
    }
}
