//! The journal of batches on a disk.
ghost use Rattle.std.specs.Prelude.{◌≡◌};

use disk_model::Disk;
use record_log::RecordLog;
use std::marker::Model;

/// The journal of batches on a disk, in a log. Each batch that is acknowledged outlives a crash.
/// Contracts see it as that log.
#[derive(Drop)]
pub struct Manifest<D: Disk> {
    pub(crate) log: RecordLog<D>,
}

impl<D: Disk> Model for Manifest<D> {
    ghost use Rattle.std.specs.Prelude.{◌≡◌};
    ghost use Rattle.record_log.specs.Log.{Log};

    ghost Value = { Log D };

    ghost use Rattle.manifest.specs.Manifest.{batch_format};

    ghost view = { λ m. m.log };

    ghost invariant = { λ m. m.log.format ≡ batch_format };
}

impl<D: Disk> Manifest<D> {
    /// The place of the closed gate, behind which the next batch goes. It is 12 in a new store.
    pub fn gate(&self) -> u64
        ensures { result ≡ self.now.gate }
    {
        self.log.gate()
    }

    /// The disk's counts of faults before and after the call that closed the manifest, if one did.
    pub fn fault(&self) -> Option<(u64, u64)>
        ensures { result ≡ self.now.fault }
    {
        self.log.fault()
    }

    /// The disk, taken out.
    pub fn into_disk(self) -> D
        ensures { result ≡ self.disk }
    {
        self.log.into_disk()
    }
}
