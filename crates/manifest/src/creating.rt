//! Making a journal without a batch.
ghost use Rattle.std.specs.Prelude.{◌≡◌, ◌≢◌, [], IfOk, IfErr};
ghost use Rattle.disk_model.specs.Disk.{IsQuiet, LeavesOnly};
ghost use Rattle.record_log.specs.Log.{IsCreated, IsNotCreated, IsTornOf};
ghost use Rattle.manifest.specs.Manifest.{batch_format, IsManifestOf};

use crate::format::BATCH_FORMAT;
use crate::manifest::Manifest;
use disk_model::Disk;
use record_log::{Back, CreateFault};

/// Makes a store without a batch on an empty disk: thirteen bytes, synced. It takes no memory. A
/// crash meanwhile leaves what one could have left before, with at most those bytes torn.
pub fn create<D: Disk>(disk: D) -> Result<Manifest<D>, Back<D, CreateFault>>
    ensures created { IfOk result (IsCreated D.disk D.left_since batch_format disk) }
    ensures holds_none { IfOk result (IsManifestOf D.disk D.left_since []) }
    ensures no_fault { IfOk result
        (λ manifest. (D.disk manifest.disk).faults ≡ (D.disk disk).faults) }
    ensures refused { IfErr result (λ back. IsNotCreated D.disk back.fault disk back.disk) }

    ensures any_moment { IfOk result (λ manifest. LeavesOnly D.disk D.left_since disk manifest.disk
        (IsTornOf D.disk D.left_since disk 0 13)) }
    ensures any_moment_refused { IfErr result (λ back. LeavesOnly D.disk D.left_since disk back.disk
        (IsTornOf D.disk D.left_since disk 0 13)) }
    ensures quiet_refused { IfErr result (λ back. (D.disk disk).size ≢ 0
        → IsQuiet D.disk D.left_since disk back.disk) }
{
    let log = record_log::create(disk, BATCH_FORMAT)?;
    Ok(Manifest { log })
}
