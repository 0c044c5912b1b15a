//! Making a log without a payload.
ghost use Rattle.std.specs.Prelude.{◌≡◌, ◌≢◌, ◌≤◌, ◌∷◌, [], ◌++◌, MatchOption, IfOk, IfErr, OnErr};
ghost use Rattle.outside.specs.Stream.{Rises};
ghost use Rattle.disk_model.specs.Disk.{IsQuiet, LeavesOnly, StaysTold};
ghost use Rattle.explorer_model.specs.StoreFile.{header};
ghost use Rattle.record_log.specs.Log.{empty_file, IsCreated, IsNotCreated, IsTornOf, IsWrittenEmpty, IsFilled};

use crate::fault::{Back, CreateFault};
use crate::format::Format;
use crate::log::RecordLog;
use crate::writing::write_synced;
use disk_model::Disk;
use outside::Failed;

/// Makes a log without a payload on an empty disk: thirteen bytes, synced. It takes no memory. A
/// crash meanwhile leaves what one could have left before, with at most those bytes torn.
pub fn create<D: Disk>(disk: D, format: Format) -> Result<RecordLog<D>, Back<D, CreateFault>>
    ensures created { IfOk result (IsCreated D.disk D.left_since format disk) }
    ensures no_fault { IfOk result (λ log. (D.disk log.disk).faults ≡ (D.disk disk).faults) }
    ensures refused { IfErr result (λ back. IsNotCreated D.disk back.fault disk back.disk) }

    ensures any_moment { IfOk result (λ log. LeavesOnly D.disk D.left_since disk log.disk
        (IsTornOf D.disk D.left_since disk 0 13)) }
    ensures any_moment_refused { IfErr result (λ back. LeavesOnly D.disk D.left_since disk back.disk
        (IsTornOf D.disk D.left_since disk 0 13)) }
    ensures quiet_refused { IfErr result (λ back. (D.disk disk).size ≢ 0
        → IsQuiet D.disk D.left_since disk back.disk) }
{
    let Format { number, most: _ } = format;
    let mut disk = disk;
    let before = disk.faults();
    match write_empty(&mut disk, number) {
        Ok(None) => Ok(RecordLog {
            disk,
            format,
            gate: 12,
            fault: None,
        }),
        Ok(Some(size)) => {
            let fault = CreateFault::NotEmpty { size };
            Err(Back { disk, fault })
        }
        Err(_) => {
            let after = disk.faults();
            let fault = CreateFault::DiskFault { before, after };
            Err(Back { disk, fault })
        }
    }
}

/// Writes the file of a log without a payload to an empty disk. Of another disk it gives the size.
fn write_empty<D: Disk>(disk: &mut D, number: u32) -> Result<Option<u64>, Failed>
    ensures done { IfOk result (λ found. MatchOption found
        (IsWrittenEmpty D.disk D.left_since number disk.old disk.new)
        (λ size. IsFilled size (D.disk disk.old) (D.disk disk.new))) }
    ensures fails { OnErr result (Rises (D.disk disk.old).faults (D.disk disk.new).faults) }
    ensures told { StaysTold (D.disk disk.old) (D.disk disk.new) }

    ensures any_moment { LeavesOnly D.disk D.left_since disk.old disk.new
        (IsTornOf D.disk D.left_since disk.old 0 13) }
    ensures quiet { (D.disk disk.old).size ≢ 0 → IsQuiet D.disk D.left_since disk.old disk.new }
{
    let size = disk.size()?;
    if size != 0 {
        return Ok(Some(size));
    }
    write_synced(disk, 0, &empty_bytes(number))?;
    Ok(None)
}

/// The file of a log without a payload: `OPENEXP1`, the format's number and a closed gate.
fn empty_bytes(number: u32) -> [u8; 13]
    ensures { result ≡ empty_file number }
{
    let [a, b, c, d] = number.to_le_bytes();
    [
        b'O', b'P', b'E', b'N', b'E', b'X', b'P', b'1', a, b, c, d, 0,
    ]
}
