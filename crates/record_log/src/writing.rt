//! Writes that a crash may cut short.
ghost use Rattle.std.specs.Prelude.{◌≡◌, ◌≤◌, ◌<◌, ◌+◌, ◌^◌, max, length, vec_len, IfOk, OnOk, OnErr};
ghost use Rattle.outside.specs.Stream.{Rises};
ghost use Rattle.disk_model.specs.Disk.{LeavesOnly, StaysTold};
ghost use Rattle.record_log.specs.Log.{EachImage, IsTornOf, IsWrittenOf, behind_gate};

use disk_model::Disk;
use outside::Failed;
use std::alloc::{AllocError, Global};

/// Writes a piece, and waits until it is with the device.
pub(crate) fn write_synced<D: Disk>(disk: &mut D, at: u64, piece: &[u8]) -> Result<(), Failed>
    requires no_gap { at ≤ (D.disk disk.old).size }
    requires low { at + length piece.now ≤ 2 ^ 40 }

    ensures written { OnOk result (EachImage D.disk D.left_since disk.new
        (IsWrittenOf (D.disk disk.old) at piece.now)) }
    ensures any_moment { LeavesOnly D.disk D.left_since disk.old disk.new
        (IsTornOf D.disk D.left_since disk.old at (length piece.now)) }

    ensures told { StaysTold (D.disk disk.old) (D.disk disk.new) }
    ensures size { OnOk result
        ((D.disk disk.new).size ≡ max (D.disk disk.old).size (at + length piece.now)) }
    ensures no_smaller { (D.disk disk.old).size ≤ (D.disk disk.new).size }
    ensures counts { OnOk result ((D.disk disk.new).faults ≡ (D.disk disk.old).faults) }
    ensures fails { OnErr result (Rises (D.disk disk.old).faults (D.disk disk.new).faults) }
{
    disk.write_at(at, piece)?;
    disk.sync()?;
    Ok(())
}

/// What stands behind the gate of a payload.
pub(crate) fn bytes_behind(alloc: Global, payload: &[u8]) -> Result<Vec<u8>, AllocError>
    requires { length payload.now < 2 ^ 32 }
    ensures bytes { IfOk result (λ bytes. bytes.items ≡ behind_gate payload.now) }
    ensures size { IfOk result (λ bytes. vec_len bytes ≡ 5 + length payload.now) }
{
    let mut bytes = Vec::with_capacity(alloc, payload.len() + 5)?;
    bytes.extend_from_slice(&(payload.len() as u32).to_le_bytes())?;
    bytes.extend_from_slice(payload)?;
    bytes.push(0)?;
    Ok(bytes)
}
