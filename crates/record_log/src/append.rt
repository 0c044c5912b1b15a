//! A payload added to a log.
ghost use Rattle.std.specs.Prelude.{◌≡◌, ◌≤◌, ◌+◌, ◌∷◌, [], ◌++◌, ◌↔◌, List, ℕ, length, Some, Err, MatchResult, OnOk};
ghost use Rattle.std.specs.Int.{IsInRange};
ghost use Rattle.disk_model.specs.Disk.{LeavesOnly};
ghost use Rattle.explorer_model.specs.StoreFile.{gate_limit};
ghost use Rattle.record_log.specs.Log.{IsLogOf, IsWithOrWithout, Adds, IsNotAdded};

use crate::fault::AppendFault;
use crate::log::RecordLog;
use crate::writing::{bytes_behind, write_synced};
use disk_model::Disk;
use std::alloc::Global;

impl<D: Disk> RecordLog<D> {
    /// Adds a payload: behind an `Ok` every crash leaves it. Four calls of the disk are made. After
    /// a disk fault the log is closed, and its disk is to be opened again.
    pub fn append(&mut self, alloc: Global, payload: &[u8]) -> Result<(), AppendFault>
        requires length { IsInRange 1 self.old.format.most (length payload.now) }
        requires low { self.old.gate + 5 + length payload.now ≤ gate_limit }

        ensures added { OnOk result ((payloads : List (List ℕ))
            → IsLogOf D.disk D.left_since payloads self.old
            → IsLogOf D.disk D.left_since (payloads ++ payload.now ∷ []) self.new) }
        ensures any_moment { (payloads : List (List ℕ))
            → IsLogOf D.disk D.left_since payloads self.old
            → LeavesOnly D.disk D.left_since self.old.disk self.new.disk
            (IsWithOrWithout self.old.format payloads payload.now) }

        ensures cases { MatchResult result (λ _. Adds D.disk (length payload.now) self.old self.new)
            (λ fault. IsNotAdded D.disk fault self.old self.new) }
        ensures closed { (before after : ℕ) → (result ≡ Err (AppendFault.Closed before after))
            ↔ (self.old.fault ≡ Some (before, after)) }
    {
        if let Some((before, after)) = self.fault {
            return Err(AppendFault::Closed { before, after });
        }
        let Ok(behind) = bytes_behind(alloc, payload) else {
            return Err(AppendFault::OutOfMemory);
        };
        let before = self.disk.faults();
        // The gate is a write of its own, so that no crash leaves it open before a payload that is
        // not whole.
        if write_synced(&mut self.disk, self.gate + 1, &behind).is_ok()
            && write_synced(&mut self.disk, self.gate, &[1]).is_ok()
        {
            self.gate += behind.len() as u64;
            return Ok(());
        }
        let after = self.disk.faults();
        self.fault = Some((before, after));
        Err(AppendFault::DiskFault { before, after })
    }
}
