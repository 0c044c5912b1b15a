//! A batch added to the journal.
ghost use Rattle.std.specs.Prelude.{◌≡◌, ◌≤◌, ◌+◌, ◌∷◌, [], ◌++◌, ◌↔◌, List, ℕ, length, All, Some, Err, MatchResult, OnOk};
ghost use Rattle.disk_model.specs.Disk.{LeavesOnly};
ghost use Rattle.explorer_model.specs.declared.archive.Batch.{Batch as StoredBatch};
ghost use Rattle.explorer_model.specs.StoreFile.{payload_of, gate_limit, IsStorable};
ghost use Rattle.record_log.specs.Log.{Adds, IsNotAdded};
ghost use Rattle.manifest.specs.Manifest.{size_of_records, HasFrontOf, IsManifestOf, IsWithOrWithoutBatch, StopsAt, StoresAll};

use crate::encoding::encode;
use crate::manifest::Manifest;
use disk_model::Disk;
use explorer_model::archive::Batch;
use record_log::AppendFault;
use std::alloc::Global;

impl<D: Disk> Manifest<D> {
    /// Stores a batch: behind an `Ok` every crash leaves it. Four calls of the disk are made. After
    /// a disk fault the manifest is closed, and its disk is to be opened again.
    pub fn store(&mut self, alloc: Global, batch: &Batch) -> Result<(), AppendFault>
        requires storable { IsStorable batch.now }
        requires low { self.old.gate + 5 + length (payload_of batch.now) ≤ gate_limit }

        ensures stored { OnOk result ((journal : List StoredBatch)
            → IsManifestOf D.disk D.left_since journal self.old
            → IsManifestOf D.disk D.left_since (journal ++ batch.now ∷ []) self.new) }
        ensures any_moment { (journal : List StoredBatch)
            → IsManifestOf D.disk D.left_since journal self.old
            → LeavesOnly D.disk D.left_since self.old.disk self.new.disk
            (IsWithOrWithoutBatch journal batch.now) }

        ensures cases { MatchResult result
            (λ _. Adds D.disk (length (payload_of batch.now)) self.old self.new)
            (λ fault. IsNotAdded D.disk fault self.old self.new) }
        ensures closed { (before after : ℕ) → (result ≡ Err (AppendFault.Closed before after))
            ↔ (self.old.fault ≡ Some (before, after)) }
    {
        if let Some((before, after)) = self.log.fault() {
            return Err(AppendFault::Closed { before, after });
        }
        let Ok(payload) = encode(alloc, batch) else {
            return Err(AppendFault::OutOfMemory);
        };
        self.log.append(alloc, &payload)
    }

    /// Stores batches one after another, up to the first that is not stored. A crash meanwhile
    /// leaves some of them from the first on.
    pub fn store_all(&mut self, alloc: Global, batches: &[Batch]) -> Result<(), AppendFault>
        requires storable { All IsStorable batches.now }
        requires low { self.old.gate + size_of_records batches.now ≤ gate_limit }

        ensures cases { MatchResult result
            (λ _. StoresAll D.disk D.left_since batches.now self.old self.new)
            (λ fault. StopsAt D.disk D.left_since batches.now fault self.old self.new) }
        ensures any_moment { (journal : List StoredBatch)
            → IsManifestOf D.disk D.left_since journal self.old
            → LeavesOnly D.disk D.left_since self.old.disk self.new.disk
            (HasFrontOf journal batches.now) }
    {
        for batch in batches {
            self.store(alloc, batch)?;
        }
        Ok(())
    }
}
