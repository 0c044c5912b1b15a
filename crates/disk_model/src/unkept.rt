//! A disk without content.
ghost use Rattle.std.specs.Prelude.{◌≡◌, None, refl};
ghost use Rattle.disk_model.specs.Disk.{DiskState};

use crate::disk::Disk;
use outside::Failed;
use std::marker::Model;

/// A disk that keeps its size alone. It tells no content and never fails.
#[derive(Drop)]
pub struct Unkept {
    size: u64,
}

impl Model for Unkept {
    ghost use Rattle.std.specs.Prelude.{ℕ};

    ghost Value = { ℕ };

    ghost view = { λ disk. disk.size };
}

impl Unkept {
    /// An empty disk.
    pub fn new() -> Self
        ensures { result ≡ 0 }
    {
        Unkept { size: 0 }
    }
}

impl Disk for Unkept {
    ghost use Rattle.std.proofs.Common.{rules};

    ghost disk = { λ size. record { content = None; size = size; moment = 0; faults = 0 } };

    ghost left_since = { λ _ _ _. ⊥ };

    fn size(&mut self) -> Result<u64, Failed> {
        Ok(self.size)
    }

    fn read_at(&mut self, _at: u64, _into: &mut [u8]) -> Result<(), Failed> {
        Ok(())
    }

    fn write_at(&mut self, at: u64, piece: &[u8]) -> Result<(), Failed> {
        self.size = self.size.max(at + piece.len() as u64);
        Ok(())
    }

    fn sync(&mut self) -> Result<(), Failed> {
        Ok(())
    }

    fn faults(&self) -> u64 {
        0
    }

    ghost told_size = { λ it file told. Prim.search rules };

    ghost told_left = { λ it file told. Prim.search rules };

    ghost counts_now = { λ it t image earlier left. left };
}
