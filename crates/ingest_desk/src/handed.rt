//! A batch that is handed to a commit, and back.
ghost use Rattle.std.specs.Prelude.{◌≡◌, IfOk};
ghost use Rattle.tally_rows.specs.Tally.{IsCounted};

use crate::ready::Ready;
use explorer_model::archive::{Batch, Classes};
use std::alloc::{AllocError, Global};
use std::marker::Model;
use tally_rows::Tally;

/// A batch that is counted, packed or not. Contracts see its tally.
#[derive(Drop)]
pub struct Handed {
    batch: HandedBatch,
}

#[derive(Drop)]
enum HandedBatch {
    Unpacked(Tally),
    Packed(Ready),
}

impl Model for Handed {
    ghost use Rattle.tally_rows.specs.Tally.{Counted};

    ghost Value = { Counted };

    ghost use Rattle.ingest_desk.specs.Readies.{tally_handed};

    ghost view = { λ h. tally_handed h.batch };
}

impl Handed {
    /// A tally, which is packed at its commit.
    pub fn of_tally(tally: Tally) -> Handed
        ensures { result ≡ tally }
    {
        Handed {
            batch: HandedBatch::Unpacked(tally),
        }
    }

    /// A batch that is packed.
    pub fn of_ready(ready: Ready) -> Handed
        ensures { result ≡ ready }
    {
        Handed {
            batch: HandedBatch::Packed(ready),
        }
    }

    /// The batch, packed or not.
    pub fn batch(&self) -> &Batch
        ensures batch { result.now ≡ self.now.batch }
        ensures counted { IsCounted self.now }
    {
        match &self.batch {
            HandedBatch::Unpacked(tally) => tally.batch(),
            HandedBatch::Packed(ready) => ready.batch(),
        }
    }

    /// What the tags say of the games, in the order of the texts.
    pub fn classes(&self) -> &[Classes]
        ensures { result.now ≡ self.now.classes }
    {
        match &self.batch {
            HandedBatch::Unpacked(tally) => tally.classes(),
            HandedBatch::Packed(ready) => ready.classes(),
        }
    }

    /// The batch alone, of a packed one by copies of its texts.
    pub fn into_batch(self, alloc: Global) -> Result<Batch, AllocError>
        ensures batch { IfOk result (λ batch. batch ≡ self.batch) }
        ensures counted { IsCounted self }
    {
        let _batch = self.batch();
        match self.batch {
            HandedBatch::Unpacked(tally) => Ok(tally.into_batch()),
            HandedBatch::Packed(ready) => ready.into_batch(alloc),
        }
    }

    /// The batch, packed.
    pub fn into_ready(self, alloc: Global) -> Result<Ready, AllocError>
        ensures { IfOk result (λ ready. ready ≡ self) }
    {
        match self.batch {
            HandedBatch::Unpacked(tally) => Ready::of(alloc, tally),
            HandedBatch::Packed(ready) => Ok(ready),
        }
    }
}
