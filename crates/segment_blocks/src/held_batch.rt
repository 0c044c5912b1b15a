//! Batches that segments share.
ghost use Rattle.std.specs.Prelude.{◌≡◌, ◌+◌, ◌<◌, ◌^◌, ◌++◌, IfOk, OnOk, length};
ghost use Rattle.segment_blocks.specs.HeldBatches.{batch_of, classes_of, all_batches, all_classes, StandFrom, IsGame};

use explorer_model::archive::{Batch, Classes};
use explorer_model::list::Items;
use std::alloc::{AllocError, Global};
use std::sync::Arc;

/// A batch, and what the tags of its texts say.
#[derive(Drop)]
pub struct TaggedBatch {
    pub batch: Batch,
    pub classes: Items<Classes>,
}

/// A share of a batch, and the number that its first game has in the segment that holds it.
#[derive(Drop)]
pub struct HeldBatch {
    pub start: u32,
    pub tagged: Arc<TaggedBatch>,
}

impl HeldBatch {
    /// The first share of a batch, whose games come first.
    pub fn of(alloc: Global, batch: Batch, classes: Items<Classes>) -> Result<HeldBatch, AllocError>
        ensures start { IfOk result (λ held. held.start ≡ 0) }
        ensures batch { IfOk result (λ held. batch_of held ≡ batch) }
        ensures classes { IfOk result (λ held. classes_of held ≡ classes) }
    {
        let tagged = Arc::new(alloc, TaggedBatch { batch, classes })?;
        Ok(HeldBatch { start: 0, tagged })
    }

    /// One more share, of games whose numbers are greater by `by`.
    pub fn share(&self, by: u32) -> Result<HeldBatch, AllocError>
        requires { self.now.start + by < 2 ^ 32 }
        ensures start { IfOk result (λ held. held.start ≡ self.now.start + by) }
        ensures batch { IfOk result (λ held. batch_of held ≡ batch_of self.now) }
        ensures classes { IfOk result (λ held. classes_of held ≡ classes_of self.now) }
    {
        Ok(HeldBatch {
            start: self.start + by,
            tagged: Arc::try_clone(&self.tagged)?,
        })
    }

    /// The batch.
    pub fn batch(&self) -> &Batch
        ensures { result.now ≡ batch_of self.now }
    {
        &self.tagged.batch
    }

    /// What the tags of the batch's games say, in order.
    pub fn classes(&self) -> &[Classes]
        ensures { result.now ≡ classes_of self.now }
    {
        self.tagged.classes.as_slice()
    }
}

/// The batch of game `n`, and the game's place in it.
pub fn game_at(held: &[HeldBatch], n: u32) -> (&HeldBatch, usize)
    requires stand { StandFrom 0 held.now }
    requires inside { n < length (all_classes held.now) }
    ensures { IsGame held.now n result.0.now result.1 }
{
    let mut low = 0;
    let mut high = held.len();
    while high - low > 1 {
        let middle = low + (high - low) / 2;
        if held[middle].start <= n {
            low = middle;
        } else {
            high = middle;
        }
    }
    let batch = &held[low];
    (batch, (n - batch.start) as usize)
}

/// Puts one more share of each batch behind the others, which have `by` games.
pub fn share_all(
    batches: &mut Vec<HeldBatch>,
    more: &[HeldBatch],
    by: u32,
) -> Result<(), AllocError>
    requires stand { StandFrom 0 batches.old.items }
    requires more_stand { StandFrom 0 more.now }
    requires behind { by ≡ length (all_classes batches.old.items) }
    requires fit { by + length (all_classes more.now) < 2 ^ 32 }
    ensures batches { OnOk result (all_batches batches.new.items
        ≡ all_batches batches.old.items ++ all_batches more.now) }
    ensures classes { OnOk result (all_classes batches.new.items
        ≡ all_classes batches.old.items ++ all_classes more.now) }
    ensures stand { OnOk result (StandFrom 0 batches.new.items) }
{
    for held in more {
        batches.push(held.share(by)?)?;
    }
    Ok(())
}
