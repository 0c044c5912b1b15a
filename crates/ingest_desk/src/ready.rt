//! A batch that is packed before its place in the journal is known.
ghost use Rattle.std.specs.Prelude.{◌≡◌, ◌<◌, ◌+◌, ◌^◌, IfOk};
ghost use Rattle.std.specs.Arc.{arc_value};
ghost use Rattle.segment_blocks.specs.Segment.{IsSegment};
ghost use Rattle.tally_rows.specs.Tally.{IsCounted};
ghost use Rattle.ingest_desk.specs.Registers.{IsSegmentOf};

use crate::batches::batch_of;
use explorer_model::archive::{Batch, Bytes, Classes, Texts};
use explorer_model::label::Label;
use published_index::SharedSegment;
use segment_blocks::Segment;
use std::alloc::{AllocError, Global};
use std::marker::Model;
use std::snapshot::Snapshot;
use std::sync::Arc;
use tally_rows::Tally;

/// A batch that is counted and packed, and can be stored at any place. Contracts see its tally.
#[derive(Drop)]
pub struct Ready {
    segment: Segment,
    /// For contracts alone.
    tally: Snapshot<Tally>,
}

impl Model for Ready {
    ghost use Rattle.tally_rows.specs.Tally.{Counted};

    ghost Value = { Counted };

    ghost use Rattle.ingest_desk.specs.Readies.{IsReady};

    ghost view = { λ r. r.tally.value };

    ghost invariant = { λ r. IsReady r.tally.value r.segment };
}

impl Ready {
    /// Packs a tally.
    pub fn of(alloc: Global, tally: Tally) -> Result<Ready, AllocError>
        ensures { IfOk result (λ ready. ready ≡ tally) }
    {
        let _batch = tally.batch();
        let told = Snapshot::of(&tally);
        let segment = Segment::of(alloc, 0, tally)?;
        let _span = segment.span();
        Ok(Ready {
            segment,
            tally: told,
        })
    }

    /// The batch that is packed.
    pub fn batch(&self) -> &Batch
        ensures batch { result.now ≡ self.now.batch }
        ensures counted { IsCounted self.now }
    {
        batch_of(&self.segment, 0)
    }

    /// What the tags say of the games, in the order of the texts.
    pub fn classes(&self) -> &[Classes]
        ensures { result.now ≡ self.now.classes }
    {
        self.segment.classes_of_one()
    }

    /// The segment behind so many other batches, to be shared. No row is packed for it.
    pub(crate) fn share_at(self, alloc: Global, place: u32) -> Result<SharedSegment, AllocError>
        requires { place + 1 < 2 ^ 32 }
        ensures first { IfOk result (λ segment. (arc_value segment).span.first ≡ place) }
        ensures tally { IfOk result (λ segment. IsSegmentOf self (arc_value segment)) }
        ensures counts { IfOk result (λ segment. IsSegment (arc_value segment)) }
    {
        let Ready { segment, .. } = self;
        let segment = segment.moved_to(place);
        let _span = segment.span();
        Ok(Arc::new(alloc, segment)?)
    }

    /// The batch alone. Its texts are copied, since segments may share them.
    pub fn into_batch(self, alloc: Global) -> Result<Batch, AllocError>
        ensures { IfOk result (λ batch. batch ≡ self.batch) }
    {
        let batch = self.batch();
        let texts = copies_of(alloc, batch.texts.as_slice())?;
        Ok(Batch {
            label: batch.label.copy(),
            texts: Texts::from_vec(texts),
        })
    }
}

/// The same texts.
fn copies_of(alloc: Global, texts: &[Bytes]) -> Result<Vec<Bytes>, AllocError>
    ensures { IfOk result (λ copies. copies.items ≡ texts.now) }
{
    let mut copies = Vec::with_capacity(alloc, texts.len())?;
    for text in texts {
        let bytes = Vec::from_slice(alloc, text.as_slice())?;
        copies.push(Bytes::from_vec(bytes))?;
    }
    Ok(copies)
}
