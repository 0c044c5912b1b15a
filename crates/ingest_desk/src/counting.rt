//! The batches of a journal, each counted by itself, side by side.
ghost use Rattle.std.specs.Prelude.{◌≡◌, ◌<◌, ◌+◌, ◌^◌, IfOk, MatchOption, Ok, length, map};
ghost use Rattle.std.specs.List.{All};
ghost use Rattle.explorer_model.specs.declared.archive.Batch.{Batch as StoredBatch};
ghost use Rattle.explorer_model.specs.StoreFile.{IsStorable, payload_of};
ghost use Rattle.ingest_desk.specs.Recounts.{AllFrom, IsAloneAt, IsAt, IsBatchTallied, IsCountedAt, IsNeverSound};

use batch_tally::{Tallying, tally};
use explorer_model::archive::{Batch, Placed, Texts};
use explorer_model::label::Label;
use game_replay::laws::game_is_determined;
use outside::FreeGate;
use published_index::SharedSegment;
use segment_blocks::Segment;
use side_by_side::{Workers, all_made, map_each};
use std::alloc::{AllocError, Global};
use std::sync::{Arc, Wait};
use std::thread::Threads;

/// A batch that was counted by itself, whatever stands in others.
#[derive(Drop)]
pub(crate) struct CountedBatch {
    /// How many bytes its payload has.
    pub(crate) size: u64,
    /// Its segment; none where a text of it is refused.
    pub(crate) segment: Option<SharedSegment>,
}

/// A batch of a journal.
#[derive(Drop)]
pub(crate) struct BatchAt {
    /// How many batches stand before it, or `PLACE_LIMIT` where there are more.
    pub(crate) place: u32,
    pub(crate) batch: Batch,
}

/// The last place that a segment can have.
const PLACE_LIMIT: usize = 4_294_967_294;

/// Counts each batch of a journal by itself. One worker counts a batch from its texts to its packed
/// rows, and then takes the next one: workers wait for each other at the end alone, and of a batch
/// no more is held at a time than its worker has in hand and its segment.
pub(crate) fn count_each<R: Threads + Wait + Sync>(
    rt: &R,
    alloc: Global,
    journal: Vec<Batch>,
    workers: Workers,
) -> Result<Vec<CountedBatch>, AllocError>
    requires storable { All IsStorable journal.items }
    ensures { IfOk result (λ counted. AllFrom IsCountedAt 0 journal.items counted.items) }
{
    let batches = placed_batches(alloc, journal)?;
    let enter = |_leaf: usize| {};
    let count = |at: BatchAt| -> Result<CountedBatch, AllocError>
        requires { IsStorable at.batch × (at.place + 1 < 2 ^ 32) }
        ensures { IfOk result (IsCountedAt at.place at.batch) }
    { count_alone(rt, alloc, at) };
    let results = map_each(rt, alloc, workers.count, batches, &enter, &count)?;
    all_made(alloc, results)
}

/// Each batch with its place.
fn placed_batches(alloc: Global, journal: Vec<Batch>) -> Result<Vec<BatchAt>, AllocError>
    ensures { IfOk result (λ batches. AllFrom IsAt 0 journal.items batches.items) }
{
    let mut batches = Vec::with_capacity(alloc, journal.len())?;
    for batch in journal {
        let place = batches.len().min(PLACE_LIMIT) as u32;
        batches.push(BatchAt { place, batch })?;
    }
    Ok(batches)
}

/// Counts a batch.
fn count_alone<R: Threads + Sync>(
    rt: &R,
    alloc: Global,
    at: BatchAt,
) -> Result<CountedBatch, AllocError>
    requires storable { IsStorable at.batch }
    requires place { at.place + 1 < 2 ^ 32 }
    ensures { IfOk result (IsCountedAt at.place at.batch) }
{
    let size = payload_size(&at.batch);
    let segment = match segment_at(rt, alloc, at, Workers { count: 1 })? {
        Some(segment) => Some(Arc::new(alloc, segment)?),
        None => None,
    };
    Ok(CountedBatch { size, segment })
}

/// The segment of a batch, counted with so many workers. There is none where no journal is sound
/// with the batch.
pub(crate) fn segment_at<R: Threads + Sync>(
    rt: &R,
    alloc: Global,
    at: BatchAt,
    workers: Workers,
) -> Result<Option<Segment>, AllocError>
    requires storable { IsStorable at.batch }
    requires place { at.place + 1 < 2 ^ 32 }
    ensures { IfOk result (λ found. MatchOption found (IsNeverSound at.batch)
        (IsAloneAt at.place at.batch)) }
{
    let BatchAt {
        place,
        batch: Batch { label, texts },
    } = at;
    let texts = placed_texts(alloc, texts)?;
    let tallying = tally(rt, alloc, texts, workers.count, &FreeGate)?;
    segment_of(alloc, place, label, tallying)
}

/// The segment of a batch that was tallied, under its label. There is none where no journal is sound
/// with the batch.
fn segment_of(
    alloc: Global,
    place: u32,
    label: Label,
    tallying: Tallying,
) -> Result<Option<Segment>, AllocError>
    requires { place + 1 < 2 ^ 32 }
    ensures { IfOk result (λ found. (batch : StoredBatch) → IsStorable batch → label ≡ batch.label
        → IsBatchTallied batch tallying → MatchOption found (IsNeverSound batch)
        (IsAloneAt place batch)) }
{
    game_is_determined();
    let Tallying {
        tally: counted,
        places: _places,
        refused,
    } = tallying;
    if !refused.is_empty() {
        return Ok(None);
    }
    let Some(counted) = counted else {
        return Ok(None);
    };
    let counted = counted.labelled(label);
    let _batch = counted.batch();
    Ok(Some(Segment::of(alloc, place, counted)?))
}

/// The texts of a batch. Their places do not count.
fn placed_texts(alloc: Global, texts: Texts) -> Result<Vec<Placed>, AllocError>
    ensures { IfOk result (λ placed. map (λ text. text.bytes) placed.items ≡ texts) }
{
    let mut placed = Vec::with_capacity(alloc, texts.len())?;
    for bytes in texts.into_vec() {
        placed.push(Placed { place: 0, bytes })?;
    }
    Ok(placed)
}

/// How many bytes the payload of a batch has.
pub(crate) fn payload_size(batch: &Batch) -> u64
    requires { IsStorable batch.now }
    ensures { result ≡ length (payload_of batch.now) }
{
    let label = batch.label.as_str().as_bytes();
    let mut size = 3 + label.len() as u64;
    for text in batch.texts.as_slice() {
        size += 4 + text.len() as u64;
    }
    size
}
