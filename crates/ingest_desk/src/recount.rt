//! A journal counted anew, batch by batch.
ghost use Rattle.std.specs.Prelude.{◌≡◌, ◌≤◌, ◌++◌, ◌∷◌, [], ℕ, List, IfOk, IfSome, MatchBool, MatchOption, MatchResult, length};
ghost use Rattle.std.specs.List.{All};
ghost use Rattle.std.specs.Arc.{arc_value};
ghost use Rattle.explorer_model.specs.declared.archive.Batch.{Batch as StoredBatch};
ghost use Rattle.explorer_model.specs.Journal.{IsSound};
ghost use Rattle.explorer_model.specs.StoreFile.{IsStorable, gate_limit, store_of};
ghost use Rattle.ingest_desk.specs.Recounts.{HasOneMore, IsAloneAt, IsNeverSound, IsRecountOf, Stops};
ghost use Rattle.ingest_desk.specs.Registers.{IsRegisterOf};

use crate::counting::{CountedBatch, count_each};
use crate::merging::join_due;
use crate::register::Register;
use explorer_model::archive::Batch;
use explorer_model::fault::Stop;
use game_replay::laws::game_is_determined;
use published_index::SharedSegment;
use segment_blocks::Segment;
use side_by_side::Workers;
use std::alloc::{AllocError, Global};
use std::sync::Wait;
use std::thread::Threads;

/// What a journal comes to: its register, and the segments of its list.
#[derive(Drop)]
pub(crate) struct Recounted {
    pub(crate) register: Register,
    pub(crate) segments: Vec<SharedSegment>,
}

/// Counts a journal anew. It stops at the gate of the first batch with which the journal is not
/// sound: a text of it has no game, an id stands twice, or a limit is passed.
pub(crate) fn recount<R: Threads + Wait + Sync>(
    rt: &R,
    alloc: Global,
    journal: Vec<Batch>,
    workers: Workers,
) -> Result<Recounted, Stop<u64>>
    requires storable { All IsStorable journal.items }
    requires low { length (store_of journal.items) ≤ gate_limit }
    ensures { MatchResult result (IsRecountOf journal.items) (Stops journal.items) }
{
    let mut register = Register::new(alloc);
    let mut segments = Vec::new(alloc);
    let mut gate = 12;
    for CountedBatch { size, segment } in count_each(rt, alloc, journal, workers)? {
        let Some(segment) = put_in_if_sound(&mut register, segment)? else {
            return Err(Stop::Fault(gate));
        };
        segments.reserve(1)?;
        segments.push_reserved(segment);
        join_due(rt, alloc, &mut segments, workers)?;
        gate += 5 + size;
    }
    Ok(Recounted { register, segments })
}

/// The segment of one batch more, which is put in. There is none where the journal is not sound
/// with the batch.
fn put_in_if_sound(
    register: &mut Register,
    segment: Option<SharedSegment>,
) -> Result<Option<SharedSegment>, AllocError>
    requires knows { (journal : List StoredBatch) × IsRegisterOf journal register.old }
    requires counted { IfSome segment (λ segment. (place : ℕ) × (batch : StoredBatch)
        × IsAloneAt place batch (arc_value segment)) }
    ensures { IfOk result (λ found. (journal : List StoredBatch) (batch : StoredBatch)
        → IsRegisterOf journal register.old
        → MatchOption segment (IsNeverSound batch)
        (λ segment. IsAloneAt (length journal) batch (arc_value segment))
        → MatchOption found (¬ IsSound (journal ++ batch ∷ []))
        (λ segment. HasOneMore journal batch register.new (arc_value segment))) }
{
    let Some(segment) = segment else {
        return Ok(None);
    };
    if takes_in(register, &segment)? {
        Ok(Some(segment))
    } else {
        Ok(None)
    }
}

/// Puts the batch of a segment in, where the journal is sound with the batch. Says whether it is.
pub(crate) fn takes_in(register: &mut Register, segment: &Segment) -> Result<bool, AllocError>
    requires knows { (journal : List StoredBatch) × IsRegisterOf journal register.old }
    requires counted { (place : ℕ) × (batch : StoredBatch) × IsAloneAt place batch segment.now }
    ensures { IfOk result (λ fits. (journal : List StoredBatch) (batch : StoredBatch)
        → IsRegisterOf journal register.old → IsAloneAt (length journal) batch segment.now
        → MatchBool fits (HasOneMore journal batch register.new segment.now)
        (¬ IsSound (journal ++ batch ∷ []))) }
{
    game_is_determined();
    if !register.takes(segment) {
        return Ok(false);
    }
    register.reserve(segment.games() as usize)?;
    register.enter(segment);
    Ok(true)
}
