//! Opening a store whose rows go to a scratch file.
ghost use Rattle.std.specs.Prelude.{◌≡◌, ◌≤◌, ◌∷◌, ◌++◌, [], ℕ, List, IfOk, IfErr, MatchOption, MatchResult, length};
ghost use Rattle.std.specs.List.{All};
ghost use Rattle.explorer_model.specs.declared.archive.Batch.{Batch as StoredBatch};
ghost use Rattle.explorer_model.specs.Journal.{IsSound};
ghost use Rattle.explorer_model.specs.StoreFile.{IsStorable, gate_limit, store_of};
ghost use Rattle.spill_blobs.specs.Sets.{set_bytes, HasJust};
ghost use Rattle.ingest_desk.specs.Recounts.{HasOneMore};
ghost use Rattle.ingest_desk.specs.Registers.{IsRegisterOf};
ghost use Rattle.ingest_desk.specs.Spilling.{IsHandedBackUnspilled, IsOpenedThrough, IsSpillOf, StopsSpilling};

use crate::counting::{BatchAt, payload_size, segment_at};
use crate::recount::takes_in;
use crate::register::Register;
use crate::spill_fault::SpillOpenFault;
use disk_model::Disk;
use explorer_model::archive::Batch;
use explorer_model::store::LogFault;
use outside::Port;
use record_log::{Back, OpenFault};
use segment_blocks::Segment;
use side_by_side::Workers;
use spill_blobs::SpillSet;
use std::alloc::{AllocError, Global};
use std::sync::Wait;
use std::thread::Threads;

/// Opens the store on a disk, and counts its journal anew, batch by batch, each with so many
/// workers: the rows of each go to the scratch file, one part a batch, before the next one is
/// counted. It begins with a sync and writes nothing to the disk, as every opening. A batch with
/// which the journal is not sound is told before its append; batches before it are in the file by
/// then.
pub fn open_spilled<R: Wait + Threads + Sync, D: Disk, P: Port>(
    rt: &R,
    alloc: Global,
    disk: D,
    workers: usize,
    port: &mut P,
) -> Result<(D, SpillSet), Back<D, SpillOpenFault>>
    requires some_workers { 1 ≤ workers }
    requires few_workers { workers ≤ 16 }
    requires empty { HasJust (P.port port.old) [] }

    ensures { MatchResult result
        (λ opened. IsOpenedThrough D.disk D.left_since disk (P.port port.old) (P.port port.new)
        opened.0 opened.1)
        (IsHandedBackUnspilled D.disk D.left_since disk (P.port port.old) (P.port port.new)) }
{
    let workers = Workers { count: workers };
    let opened = match manifest::open(alloc, disk) {
        Ok(opened) => opened,
        Err(Back { disk, fault }) => {
            let fault = SpillOpenFault::Store(fault);
            return Err(Back { disk, fault });
        }
    };
    let manifest::Opened { manifest, journal } = opened;
    let spilled = spill_journal(rt, alloc, journal, workers, port);
    let disk = manifest.into_disk();
    match spilled {
        Ok(set) => Ok((disk, set)),
        Err(fault) => Err(Back { disk, fault }),
    }
}

/// Counts a journal anew, batch by batch, and puts the rows of each into the scratch file.
fn spill_journal<R: Threads + Sync, P: Port>(
    rt: &R,
    alloc: Global,
    journal: Vec<Batch>,
    workers: Workers,
    port: &mut P,
) -> Result<SpillSet, SpillOpenFault>
    requires storable { All IsStorable journal.items }
    requires low { length (store_of journal.items) ≤ gate_limit }
    requires empty { HasJust (P.port port.old) [] }
    ensures set { IfOk result (IsSpillOf journal.items) }
    ensures written { IfOk result (λ set. HasJust (P.port port.new) (set_bytes set)) }
    ensures port_faults { IfOk result
        (λ _. (P.port port.new).faults ≡ (P.port port.old).faults) }
    ensures refused { IfErr result
        (λ fault. StopsSpilling journal.items fault (P.port port.old) (P.port port.new)) }
{
    let mut register = Register::new(alloc);
    let mut set = SpillSet::new(alloc);
    let mut gate = 12;
    for batch in journal {
        let size = payload_size(&batch);
        let Some(segment) = next_segment(rt, alloc, &mut register, batch, workers)? else {
            let fault = OpenFault::Log(LogFault::Damaged { at: gate });
            return Err(SpillOpenFault::Store(fault));
        };
        set.add(alloc, segment, port)?;
        gate += 5 + size;
    }
    Ok(set)
}

/// The segment of one batch more, which is put into the register. There is none where the journal
/// is not sound with the batch.
fn next_segment<R: Threads + Sync>(
    rt: &R,
    alloc: Global,
    register: &mut Register,
    batch: Batch,
    workers: Workers,
) -> Result<Option<Segment>, AllocError>
    requires storable { IsStorable batch }
    requires knows { (journal : List StoredBatch) × IsRegisterOf journal register.old }
    ensures { IfOk result (λ found. (journal : List StoredBatch)
        → IsRegisterOf journal register.old
        → MatchOption found (¬ IsSound (journal ++ batch ∷ []))
        (λ segment. HasOneMore journal batch register.new segment)) }
{
    let place = register.batches();
    let Some(segment) = segment_at(rt, alloc, BatchAt { place, batch }, workers)? else {
        return Ok(None);
    };
    if takes_in(register, &segment)? {
        Ok(Some(segment))
    } else {
        Ok(None)
    }
}
