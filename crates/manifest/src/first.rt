//! Stores of the first format, whose batches have no label.
ghost use Rattle.std.specs.Prelude.{◌≡◌, ◌≤◌, length, All, IfOk, IfErr, IfSome};
ghost use Rattle.disk_model.specs.Disk.{IsQuiet};
ghost use Rattle.explorer_model.specs.Stop.{GivesBy};
ghost use Rattle.explorer_model.specs.StoreFile.{batches_in, first_batch_in, first_format, first_payload_limit, gate_limit, records_at, store_of, CanStand};
ghost use Rattle.manifest.specs.First.{HasFirstJournal, IsBare, IsNotOpenedFirst, IsWithinFirst};

use crate::decoding::all_texts_of;
use crate::first_limits::first_over;
use crate::format::FIRST_FORMAT;
use crate::opening::fault_of;
use disk_model::Disk;
use explorer_model::archive::{Batch, Bytes};
use explorer_model::fault::Stop;
use explorer_model::label::Label;
use explorer_model::store::LogFault;
use record_log::{Back, OpenFault};
use std::alloc::{AllocError, Global};

/// The journal of a store of the first format, and the disk that has it.
#[derive(Drop)]
pub struct OpenedFirst<D: Disk> {
    pub disk: D,
    pub journal: Vec<Batch>,
}

/// Reads the store of the first format on a disk. It begins with a sync and writes nothing, so that
/// a crash leaves what one could have left before.
pub fn open_first<D: Disk>(alloc: Global, disk: D) -> Result<OpenedFirst<D>, Back<D, OpenFault>>
    ensures read { IfOk result (λ opened. IfSome (D.disk disk).content
        (HasFirstJournal opened.journal.items)) }
    ensures bare { IfOk result (λ opened. All IsBare opened.journal.items) }
    ensures within { IfOk result (λ opened. IsWithinFirst opened.journal.items) }
    ensures room { IfOk result (λ opened.
        length (store_of opened.journal.items) ≤ gate_limit) }
    ensures refused { IfErr result (λ back. IsNotOpenedFirst D.disk back.fault disk back.disk) }
    ensures quiet { IfOk result (λ opened. IsQuiet D.disk D.left_since disk opened.disk) }
    ensures no_fault { IfOk result
        (λ opened. (D.disk opened.disk).faults ≡ (D.disk disk).faults) }
    ensures quiet_refused { IfErr result (λ back. IsQuiet D.disk D.left_since disk back.disk) }
{
    let record_log::Opened { log, payloads } = record_log::open(alloc, disk, FIRST_FORMAT)?;
    match first_batches_of(alloc, payloads) {
        Ok(journal) => {
            let disk = log.into_disk();
            if let Some(at) = first_over(journal.as_slice()) {
                let fault = OpenFault::Log(LogFault::Damaged { at });
                return Err(Back { disk, fault });
            }
            Ok(OpenedFirst { disk, journal })
        }
        Err(stop) => {
            let disk = log.into_disk();
            let fault = fault_of(stop);
            Err(Back { disk, fault })
        }
    }
}

/// Decodes the payloads of a log, and lets each go as soon as its batch is there.
fn first_batches_of(alloc: Global, payloads: Vec<Bytes>) -> Result<Vec<Batch>, Stop<LogFault>>
    requires { CanStand first_payload_limit first_format payloads.items }
    ensures read { GivesBy (λ batches. batches.items) result
        (batches_in first_batch_in (records_at 12 payloads.items)) }
    ensures bare { IfOk result (λ batches. All IsBare batches.items) }
{
    let mut batches = Vec::new(alloc);
    let mut gate = 12;
    for payload in payloads {
        let Some(batch) = decode_first(alloc, payload.as_slice())? else {
            return Err(Stop::Fault(LogFault::Damaged { at: gate }));
        };
        batches.reserve(1)?;
        batches.push_reserved(batch);
        gate += 5 + payload.len() as u64;
    }
    Ok(batches)
}

/// Decodes a payload of the first format.
fn decode_first(alloc: Global, payload: &[u8]) -> Result<Option<Batch>, AllocError>
    ensures found { IfOk result (λ found. found ≡ first_batch_in payload.now) }
    ensures bare { IfOk result (λ found. IfSome found IsBare) }
{
    let Some(texts) = all_texts_of(alloc, payload)? else {
        return Ok(None);
    };
    let label = Label::none();
    Ok(Some(Batch { label, texts }))
}
