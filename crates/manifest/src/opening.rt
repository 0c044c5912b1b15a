//! Opening a journal.
ghost use Rattle.std.specs.Prelude.{◌≡◌, map, All, IfOk, IfErr};
ghost use Rattle.disk_model.specs.Disk.{IsQuiet};
ghost use Rattle.explorer_model.specs.Stop.{GivesBy};
ghost use Rattle.explorer_model.specs.StoreFile.{payload_of, batch_in, batches_in, records_at, store_format, payload_limit, CanStand, IsStorable};
ghost use Rattle.manifest.specs.Manifest.{IsOpened, IsNotOpened, open_fault};

use crate::decoding::decode;
use crate::format::BATCH_FORMAT;
use crate::manifest::Manifest;
use disk_model::Disk;
use explorer_model::archive::{Batch, Bytes};
use explorer_model::fault::Stop;
use explorer_model::store::LogFault;
use record_log::{Back, OpenFault};
use std::alloc::Global;

/// A manifest and the journal that it holds.
#[derive(Drop)]
pub struct Opened<D: Disk> {
    pub manifest: Manifest<D>,
    pub journal: Vec<Batch>,
}

/// Opens the store on a disk. It begins with a sync and writes nothing, so that a crash leaves what
/// one could have left before. What is wrong with the records comes before what is wrong with a
/// payload.
pub fn open<D: Disk>(alloc: Global, disk: D) -> Result<Opened<D>, Back<D, OpenFault>>
    ensures opened { IfOk result (λ opened. IsOpened D.disk D.left_since
        opened.journal.items disk opened.manifest) }
    ensures refused { IfErr result (λ back. IsNotOpened D.disk back.fault disk back.disk) }
    ensures quiet { IfOk result (λ opened. IsQuiet D.disk D.left_since disk opened.manifest.disk) }
    ensures no_fault { IfOk result
        (λ opened. (D.disk opened.manifest.disk).faults ≡ (D.disk disk).faults) }
    ensures quiet_refused { IfErr result (λ back. IsQuiet D.disk D.left_since disk back.disk) }
{
    let record_log::Opened { log, payloads } = record_log::open(alloc, disk, BATCH_FORMAT)?;
    match batches_of(alloc, payloads) {
        Ok(journal) => {
            let manifest = Manifest { log };
            Ok(Opened { manifest, journal })
        }
        Err(stop) => {
            let disk = log.into_disk();
            let fault = fault_of(stop);
            Err(Back { disk, fault })
        }
    }
}

/// Decodes the payloads of a log, and lets each go as soon as its batch is there.
fn batches_of(alloc: Global, payloads: Vec<Bytes>) -> Result<Vec<Batch>, Stop<LogFault>>
    requires { CanStand payload_limit store_format payloads.items }
    ensures read { GivesBy (λ batches. batches.items) result
        (batches_in batch_in (records_at 12 payloads.items)) }
    ensures storable { IfOk result (λ batches. All IsStorable batches.items) }
    ensures payloads { IfOk result (λ batches. payloads.items ≡ map payload_of batches.items) }
{
    let mut batches = Vec::new(alloc);
    let mut gate = 12;
    for payload in payloads {
        let Some(batch) = decode(alloc, payload.as_slice())? else {
            return Err(Stop::Fault(LogFault::Damaged { at: gate }));
        };
        batches.reserve(1)?;
        batches.push_reserved(batch);
        gate += 5 + payload.len() as u64;
    }
    Ok(batches)
}

pub(crate) fn fault_of(stop: Stop<LogFault>) -> OpenFault
    ensures { result ≡ open_fault stop }
{
    match stop {
        Stop::Fault(fault) => OpenFault::Log(fault),
        Stop::OutOfMemory => OpenFault::OutOfMemory,
    }
}
