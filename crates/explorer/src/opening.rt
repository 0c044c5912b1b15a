//! Stores that are opened, and a new one.
ghost use Rattle.std.specs.Prelude.{◌≡◌, [], None, IfErr, IfOk};
ghost use Rattle.published_index.specs.Cover.{journal_of};
ghost use Rattle.explorer.specs.Faults.{FirstCause, fault_of_opening};
ghost use Rattle.explorer.specs.Opened.{NotOpened, OpensTo};
ghost use Rattle.explorer.specs.Stores.{IsSized};

use crate::fault::Fault;
use disk_model::{Disk, Unkept};
use explorer_model::store::LogFault;
use ingest_desk::{Unnamed, fresh, open};
use manifest::create;
use record_log::{Back, OpenFault};
use side_by_side::Workers;
use std::alloc::AllocError;
use std::sync::Wait;
use std::thread::Threads;

/// Opens the store on a disk, for one reader.
pub fn open_store<R: AllocGlobal + Wait + Threads + Sync, D: Disk>(
    rt: &R,
    disk: D,
    workers: Workers,
) -> Result<Unnamed<D>, Back<D, OpenFault>>
    ensures sized { IsSized (D.disk disk) }
    ensures sound { IfOk result (λ unnamed. unnamed.manifest.fault ≡ None) }
    ensures opened { IfOk result (λ unnamed. OpensTo (journal_of unnamed.index.list)
        (D.disk disk) (D.disk unnamed.manifest.disk)) }
    ensures refused { IfErr result (λ back.
        NotOpened back.fault (D.disk disk) (D.disk back.disk)) }
{
    let before = disk.faults();
    match open(rt, rt.alloc(), disk, workers.count, 1) {
        Ok(unnamed) => Ok(unnamed),
        Err(back) => Err(first_cause(before, back)),
    }
}

/// Why a store is not opened, where so many calls of its disk had failed before: one of them failed,
/// or else what was found.
pub fn first_cause<D: Disk>(before: u64, back: Back<D, OpenFault>) -> Back<D, OpenFault>
    ensures disk { result.disk ≡ back.disk }
    ensures cause { FirstCause before (D.disk back.disk).faults back.fault result.fault }
{
    let Back { disk, fault } = back;
    let fault = cause_of(before, disk.faults(), fault);
    Back { disk, fault }
}

/// The same, where so many calls have failed by then.
pub fn cause_of(before: u64, after: u64, fault: OpenFault) -> OpenFault
    ensures { FirstCause before after fault result }
{
    if before < after {
        OpenFault::DiskFault { before, after }
    } else {
        fault
    }
}

/// Why a store is not opened, as a run tells it.
pub fn fault_of_opening(fault: OpenFault) -> Fault
    ensures { result ≡ fault_of_opening fault }
{
    match fault {
        OpenFault::Log(LogFault::NotALog) => Fault::NotAStore,
        OpenFault::Log(LogFault::OtherFormat { number }) => Fault::OtherFormat { number },
        OpenFault::Log(LogFault::Damaged { at }) => Fault::Damaged { gate: at },
        OpenFault::DiskFault { .. } => Fault::DiskFault,
        OpenFault::OutOfMemory => Fault::OutOfMemory,
    }
}

/// A store without a batch, on a disk that keeps nothing but its size.
pub fn new_store<R: AllocGlobal + Wait>(rt: &R) -> Result<Unnamed<Unkept>, AllocError>
    ensures sound { IfOk result (λ unnamed. unnamed.manifest.fault ≡ None) }
    ensures empty { IfOk result (λ unnamed. unnamed.index.list ≡ []) }
{
    // The disk is empty, and no call of it fails.
    let Ok(manifest) = create(Unkept::new()) else {
        unreachable!();
    };
    match fresh(rt, rt.alloc(), manifest, 1) {
        Ok(unnamed) => Ok(unnamed),
        Err(back) => Err(back.fault),
    }
}
