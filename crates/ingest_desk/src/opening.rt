//! Opening a store.
ghost use Rattle.std.specs.Prelude.{◌≡◌, ◌≤◌, MatchResult};
ghost use Rattle.ingest_desk.specs.Openings.{IsHandedBack, IsOpened};

use crate::recount::{Recounted, recount};
use crate::unnamed::Unnamed;
use disk_model::Disk;
use explorer_model::fault::Stop;
use explorer_model::store::LogFault;
use manifest::Manifest;
use published_index::{List, open_list};
use record_log::{Back, OpenFault};
use side_by_side::Workers;
use std::alloc::Global;
use std::sync::Wait;
use std::thread::Threads;

/// Opens the store on a disk, and counts its journal anew, with so many workers. It begins with a
/// sync and writes nothing, so that a crash leaves what one could have left before. After what is
/// wrong with the file, `Damaged` comes for the first record with which the journal is not sound.
pub fn open<R: Wait + Threads + Sync, D: Disk>(
    rt: &R,
    alloc: Global,
    disk: D,
    workers: usize,
    readers: usize,
) -> Result<Unnamed<D>, Back<D, OpenFault>>
    requires some_workers { 1 ≤ workers }
    requires few_workers { workers ≤ 16 }
    requires some { 1 ≤ readers }
    requires few { readers ≤ 64 }

    ensures { MatchResult result (IsOpened D.disk D.left_since disk readers)
        (IsHandedBack D.disk D.left_since disk) }
{
    let workers = Workers { count: workers };
    let opened = manifest::open(alloc, disk)?;
    let manifest::Opened { manifest, journal } = opened;
    let recounted = match recount(rt, alloc, journal, workers) {
        Ok(recounted) => recounted,
        Err(Stop::Fault(at)) => {
            let fault = OpenFault::Log(LogFault::Damaged { at });
            return Err(back_of(manifest, fault));
        }
        Err(Stop::OutOfMemory) => return Err(back_of(manifest, OpenFault::OutOfMemory)),
    };
    let Recounted { register, segments } = recounted;
    let Ok(index) = open_list(rt, alloc, List::of(segments), readers) else {
        return Err(back_of(manifest, OpenFault::OutOfMemory));
    };
    Ok(Unnamed {
        manifest,
        register,
        index,
    })
}

/// The disk of a manifest, with the reason.
fn back_of<D: Disk>(manifest: Manifest<D>, fault: OpenFault) -> Back<D, OpenFault>
    ensures disk { result.disk ≡ manifest.disk }
    ensures fault { result.fault ≡ fault }
{
    Back {
        disk: manifest.into_disk(),
        fault,
    }
}
