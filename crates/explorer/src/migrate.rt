//! The command `migrate`: makes a store of the batches of a store in the first format.
ghost use Rattle.std.specs.Prelude.{◌≡◌, ◌≤◌, ◌⊎◌, [], length, All, IfOk, MatchResult, string_bytes};
ghost use Rattle.disk_model.specs.Disk.{DiskState, IsQuiet, LeavesOnly};
ghost use Rattle.outside.specs.Stream.{Stream};
ghost use Rattle.explorer_model.specs.StoreFile.{gate_limit, store_of, IsStorable};
ghost use Rattle.manifest.specs.Manifest.{HasFrontOf, IsManifestOf};
ghost use Rattle.explorer.specs.Faults.{fault_of_append};
ghost use Rattle.explorer.specs.Lines.{ending_of};
ghost use Rattle.explorer.specs.Migrate.{Begins, CannotHave, CannotRead, IsMadeBy, IsMadeUnder, IsSafe, MigratesBy, NotReadFirst, ReadsFirst, migrated_line};
ghost use Rattle.explorer.specs.Stores.{IsSized, UsesDisk};
ghost use Rattle.explorer.specs.World.{world};

use crate::create::fault_of_creation;
use crate::fault::Fault;
use crate::opening::{fault_of_opening, first_cause};
use arrayvec::ArrayString;
use disk_model::Disk;
use explorer_model::archive::Batch;
use host::Host;
use host::laws::what_is_handed_out_is_out;
use itoa::Buffer;
use manifest::{Manifest, OpenedFirst, open_first};
use outside::Sink;
use record_log::{AppendFault, Back, OpenFault};
use std::alloc::Global;

/// Reads the store `old`, which is of the first format, gives its disk back, and makes a store of
/// its batches on the disk `new`, which has to be empty. It prints how many they are.
pub fn migrate<O: Sink, H: Host>(
    alloc: Global,
    old: String,
    new: String,
    output: &mut O,
    host: &mut H,
) -> Result<(), Fault>
    ensures { (input errors : Stream) →
        let before = world input (O.sink output.old) errors (H.host host.old) in
        let after = world input (O.sink output.new) errors (H.host host.new) in
        MigratesBy (string_bytes old) (string_bytes new) before after (ending_of result) }
{
    let journal = match read_old(alloc, old, host) {
        Ok(journal) => journal,
        Err(fault) => return Err(fault),
    };
    if let Err(fault) = make_new(alloc, new, journal.as_slice(), host) {
        return Err(fault);
    }
    let line = migrated_line(journal.len() as u64);
    match output.write(line.as_str().as_bytes()) {
        Ok(()) => Ok(()),
        Err(_) => Err(Fault::WriteFault),
    }
}

/// Reads the store of the first format under the name, and gives its disk back.
fn read_old<H: Host>(alloc: Global, name: String, host: &mut H) -> Result<Vec<Batch>, Fault>
    ensures storable { IfOk result (λ journal. All IsStorable journal.items) }
    ensures room { IfOk result (λ journal. length (store_of journal.items) ≤ gate_limit) }
    ensures reads { MatchResult result
        (λ journal. UsesDisk (string_bytes name) (ReadsFirst journal.items)
        (H.host host.old) (H.host host.new))
        (λ fault. CannotHave (string_bytes name) fault (H.host host.old) (H.host host.new)
        ⊎ CannotRead (string_bytes name) fault (H.host host.old) (H.host host.new)) }
{
    // law: a disk that was handed out is to be given back
    what_is_handed_out_is_out();
    let Ok(disk) = host.disk(name.as_str()) else {
        return Err(Fault::CannotOpen { name });
    };
    match read_first(alloc, disk) {
        Ok(opened) => {
            let OpenedFirst { disk, journal } = opened;
            host.close(name.as_str(), disk);
            Ok(journal)
        }
        Err(back) => {
            let Back { disk, fault } = back;
            host.close(name.as_str(), disk);
            Err(fault_of_opening(fault))
        }
    }
}

/// Reads the store of the first format on a disk. A crash leaves what one could have left before.
fn read_first<D: Disk>(alloc: Global, disk: D) -> Result<OpenedFirst<D>, Back<D, OpenFault>>
    ensures sized { IsSized (D.disk disk) }
    ensures storable { IfOk result (λ opened. All IsStorable opened.journal.items) }
    ensures room { IfOk result
        (λ opened. length (store_of opened.journal.items) ≤ gate_limit) }
    ensures reads { MatchResult result
        (λ opened. ReadsFirst opened.journal.items (D.disk disk) (D.disk opened.disk))
        (λ back. NotReadFirst back.fault (D.disk disk) (D.disk back.disk)) }
    ensures quiet { MatchResult result
        (λ opened. IsQuiet D.disk D.left_since disk opened.disk)
        (λ back. IsQuiet D.disk D.left_since disk back.disk) }
{
    let before = disk.faults();
    match open_first(alloc, disk) {
        Ok(opened) => Ok(opened),
        Err(back) => Err(first_cause(before, back)),
    }
}

/// Makes a store of the journal on the disk under the name, and gives the disk back.
fn make_new<H: Host>(
    alloc: Global,
    name: String,
    journal: &[Batch],
    host: &mut H,
) -> Result<(), Fault>
    requires storable { All IsStorable journal.now }
    requires room { length (store_of journal.now) ≤ gate_limit }
    ensures { IsMadeUnder (string_bytes name) journal.now (H.host host.old) (H.host host.new)
        (ending_of result) }
{
    // law: a disk that was handed out is to be given back
    what_is_handed_out_is_out();
    let Ok(disk) = host.disk(name.as_str()) else {
        return Err(Fault::CannotOpen { name });
    };
    let Made { disk, outcome } = make_of(alloc, disk, journal);
    host.close(name.as_str(), disk);
    outcome
}

/// A disk that is given back, and whether the store on it is made.
struct Made<D> {
    disk: D,
    outcome: Result<(), Fault>,
}

/// Makes a store of the journal on an empty disk. A crash before the store is there without a batch
/// leaves no more than its thirteen bytes torn, and from then on some batches from the first on.
fn make_of<D: Disk>(alloc: Global, disk: D, journal: &[Batch]) -> Made<D>
    requires storable { All IsStorable journal.now }
    requires room { length (store_of journal.now) ≤ gate_limit }
    ensures sized { IsSized (D.disk disk) }
    ensures makes { IsMadeBy journal.now (D.disk disk) (D.disk result.disk)
        (ending_of result.outcome) }
    ensures safe { IsSafe D.disk D.left_since journal.now disk result.disk
        (ending_of result.outcome) }
{
    match manifest::create(disk) {
        Ok(made) => fill(alloc, made, journal),
        Err(back) => {
            let Back { disk, fault } = back;
            Made {
                disk,
                outcome: Err(fault_of_creation(fault)),
            }
        }
    }
}

/// Stores the journal in a store without a batch.
fn fill<D: Disk>(alloc: Global, made: Manifest<D>, journal: &[Batch]) -> Made<D>
    requires without_batch { IsManifestOf D.disk D.left_since [] made }
    requires storable { All IsStorable journal.now }
    requires room { length (store_of journal.now) ≤ gate_limit }
    ensures fills { (handed : DiskState) → Begins handed (D.disk made.disk)
        → IsMadeBy journal.now handed (D.disk result.disk) (ending_of result.outcome) }
    ensures since { LeavesOnly D.disk D.left_since made.disk result.disk
        (HasFrontOf [] journal.now) }
{
    let mut manifest = made;
    match manifest.store_all(alloc, journal) {
        Ok(()) => Made {
            disk: manifest.into_disk(),
            outcome: Ok(()),
        },
        Err(fault) => Made {
            disk: manifest.into_disk(),
            outcome: Err(fault_of_append(fault)),
        },
    }
}

/// Why a batch is not stored, as a run tells it.
fn fault_of_append(fault: AppendFault) -> Fault
    ensures { result ≡ fault_of_append fault }
{
    match fault {
        AppendFault::OutOfMemory => Fault::OutOfMemory,
        AppendFault::Closed { .. } | AppendFault::DiskFault { .. } => Fault::DiskFault,
    }
}

/// The line that tells how many batches the store has.
fn migrated_line(batches: u64) -> ArrayString<64>
    ensures { result.bytes ≡ migrated_line batches }
{
    let mut line = ArrayString::new();
    line.push_str("migrated ");
    line.push_str(Buffer::new().format(batches));
    line.push('\n');
    line
}
