//! The command `import`: stores the games of a file.
ghost use Rattle.std.specs.Prelude.{◌≡◌, None, MatchOption, string_bytes};
ghost use Rattle.outside.specs.Stream.{Stream};
ghost use Rattle.published_index.specs.Cover.{journal_of};
ghost use Rattle.explorer.specs.Imported.{ImportedTo};
ghost use Rattle.explorer.specs.ImportStore.{ImportsBy, ImportsLabelled, IsToldOf, totals};
ghost use Rattle.explorer.specs.Lines.{ending_of};
ghost use Rattle.explorer.specs.World.{world};

use crate::fault::Fault;
use crate::importing::{Came, import_into};
use crate::opening::{fault_of_opening, open_store};
use crate::order::ImportOrder;
use crate::report::{report, write_lines};
use arrayvec::ArrayString;
use disk_model::Disk;
use explorer_model::label::Label;
use host::Host;
use host::laws::what_is_handed_out_is_out;
use ingest_desk::Unnamed;
use itoa::Buffer;
use outside::{Sink, Source};
use published_index::Index;
use record_log::Back;
use side_by_side::Workers;
use std::alloc::Global;
use std::marker::Brand;
use std::sync::Wait;
use std::thread::Threads;

/// Reads the label, and stores the new games of the file under it. A text that is no label ends the
/// run before anything is asked of the host.
pub fn import_store<R: AllocGlobal + Wait + Threads + Sync, O: Sink, E: Sink, H: Host>(
    rt: &R,
    order: ImportOrder,
    output: &mut O,
    errors: &mut E,
    host: &mut H,
) -> Result<(), Fault>
    ensures { (input : Stream) →
        let before = world input (O.sink output.old) (E.sink errors.old) (H.host host.old) in
        let after = world input (O.sink output.new) (E.sink errors.new) (H.host host.new) in
        ImportsBy (string_bytes order.store) (string_bytes order.file) (string_bytes order.label)
        before after (ending_of result) }
{
    let Some(label) = Label::of(order.label.as_bytes()) else {
        return Err(Fault::BadLabel);
    };
    import_labelled(rt, order, label, output, errors, host)
}

/// Opens the store and then the file, and stores the new games of the file under the label. It
/// reports what is refused and prints how much is stored, also where the import ends early.
fn import_labelled<R: AllocGlobal + Wait + Threads + Sync, O: Sink, E: Sink, H: Host>(
    rt: &R,
    order: ImportOrder,
    label: Label,
    output: &mut O,
    errors: &mut E,
    host: &mut H,
) -> Result<(), Fault>
    ensures { (input : Stream) →
        let before = world input (O.sink output.old) (E.sink errors.old) (H.host host.old) in
        let after = world input (O.sink output.new) (E.sink errors.new) (H.host host.new) in
        ImportsLabelled (string_bytes order.store) (string_bytes order.file) label
        before after (ending_of result) }
{
    // law: what was handed out is to be given back
    what_is_handed_out_is_out();
    let Ok(disk) = host.disk(order.store.as_str()) else {
        return Err(Fault::CannotOpen { name: order.store });
    };
    let unnamed = match open_store(rt, disk, order.workers) {
        Ok(unnamed) => unnamed,
        Err(back) => {
            let Back { disk, fault } = back;
            host.close(order.store.as_str(), disk);
            return Err(fault_of_opening(fault));
        }
    };
    let Ok(mut source) = host.file(order.file.as_str()) else {
        host.close(order.store.as_str(), unnamed.into_disk(rt));
        return Err(Fault::CannotOpen { name: order.file });
    };
    let Imported { disk, came } = import_in::<Brand, _, _, _>(
        rt,
        unnamed,
        &mut source,
        label,
        order.workers,
    );
    host.close_file(order.file.as_str(), source);
    host.close(order.store.as_str(), disk);
    match came {
        Some(came) => tell(rt.alloc(), &came, output, errors),
        None => Err(Fault::OutOfMemory),
    }
}

/// A disk that is given back, and what came of the import into its store; nothing where memory was
/// wanting before it began.
struct Imported<D> {
    disk: D,
    came: Option<Came>,
}

/// Imports the source under the label into an opened store.
fn import_in<J: Index, R: AllocGlobal + Wait + Threads + Sync, S: Source, D: Disk>(
    rt: &R,
    unnamed: Unnamed<D>,
    source: &mut S,
    label: Label,
    workers: Workers,
) -> Imported<D>
    requires name { unnamed.index.name ≡ J.name }
    requires sound { unnamed.manifest.fault ≡ None }
    ensures { MatchOption result.came
        ((result.disk ≡ unnamed.manifest.disk) × (S.source source.new ≡ S.source source.old))
        (ImportedTo label (journal_of unnamed.index.list) (D.disk unnamed.manifest.disk)
        (D.disk result.disk) (S.source source.old) (S.source source.new)) }
{
    let (mut ingest, _passes, mut drawer) = match unnamed.named::<J>(rt.alloc()) {
        Ok(named) => named,
        Err(unnamed) => {
            return Imported {
                disk: unnamed.into_disk(rt),
                came: None,
            };
        }
    };
    let came = import_into(rt, &mut ingest, &mut drawer, source, label, workers);
    Imported {
        disk: ingest.into_disk(rt),
        came: Some(came),
    }
}

/// Reports what is refused, and prints how much is stored. What can still be written behind a fault
/// of a sink is written. Where memory is wanting for the report nothing is, and the import's fault is
/// told all the same.
fn tell<O: Sink, E: Sink>(
    alloc: Global,
    came: &Came,
    output: &mut O,
    errors: &mut E,
) -> Result<(), Fault>
    ensures { IsToldOf came.now result (O.sink output.old) (O.sink output.new)
        (E.sink errors.old) (E.sink errors.new) }
{
    let Ok(lines) = report(alloc, came.refused.as_slice()) else {
        return Err(came.fault().unwrap_or(Fault::OutOfMemory));
    };
    let reported = write_lines(errors, lines.as_slice());
    let totals = totals_line(came.games, came.batches, came.journal);
    let printed = output.write(totals.as_str().as_bytes());
    if let Some(fault) = came.fault() {
        return Err(fault);
    }
    let Ok(()) = reported else {
        return Err(Fault::WriteFault);
    };
    let Ok(()) = printed else {
        return Err(Fault::WriteFault);
    };
    Ok(())
}

/// The three lines of what is stored.
fn totals_line(games: u64, batches: u64, journal: u32) -> ArrayString<96>
    ensures { result.bytes ≡ totals games batches journal }
{
    let mut line = ArrayString::new();
    line.push_str("stored ");
    line.push_str(Buffer::new().format(games));
    line.push_str("\nbatches ");
    line.push_str(Buffer::new().format(batches));
    line.push_str("\njournal ");
    line.push_str(Buffer::new().format(journal));
    line.push('\n');
    line
}
