//! The command `batches`: lists the batches of a store.
ghost use Rattle.std.specs.Prelude.{◌≡◌, ◌+◌, ◌++◌, ◌<◌, IfOk, OnOk, string_bytes};
ghost use Rattle.outside.specs.Stream.{Stream};
ghost use Rattle.published_index.specs.Cover.{journal_of};
ghost use Rattle.explorer.specs.Lines.{ending_of};
ghost use Rattle.explorer.specs.ListBatches.{ListsAt, ListsBy, ListsIn, batch_line, batch_lines};
ghost use Rattle.explorer.specs.Stores.{IsSized};
ghost use Rattle.explorer.specs.World.{world};

use crate::fault::Fault;
use crate::opening::{fault_of_opening, open_store};
use crate::report::write_lines;
use disk_model::Disk;
use explorer_model::archive::Batch;
use host::Host;
use host::laws::what_is_handed_out_is_out;
use ingest_desk::Unnamed;
use itoa::Buffer;
use outside::Sink;
use published_index::{Index, Publisher, Snapshot};
use record_log::{Back, OpenFault};
use segment_blocks::{Segment, Steps};
use side_by_side::Workers;
use std::alloc::{AllocError, Global};
use std::marker::Brand;
use std::sync::Wait;
use std::sync::ledger::{Blank, Ledger};
use std::thread::Threads;

/// Reads the store, and prints a line for each of its batches: its number from 1, how many games it
/// has, and its label. The lines are written as one piece.
pub fn list_batches<R: AllocGlobal + Wait + Threads + Sync, O: Sink, H: Host>(
    rt: &R,
    store: String,
    workers: Workers,
    output: &mut O,
    host: &mut H,
) -> Result<(), Fault>
    ensures { (input errors : Stream) →
        let before = world input (O.sink output.old) errors (H.host host.old) in
        let after = world input (O.sink output.new) errors (H.host host.new) in
        ListsBy (string_bytes store) before after (ending_of result) }
{
    // law: a disk that was handed out is to be given back
    what_is_handed_out_is_out();
    let Ok(disk) = host.disk(store.as_str()) else {
        return Err(Fault::CannotOpen { name: store });
    };
    let Listed { disk, lines } = list_at(rt, disk, workers);
    host.close(store.as_str(), disk);
    match lines {
        Ok(lines) => match write_lines(output, lines.as_slice()) {
            Ok(()) => Ok(()),
            Err(_) => Err(Fault::WriteFault),
        },
        Err(fault) => Err(fault_of_opening(fault)),
    }
}

/// A disk that is given back, and the lines of the batches of its store.
struct Listed<D> {
    disk: D,
    lines: Result<Vec<u8>, OpenFault>,
}

/// Opens the store on a disk, and lists its batches.
fn list_at<R: AllocGlobal + Wait + Threads + Sync, D: Disk>(
    rt: &R,
    disk: D,
    workers: Workers,
) -> Listed<D>
    ensures sized { IsSized (D.disk disk) }
    ensures lists { ListsAt (D.disk disk) (D.disk result.disk) result.lines }
{
    match open_store(rt, disk, workers) {
        Ok(unnamed) => list_in::<Brand, R, D>(rt, unnamed),
        Err(back) => {
            let Back { disk, fault } = back;
            Listed {
                disk,
                lines: Err(fault),
            }
        }
    }
}

/// Lists the batches of an opened store.
fn list_in<J: Index, R: AllocGlobal + Wait, D: Disk>(rt: &R, unnamed: Unnamed<D>) -> Listed<D>
    requires name { unnamed.index.name ≡ J.name }
    ensures disk { result.disk ≡ unnamed.manifest.disk }
    ensures lines { ListsIn (journal_of unnamed.index.list) result.lines }
{
    match unnamed.named::<J>(rt.alloc()) {
        Ok((ingest, _passes, _drawer)) => {
            let lines = lines_in(rt.alloc(), ingest.publisher());
            Listed {
                disk: ingest.into_disk(rt),
                lines,
            }
        }
        Err(unnamed) => Listed {
            disk: unnamed.into_disk(rt),
            lines: Err(OpenFault::OutOfMemory),
        },
    }
}

/// The lines of the batches that are published, or that memory is wanting.
fn lines_in<J: Index>(alloc: Global, publisher: &Publisher<J>) -> Result<Vec<u8>, OpenFault>
    ensures { ListsIn (journal_of publisher.now.list) result }
{
    match lines_of(alloc, publisher) {
        Ok(lines) => Ok(lines),
        Err(_) => Err(OpenFault::OutOfMemory),
    }
}

fn lines_of<J: Index>(alloc: Global, publisher: &Publisher<J>) -> Result<Vec<u8>, AllocError>
    ensures { IfOk result (λ lines. lines.items ≡ batch_lines 1 (journal_of publisher.now.list)) }
{
    let snapshot = publisher.snapshot(alloc)?;
    lines_uncounted::<Brand>(alloc, &snapshot, Blank::new(1))
}

/// The lines of the batches of a snapshot, where no steps are counted.
fn lines_uncounted<L: Ledger>(
    alloc: Global,
    snapshot: &Snapshot,
    blank: Blank,
) -> Result<Vec<u8>, AllocError>
    requires name { blank.name ≡ L.name }
    requires parts { blank.parts ≡ L.parts }
    requires some { 0 < L.parts }
    ensures { IfOk result (λ lines. lines.items ≡ batch_lines 1 (journal_of snapshot.now)) }
{
    let mut steps = Steps::<L>::new(blank);
    let mut lines = Vec::new(alloc);
    for segment in snapshot.segments() {
        push_lines(&mut lines, segment, &mut steps)?;
    }
    Ok(lines)
}

/// Puts the lines of the batches of a segment behind others.
fn push_lines<L: Ledger>(
    lines: &mut Vec<u8>,
    segment: &Segment,
    steps: &mut Steps<L>,
) -> Result<(), AllocError>
    ensures { OnOk result (lines.new.items ≡ lines.old.items
        ++ batch_lines (segment.now.span.first + 1) segment.now.span.batches) }
{
    let span = segment.span();
    for n in 0..span.count {
        let number = u64::from(span.first) + u64::from(n) + 1;
        push_line(lines, number, segment.batch(n, steps))?;
    }
    Ok(())
}

/// Puts the line of a batch behind others.
fn push_line(lines: &mut Vec<u8>, number: u64, batch: &Batch) -> Result<(), AllocError>
    ensures { OnOk result (lines.new.items ≡ lines.old.items ++ batch_line number batch.now) }
{
    lines.extend_from_slice(Buffer::new().format(number).as_bytes())?;
    lines.push(b' ')?;
    lines.extend_from_slice(Buffer::new().format(batch.texts.len()).as_bytes())?;
    lines.push(b' ')?;
    lines.extend_from_slice(batch.label.as_str().as_bytes())?;
    lines.push(b'\n')?;
    Ok(())
}
