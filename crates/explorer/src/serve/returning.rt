//! What workers hold goes back once they have returned.
ghost use Rattle.std.specs.Prelude.{◌≡◌, ◌<◌, ◌∷◌, [], IsSome, map, length, string_bytes};
ghost use Rattle.std.specs.List.{AllByRecursion};
ghost use Rattle.explorer_model.specs.Timeline.{IsPrefix};
ghost use Rattle.ingest_desk.specs.Stored.{journal};
ghost use Rattle.session.specs.Steps.{KnowsEnd};
ghost use Rattle.explorer.specs.Serve.Workers.{AreNamed, CanReturn, GivenBack, HasReader, HasReport, HasTaken, HaveReaders, IsHeard, IsTold, TakesWorker, call_of, calls_of, drawings_by, drawings_in, drawings_of, name_at};

use crate::serve::cabinet::Cabinet;
use crate::serve::workers::{FileWork, ReaderWork, Worker};
use disk_model::Disk;
use host::Host;
use ingest_desk::{End, Ingest, Report};
use published_index::{Drawer, Index, Pass};
use session::{learn_notes, learn_receipts};

/// Takes the workers off the list, the last first, and gives back what they hold; their drawers go back
/// to the cabinet. Where a reader stands behind each file, the stored journal begins with all that
/// they were told of it, and saw.
pub fn give_back<H: Host, J: Index>(
    host: &mut H,
    names: &[String],
    cabinet: &mut Cabinet<H::Disk, J>,
    mut list: Vec<Worker<H::File, H::Door, J>>,
)
    requires named { AreNamed (map string_bytes names.now) 0 list.items }
    requires out { CanReturn (calls_of H.File.source H.Door.door (map string_bytes names.now) 0
        list.items) (H.host host.old) }
    ensures back { GivenBack H.File.source H.Door.door (map string_bytes names.now) 0 list.items
        (H.host host.old) (H.host host.new) }
    ensures same { cabinet.new.ingest ≡ cabinet.old.ingest }
    ensures drawn { HasTaken (drawings_in list.items) cabinet.old.drawer cabinet.new.drawer }
    ensures told { HaveReaders list.items
        → AllByRecursion (IsTold (journal cabinet.old.ingest)) list.items }
{
    let mut last = None;
    while let Some(worker) = list.pop() {
        last = take_back(host, names, list.len(), cabinet, last, worker);
    }
    list.destroy_empty();
}

/// Gives back what a worker holds that stood at this place. The pass learns what the report of a
/// file tells; without a pass, that of a reader is the one that goes on learning. What it has seen
/// is stored.
fn take_back<H: Host, J: Index>(
    host: &mut H,
    names: &[String],
    at: usize,
    cabinet: &mut Cabinet<H::Disk, J>,
    last: Option<Pass<J>>,
    worker: Worker<H::File, H::Door, J>,
) -> Option<Pass<J>>
    requires named { AreNamed (map string_bytes names.now) at (worker ∷ []) }
    requires out { CanReturn (call_of H.File.source H.Door.door
        (name_at (map string_bytes names.now) at) worker) (H.host host.old) }
    ensures back { TakesWorker H.File.source H.Door.door (name_at (map string_bytes names.now) at)
        worker (H.host host.old) (H.host host.new) }
    ensures same { cabinet.new.ingest ≡ cabinet.old.ingest }
    ensures drawn { HasTaken (drawings_of worker) cabinet.old.drawer cabinet.new.drawer }
    ensures kept { IsSome last → IsSome result }
    ensures found { HasReader (worker ∷ []) → IsSome result }
    ensures told { IsHeard last worker → IsTold (journal cabinet.old.ingest) worker }
{
    match worker {
        Worker::File(file) => {
            let FileWork {
                source,
                drawer,
                report,
            } = file;
            host.close_file(names[at].as_str(), source);
            cabinet.take(drawer);
            learn_report(&mut cabinet.ingest, last, report)
        }
        Worker::Reader(reader) => {
            let ReaderWork {
                door,
                pass,
                drawer,
                end: _,
                told: _,
            } = reader;
            host.close_door(door);
            take_drawer(cabinet, drawer);
            cabinet.ingest.confirm(&pass);
            match last {
                Some(last) => Some(last),
                None => Some(pass),
            }
        }
        Worker::Merger => last,
    }
}

/// Takes the drawer of a reader back.
fn take_drawer<D: Disk, J: Index>(cabinet: &mut Cabinet<D, J>, drawer: Option<Drawer<J>>)
    ensures same { cabinet.new.ingest ≡ cabinet.old.ingest }
    ensures drawn { HasTaken (drawings_by drawer) cabinet.old.drawer cabinet.new.drawer }
{
    let Some(drawer) = drawer else {
        return;
    };
    cabinet.take(drawer);
}

/// The pass learns what a report tells, and that is stored.
fn learn_report<D: Disk, J: Index>(
    ingest: &mut Ingest<D, J>,
    last: Option<Pass<J>>,
    report: Option<Report<J>>,
) -> Option<Pass<J>>
    ensures same { ingest.new ≡ ingest.old }
    ensures kept { IsSome last → IsSome result }
    ensures told { IsSome last → HasReport (journal ingest.old) report }
{
    let Some(pass) = last else {
        return None;
    };
    let Some(report) = report else {
        return Some(pass);
    };
    let mut pass = pass;
    let Report {
        receipts,
        refused: _,
        clashes,
        end,
    } = report;
    learn_receipts(&mut pass, receipts);
    learn_notes(&mut pass, clashes);
    learn_end(&mut pass, end);
    ingest.confirm(&pass);
    Some(pass)
}

/// The pass learns the note of an end, where it has one.
fn learn_end<J: Index>(pass: &mut Pass<J>, end: End<J>)
    ensures knows { KnowsEnd end pass.new.seen }
    ensures grew { IsPrefix pass.old.seen pass.new.seen }
{
    if let End::Full { note, .. } = end {
        pass.learn(note);
    }
}
