//! The command `query`: answers a query over a store.
ghost use Rattle.std.specs.Prelude.{◌≡◌, ◌≤◌, option_map, string_bytes};
ghost use Rattle.explorer_model.specs.Chess.{IsValid};
ghost use Rattle.outside.specs.Stream.{Stream};
ghost use Rattle.published_index.specs.Cover.{journal_of};
ghost use Rattle.explorer.specs.Lines.{ending_of};
ghost use Rattle.explorer.specs.Query.Store.{AsksBy, LooksAt, LooksIn, QueriesBy};
ghost use Rattle.explorer.specs.Stores.{IsSized};
ghost use Rattle.explorer.specs.World.{world};
ghost use Rattle.session.specs.Naming.{IsPlayed};

use crate::answer::line_for;
use crate::fault::Fault;
use crate::opening::{fault_of_opening, open_store};
use crate::openings::book_of;
use disk_model::Disk;
use explorer_model::query::Query;
use host::Host;
use host::laws::what_is_handed_out_is_out;
use ingest_desk::Unnamed;
use opening_names::Book;
use outside::Sink;
use published_index::{Index, Publisher};
use query_params::laws::queries_play_legal_moves;
use record_log::{Back, OpenFault};
use side_by_side::Workers;
use std::alloc::Global;
use std::marker::Brand;
use std::sync::Wait;
use std::thread::Threads;

/// Reads the query and then the file of openings, where one of this name is given, and answers the
/// query over the store.
pub fn query_store<R: AllocGlobal + Wait + Threads + Sync, O: Sink, H: Host>(
    rt: &R,
    store: String,
    query_text: &[u8],
    openings: Option<String>,
    workers: Workers,
    output: &mut O,
    host: &mut H,
) -> Result<(), Fault>
    ensures { (input errors : Stream) →
        let before = world input (O.sink output.old) errors (H.host host.old) in
        let after = world input (O.sink output.new) errors (H.host host.new) in
        QueriesBy (AsksBy (string_bytes store)) query_text.now (option_map string_bytes openings)
        before after (ending_of result) }
{
    // law: a query plays legal moves, which lead to the position asked for
    queries_play_legal_moves();
    let query = match query_params::query(rt.alloc(), query_text) {
        Ok(query) => query,
        Err(stop) => return Err(Fault::from(stop)),
    };
    let book = match book_of(rt.alloc(), openings, host) {
        Ok(book) => book,
        Err(fault) => return Err(fault),
    };
    query_by(rt, store, &query, &book, workers, output, host)
}

/// Reads the store, and prints the answer over its games, with the openings that the book names.
fn query_by<R: AllocGlobal + Wait + Threads + Sync, O: Sink, H: Host>(
    rt: &R,
    store: String,
    query: &Query,
    book: &Book,
    workers: Workers,
    output: &mut O,
    host: &mut H,
) -> Result<(), Fault>
    requires played { IsPlayed query.now }
    requires valid { IsValid query.now.at }
    requires top { query.now.top ≤ 4 }
    requires recent { query.now.recent ≤ 4 }
    ensures { (input errors : Stream) →
        let before = world input (O.sink output.old) errors (H.host host.old) in
        let after = world input (O.sink output.new) errors (H.host host.new) in
        AsksBy (string_bytes store) query.now book.now before after (ending_of result) }
{
    // law: a disk that was handed out is to be given back
    what_is_handed_out_is_out();
    let Ok(disk) = host.disk(store.as_str()) else {
        return Err(Fault::CannotOpen { name: store });
    };
    let Looked { disk, line } = look_at(rt, disk, workers, query, book);
    host.close(store.as_str(), disk);
    match line {
        Ok(line) => match output.write(line.as_slice()) {
            Ok(()) => Ok(()),
            Err(_) => Err(Fault::WriteFault),
        },
        Err(fault) => Err(fault_of_opening(fault)),
    }
}

/// A disk that is given back, and the line that answers the query over its store.
struct Looked<D> {
    disk: D,
    line: Result<Vec<u8>, OpenFault>,
}

/// Opens the store on a disk, and answers the query over it.
fn look_at<R: AllocGlobal + Wait + Threads + Sync, D: Disk>(
    rt: &R,
    disk: D,
    workers: Workers,
    query: &Query,
    book: &Book,
) -> Looked<D>
    requires played { IsPlayed query.now }
    requires valid { IsValid query.now.at }
    requires top { query.now.top ≤ 4 }
    requires recent { query.now.recent ≤ 4 }
    ensures sized { IsSized (D.disk disk) }
    ensures looks { LooksAt book.now query.now (D.disk disk) (D.disk result.disk) result.line }
{
    match open_store(rt, disk, workers) {
        Ok(unnamed) => look_in::<Brand, R, D>(rt, unnamed, query, book),
        Err(back) => {
            let Back { disk, fault } = back;
            Looked {
                disk,
                line: Err(fault),
            }
        }
    }
}

/// Answers the query over an opened store.
fn look_in<J: Index, R: AllocGlobal + Wait, D: Disk>(
    rt: &R,
    unnamed: Unnamed<D>,
    query: &Query,
    book: &Book,
) -> Looked<D>
    requires name { unnamed.index.name ≡ J.name }
    requires played { IsPlayed query.now }
    requires valid { IsValid query.now.at }
    requires top { query.now.top ≤ 4 }
    requires recent { query.now.recent ≤ 4 }
    ensures disk { result.disk ≡ unnamed.manifest.disk }
    ensures line { LooksIn book.now query.now (journal_of unnamed.index.list) result.line }
{
    match unnamed.named::<J>(rt.alloc()) {
        Ok((ingest, _passes, _drawer)) => {
            let line = line_in(rt.alloc(), ingest.publisher(), query, book);
            Looked {
                disk: ingest.into_disk(rt),
                line,
            }
        }
        Err(unnamed) => Looked {
            disk: unnamed.into_disk(rt),
            line: Err(OpenFault::OutOfMemory),
        },
    }
}

/// The line that answers the query over what is published, or that memory is wanting.
fn line_in<J: Index>(
    alloc: Global,
    publisher: &Publisher<J>,
    query: &Query,
    book: &Book,
) -> Result<Vec<u8>, OpenFault>
    requires played { IsPlayed query.now }
    requires valid { IsValid query.now.at }
    requires top { query.now.top ≤ 4 }
    requires recent { query.now.recent ≤ 4 }
    ensures { LooksIn book.now query.now (journal_of publisher.now.list) result }
{
    match line_for(alloc, book, publisher, query) {
        Ok(line) => Ok(line),
        Err(_) => Err(OpenFault::OutOfMemory),
    }
}
