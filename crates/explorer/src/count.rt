//! The command `count`: stores the games of a stream in a new store, and answers a query over them.
ghost use Rattle.std.specs.Prelude.{◌≡◌, ◌≢◌, ◌≤◌, [], None, IfErr, IfOk, option_map, string_bytes};
ghost use Rattle.host.specs.Hosts.{HostState};
ghost use Rattle.explorer_model.specs.Chess.{IsValid};
ghost use Rattle.ingest_desk.specs.Stored.{journal};
ghost use Rattle.session.specs.Naming.{IsPlayed};
ghost use Rattle.explorer.specs.Count.{CountedTo, Counts, CountsOver, ReadsBelow};
ghost use Rattle.explorer.specs.Lines.{ending_of};
ghost use Rattle.explorer.specs.World.{world};
ghost use Rattle.explorer.specs.declared.fault.Fault.{Fault as AFault};

use crate::answer::line_for;
use crate::fault::Fault;
use crate::importing::import_into;
use crate::opening::new_store;
use crate::openings::book_of;
use crate::report::{report, write_lines, write_made};
use disk_model::{Disk, Unkept};
use explorer_model::fault::Refusal;
use explorer_model::label::Label;
use explorer_model::query::Query;
use host::Host;
use ingest_desk::{Ingest, Unnamed};
use opening_names::Book;
use outside::{Sink, Source};
use published_index::{Drawer, Index};
use query_params::laws::queries_play_legal_moves;
use query_params::query;
use side_by_side::Workers;
use std::alloc::AllocError;
use std::marker::Brand;
use std::sync::Wait;
use std::thread::Threads;

/// Reads the query and then the file of openings, where one of this name is given, and counts the
/// input.
pub fn count<R: AllocGlobal + Wait + Threads + Sync, I: Source, O: Sink, E: Sink, H: Host>(
    rt: &R,
    query_text: &[u8],
    openings: Option<String>,
    workers: Workers,
    input: &mut I,
    output: &mut O,
    errors: &mut E,
    host: &mut H,
) -> Result<(), Fault>
    ensures { let before = world (I.source input.old) (O.sink output.old) (E.sink errors.old)
        (H.host host.old) in
        let after = world (I.source input.new) (O.sink output.new) (E.sink errors.new)
        (H.host host.new) in
        Counts query_text.now (option_map string_bytes openings) before after (ending_of result) }
{
    // law: a query plays legal moves, which lead to the position asked for
    queries_play_legal_moves();
    let query = match query(rt.alloc(), query_text) {
        Ok(query) => query,
        Err(stop) => return Err(Fault::from(stop)),
    };
    let book = match book_of(rt.alloc(), openings, host) {
        Ok(book) => book,
        Err(fault) => return Err(fault),
    };
    count_by(rt, &query, &book, workers, input, output, errors)
}

/// Reads the input, reports what is refused of it, and prints the answer over its games, with the
/// openings that the book names. Ids are compared over the whole input. Where memory is wanting for the
/// report of an input that was not read to its end, why it was not is told all the same.
fn count_by<R: AllocGlobal + Wait + Threads + Sync, I: Source, O: Sink, E: Sink>(
    rt: &R,
    query: &Query,
    book: &Book,
    workers: Workers,
    input: &mut I,
    output: &mut O,
    errors: &mut E,
) -> Result<(), Fault>
    requires played { IsPlayed query.now }
    requires valid { IsValid query.now.at }
    requires top { query.now.top ≤ 4 }
    requires recent { query.now.recent ≤ 4 }
    ensures { (host : HostState) →
        let before = world (I.source input.old) (O.sink output.old) (E.sink errors.old) host in
        let after = world (I.source input.new) (O.sink output.new) (E.sink errors.new) host in
        CountsOver query.now book.now before after (ending_of result) }
{
    let counted = count_input(rt, query, book, workers, input)?;
    let Counted { refused, line } = counted;
    let made = report(rt.alloc(), refused.as_slice());
    let answer = match line {
        Ok(line) => line,
        Err(fault) => {
            write_made(errors, made);
            return Err(fault);
        }
    };
    let lines = made?;
    let reported = write_lines(errors, lines.as_slice());
    let answered = output.write(answer.as_slice());
    reported?;
    answered?;
    Ok(())
}

/// What is refused of the input, and the line that answers the query over its games, or why the
/// input was not read to its end.
#[derive(Debug, Drop)]
struct Counted {
    refused: Vec<Refusal>,
    line: Result<Vec<u8>, Fault>,
}

/// Stores the games of the input in a new store, which nothing is kept of, and answers the query
/// over them.
fn count_input<R: AllocGlobal + Wait + Threads + Sync, I: Source>(
    rt: &R,
    query: &Query,
    book: &Book,
    workers: Workers,
    input: &mut I,
) -> Result<Counted, AllocError>
    requires played { IsPlayed query.now }
    requires valid { IsValid query.now.at }
    requires top { query.now.top ≤ 4 }
    requires recent { query.now.recent ≤ 4 }
    ensures counted { IfOk result (λ counted. CountedTo book.now query.now 0 0 (I.source input.old)
        (I.source input.new) counted.refused.items counted.line) }
    ensures starves { IfErr result
        (λ _. ReadsBelow (I.source input.old) (I.source input.new)) }
{
    let unnamed = new_store(rt)?;
    count_unnamed::<Brand, R, I>(rt, unnamed, query, book, workers, input)
}

/// The same, where the store is made.
fn count_unnamed<J: Index, R: AllocGlobal + Wait + Threads + Sync, I: Source>(
    rt: &R,
    unnamed: Unnamed<Unkept>,
    query: &Query,
    book: &Book,
    workers: Workers,
    input: &mut I,
) -> Result<Counted, AllocError>
    requires name { unnamed.index.name ≡ J.name }
    requires sound { unnamed.manifest.fault ≡ None }
    requires empty { unnamed.index.list ≡ [] }
    requires played { IsPlayed query.now }
    requires valid { IsValid query.now.at }
    requires top { query.now.top ≤ 4 }
    requires recent { query.now.recent ≤ 4 }
    ensures counted { IfOk result (λ counted. CountedTo book.now query.now 0 0 (I.source input.old)
        (I.source input.new) counted.refused.items counted.line) }
    ensures starves { IfErr result
        (λ _. ReadsBelow (I.source input.old) (I.source input.new)) }
{
    let (mut ingest, _passes, mut drawer) = match unnamed.named::<J>(rt.alloc()) {
        Ok(named) => named,
        Err(unnamed) => {
            let _disk = unnamed.into_disk(rt);
            return Err(AllocError);
        }
    };
    let counted = count_in(rt, &mut ingest, &mut drawer, query, book, workers, input);
    let _disk = ingest.into_disk(rt);
    counted
}

/// The same, where the store without a batch is open.
#[tactic(auto, using(crate::proofs::CountLemmas::counted_all, crate::proofs::CountLemmas::below_whole, crate::proofs::CountLemmas::below_lacking))]
fn count_in<J: Index, R: AllocGlobal + Wait + Threads + Sync, I: Source, D: Disk>(
    rt: &R,
    ingest: &mut Ingest<D, J>,
    drawer: &mut Drawer<J>,
    query: &Query,
    book: &Book,
    workers: Workers,
    input: &mut I,
) -> Result<Counted, AllocError>
    requires sound { ingest.old.manifest.fault ≡ None }
    requires empty { journal ingest.old ≡ [] }
    requires played { IsPlayed query.now }
    requires valid { IsValid query.now.at }
    requires top { query.now.top ≤ 4 }
    requires recent { query.now.recent ≤ 4 }
    ensures counted { IfOk result (λ counted. CountedTo book.now query.now
        (D.disk ingest.old.manifest.disk).faults (D.disk ingest.new.manifest.disk).faults
        (I.source input.old) (I.source input.new) counted.refused.items counted.line) }
    ensures starves { IfErr result
        (λ _. ReadsBelow (I.source input.old) (I.source input.new)) }
{
    let came = import_into(rt, ingest, drawer, input, Label::none(), workers);
    match came.fault() {
        Some(fault) => {
            let fault = unless_memory(fault)?;
            Ok(Counted {
                refused: came.refused,
                line: Err(fault),
            })
        }
        None => {
            // A batch that is stored may be held until there is memory to publish it.
            ingest.catch_up(rt)?;
            let line = line_for(rt.alloc(), book, ingest.publisher(), query)?;
            Ok(Counted {
                refused: came.refused,
                line: Ok(line),
            })
        }
    }
}

/// The fault, unless it is that memory was wanting.
fn unless_memory(fault: Fault) -> Result<Fault, AllocError>
    ensures same { IfOk result (λ other. other ≡ fault) }
    ensures other { IfOk result (λ other. other ≢ AFault.OutOfMemory) }
    ensures memory { IfErr result (λ _. fault ≡ AFault.OutOfMemory) }
{
    match fault {
        Fault::OutOfMemory => Err(AllocError),
        _ => Ok(fault),
    }
}
