//! Connections.
ghost use Rattle.std.specs.Prelude.{◌≡◌, ◌<◌, IfNone, IfSome};
ghost use Rattle.explorer_model.specs.Timeline.{IsPrefix};
ghost use Rattle.outside.specs.Stream.{Stream};
ghost use Rattle.session.specs.Backends.{StaysLent, state_of};
ghost use Rattle.session.specs.Exchanges.{Backend as State, backend};
ghost use Rattle.session.specs.Readers.{IsCovered, offer_of};
ghost use Rattle.session.specs.Replies.{by_book, no_offer, with_players};
ghost use Rattle.session.specs.Serving.{Served};
ghost use Rattle.session.specs.Steps.{IsServing};

use crate::backend::Backend;
use crate::kept_answers::Answers;
use crate::reader::Reader;
use crate::replying::{closes, reply_to};
use explorer_model::wire::Asked;
use http_wire::Wire;
use ingest_desk::Importer;
use opening_names::Book;
use outside::Link;
use player_index::PlayerIndex;
use published_index::{Index, Pass};
use std::alloc::Global;
use std::sync::Wait;
use std::thread::Threads;

/// How a connection ended.
#[derive(Clone, Copy, Debug, PartialEq, Eq)]
pub enum Ended {
    /// The input ended between requests, or the connection was to be closed.
    Done,
    /// The input ended within a request.
    Cut,
    ReadFault,
    WriteFault,
}

/// Serves a connection to its end: at most 1,000 requests, each replied to before the next is read.
/// No opening is named. A read and an import may wait.
pub fn serve_connection<J: Index, L: Link, I: Importer<J>, R: Wait + Threads + Sync>(
    rt: &R,
    alloc: Global,
    link: &mut L,
    pass: &mut Pass<J>,
    importer: &mut I,
) -> Ended
    ensures { Served no_offer (L.source link.old) (backend pass.old (I.importer importer.old))
        result (L.source link.new) (backend pass.new (I.importer importer.new)) }
{
    let book = Book::empty(alloc);
    serve_named(rt, alloc, link, pass, importer, &book)
}

/// The same, where answers have the openings that the book names.
pub fn serve_named<J: Index, L: Link, I: Importer<J>, R: Wait + Threads + Sync>(
    rt: &R,
    alloc: Global,
    link: &mut L,
    pass: &mut Pass<J>,
    importer: &mut I,
    book: &Book,
) -> Ended
    ensures { Served (by_book book.now) (L.source link.old)
        (backend pass.old (I.importer importer.old)) result
        (L.source link.new) (backend pass.new (I.importer importer.new)) }
{
    let mut reader = Reader::new(Answers::none(book));
    let mut backend = Backend {
        pass: &mut *pass,
        importer: &mut *importer,
    };
    serve_by(rt, alloc, link, &mut backend, &mut reader)
}

/// The same, where a player's games are answered for too. The index covers more of what the pass has
/// seen when they are asked for, and what it covers is right for any pass that has seen as much.
pub fn serve_all<J: Index, L: Link, I: Importer<J>, R: Wait + Threads + Sync>(
    rt: &R,
    alloc: Global,
    link: &mut L,
    pass: &mut Pass<J>,
    importer: &mut I,
    book: &Book,
    players: &mut PlayerIndex,
) -> Ended
    requires { IsPrefix players.old.batches pass.old.seen }
    ensures served { Served (with_players book.now) (L.source link.old)
        (backend pass.old (I.importer importer.old)) result
        (L.source link.new) (backend pass.new (I.importer importer.new)) }
    ensures covered { IsPrefix players.new.batches pass.new.seen }
{
    let mut reader = Reader::with_players(alloc, Answers::none(book), players);
    let mut backend = Backend {
        pass: &mut *pass,
        importer: &mut *importer,
    };
    let ended = serve_by(rt, alloc, link, &mut backend, &mut reader);
    reader.give_back(players);
    ended
}

/// The same, by what the reader offers.
pub fn serve_by<J: Index, L: Link, I: Importer<J>, R: Wait + Threads + Sync>(
    rt: &R,
    alloc: Global,
    link: &mut L,
    backend: &mut Backend<'_, J, I>,
    reader: &mut Reader<'_, J>,
) -> Ended
    requires { IsCovered reader.old.players backend.old.pass.now.seen }
    ensures served { Served (offer_of reader.old) (L.source link.old)
        (state_of I.importer backend.old) result
        (L.source link.new) (state_of I.importer backend.new) }
    ensures covered { IsCovered reader.new.players backend.new.pass.now.seen }
    ensures offer { offer_of reader.new ≡ offer_of reader.old }
    ensures lent { StaysLent backend.old backend.new }
{
    let mut wire = Wire::new();
    'serving: loop {
        if let Some(ended) = serve_one(rt, alloc, &mut wire, link, backend, reader) {
            return ended;
        }
    }
}

/// Serves one request, and says how the connection ended, where it did.
fn serve_one<J: Index, L: Link, I: Importer<J>, R: Wait + Threads + Sync>(
    rt: &R,
    alloc: Global,
    wire: &mut Wire,
    link: &mut L,
    backend: &mut Backend<'_, J, I>,
    reader: &mut Reader<'_, J>,
) -> Option<Ended>
    requires more { 0 < wire.old.more }
    requires covered { IsCovered reader.old.players backend.old.pass.now.seen }
    ensures serving { (before : Stream) (start : State)
        → IsServing (offer_of reader.old) before start wire.old (L.source link.old)
        (state_of I.importer backend.old)
        → IfNone result (IsServing (offer_of reader.old) before start wire.new (L.source link.new)
        (state_of I.importer backend.new)) }
    ensures served { (before : Stream) (start : State)
        → IsServing (offer_of reader.old) before start wire.old (L.source link.old)
        (state_of I.importer backend.old)
        → IfSome result (λ ended. Served (offer_of reader.old) before start ended (L.source link.new)
        (state_of I.importer backend.new)) }
    ensures more { IfNone result (0 < wire.new.more) }
    ensures fewer { IfNone result (wire.new.more < wire.old.more) }
    ensures covered { IsCovered reader.new.players backend.new.pass.now.seen }
    ensures offer { offer_of reader.new ≡ offer_of reader.old }
    ensures lent { StaysLent backend.old backend.new }
{
    let asked = wire.next(alloc, link);
    match asked {
        Asked::Done => return Some(Ended::Done),
        Asked::Cut => return Some(Ended::Cut),
        Asked::ReadFault => return Some(Ended::ReadFault),
        _ => {}
    }
    let reply = reply_to(rt, alloc, &asked, backend, reader);
    let last = closes(&asked);
    let Ok(()) = wire.reply(link, &reply, last) else {
        return Some(Ended::WriteFault);
    };
    if last {
        return Some(Ended::Done);
    }
    None
}
