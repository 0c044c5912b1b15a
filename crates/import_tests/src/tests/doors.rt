//! Doors, over an importer that has room for nothing.
ghost use Rattle.std.specs.Prelude.{◌≡◌, ◌∷◌, [], option_map};
ghost use Rattle.ingest_desk.specs.Importers.{TellsAll};

use explorer_model::archive::Bytes;
use ingest_desk::{End, ImportCall, ImportEnding, Importer, Report};
use opening_names::Book;
use outside::{MemDoor, MemLink, MemSink, MemSource};
use player_index::PlayerIndex;
use published_index::{Index, List, Pass, Unnamed, open_list};
use session::{DoorEnd, serve_door};
use std::alloc::Global;
use std::marker::{Brand, PhantomData};
use std::process::Abort;
use std::sync::Wait;
use std::test::Fail;
use std::thread::Threads;

/// An importer that has no room for a text: it imports an empty body whole, and any other ends for
/// want of memory. It tells its calls while there is memory for them.
#[derive(Drop)]
struct RoomForNone<J: Index> {
    calls: Option<Vec<ImportCall>>,
    of: PhantomData<J>,
}

impl<J: Index> Importer<J> for RoomForNone<J> {
    ghost use Rattle.std.specs.Prelude.{option_map};
    ghost use Rattle.published_index.specs.Places.{new_drawing};

    ghost importer = { λ i. record {
      counts = record { disk_faults = 0; closed = 0; full = 0 };
      calls = option_map (λ calls. calls.items) i.calls;
      drawing = new_drawing;
    } };

    fn import<R: Wait + Threads + Sync>(
        &mut self,
        _rt: &R,
        alloc: Global,
        body: &[u8],
    ) -> Report<J> {
        let calls = self.calls.take();
        if body.is_empty() {
            self.calls = with_call(alloc, calls, body, ImportEnding::Whole);
            return report_of(alloc, End::Whole);
        }
        self.calls = with_call(alloc, calls, body, ImportEnding::OutOfMemory);
        report_of(alloc, End::OutOfMemory)
    }
}

/// The report of an import that stored and refused nothing.
fn report_of<J: Index>(alloc: Global, end: End<J>) -> Report<J>
    ensures receipts { result.receipts.items ≡ [] }
    ensures refused { result.refused.items ≡ [] }
    ensures end { result.end ≡ end }
{
    Report {
        receipts: Vec::new(alloc),
        refused: Vec::new(alloc),
        clashes: Vec::new(alloc),
        end,
    }
}

/// The calls with one more, while there is memory for it.
fn with_call(
    alloc: Global,
    calls: Option<Vec<ImportCall>>,
    body: &[u8],
    ending: ImportEnding,
) -> Option<Vec<ImportCall>>
    ensures { TellsAll (option_map (λ calls. calls.items) calls)
        (option_map (λ calls. calls.items) result)
        (record { body = body.now; ending = ending; games = 0 } ∷ []) }
{
    let mut calls = calls?;
    let body = body.to_vec(alloc).ok()?;
    let call = ImportCall {
        body: Bytes::from_vec(body),
        ending,
        games: 0,
    };
    calls.push(call).ok()?;
    Some(calls)
}

/// A link that gives the bytes, at most so many in one read, and takes all replies.
fn link(alloc: Global, bytes: &[u8], most: usize) -> Result<MemLink, Fail> {
    let source = MemSource::new(Vec::from_slice(alloc, bytes)?, most.max(1), Vec::new(alloc));
    let sink = MemSink::new(alloc, 65536, Vec::new(alloc))?;
    Ok(MemLink::new(source, sink))
}

const REQUESTS: &[u8] = b"GET /lichess?moves=x HTTP/1.1\r\n\r\n\
GET /lichess?moves=3 HTTP/1.1\r\n\r\n\
POST /import HTTP/1.1\r\n\r\n\
POST /import HTTP/1.1\r\nContent-Length: 1\r\n\r\nx\
GET /import HTTP/1.1\r\n\r\n\
POST /lichess HTTP/1.1\r\n\r\n\
GET / HTTP/1.1\r\nTransfer-Encoding: chunked\r\n\r\n\
GET / HTTP/1.1\r\n\r\n";

const REPLIES: &[u8] =
    b"HTTP/1.1 400 Bad Request\r\nContent-Type: application/json\r\nContent-Length: 51\r\n\r\n\
{\"error\":\"malformed parameter\",\"parameter\":\"moves\"}\
HTTP/1.1 200 OK\r\nContent-Type: application/json\r\nContent-Length: 88\r\n\
X-Explorer-Batches: 0\r\n\r\n\
{\"black\":0,\"draws\":0,\"moves\":[],\"opening\":null,\"recentGames\":[],\"topGames\":[],\"white\":0}\
HTTP/1.1 200 OK\r\nContent-Type: application/json\r\nContent-Length: 37\r\n\
X-Explorer-Batches: 0\r\n\r\n{\"batches\":0,\"refused\":[],\"stored\":0}\
HTTP/1.1 503 Service Unavailable\r\nContent-Type: application/json\r\nContent-Length: 25\r\n\r\n\
{\"error\":\"out of memory\"}\
HTTP/1.1 405 Method Not Allowed\r\nContent-Type: application/json\r\nContent-Length: 30\r\n\
Allow: POST\r\n\r\n{\"error\":\"method not allowed\"}\
HTTP/1.1 405 Method Not Allowed\r\nContent-Type: application/json\r\nContent-Length: 30\r\n\
Allow: GET\r\n\r\n{\"error\":\"method not allowed\"}\
HTTP/1.1 400 Bad Request\r\nContent-Type: application/json\r\nContent-Length: 23\r\n\
Connection: close\r\n\r\n{\"error\":\"bad request\"}";

#[test]
fn requests_of_a_door_are_answered(rt: HostRuntime) -> Result<(), Fail> {
    let alloc: Global = rt.alloc();
    let unnamed = open_list(&rt, alloc, List::of(Vec::new(alloc)), 1)?;
    answers::<Brand, _>(&rt, alloc, unnamed)
}

fn answers<J: Index, R: Threads + Wait + Abort + Sync>(
    rt: &R,
    alloc: Global,
    unnamed: Unnamed,
) -> Result<(), Fail>
    requires { unnamed.name ≡ J.name }
{
    let (publisher, mut passes, _drawer) = match unnamed.named::<J>(alloc) {
        Ok(index) => index,
        Err(unnamed) => {
            unnamed.close(rt);
            return Err(Fail::from("no room for the passes"));
        }
    };
    let answered = match passes.pop() {
        Some(mut pass) => serves(rt, alloc, &mut pass),
        None => Err(Fail::from("no pass")),
    };
    publisher.close(rt);
    answered
}

fn serves<J: Index, R: Threads + Wait + Abort + Sync>(
    rt: &R,
    alloc: Global,
    pass: &mut Pass<J>,
) -> Result<(), Fail> {
    let mut importer = RoomForNone {
        calls: Some(Vec::new(alloc)),
        of: PhantomData,
    };
    let (end, door) = serve_two_links(rt, alloc, pass, &mut importer)?;
    assert_eq!(rt; end, DoorEnd::Whole);
    let links = door.taken_back();
    assert_eq!(rt; links.len(), 2);
    assert_eq!(rt; links[0].written(), REPLIES);
    assert_eq!(rt; links[1].written(), b"".as_slice());
    assert_eq!(rt; calls_and_last(&importer), Some((2, b"x".as_slice())));
    Ok(())
}

/// Serves a door of two links: one with the requests, and one that ends in the middle of a request.
fn serve_two_links<J: Index, R: Threads + Wait + Sync>(
    rt: &R,
    alloc: Global,
    pass: &mut Pass<J>,
    importer: &mut RoomForNone<J>,
) -> Result<(DoorEnd, MemDoor), Fail> {
    let mut door = door(alloc)?;
    let book = Book::empty(alloc);
    let mut players = PlayerIndex::new(alloc);
    let end = serve_door(rt, alloc, &mut door, pass, importer, &book, &mut players);
    Ok((end, door))
}

fn door(alloc: Global) -> Result<MemDoor, Fail> {
    let links = vec![in alloc; link(alloc, REQUESTS, 7)?, link(alloc, b"GET /", 7)?]?;
    Ok(MemDoor::new(alloc, links, 2, Vec::new(alloc))?)
}

/// How many calls an importer tells, and the body of the last one.
fn calls_and_last<J: Index>(importer: &RoomForNone<J>) -> Option<(usize, &[u8])> {
    let calls = importer.calls.as_ref()?;
    Some((calls.len(), calls.last()?.body.as_slice()))
}
