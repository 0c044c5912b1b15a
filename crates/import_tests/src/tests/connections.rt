//! Connections over a desk.
ghost use Rattle.std.specs.Prelude.{◌≡◌};

use super::{name_ingest, new_store};
use disk_model::MemDisk;
use import_run::DeskHandle;
use ingest_desk::{Desk, Unnamed};
use outside::{MemLink, MemSink, MemSource};
use published_index::{Drawer, Index, Pass};
use session::{Ended, serve_connection};
use std::alloc::{AllocError, Global};
use std::marker::Brand;
use std::process::Abort;
use std::sync::{Mutex, Wait};
use std::test::Fail;
use std::thread::Threads;

/// What one reader is asked on one connection, and whether its first reply can't be written.
#[derive(Drop)]
struct Talk {
    reader: usize,
    requests: Vec<u8>,
    is_broken: bool,
}

const GET: &str = "GET /lichess HTTP/1.1\r\n\r\n";

const NOTHING: &str = "{\"black\":0,\"draws\":0,\"moves\":[],\"opening\":null,\"recentGames\":[],\
\"topGames\":[],\"white\":0}";

const ONE_GAME: &str = "{\"black\":0,\"draws\":0,\"moves\":[],\"opening\":null,\"recentGames\":[],\
\"topGames\":[],\"white\":1}";

const STORED: &str = "{\"batches\":1,\"refused\":[],\"stored\":1}";

/// A game that White won.
fn text(alloc: Global, id: &str, moves: &str) -> Result<Vec<u8>, AllocError> {
    let text = format!(in alloc;
        "[Event \"Rated blitz game\"]\n[Site \"https://lichess.org/{id}\"]\n\
         [White \"Ann\"]\n[Black \"Bob\"]\n[Result \"1-0\"]\n[UTCDate \"2020.01.15\"]\n\
         [WhiteElo \"1500\"]\n[BlackElo \"1400\"]\n[TimeControl \"300+0\"]\n\n{moves}\n"
    )?;
    Ok(text.into_bytes())
}

/// The import of a body.
fn post(alloc: Global, body: &[u8]) -> Result<Vec<u8>, AllocError> {
    let length = body.len();
    let head = format!(in alloc; "POST /import HTTP/1.1\r\nContent-Length: {length}\r\n\r\n")?;
    let mut request = head.into_bytes();
    request.extend_from_slice(body)?;
    Ok(request)
}

/// A reply with a number of batches.
fn found_reply(alloc: Global, batches: u32, body: &str) -> Result<Vec<u8>, AllocError> {
    let length = body.len();
    let reply = format!(in alloc;
        "HTTP/1.1 200 OK\r\nContent-Type: application/json\r\nContent-Length: {length}\r\n\
         X-Explorer-Batches: {batches}\r\n\r\n{body}"
    )?;
    Ok(reply.into_bytes())
}

/// A reply that nothing is stored any more.
fn failure(alloc: Global, body: &str) -> Result<Vec<u8>, AllocError> {
    let length = body.len();
    let reply = format!(in alloc;
        "HTTP/1.1 500 Internal Server Error\r\nContent-Type: application/json\r\n\
         Content-Length: {length}\r\n\r\n{body}"
    )?;
    Ok(reply.into_bytes())
}

/// The import of a game without a move.
fn post_of(alloc: Global, id: &str) -> Result<Vec<u8>, AllocError> {
    post(alloc, text(alloc, id, "1-0")?.as_slice())
}

/// Replies with numbers of batches, one behind the other.
fn found_each(alloc: Global, replies: &[(u32, &str)]) -> Result<Vec<u8>, AllocError> {
    let mut all = Vec::new(alloc);
    for (batches, body) in replies {
        all.extend_from_slice(found_reply(alloc, *batches, body)?.as_slice())?;
    }
    Ok(all)
}

/// Whether these replies were written, and nothing else.
fn are_found(alloc: Global, written: &[u8], replies: &[(u32, &str)]) -> Result<bool, AllocError> {
    Ok(written == found_each(alloc, replies)?.as_slice())
}

/// What is written on each connection, over a new store on a disk, of whose calls these fail.
fn replies<R: Threads + Wait + Abort + Sync>(
    rt: &R,
    alloc: Global,
    failing: Vec<u64>,
    talks: Vec<Talk>,
) -> Result<Vec<Vec<u8>>, Fail> {
    let unnamed = new_store(rt, alloc, failing)?;
    converse::<Brand, _>(rt, alloc, unnamed, talks)
}

fn converse<J: Index, R: Threads + Wait + Abort + Sync>(
    rt: &R,
    alloc: Global,
    unnamed: Unnamed<MemDisk>,
    talks: Vec<Talk>,
) -> Result<Vec<Vec<u8>>, Fail>
    requires { unnamed.index.name ≡ J.name }
{
    let (ingest, passes, drawer) = name_ingest::<J, R>(rt, alloc, unnamed)?;
    let desk = Mutex::new(ingest);
    let written = converse_each(rt, alloc, &desk, passes, drawer, talks);
    let _disk = desk.into_inner().into_disk(rt);
    written
}

fn converse_each<J: Index, R: Threads + Wait + Sync>(
    rt: &R,
    alloc: Global,
    desk: &Desk<MemDisk, J>,
    passes: Vec<Pass<J>>,
    drawer: Drawer<J>,
    talks: Vec<Talk>,
) -> Result<Vec<Vec<u8>>, Fail> {
    let mut passes = passes;
    let mut handle = DeskHandle::new(desk, drawer, 2);
    let mut all = Vec::new(alloc);
    for talk in talks {
        let pass = passes.get_mut(talk.reader).ok_or("there are two readers")?;
        all.push(serve_talk(rt, alloc, &mut handle, pass, talk)?)?;
    }
    Ok(all)
}

fn serve_talk<J: Index, R: Threads + Wait + Sync>(
    rt: &R,
    alloc: Global,
    handle: &mut DeskHandle<'_, MemDisk, J>,
    pass: &mut Pass<J>,
    talk: Talk,
) -> Result<Vec<u8>, Fail> {
    let wanted = if talk.is_broken {
        Ended::WriteFault
    } else {
        Ended::Done
    };
    let mut link = link_of(alloc, talk)?;
    let ended = serve_connection(rt, alloc, &mut link, pass, handle);
    if ended != wanted {
        return Err(Fail::from("the connection ended otherwise"));
    }
    Ok(link.written().to_vec(alloc)?)
}

/// A link that brings the requests, whose first write fails where it is broken.
fn link_of(alloc: Global, talk: Talk) -> Result<MemLink, AllocError> {
    let mut failing = Vec::new(alloc);
    if talk.is_broken {
        failing.push(0)?;
    }
    let source = MemSource::new(talk.requests, 4096, Vec::new(alloc));
    Ok(MemLink::new(source, MemSink::new(alloc, 1_000_000, failing)?))
}

/// What is written on the one connection of a reader, over a new store on a disk, of whose calls
/// these fail.
fn replies_of_one<R: Threads + Wait + Abort + Sync>(
    rt: &R,
    alloc: Global,
    failing: Vec<u64>,
    requests: Vec<u8>,
) -> Result<Vec<u8>, Fail> {
    let talk = talk_of(0, requests);
    let mut written = replies(rt, alloc, failing, vec![in alloc; talk]?)?;
    if written.len() != 1 {
        return Err(Fail::from("there is one connection"));
    }
    Ok(written.pop().ok_or("what is written")?)
}

/// Whether this is written there.
fn is_replied<R: Threads + Wait + Abort + Sync>(
    rt: &R,
    alloc: Global,
    failing: &[u64],
    requests: Vec<u8>,
    expected: &[u8],
) -> Result<bool, Fail> {
    let written = replies_of_one(rt, alloc, failing.to_vec(alloc)?, requests)?;
    Ok(written.as_slice() == expected)
}

/// The import of a game with these moves, and then a question.
fn post_and_get(alloc: Global, moves: &str) -> Result<Vec<u8>, AllocError> {
    let mut requests = post(alloc, text(alloc, "aaaaaaa1", moves)?.as_slice())?;
    requests.extend_from_slice(GET.as_bytes())?;
    Ok(requests)
}

const GAME: &str =
    "{\"black\":{\"name\":\"Bob\",\"rating\":1400},\"id\":\"aaaaaaa1\",\"mode\":\"rated\",\
\"month\":\"2020-01\",\"speed\":\"blitz\",\"uci\":\"e2e4\",\"white\":{\"name\":\"Ann\",\
\"rating\":1500},\"winner\":\"white\",\"year\":2020}";

/// That a game was stored in which e4 was played, and the answer then.
fn replies_with_game(alloc: Global) -> Result<Vec<u8>, AllocError> {
    let answer = format!(in alloc;
        "{{\"black\":0,\"draws\":0,\"moves\":[{{\"averageRating\":1500,\"black\":0,\"draws\":0,\
         \"game\":{GAME},\"opening\":null,\"san\":\"e4\",\"uci\":\"e2e4\",\"white\":1}}],\
         \"opening\":null,\"recentGames\":[{GAME}],\"topGames\":[{GAME}],\"white\":1}}"
    )?;
    found_each(alloc, &[(1, STORED), (1, answer.as_str())])
}

#[test]
fn game_that_is_posted_is_found(rt: HostRuntime) -> Result<(), Fail> {
    let alloc: Global = rt.alloc();
    let moves = "1. e4 { [%eval 0.17] [%clk 0:00:30] } 1... c5?! { [%clk 0:00:29] } 1-0";
    let expected = replies_with_game(alloc)?;
    let requests = post_and_get(alloc, moves)?;
    assert!(rt; is_replied(&rt, alloc, &[], requests, expected.as_slice())?);
    Ok(())
}

/// A question, the import of a game, and the question again.
fn get_post_and_get(alloc: Global) -> Result<Vec<u8>, AllocError> {
    let mut requests = GET.as_bytes().to_vec(alloc)?;
    requests.extend_from_slice(post_of(alloc, "aaaaaaa1")?.as_slice())?;
    requests.extend_from_slice(GET.as_bytes())?;
    Ok(requests)
}

fn talk_of(reader: usize, requests: Vec<u8>) -> Talk {
    Talk {
        reader,
        requests,
        is_broken: false,
    }
}

/// One reader imports a game between two questions. The other asks, and then imports the same game.
fn talks_of_two(alloc: Global) -> Result<Vec<Talk>, AllocError> {
    let mut talks = Vec::new(alloc);
    talks.push(talk_of(0, get_post_and_get(alloc)?))?;
    talks.push(talk_of(1, GET.as_bytes().to_vec(alloc)?))?;
    talks.push(talk_of(1, post_of(alloc, "aaaaaaa1")?))?;
    Ok(talks)
}

#[test]
fn second_reader_finds_what_the_first_posted(rt: HostRuntime) -> Result<(), Fail> {
    let alloc: Global = rt.alloc();
    let written = replies(&rt, alloc, Vec::new(alloc), talks_of_two(alloc)?)?;
    let again = "{\"batches\":1,\"refused\":[{\"place\":0,\"why\":\"Repeated 0\"}],\"stored\":0}";
    let wanted: [&[(u32, &str)]; 3] = [
        &[(0, NOTHING), (1, STORED), (1, ONE_GAME)],
        &[(1, ONE_GAME)],
        &[(1, again)],
    ];
    assert_eq!(rt; written.len(), 3);
    for (written, replies) in written.iter().zip(wanted) {
        assert!(rt; are_found(alloc, written.as_slice(), replies)?);
    }
    Ok(())
}

/// An import whose reply can't be written, and two connections of the other reader: a question, and
/// one of HTTP/1.0 with another question behind it.
fn broken_talk_and_others(alloc: Global) -> Result<Vec<Talk>, AllocError> {
    let mut broken = talk_of(0, post_of(alloc, "aaaaaaa1")?);
    broken.is_broken = true;
    let mut talks = vec![in alloc; broken]?;
    talks.push(talk_of(1, GET.as_bytes().to_vec(alloc)?))?;
    let mut requests = b"GET /lichess HTTP/1.0\r\n\r\n".to_vec(alloc)?;
    requests.extend_from_slice(GET.as_bytes())?;
    talks.push(talk_of(1, requests))?;
    Ok(talks)
}

/// One game is found, and the connection is closed.
const LAST: &[u8] = b"HTTP/1.1 200 OK\r\nContent-Type: application/json\r\nContent-Length: 88\r\n\
X-Explorer-Batches: 1\r\nConnection: close\r\n\r\n\
{\"black\":0,\"draws\":0,\"moves\":[],\"opening\":null,\"recentGames\":[],\"topGames\":[],\"white\":1}";

#[test]
fn import_stands_whose_reply_is_not_written(rt: HostRuntime) -> Result<(), Fail> {
    let alloc: Global = rt.alloc();
    let written = replies(&rt, alloc, Vec::new(alloc), broken_talk_and_others(alloc)?)?;
    let [broken, other, last] = written.as_slice() else {
        return Err(Fail::from("there are three connections"));
    };
    assert_eq!(rt; broken.len(), 0);
    assert!(rt; are_found(alloc, other.as_slice(), &[(1, ONE_GAME)])?);
    assert_eq!(rt; last.as_slice(), LAST);
    Ok(())
}

/// The imports of three games, and then a question.
fn posts_and_get(alloc: Global) -> Result<Vec<u8>, AllocError> {
    let mut requests = Vec::new(alloc);
    for id in ["aaaaaaa1", "aaaaaaa2", "aaaaaaa3"] {
        requests.extend_from_slice(post_of(alloc, id)?.as_slice())?;
    }
    requests.extend_from_slice(GET.as_bytes())?;
    Ok(requests)
}

/// One game is stored, none behind it, and the one is found.
fn replies_around_a_fault(alloc: Global) -> Result<Vec<u8>, AllocError> {
    let mut replies = found_reply(alloc, 1, STORED)?;
    for body in [
        "{\"error\":\"disk fault\",\"stored\":0}",
        "{\"error\":\"closed\",\"stored\":0}",
    ] {
        replies.extend_from_slice(failure(alloc, body)?.as_slice())?;
    }
    replies.extend_from_slice(found_reply(alloc, 1, ONE_GAME)?.as_slice())?;
    Ok(replies)
}

#[test]
fn disk_fault_closes_the_store_and_readers_go_on(rt: HostRuntime) -> Result<(), Fail> {
    let alloc: Global = rt.alloc();
    // The disk's calls: three of the creation, four of the first commit, and a write before the sync.
    let expected = replies_around_a_fault(alloc)?;
    assert!(rt; is_replied(&rt, alloc, &[8], posts_and_get(alloc)?, expected.as_slice())?);
    Ok(())
}

/// So many requests of a path that is not there.
fn requests_for_nothing(alloc: Global, count: u32) -> Result<Vec<u8>, AllocError> {
    let mut requests = Vec::new(alloc);
    for _ in 0..count {
        requests.extend_from_slice(b"GET / HTTP/1.1\r\n\r\n")?;
    }
    Ok(requests)
}

/// A thousand replies that nothing is found, of which the last one closes the connection.
fn thousand_not_found(alloc: Global) -> Result<Vec<u8>, AllocError> {
    let body = "HTTP/1.1 404 Not Found\r\nContent-Type: application/json\r\nContent-Length: 21\r\n";
    let mut expected = Vec::new(alloc);
    for n in 0..1000u32 {
        expected.extend_from_slice(body.as_bytes())?;
        if n == 999 {
            expected.extend_from_slice(b"Connection: close\r\n")?;
        }
        expected.extend_from_slice(b"\r\n{\"error\":\"not found\"}")?;
    }
    Ok(expected)
}

#[test]
fn connection_has_at_most_a_thousand_requests(rt: HostRuntime) -> Result<(), Fail> {
    let alloc: Global = rt.alloc();
    let expected = thousand_not_found(alloc)?;
    let requests = requests_for_nothing(alloc, 1001)?;
    assert!(rt; is_replied(&rt, alloc, &[], requests, expected.as_slice())?);
    Ok(())
}
