//! Answers that are kept: those that a reader gives again, and when it looks anew.
ghost use Rattle.std.specs.Prelude.{◌≡◌};

use super::{games, name_ingest, new_store};
use disk_model::MemDisk;
use explorer_model::wire::Reply;
use import_run::{DeskHandle, drain};
use ingest_desk::{Desk, Importer, MergeDesk, Unnamed};
use opening_names::Book;
use outside::{MemDoor, MemLink, MemSink, MemSource};
use player_index::PlayerIndex;
use published_index::{Drawer, Index, Pass};
use session::{Answers, Asking, DoorEnd, answer_by, serve_door};
use std::alloc::{AllocError, Global};
use std::marker::Brand;
use std::process::Abort;
use std::sync::{Mutex, Wait};
use std::test::Fail;
use std::thread::Threads;

// ---- what a door is asked and replies

/// What is asked on one connection, and what has to be replied.
#[derive(Drop)]
struct Talk {
    requests: Vec<u8>,
    replies: Vec<u8>,
}

impl Talk {
    fn new(alloc: Global) -> Self {
        Talk {
            requests: Vec::new(alloc),
            replies: Vec::new(alloc),
        }
    }

    /// A reply with a number of batches.
    fn reply(&mut self, alloc: Global, batches: u32, body: &str) -> Result<(), AllocError> {
        let length = body.len();
        let reply = format!(in alloc;
            "HTTP/1.1 200 OK\r\nContent-Type: application/json\r\nContent-Length: {length}\r\n\
             X-Explorer-Batches: {batches}\r\n\r\n{body}"
        )?;
        self.replies.extend_from_slice(reply.as_bytes())
    }

    /// A question, and its answer over so many batches.
    fn ask(
        &mut self,
        alloc: Global,
        query: &str,
        batches: u32,
        body: &str,
    ) -> Result<(), AllocError> {
        let request = format!(in alloc; "GET /lichess?{query} HTTP/1.1\r\n\r\n")?;
        self.requests.extend_from_slice(request.as_bytes())?;
        self.reply(alloc, batches, body)
    }

    /// The import of a game, behind which there are so many batches.
    fn store(&mut self, alloc: Global, text: &[u8], batches: u32) -> Result<(), AllocError> {
        let length = text.len();
        let head = format!(in alloc; "POST /import HTTP/1.1\r\nContent-Length: {length}\r\n\r\n")?;
        self.requests.extend_from_slice(head.as_bytes())?;
        self.requests.extend_from_slice(text)?;
        let body = format!(in alloc; "{{\"batches\":{batches},\"refused\":[],\"stored\":1}}")?;
        self.reply(alloc, batches, body.as_str())
    }
}

const NOTHING: &str = "{\"black\":0,\"draws\":0,\"moves\":[],\"opening\":null,\"recentGames\":[],\
\"topGames\":[],\"white\":0}";

const ONE_GAME: &str = "{\"black\":0,\"draws\":0,\"moves\":[],\"opening\":null,\"recentGames\":[],\
\"topGames\":[],\"white\":1}";

/// The same question around the import of a game.
fn around_an_import(alloc: Global) -> Result<Talk, AllocError> {
    let mut talk = Talk::new(alloc);
    talk.ask(alloc, "", 0, NOTHING)?;
    talk.ask(alloc, "", 0, NOTHING)?;
    talk.store(alloc, games(alloc, 0, 1)?.as_slice(), 1)?;
    talk.ask(alloc, "", 1, ONE_GAME)?;
    talk.ask(alloc, "", 1, ONE_GAME)?;
    Ok(talk)
}

/// A query string of its own for each number.
fn other(alloc: Global, number: u32) -> Result<String, AllocError> {
    format!(in alloc; "moves={number}")
}

/// A question of before, 200 others, and the question again.
fn among_200_others(alloc: Global) -> Result<Talk, AllocError> {
    let mut talk = Talk::new(alloc);
    talk.ask(alloc, "", 1, ONE_GAME)?;
    for number in 0..200 {
        talk.ask(alloc, other(alloc, number)?.as_str(), 1, ONE_GAME)?;
    }
    talk.ask(alloc, "", 1, ONE_GAME)?;
    Ok(talk)
}

/// A name of 6,000 letters.
fn long_name(alloc: Global) -> Result<String, AllocError> {
    let mut name = String::new(alloc);
    for _ in 0..6000u32 {
        name.push('a')?;
    }
    Ok(name)
}

/// A game of a player with this name.
fn game_of(alloc: Global, name: &str) -> Result<String, AllocError> {
    format!(in alloc;
        "[Event \"Rated blitz game\"]\n[Site \"https://lichess.org/aaaaaaa1\"]\n\
         [White \"{name}\"]\n[Black \"Bob\"]\n[Result \"1-0\"]\n[UTCDate \"2020.01.15\"]\n\
         [WhiteElo \"1500\"]\n[BlackElo \"1400\"]\n[TimeControl \"300+0\"]\n\n1. e4 1-0\n"
    )
}

/// That game, as answers list it.
fn listed_of(alloc: Global, name: &str) -> Result<String, AllocError> {
    format!(in alloc;
        "{{\"black\":{{\"name\":\"Bob\",\"rating\":1400}},\"id\":\"aaaaaaa1\",\"mode\":\"rated\",\
         \"month\":\"2020-01\",\"speed\":\"blitz\",\"uci\":\"e2e4\",\"white\":{{\"name\":\"{name}\",\
         \"rating\":1500}},\"winner\":\"white\",\"year\":2020}}"
    )
}

/// The answer over that game and one without a move: 18,900 bytes where the name has 6,000.
fn answer_with(alloc: Global, name: &str) -> Result<String, AllocError> {
    let game = listed_of(alloc, name)?;
    format!(in alloc;
        "{{\"black\":0,\"draws\":0,\"moves\":[{{\"averageRating\":1500,\"black\":0,\"draws\":0,\
         \"game\":{game},\"opening\":null,\"san\":\"e4\",\"uci\":\"e2e4\",\"white\":1}}],\
         \"opening\":null,\"recentGames\":[{game}],\"topGames\":[{game}],\"white\":2}}"
    )
}

/// A question whose answer is too long to be kept, twice.
fn too_long_to_be_kept(alloc: Global) -> Result<Talk, AllocError> {
    let name = long_name(alloc)?;
    let mut talk = Talk::new(alloc);
    talk.store(alloc, game_of(alloc, name.as_str())?.as_bytes(), 2)?;
    let answer = answer_with(alloc, name.as_str())?;
    talk.ask(alloc, "", 2, answer.as_str())?;
    talk.ask(alloc, "", 2, answer.as_str())?;
    Ok(talk)
}

/// The connections of one door, one after another.
fn talks(alloc: Global) -> Result<Vec<Talk>, AllocError> {
    let mut talks = Vec::new(alloc);
    talks.push(around_an_import(alloc)?)?;
    talks.push(among_200_others(alloc)?)?;
    talks.push(too_long_to_be_kept(alloc)?)?;
    Ok(talks)
}

// ---- over a door

fn link(alloc: Global, requests: &[u8]) -> Result<MemLink, Fail> {
    let source = MemSource::new(requests.to_vec(alloc)?, 4096, Vec::new(alloc));
    let sink = MemSink::new(alloc, 1_000_000, Vec::new(alloc))?;
    Ok(MemLink::new(source, sink))
}

fn door_of(alloc: Global, talks: &[Talk]) -> Result<MemDoor, Fail> {
    let mut links = Vec::new(alloc);
    for talk in talks {
        links.push(link(alloc, talk.requests.as_slice())?)?;
    }
    let Ok(connections) = u32::try_from(talks.len()) else {
        return Err(Fail::from("too many"));
    };
    Ok(MemDoor::new(alloc, links, connections, Vec::new(alloc))?)
}

/// Whether each link got the replies of its talk, and nothing else.
fn have_replies(links: &[MemLink], talks: &[Talk]) -> bool {
    if links.len() != talks.len() {
        return false;
    }
    for (link, talk) in links.iter().zip(talks) {
        if link.written() != talk.replies.as_slice() {
            return false;
        }
    }
    true
}

/// Whether one reader with the book replies so to all talks of a door.
fn replies_so<J: Index, R: Threads + Wait + Sync>(
    rt: &R,
    alloc: Global,
    desk: &Desk<MemDisk, J>,
    passes: Vec<Pass<J>>,
    drawer: Drawer<J>,
    talks: &[Talk],
    book: &Book,
) -> Result<bool, Fail> {
    let mut passes = passes;
    let pass = passes.first_mut().ok_or("a pass")?;
    let mut door = door_of(alloc, talks)?;
    let mut handle = DeskHandle::new(desk, drawer, 2);
    let mut players = PlayerIndex::new(alloc);
    let end = serve_door(rt, alloc, &mut door, pass, &mut handle, book, &mut players);
    Ok(end == DoorEnd::Whole && have_replies(door.taken_back(), talks))
}

fn replies_over_a_store<J: Index, R: Threads + Wait + Abort + Sync>(
    rt: &R,
    alloc: Global,
    unnamed: Unnamed<MemDisk>,
    talks: &[Talk],
    book: &Book,
) -> Result<bool, Fail>
    requires { unnamed.index.name ≡ J.name }
{
    let (ingest, passes, drawer) = name_ingest::<J, R>(rt, alloc, unnamed)?;
    let desk = Mutex::new(ingest);
    let replied = replies_so(rt, alloc, &desk, passes, drawer, talks, book);
    let _disk = desk.into_inner().into_disk(rt);
    replied
}

#[test]
fn what_is_asked_again_is_answered_as_before(rt: HostRuntime) -> Result<(), Fail> {
    let alloc: Global = rt.alloc();
    let talks = talks(alloc)?;
    let unnamed = new_store(&rt, alloc, Vec::new(alloc))?;
    let book = Book::empty(alloc);
    assert!(rt; replies_over_a_store::<Brand, _>(&rt, alloc, unnamed, talks.as_slice(), &book)?);
    Ok(())
}

// ---- with a book

const KINGS_PAWN: &str = "{\"eco\":\"B00\",\"name\":\"King's Pawn Game\"}";

/// The answer over Ann's game, whose one move has the opening.
fn answer_named(alloc: Global) -> Result<String, AllocError> {
    let game = listed_of(alloc, "Ann")?;
    format!(in alloc;
        "{{\"black\":0,\"draws\":0,\"moves\":[{{\"averageRating\":1500,\"black\":0,\"draws\":0,\
         \"game\":{game},\"opening\":{KINGS_PAWN},\"san\":\"e4\",\"uci\":\"e2e4\",\"white\":1}}],\
         \"opening\":null,\"recentGames\":[{game}],\"topGames\":[{game}],\"white\":1}}"
    )
}

/// The answer where no game is, behind a move that has the opening.
fn nothing_named(alloc: Global) -> Result<String, AllocError> {
    format!(in alloc;
        "{{\"black\":0,\"draws\":0,\"moves\":[],\"opening\":{KINGS_PAWN},\"recentGames\":[],\
         \"topGames\":[],\"white\":0}}"
    )
}

/// Each question twice: an answer that is kept has the openings too.
fn named_talk(alloc: Global) -> Result<Talk, AllocError> {
    let mut talk = Talk::new(alloc);
    talk.store(alloc, game_of(alloc, "Ann")?.as_bytes(), 1)?;
    let (answer, nothing) = (answer_named(alloc)?, nothing_named(alloc)?);
    for _ in 0..2u32 {
        talk.ask(alloc, "", 1, answer.as_str())?;
        talk.ask(alloc, "play=e2e4,c7c5", 1, nothing.as_str())?;
    }
    Ok(talk)
}

#[test]
fn answers_have_the_openings_of_the_book(rt: HostRuntime) -> Result<(), Fail> {
    let alloc: Global = rt.alloc();
    let Ok(book) = Book::read(alloc, b"B00\tKing's Pawn Game\t1. e4") else {
        return Err(Fail::from("no book"));
    };
    let talks = vec![in alloc; named_talk(alloc)?]?;
    let unnamed = new_store(&rt, alloc, Vec::new(alloc))?;
    assert!(rt; replies_over_a_store::<Brand, _>(&rt, alloc, unnamed, talks.as_slice(), &book)?);
    Ok(())
}

// ---- what is kept

/// Imports a body, which is stored whole.
fn store<J: Index, R: Threads + Wait + Sync>(
    rt: &R,
    alloc: Global,
    handle: &mut DeskHandle<'_, MemDisk, J>,
    body: &[u8],
) -> Result<(), Fail> {
    if body.len() > 4_194_304 {
        return Err(Fail::from("too long"));
    }
    let report = handle.import(rt, alloc, body);
    if report.receipts.len() != 1 {
        return Err(Fail::from("not stored"));
    }
    Ok(())
}

/// One reader with the answers that it keeps.
#[derive(Drop)]
struct Reader<'a, J: Index> {
    pass: Pass<J>,
    kept: Answers<'a, J>,
}

impl<'a, J: Index> Reader<'a, J> {
    /// How many batches the answer to a query string names.
    fn ask(&mut self, alloc: Global, text: &[u8]) -> Result<u32, Fail> {
        match answer_by(alloc, &mut self.pass, &mut self.kept, text) {
            Reply::Found { batches, .. } => Ok(batches),
            _ => Err(Fail::from("no answer")),
        }
    }

    /// How many segments the list has that is entered now, and whether an answer to the query string
    /// is kept that is given again over it.
    fn enters(&mut self, alloc: Global, text: &[u8]) -> Result<(usize, bool), Fail> {
        let snapshot = self.pass.enter(alloc)?;
        let found = self.kept.find(alloc, &self.pass, Asking::Games, text);
        Ok((snapshot.segments().len(), found.is_some()))
    }
}

/// Asks so many other query strings, from a number on.
fn ask_others<J: Index>(
    alloc: Global,
    reader: &mut Reader<'_, J>,
    first: u32,
    count: u32,
) -> Result<(), Fail> {
    for number in first..first.saturating_add(count) {
        let text = other(alloc, number)?;
        reader.ask(alloc, text.as_bytes())?;
    }
    Ok(())
}

/// Batches of 4, 1 and 1 games: the last two are merged behind the import, and the others are due.
fn store_three<J: Index, R: Threads + Wait + Sync>(
    rt: &R,
    alloc: Global,
    handle: &mut DeskHandle<'_, MemDisk, J>,
) -> Result<(), Fail> {
    for (first, count) in [(0, 4), (4, 1), (5, 1)] {
        store(rt, alloc, handle, games(alloc, first, count)?.as_slice())?;
    }
    Ok(())
}

/// What is seen before and behind a first answer, behind a merge, behind one more batch, and behind
/// an answer over that.
fn seen_over_batches<J: Index, R: Threads + Wait + Sync>(
    rt: &R,
    alloc: Global,
    desk: &Desk<MemDisk, J>,
    handle: &mut DeskHandle<'_, MemDisk, J>,
    reader: &mut Reader<'_, J>,
) -> Result<Vec<(usize, bool)>, Fail> {
    let mut seen = Vec::new(alloc);
    store_three(rt, alloc, handle)?;
    seen.push(reader.enters(alloc, b"")?)?;
    reader.ask(alloc, b"")?;
    seen.push(reader.enters(alloc, b"")?)?;
    let _drained = drain(rt, alloc, &MergeDesk::of(desk), 2);
    seen.push(reader.enters(alloc, b"")?)?;
    store(rt, alloc, handle, games(alloc, 6, 1)?.as_slice())?;
    seen.push(reader.enters(alloc, b"")?)?;
    reader.ask(alloc, b"")?;
    seen.push(reader.enters(alloc, b"")?)?;
    Ok(seen)
}

/// What is seen then behind 127 other answers, behind 128 more, and behind an answer that is too
/// long to be kept.
fn seen_over_limits<J: Index, R: Threads + Wait + Sync>(
    rt: &R,
    alloc: Global,
    handle: &mut DeskHandle<'_, MemDisk, J>,
    reader: &mut Reader<'_, J>,
) -> Result<Vec<(usize, bool)>, Fail> {
    let mut seen = Vec::new(alloc);
    ask_others(alloc, reader, 0, 127)?;
    seen.push(reader.enters(alloc, b"")?)?;
    ask_others(alloc, reader, 127, 128)?;
    seen.push(reader.enters(alloc, b"")?)?;
    let name = long_name(alloc)?;
    store(rt, alloc, handle, game_of(alloc, name.as_str())?.as_bytes())?;
    reader.ask(alloc, b"")?;
    seen.push(reader.enters(alloc, b"")?)?;
    Ok(seen)
}

fn seen_by_one<J: Index, R: Threads + Wait + Sync>(
    rt: &R,
    alloc: Global,
    desk: &Desk<MemDisk, J>,
    passes: Vec<Pass<J>>,
    drawer: Drawer<J>,
) -> Result<(Vec<(usize, bool)>, Vec<(usize, bool)>), Fail> {
    let mut passes = passes;
    let book = Book::empty(alloc);
    let mut reader = Reader {
        pass: passes.pop().ok_or("a pass")?,
        kept: Answers::new(alloc, &book),
    };
    let mut handle = DeskHandle::new(desk, drawer, 2);
    let over_batches = seen_over_batches(rt, alloc, desk, &mut handle, &mut reader)?;
    let over_limits = seen_over_limits(rt, alloc, &mut handle, &mut reader)?;
    Ok((over_batches, over_limits))
}

fn seen_over_a_store<J: Index, R: Threads + Wait + Abort + Sync>(
    rt: &R,
    alloc: Global,
    unnamed: Unnamed<MemDisk>,
) -> Result<(Vec<(usize, bool)>, Vec<(usize, bool)>), Fail>
    requires { unnamed.index.name ≡ J.name }
{
    let (ingest, passes, drawer) = name_ingest::<J, R>(rt, alloc, unnamed)?;
    let desk = Mutex::new(ingest);
    let seen = seen_by_one(rt, alloc, &desk, passes, drawer);
    let _disk = desk.into_inner().into_disk(rt);
    seen
}

#[test]
fn answer_is_kept_until_a_batch_comes_or_128_others(rt: HostRuntime) -> Result<(), Fail> {
    let alloc: Global = rt.alloc();
    let unnamed = new_store(&rt, alloc, Vec::new(alloc))?;
    let (over_batches, over_limits) = seen_over_a_store::<Brand, _>(&rt, alloc, unnamed)?;
    // A merge leaves fewer segments and as many batches.
    let expected = [(2, false), (2, true), (1, true), (2, false), (2, true)];
    assert_eq!(rt; over_batches.as_slice(), expected.as_slice());
    let expected = [(2, true), (2, false), (2, false)];
    assert_eq!(rt; over_limits.as_slice(), expected.as_slice());
    Ok(())
}
