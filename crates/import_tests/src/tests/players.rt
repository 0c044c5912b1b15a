//! Connections on which a player's games are asked for.
ghost use Rattle.std.specs.Prelude.{◌≡◌};
ghost use Rattle.explorer_model.specs.Timeline.{IsPrefix};

use super::{name_ingest, new_store};
use disk_model::MemDisk;
use import_run::DeskHandle;
use ingest_desk::{Desk, Unnamed};
use opening_names::Book;
use outside::{MemDoor, MemLink, MemSink, MemSource};
use player_index::PlayerIndex;
use published_index::{Drawer, Index, Pass};
use session::{DoorEnd, Ended, serve_all, serve_door, serve_named};
use std::alloc::{AllocError, Global};
use std::marker::Brand;
use std::process::Abort;
use std::sync::{Mutex, Wait};
use std::test::Fail;
use std::thread::Threads;

// ---- what is asked and replied

/// What is asked on one connection, and what has to be replied.
#[derive(Drop)]
struct Talk {
    requests: Vec<u8>,
    replies: Vec<u8>,
}

/// The status of a reply, with the line that it alone has.
#[derive(Clone, Copy)]
struct Head {
    status: &'static str,
    line: &'static str,
}

const OVER_ONE: Head = Head {
    status: "200 OK",
    line: "X-Explorer-Batches: 1\r\n",
};

const OVER_TWO: Head = Head {
    status: "200 OK",
    line: "X-Explorer-Batches: 2\r\n",
};

const MALFORMED: Head = Head {
    status: "400 Bad Request",
    line: "",
};

const ABSENT: Head = Head {
    status: "404 Not Found",
    line: "",
};

const BY_GET: Head = Head {
    status: "405 Method Not Allowed",
    line: "Allow: GET\r\n",
};

impl Talk {
    fn new(alloc: Global) -> Self {
        Talk {
            requests: Vec::new(alloc),
            replies: Vec::new(alloc),
        }
    }

    fn reply(&mut self, alloc: Global, head: Head, body: &str) -> Result<(), AllocError> {
        let length = body.len();
        let Head { status, line } = head;
        let reply = format!(in alloc;
            "HTTP/1.1 {status}\r\nContent-Type: application/json\r\nContent-Length: {length}\r\n\
             {line}\r\n{body}"
        )?;
        self.replies.extend_from_slice(reply.as_bytes())
    }

    /// A request by its method and target, and its reply.
    fn ask(
        &mut self,
        alloc: Global,
        asked: &str,
        head: Head,
        body: &str,
    ) -> Result<(), AllocError> {
        let request = format!(in alloc; "{asked} HTTP/1.1\r\n\r\n")?;
        self.requests.extend_from_slice(request.as_bytes())?;
        self.reply(alloc, head, body)
    }

    /// The import of a game, behind which there are so many batches.
    fn store(
        &mut self,
        alloc: Global,
        text: &str,
        head: Head,
        body: &str,
    ) -> Result<(), AllocError> {
        let length = text.len();
        let head_text = format!(in alloc;
            "POST /import HTTP/1.1\r\nContent-Length: {length}\r\n\r\n"
        )?;
        self.requests.extend_from_slice(head_text.as_bytes())?;
        self.requests.extend_from_slice(text.as_bytes())?;
        self.reply(alloc, head, body)
    }
}

const ONE_STORED: &str = "{\"batches\":1,\"refused\":[],\"stored\":1}";

const TWO_STORED: &str = "{\"batches\":2,\"refused\":[],\"stored\":1}";

const ANN_WITH_WHITE: &str = "GET /player?player=ann&color=white";

/// A game that Ann won with White against Bob.
fn text(alloc: Global, id: &str, moves: &str) -> Result<String, AllocError> {
    format!(in alloc;
        "[Event \"Rated blitz game\"]\n[Site \"https://lichess.org/{id}\"]\n\
         [White \"Ann\"]\n[Black \"Bob\"]\n[Result \"1-0\"]\n[UTCDate \"2020.01.15\"]\n\
         [WhiteElo \"1500\"]\n[BlackElo \"1400\"]\n[TimeControl \"300+0\"]\n\n{moves}\n"
    )
}

const GAME: &str =
    "{\"black\":{\"name\":\"Bob\",\"rating\":1400},\"id\":\"aaaaaaa1\",\"mode\":\"rated\",\
\"month\":\"2020-01\",\"speed\":\"blitz\",\"uci\":\"e2e4\",\"white\":{\"name\":\"Ann\",\
\"rating\":1500},\"winner\":\"white\",\"year\":2020}";

/// The answer for Ann with White, where she won so many games and e4 was played in that one.
fn answer(alloc: Global, opening: &str, wins: u32) -> Result<String, AllocError> {
    format!(in alloc;
        "{{\"black\":0,\"draws\":0,\"moves\":[{{\"averageOpponentRating\":1400,\"black\":0,\
         \"draws\":0,\"game\":{GAME},\"opening\":{opening},\"san\":\"e4\",\"uci\":\"e2e4\",\
         \"white\":1}}],\"opening\":null,\"recentGames\":[{GAME}],\"white\":{wins}}}"
    )
}

/// The answer over all games, whatever the player.
fn answer_of_all(alloc: Global) -> Result<String, AllocError> {
    format!(in alloc;
        "{{\"black\":0,\"draws\":0,\"moves\":[{{\"averageRating\":1500,\"black\":0,\"draws\":0,\
         \"game\":{GAME},\"opening\":null,\"san\":\"e4\",\"uci\":\"e2e4\",\"white\":1}}],\
         \"opening\":null,\"recentGames\":[{GAME}],\"topGames\":[{GAME}],\"white\":1}}"
    )
}

const NO_GAME: &str =
    "{\"black\":0,\"draws\":0,\"moves\":[],\"opening\":null,\"recentGames\":[],\"white\":0}";

const WITHOUT_NAME: &str = "{\"error\":\"malformed parameter\",\"parameter\":\"player\"}";

const OTHER_METHOD: &str = "{\"error\":\"method not allowed\"}";

const NOT_FOUND: &str = "{\"error\":\"not found\"}";

/// The import of a game of Ann in which e4 was played.
fn store_game(alloc: Global, talk: &mut Talk) -> Result<(), AllocError> {
    let game = text(alloc, "aaaaaaa1", "1. e4 c5 1-0")?;
    talk.store(alloc, game.as_str(), OVER_ONE, ONE_STORED)
}

/// The same query string for all games and for a player's, twice, so that the second answers may be
/// ones that are kept.
fn ask_both(alloc: Global, talk: &mut Talk) -> Result<(), AllocError> {
    let all = answer_of_all(alloc)?;
    let hers = answer(alloc, "null", 1)?;
    for _ in 0..2u32 {
        talk.ask(
            alloc,
            "GET /lichess?player=ann&color=white",
            OVER_ONE,
            all.as_str(),
        )?;
        talk.ask(alloc, ANN_WITH_WHITE, OVER_ONE, hers.as_str())?;
    }
    Ok(())
}

/// The import of Ann's game, and what is asked then.
fn talk_of_ann(alloc: Global) -> Result<Talk, AllocError> {
    let mut talk = Talk::new(alloc);
    store_game(alloc, &mut talk)?;
    ask_both(alloc, &mut talk)?;
    talk.ask(
        alloc,
        "GET /player?player=ann&color=black",
        OVER_ONE,
        NO_GAME,
    )?;
    talk.ask(alloc, "GET /player?color=white", MALFORMED, WITHOUT_NAME)?;
    talk.ask(
        alloc,
        "POST /player?player=ann&color=white",
        BY_GET,
        OTHER_METHOD,
    )?;
    Ok(talk)
}

/// The path is asked for where no player's games are offered.
fn talk_of_nobody(alloc: Global) -> Result<Talk, AllocError> {
    let mut talk = Talk::new(alloc);
    talk.ask(alloc, ANN_WITH_WHITE, ABSENT, NOT_FOUND)?;
    talk.ask(alloc, "POST /player", ABSENT, NOT_FOUND)?;
    Ok(talk)
}

const KINGS_PAWN: &str = "{\"eco\":\"B00\",\"name\":\"King's Pawn Game\"}";

/// What is asked for Ann with White, where she won so many games.
fn ask_of_ann(alloc: Global, talk: &mut Talk, head: Head, wins: u32) -> Result<(), AllocError> {
    let answer = answer(alloc, KINGS_PAWN, wins)?;
    talk.ask(alloc, ANN_WITH_WHITE, head, answer.as_str())
}

/// The first reader imports a game and asks.
fn first_talk(alloc: Global) -> Result<Talk, AllocError> {
    let mut talk = Talk::new(alloc);
    store_game(alloc, &mut talk)?;
    ask_of_ann(alloc, &mut talk, OVER_ONE, 1)?;
    Ok(talk)
}

/// The second one asks, imports another game and asks again.
fn second_talk(alloc: Global) -> Result<Talk, AllocError> {
    let mut talk = Talk::new(alloc);
    ask_of_ann(alloc, &mut talk, OVER_ONE, 1)?;
    let other = text(alloc, "aaaaaaa2", "1-0")?;
    talk.store(alloc, other.as_str(), OVER_TWO, TWO_STORED)?;
    ask_of_ann(alloc, &mut talk, OVER_TWO, 2)?;
    Ok(talk)
}

/// The first one asks again.
fn last_talk(alloc: Global) -> Result<Talk, AllocError> {
    let mut talk = Talk::new(alloc);
    ask_of_ann(alloc, &mut talk, OVER_TWO, 2)?;
    Ok(talk)
}

/// What two readers are asked: the first, the second, and the first again.
#[derive(Drop)]
struct Talks {
    first: Talk,
    second: Talk,
    last: Talk,
}

// ---- over a store

/// What is tried over a new store.
#[derive(Drop)]
enum Trial {
    /// One connection of a door.
    AtADoor(Talk),
    /// A connection where no player's games are offered.
    Unoffered(Talk),
    ByTwo(Talks),
}

fn link_of(alloc: Global, talk: &Talk) -> Result<MemLink, AllocError> {
    let requests = talk.requests.as_slice().to_vec(alloc)?;
    let source = MemSource::new(requests, 4096, Vec::new(alloc));
    Ok(MemLink::new(source, MemSink::new(alloc, 1_000_000, Vec::new(alloc))?))
}

fn at_a_door<J: Index, R: Threads + Wait + Sync>(
    rt: &R,
    alloc: Global,
    handle: &mut DeskHandle<'_, MemDisk, J>,
    pass: &mut Pass<J>,
    talk: &Talk,
    book: &Book,
) -> Result<bool, Fail> {
    let links = vec![in alloc; link_of(alloc, talk)?]?;
    let mut door = MemDoor::new(alloc, links, 1, Vec::new(alloc))?;
    let mut players = PlayerIndex::new(alloc);
    let end = serve_door(rt, alloc, &mut door, pass, handle, book, &mut players);
    let [link] = door.taken_back() else {
        return Ok(false);
    };
    Ok(end == DoorEnd::Whole && link.written() == talk.replies.as_slice())
}

fn without_players<J: Index, R: Threads + Wait + Sync>(
    rt: &R,
    alloc: Global,
    handle: &mut DeskHandle<'_, MemDisk, J>,
    pass: &mut Pass<J>,
    talk: &Talk,
    book: &Book,
) -> Result<bool, Fail> {
    let mut link = link_of(alloc, talk)?;
    let ended = serve_named(rt, alloc, &mut link, pass, handle, book);
    Ok(ended == Ended::Done && link.written() == talk.replies.as_slice())
}

/// Whether a reader with the index replies so.
fn replies_so<J: Index, R: Threads + Wait + Sync>(
    rt: &R,
    alloc: Global,
    handle: &mut DeskHandle<'_, MemDisk, J>,
    pass: &mut Pass<J>,
    players: &mut PlayerIndex,
    talk: &Talk,
    book: &Book,
) -> Result<bool, Fail>
    requires { IsPrefix players.old.batches pass.old.seen }
    ensures { IsPrefix players.new.batches pass.new.seen }
{
    let mut link = link_of(alloc, talk)?;
    let ended = serve_all(rt, alloc, &mut link, pass, handle, book, players);
    Ok(ended == Ended::Done && link.written() == talk.replies.as_slice())
}

fn by_two<J: Index, R: Threads + Wait + Sync>(
    rt: &R,
    alloc: Global,
    handle: &mut DeskHandle<'_, MemDisk, J>,
    one: &mut Pass<J>,
    two: &mut Pass<J>,
    talks: &Talks,
    book: &Book,
) -> Result<bool, Fail> {
    let mut ones = PlayerIndex::new(alloc);
    let mut twos = PlayerIndex::new(alloc);
    let begun = replies_so(rt, alloc, handle, one, &mut ones, &talks.first, book)?;
    let other = replies_so(rt, alloc, handle, two, &mut twos, &talks.second, book)?;
    let again = replies_so(rt, alloc, handle, one, &mut ones, &talks.last, book)?;
    // Each index has grown by what its own reader was asked.
    Ok(begun && other && again && ones.covered() == 2 && twos.covered() == 2)
}

/// Whether the replies are what they have to be.
fn is_tried<J: Index, R: Threads + Wait + Sync>(
    rt: &R,
    alloc: Global,
    desk: &Desk<MemDisk, J>,
    passes: Vec<Pass<J>>,
    drawer: Drawer<J>,
    trial: &Trial,
    book: &Book,
) -> Result<bool, Fail> {
    let mut passes = passes;
    let mut two = passes.pop().ok_or("there are two readers")?;
    let mut one = passes.pop().ok_or("there are two readers")?;
    let mut handle = DeskHandle::new(desk, drawer, 2);
    match trial {
        Trial::AtADoor(talk) => at_a_door(rt, alloc, &mut handle, &mut one, talk, book),
        Trial::Unoffered(talk) => without_players(rt, alloc, &mut handle, &mut one, talk, book),
        Trial::ByTwo(talks) => by_two(rt, alloc, &mut handle, &mut one, &mut two, talks, book),
    }
}

fn is_tried_over_a_store<J: Index, R: Threads + Wait + Abort + Sync>(
    rt: &R,
    alloc: Global,
    unnamed: Unnamed<MemDisk>,
    trial: &Trial,
    book: &Book,
) -> Result<bool, Fail>
    requires { unnamed.index.name ≡ J.name }
{
    let (ingest, passes, drawer) = name_ingest::<J, R>(rt, alloc, unnamed)?;
    let desk = Mutex::new(ingest);
    let tried = is_tried(rt, alloc, &desk, passes, drawer, trial, book);
    let _disk = desk.into_inner().into_disk(rt);
    tried
}

fn tries<R: Threads + Wait + Abort + Sync>(
    rt: &R,
    alloc: Global,
    trial: &Trial,
    book: &Book,
) -> Result<bool, Fail> {
    let unnamed = new_store(rt, alloc, Vec::new(alloc))?;
    is_tried_over_a_store::<Brand, _>(rt, alloc, unnamed, trial, book)
}

#[test]
fn player_is_answered_beside_all_games(rt: HostRuntime) -> Result<(), Fail> {
    let alloc: Global = rt.alloc();
    let trial = Trial::AtADoor(talk_of_ann(alloc)?);
    assert!(rt; tries(&rt, alloc, &trial, &Book::empty(alloc))?);
    Ok(())
}

#[test]
fn path_of_players_is_absent_where_none_are_offered(rt: HostRuntime) -> Result<(), Fail> {
    let alloc: Global = rt.alloc();
    let trial = Trial::Unoffered(talk_of_nobody(alloc)?);
    assert!(rt; tries(&rt, alloc, &trial, &Book::empty(alloc))?);
    Ok(())
}

#[test]
fn each_reader_has_an_index_of_its_own(rt: HostRuntime) -> Result<(), Fail> {
    let alloc: Global = rt.alloc();
    let Ok(book) = Book::read(alloc, b"B00\tKing's Pawn Game\t1. e4") else {
        return Err(Fail::from("no book"));
    };
    let trial = Trial::ByTwo(Talks {
        first: first_talk(alloc)?,
        second: second_talk(alloc)?,
        last: last_talk(alloc)?,
    });
    assert!(rt; tries(&rt, alloc, &trial, &book)?);
    Ok(())
}
