//! Stores that are served over a host in memory.
ghost use Rattle.std.specs.Prelude.{◌≡◌, [], IfOk};

use super::{NO_GAME, ONE_WHITE, ends, game, game_by_id, games, join_texts, listed_game};
use disk_model::MemDisk;
use host::{MemCall, MemFile, MemHost, MemLinks};
use outside::{MemLink, MemSink, MemSource};
use std::alloc::{AllocError, Global};
use std::test::Fail;

const GET: &str = "GET /lichess HTTP/1.1\r\n\r\n";

/// A store without a batch, some calls of whose disk fail.
fn new_store(alloc: Global, failing: &[u64]) -> Result<MemDisk, AllocError> {
    let disk = MemDisk::new(alloc, 1 << 20, failing.to_vec(alloc)?)?;
    match manifest::create(disk) {
        Ok(manifest) => Ok(manifest.into_disk()),
        Err(_) => Err(AllocError),
    }
}

fn link(alloc: Global, asked: &[&str]) -> Result<MemLink, AllocError> {
    let source = MemSource::new(join_texts(alloc, asked)?.into_bytes(), 64, Vec::new(alloc));
    Ok(MemLink::new(source, MemSink::new(alloc, 8192, Vec::new(alloc))?))
}

/// A link whose peer sends these.
fn one_link(alloc: Global, asked: &[&str]) -> Result<Vec<MemLink>, AllocError> {
    let link = link(alloc, asked)?;
    Ok(vec![in alloc; link]?)
}

/// Two links, and what their peers send.
fn two_links(
    alloc: Global,
    asked_first: &[&str],
    asked_second: &[&str],
) -> Result<Vec<MemLink>, AllocError> {
    let first = link(alloc, asked_first)?;
    let second = link(alloc, asked_second)?;
    Ok(vec![in alloc; first, second]?)
}

/// A door to which these links come, and some accepts of which fail.
fn door(alloc: Global, links: Vec<MemLink>, accepts: &[u64]) -> Result<Vec<MemLinks>, AllocError> {
    let failing = accepts.to_vec(alloc)?;
    Ok(vec![in alloc; MemLinks { links, failing }]?)
}

/// A host with a new store `s`, some calls of whose disk fail, and the address `a`, to which
/// these links come and where some accepts fail.
fn host_with(
    alloc: Global,
    disk: &[u64],
    links: Vec<MemLink>,
    accepts: &[u64],
) -> Result<MemHost, AllocError>
    ensures { IfOk result (λ host. host.calls ≡ []) }
{
    let mut host = MemHost::new(alloc);
    host.add_disk("s", new_store(alloc, disk)?)?;
    host.add_links("a", door(alloc, links, accepts)?)?;
    Ok(host)
}

/// Whether the link of this place that came back with the door was written this.
fn was_written(host: &MemHost, at: usize, told: &str) -> bool {
    let mut same = false;
    for call in host.calls() {
        if let MemCall::DoorBack { door } = call {
            let links = door.taken_back();
            same = at < links.len() && links[at].written() == told.as_bytes();
        }
    }
    same
}

const SERVE: [&str; 7] = ["serve", "s", "a", "--readers", "1", "--connections", "2"];

/// What a report says of a game that was stored, and of one whose text was there before.
const STORED: &str = "{\"batches\":1,\"refused\":[],\"stored\":1}";

const REPEATED: &str =
    "{\"batches\":1,\"refused\":[{\"place\":0,\"why\":\"Repeated 0\"}],\"stored\":0}";

/// A reply over so many batches, or one of status 500, whose body is a line without its end.
fn reply(alloc: Global, batches: Option<&str>, line: &str) -> Result<String, AllocError> {
    match batches {
        Some(batches) => found_reply(alloc, batches, line),
        None => reply_of(alloc, "500 Internal Server Error", "", line),
    }
}

/// A reply over so many batches.
fn found_reply(alloc: Global, batches: &str, line: &str) -> Result<String, AllocError> {
    let fields = format!(in alloc; "X-Explorer-Batches: {batches}\r\n")?;
    reply_of(alloc, "200 OK", fields.as_str(), line)
}

fn reply_of(alloc: Global, status: &str, fields: &str, line: &str) -> Result<String, AllocError> {
    let body = line.trim_end();
    format!(in alloc;
        "HTTP/1.1 {status}\r\nContent-Type: application/json\r\nContent-Length: {}\r\n\
         {fields}\r\n{body}",
        body.len()
    )
}

/// Whether the link of this place that came back with the door was written these replies.
fn was_told(
    alloc: Global,
    host: &MemHost,
    at: usize,
    replies: &[(Option<&str>, &str)],
) -> Result<bool, AllocError> {
    let mut told = String::new(alloc);
    for (batches, line) in replies {
        told.push_str(reply(alloc, *batches, line)?.as_str())?;
    }
    Ok(was_written(host, at, told.as_str()))
}

fn post(alloc: Global, text: &str) -> Result<String, AllocError> {
    format!(in alloc;
        "POST /import HTTP/1.1\r\nContent-Length: {}\r\n\r\n{text}",
        text.len()
    )
}

/// A post of a moveless game.
fn post_of_game(alloc: Global, id: &str, outcome: &str) -> Result<String, AllocError> {
    post(alloc, game_by_id(alloc, id, outcome, outcome)?.as_str())
}

#[test]
fn serves_peers_and_imports_what_they_post(rt: HostRuntime) -> Result<(), Fail> {
    let alloc = rt.alloc();
    let posted = post_of_game(alloc, "aaaaaaa1", "1-0")?;
    let post = posted.as_str();
    let links = two_links(alloc, &[GET, post, GET], &[GET, post])?;
    let mut host = host_with(alloc, &[], links, &[])?;
    assert!(rt; ends(&rt, &mut host, &SERVE, (0, "listening a\n", ""))?);
    let none = (Some("0"), NO_GAME);
    let one = (Some("1"), ONE_WHITE);
    assert!(rt; was_told(alloc, &host, 0, &[none, (Some("1"), STORED), one])?);
    assert!(rt; was_told(alloc, &host, 1, &[one, (Some("1"), REPEATED)])?);
    assert!(rt; ends(&rt, &mut host, &["query", "s"], (0, ONE_WHITE, ""))?);
    assert!(rt; ends(&rt, &mut host, &["batches", "s"], (0, "1 1 \n", ""))?);
    Ok(())
}

/// Posts of three games.
fn three_posts(alloc: Global) -> Result<String, AllocError> {
    let mut posts = String::new(alloc);
    for (id, outcome) in [
        ("aaaaaaa1", "1-0"),
        ("aaaaaaa2", "0-1"),
        ("aaaaaaa3", "0-1"),
    ] {
        posts.push_str(post_of_game(alloc, id, outcome)?.as_str())?;
    }
    Ok(posts)
}

#[test]
fn a_sync_that_fails_closes_the_store(rt: HostRuntime) -> Result<(), Fail> {
    let alloc = rt.alloc();
    let posts = three_posts(alloc)?;
    // The calls 0 to 2 make the store, 3 to 7 open it, and each batch takes four.
    let links = two_links(alloc, &[posts.as_str(), GET], &[GET])?;
    let mut host = host_with(alloc, &[13], links, &[])?;
    let ended = (6, "listening a\n", "disk fault\n");
    assert!(rt; ends(&rt, &mut host, &SERVE, ended)?);
    let one = (Some("1"), ONE_WHITE);
    let failed = (None, "{\"error\":\"disk fault\",\"stored\":0}");
    let closed = (None, "{\"error\":\"closed\",\"stored\":0}");
    assert!(rt; was_told(alloc, &host, 0, &[(Some("1"), STORED), failed, closed, one])?);
    assert!(rt; was_told(alloc, &host, 1, &[one])?);
    Ok(())
}

#[test]
fn an_accept_fails(rt: HostRuntime) -> Result<(), Fail> {
    let alloc = rt.alloc();
    let links = two_links(alloc, &[GET], &[GET])?;
    let mut host = host_with(alloc, &[], links, &[1])?;
    let ended = (10, "listening a\n", "cannot accept\n");
    assert!(rt; ends(&rt, &mut host, &SERVE, ended)?);
    assert!(rt; was_told(alloc, &host, 0, &[(Some("0"), NO_GAME)])?);
    Ok(())
}

/// A batch has at most 512 games, and no label. The peer asks for nothing.
#[test]
fn imports_a_file_of_two_groups(rt: HostRuntime) -> Result<(), Fail> {
    let alloc = rt.alloc();
    let file = MemFile {
        bytes: games(alloc, 513)?.into_bytes(),
        failing: Vec::new(alloc),
    };
    let mut host = host_with(alloc, &[], one_link(alloc, &[])?, &[])?;
    host.add_file("f", file)?;
    let words = [
        "serve",
        "s",
        "a",
        "f",
        "--readers",
        "1",
        "--connections",
        "1",
    ];
    assert!(rt; ends(&rt, &mut host, &words, (0, "listening a\n", ""))?);
    assert!(rt; was_written(&host, 0, ""));
    let batches = (0, "1 512 \n2 1 \n", "");
    assert!(rt; ends(&rt, &mut host, &["batches", "s"], batches)?);
    Ok(())
}

const AS_WHITE: &str = "GET /player?player=ANN&color=white HTTP/1.1\r\n\r\n";

const AS_BLACK: &str = "GET /player?player=ann&color=black HTTP/1.1\r\n\r\n";

/// The answer for a player who has no game in that colour.
const NO_GAME_OF_PLAYER: &str =
    "{\"black\":0,\"draws\":0,\"moves\":[],\"opening\":null,\"recentGames\":[],\"white\":0}";

/// The answer for the player who won one game with White, which began with `1. e4`, where that move
/// has this opening.
fn won_game(alloc: Global, opening: &str) -> Result<String, AllocError> {
    let game = listed_game(alloc, "aaaaaaa1", "e2e4", "white")?;
    format!(in alloc;
        "{{\"black\":0,\"draws\":0,\"moves\":[{{\"averageOpponentRating\":1400,\"black\":0,\
         \"draws\":0,\"game\":{game},\"opening\":{opening},\"san\":\"e4\",\"uci\":\"e2e4\",\
         \"white\":1}}],\"opening\":null,\"recentGames\":[{game}],\"white\":1}}"
    )
}

#[test]
fn tells_the_games_of_a_player(rt: HostRuntime) -> Result<(), Fail> {
    let alloc = rt.alloc();
    let posted = post(alloc, game(alloc, "1-0", "1. e4 1-0")?.as_str())?;
    let post = posted.as_str();
    let links = two_links(alloc, &[AS_WHITE, post, AS_WHITE], &[AS_BLACK, AS_WHITE])?;
    let mut host = host_with(alloc, &[], links, &[])?;
    assert!(rt; ends(&rt, &mut host, &SERVE, (0, "listening a\n", ""))?);
    let text = won_game(alloc, "null")?;
    let won = (Some("1"), text.as_str());
    let none = (Some("0"), NO_GAME_OF_PLAYER);
    assert!(rt; was_told(alloc, &host, 0, &[none, (Some("1"), STORED), won])?);
    assert!(rt; was_told(alloc, &host, 1, &[(Some("1"), NO_GAME_OF_PLAYER), won])?);
    Ok(())
}

#[test]
fn names_the_openings_of_a_players_games(rt: HostRuntime) -> Result<(), Fail> {
    let alloc = rt.alloc();
    let posted = post(alloc, game(alloc, "1-0", "1. e4 1-0")?.as_str())?;
    let links = one_link(alloc, &[posted.as_str(), AS_WHITE])?;
    let mut host = host_with(alloc, &[], links, &[])?;
    let book = MemFile {
        bytes: b"B00\tKing's Pawn Game\t1. e4".to_vec(alloc)?,
        failing: Vec::new(alloc),
    };
    host.add_file("openings", book)?;
    let words = [
        "serve",
        "s",
        "a",
        "--openings",
        "openings",
        "--readers",
        "1",
        "--connections",
        "1",
    ];
    assert!(rt; ends(&rt, &mut host, &words, (0, "listening a\n", ""))?);
    let text = won_game(alloc, "{\"eco\":\"B00\",\"name\":\"King's Pawn Game\"}")?;
    let stored = (Some("1"), STORED);
    assert!(rt; was_told(alloc, &host, 0, &[stored, (Some("1"), text.as_str())])?);
    Ok(())
}
