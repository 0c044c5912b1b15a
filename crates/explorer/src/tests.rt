//! Runs of the program over inputs in memory, against what its rules say of them.
mod answers;
mod failing;
mod formats;
mod imports;
mod listing;
mod migrating;
mod openings;
mod serving;
mod set_ups;
mod spilling;
mod stores;
mod streams;
mod trials;
mod words;

ghost use Rattle.std.specs.Prelude.{◌<◌};

use crate::program::run;
use host::MemHost;
use outside::{MemSink, MemSource};
use std::alloc::{AllocError, Global};
use std::sync::Wait;
use std::thread::Threads;

const NO_GAME: &str =
    "{\"black\":0,\"draws\":0,\"moves\":[],\"opening\":null,\"recentGames\":[],\"topGames\":[],\"white\":0}\n";

const ONE_WHITE: &str =
    "{\"black\":0,\"draws\":0,\"moves\":[],\"opening\":null,\"recentGames\":[],\"topGames\":[],\"white\":1}\n";

const ONE_DRAW: &str =
    "{\"black\":0,\"draws\":1,\"moves\":[],\"opening\":null,\"recentGames\":[],\"topGames\":[],\"white\":0}\n";

/// A game's text: nine tag lines, an empty line and a line of movetext, which begins at byte 190
/// where the result has three bytes.
fn game(alloc: Global, outcome: &str, movetext: &str) -> Result<String, AllocError> {
    game_by_id(alloc, "aaaaaaa1", outcome, movetext)
}

fn game_by_id(
    alloc: Global,
    id: &str,
    outcome: &str,
    movetext: &str,
) -> Result<String, AllocError> {
    let tags = Tags {
        id,
        outcome,
        white_rating: "1500",
        black_rating: "1400",
        time: "300+0",
    };
    game_with_tags(alloc, &tags, movetext)
}

/// The tags in which the games of the rows differ.
#[derive(Clone, Copy, Debug)]
struct Tags<'a> {
    id: &'a str,
    outcome: &'a str,
    white_rating: &'a str,
    black_rating: &'a str,
    time: &'a str,
}

fn game_with_tags(alloc: Global, tags: &Tags, movetext: &str) -> Result<String, AllocError> {
    let Tags {
        id,
        outcome,
        white_rating,
        black_rating,
        time,
    } = tags;
    format!(in alloc;
        "[Event \"Rated blitz game\"]\n[Site \"https://lichess.org/{id}\"]\n\
         [White \"Ann\"]\n[Black \"Bob\"]\n[Result \"{outcome}\"]\n[UTCDate \"2020.01.15\"]\n\
         [WhiteElo \"{white_rating}\"]\n[BlackElo \"{black_rating}\"]\n[TimeControl \"{time}\"]\n\n{movetext}\n"
    )
}

/// So many moveless games that White won, each of 194 bytes, with ids of their own.
fn games(alloc: Global, count: u32) -> Result<String, AllocError> {
    let mut text = String::new(alloc);
    for number in 0..count {
        let id = format!(in alloc; "{number:08}")?;
        let game = game_by_id(alloc, id.as_str(), "1-0", "1-0")?;
        text.push_str(game.as_str())?;
    }
    Ok(text)
}

/// The texts, one behind the other.
fn join_texts(alloc: Global, texts: &[&str]) -> Result<String, AllocError> {
    let mut all = String::new(alloc);
    for text in texts {
        all.push_str(text)?;
    }
    Ok(all)
}

/// A game as an answer lists it.
fn listed_game(alloc: Global, id: &str, uci: &str, winner: &str) -> Result<String, AllocError> {
    format!(in alloc;
        "{{\"black\":{{\"name\":\"Bob\",\"rating\":1400}},\"id\":\"{id}\",\"mode\":\"rated\",\
         \"month\":\"2020-01\",\"speed\":\"blitz\",\"uci\":\"{uci}\",\
         \"white\":{{\"name\":\"Ann\",\"rating\":1500}},\"winner\":\"{winner}\",\"year\":2020}}"
    )
}

/// The answer over one game that White won and that went on with this move.
fn one_move(
    alloc: Global,
    history: &str,
    rating: &str,
    san: &str,
    uci: &str,
) -> Result<String, AllocError> {
    let game = listed_game(alloc, "aaaaaaa1", uci, "white")?;
    format!(in alloc;
        "{{\"black\":0,\"draws\":0,{history}\"moves\":[{{\"averageRating\":{rating},\
         \"black\":0,\"draws\":0,\"game\":{game},\"opening\":null,\"san\":\"{san}\",\
         \"uci\":\"{uci}\",\"white\":1}}],\"opening\":null,\"recentGames\":[{game}],\
         \"topGames\":[{game}],\"white\":1}}\n"
    )
}

/// Five games that White won and that began with `1. e4`, whose ids end with their numbers.
fn five_texts(alloc: Global) -> Result<String, AllocError> {
    let mut texts = String::new(alloc);
    for number in 0..5u32 {
        texts.push_str(game_by_number(alloc, number)?.as_str())?;
    }
    Ok(texts)
}

/// The game of this number.
fn game_by_number(alloc: Global, number: u32) -> Result<String, AllocError> {
    let id = format!(in alloc; "aaaaaaa{number}")?;
    game_by_id(alloc, id.as_str(), "1-0", "1. e4 1-0")
}

/// The games of these numbers as an answer lists them.
fn listed_five(alloc: Global, numbers: &[u32]) -> Result<String, AllocError> {
    let mut all = String::new(alloc);
    for number in numbers {
        let id = format!(in alloc; "aaaaaaa{number}")?;
        let comma = if all.is_empty() { "" } else { "," };
        all.push_str(comma)?;
        all.push_str(listed_game(alloc, id.as_str(), "e2e4", "white")?.as_str())?;
    }
    Ok(all)
}

/// The answer over the five games, of which it lists these.
fn five_games(alloc: Global, top: &[u32], recent: &[u32]) -> Result<String, AllocError> {
    let top = listed_five(alloc, top)?;
    let recent = listed_five(alloc, recent)?;
    format!(in alloc;
        "{{\"black\":0,\"draws\":0,\"moves\":[{{\"averageRating\":1500,\"black\":0,\"draws\":0,\
         \"game\":null,\"opening\":null,\"san\":\"e4\",\"uci\":\"e2e4\",\"white\":5}}],\
         \"opening\":null,\"recentGames\":[{recent}],\"topGames\":[{top}],\"white\":5}}\n"
    )
}

/// A game with `1. e4` that White won and one with `1. d4` that Black won, and the answer over both.
fn two_moves(alloc: Global) -> Result<(String, String), AllocError> {
    let first = game_by_id(alloc, "aaaaaaa1", "1-0", "1. e4 1-0")?;
    let second = game_by_id(alloc, "aaaaaaa2", "0-1", "1. d4 0-1")?;
    let text = format!(in alloc; "{first}{second}")?;
    let won = listed_game(alloc, "aaaaaaa1", "e2e4", "white")?;
    let lost = listed_game(alloc, "aaaaaaa2", "d2d4", "black")?;
    let answer = format!(in alloc;
        "{{\"black\":1,\"draws\":0,\"moves\":[\
         {{\"averageRating\":1500,\"black\":1,\"draws\":0,\"game\":{lost},\"opening\":null,\
         \"san\":\"d4\",\"uci\":\"d2d4\",\"white\":0}},\
         {{\"averageRating\":1500,\"black\":0,\"draws\":0,\"game\":{won},\"opening\":null,\
         \"san\":\"e4\",\"uci\":\"e2e4\",\"white\":1}}],\"opening\":null,\
         \"recentGames\":[{lost},{won}],\"topGames\":[{won},{lost}],\"white\":1}}\n"
    )?;
    Ok((text, answer))
}

/// A call that no run comes to.
const NEVER: u64 = u64::MAX;

/// The read of the input, the write to the output and the write to the errors that fail, each
/// counted from 0.
type Failing = [u64; 3];

const FAULTLESS: Failing = [NEVER, NEVER, NEVER];

/// The streams of a run.
#[derive(Drop)]
struct RunStreams {
    input: MemSource,
    output: MemSink,
    errors: MemSink,
}

impl RunStreams {
    /// Whether this was printed and reported.
    fn have(&self, printed: &str, reported: &str) -> bool {
        self.output.bytes() == printed.as_bytes() && self.errors.bytes() == reported.as_bytes()
    }
}

/// What a run came to.
#[derive(Drop)]
struct Seen {
    status: u8,
    streams: RunStreams,
}

impl Seen {
    fn is(&self, status: u8, output: &str, errors: &str) -> bool {
        self.status == status && self.streams.have(output, errors)
    }
}

/// The words behind the program's name.
fn with_name(alloc: Global, words: &[&str]) -> Result<Vec<String>, AllocError> {
    let mut all = vec![in alloc; String::from_str(alloc, "explorer")?]?;
    for word in words {
        all.push(String::from_str(alloc, word)?)?;
    }
    Ok(all)
}

/// An input of this text that gives at most `most` bytes in a read, and whose read of this number
/// fails.
fn input_of(alloc: Global, text: &str, most: usize, failing: u64) -> Result<MemSource, AllocError>
    requires { 0 < most }
{
    let bytes = Vec::from_slice(alloc, text.as_bytes())?;
    let failing = Vec::from_slice(alloc, &[failing])?;
    Ok(MemSource::new(bytes, most, failing))
}

/// An empty output or an empty stream of errors, whose write of this number fails.
fn sink_of(alloc: Global, failing: u64) -> Result<MemSink, AllocError> {
    let failing = Vec::from_slice(alloc, &[failing])?;
    MemSink::new(alloc, 4096, failing)
}

/// Streams over an input that gives at most `most` bytes in a read.
fn streams_of(
    alloc: Global,
    text: &str,
    most: usize,
    failing: Failing,
) -> Result<RunStreams, AllocError>
    requires { 0 < most }
{
    let [read, write, report] = failing;
    Ok(RunStreams {
        input: input_of(alloc, text, most, read)?,
        output: sink_of(alloc, write)?,
        errors: sink_of(alloc, report)?,
    })
}

/// Runs with these words, of which the first is the program's name, and gives the status.
fn status_of<R: AllocGlobal + Wait + Threads + Sync>(
    rt: &R,
    words: &[String],
    streams: &mut RunStreams,
    host: &mut MemHost,
) -> u8 {
    let RunStreams {
        input,
        output,
        errors,
    } = streams;
    run(rt, words, input, output, errors, host).number
}

/// Runs with the words behind the program's name, over an input that gives at most `most` bytes in
/// a read.
fn run_on<R: AllocGlobal + Wait + Threads + Sync>(
    rt: &R,
    words: &[&str],
    text: &str,
    most: usize,
    failing: Failing,
) -> Result<Seen, AllocError>
    requires { 0 < most }
{
    let all = with_name(rt.alloc(), words)?;
    let mut streams = streams_of(rt.alloc(), text, most, failing)?;
    let mut host = MemHost::new(rt.alloc());
    let status = status_of(rt, all.as_slice(), &mut streams, &mut host);
    Ok(Seen { status, streams })
}

/// Runs on a host without an input, and says whether it ends with this status, and prints and
/// reports this.
fn ends<R: AllocGlobal + Wait + Threads + Sync>(
    rt: &R,
    host: &mut MemHost,
    words: &[&str],
    ending: (u8, &str, &str),
) -> Result<bool, AllocError> {
    let (status, printed, reported) = ending;
    let all = with_name(rt.alloc(), words)?;
    let mut streams = streams_of(rt.alloc(), "", 1, FAULTLESS)?;
    let ended = status_of(rt, all.as_slice(), &mut streams, host);
    Ok(ended == status && streams.have(printed, reported))
}
