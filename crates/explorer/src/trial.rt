//! The command `trial`: stores sample games in a new store, and counts them.
ghost use Rattle.std.specs.Prelude.{◌≡◌, ◌≤◌, ◌++◌, ℕ, List, Ok, [], None, IfOk, OnOk, codes, decimal};
ghost use Rattle.outside.specs.Stream.{Stream};
ghost use Rattle.host.specs.Hosts.{HostState};
ghost use Rattle.explorer_model.specs.declared.archive.Game.{Game as AGame};
ghost use Rattle.explorer_model.specs.Chess.{IsValid};
ghost use Rattle.explorer_model.specs.Fen.{FenReads, fen_text};
ghost use Rattle.explorer_model.specs.Query.{QueryReads};
ghost use Rattle.explorer_model.specs.Visits.{AreLegalFrom, IsTextOf};
ghost use Rattle.rand_pcg.specs.Lcg.{Lcg};
ghost use Rattle.ingest_desk.specs.Installs.{list_by};
ghost use Rattle.ingest_desk.specs.Picking.{HasNoneDue};
ghost use Rattle.ingest_desk.specs.Stored.{journal};
ghost use Rattle.import_run.specs.Upkeep.{Follows, StoresSame};
ghost use Rattle.explorer.specs.Lines.{ending_of};
ghost use Rattle.explorer.specs.Trial.Segments.{AreJoined, GoAllBehind};
ghost use Rattle.explorer.specs.Trial.{StoresTexts, TellsTrial, TriesBy, batch_sizes, line, position_behind, segment_sizes, summary};
ghost use Rattle.explorer.specs.Trial.Trying.{AreDrawn, IsOfSamples, IsReadable, IsStreamOf, IsTriedOf, IsTriedOver};
ghost use Rattle.explorer.specs.World.{world};

mod byte_source;

use crate::answer::found_in;
use crate::fault::Fault;
use crate::opening::new_store;
use crate::trial::byte_source::ByteSource;
use arrayvec::ArrayVec;
use disk_model::Unkept;
use explorer_model::answer::Totals;
use explorer_model::archive::Bytes;
use explorer_model::chess::{Move, Position};
use explorer_model::fault::Stop;
use explorer_model::label::Label;
use explorer_model::query::Query;
use fen_uci::laws::written_fen_is_read;
use fen_uci::write_fen;
use game_replay::laws::{game_is_determined, games_begin_validly};
use game_replay::replay;
use import_run::laws::new_games_are_stored;
use import_run::{DrainEnd, Merging, ending_of, import_and_tell, merge_due};
use ingest_desk::{ImportEnding, Ingest, Unnamed};
use itoa::Buffer;
use legal_moves::board::Board;
use outside::{FreeGate, Sink};
use published_index::{Drawer, Index};
use query_params::query;
use rand_pcg::Lcg64Xsh32;
use sample_games::laws::{ids_differ, samples_have_games, streams_are_cut_into_samples};
use sample_games::sample;
use side_by_side::Workers;
use std::alloc::{AllocError, Global};
use std::marker::Brand;
use std::sync::Wait;
use std::thread::Threads;

/// Draws sample games from a seed, imports them as one stream into a new store, merges what is due,
/// and prints how they are stored, their totals, and where the last of them ends.
pub fn trial<R: AllocGlobal + Wait + Threads + Sync, O: Sink>(
    rt: &R,
    games: u32,
    seed: u64,
    workers: Workers,
    output: &mut O,
) -> Result<(), Fault>
    requires some_games { 1 ≤ games }
    requires few_games { games ≤ 131072 }
    ensures { (input errors : Stream) (host : HostState) →
        let before = world input (O.sink output.old) errors host in
        let after = world input (O.sink output.new) errors host in
        TriesBy games seed before after (ending_of result) }
{
    let Ok(lines) = trial_lines(rt, games, seed, workers) else {
        return Err(Fault::OutOfMemory);
    };
    match output.write(lines.as_slice()) {
        Ok(()) => Ok(()),
        Err(_) => Err(Fault::WriteFault),
    }
}

/// The lines that tell of a trial.
fn trial_lines<R: AllocGlobal + Wait + Threads + Sync>(
    rt: &R,
    games: u32,
    seed: u64,
    workers: Workers,
) -> Result<Vec<u8>, AllocError>
    requires some_games { 1 ≤ games }
    requires few_games { games ≤ 131072 }
    ensures { IfOk result (λ lines. TellsTrial games seed lines.items) }
{
    // law: each sample has a game
    samples_have_games();
    let samples = draw_samples(rt.alloc(), games, seed)?;
    let fen = last_fen(rt.alloc(), samples.last.as_slice())?;
    let tried = try_stream(rt, samples.stream, workers)?;
    summary_lines(rt.alloc(), games, &tried, fen.as_slice())
}

// ---- samples

/// Sample games as one stream, and the text of the last of them.
#[derive(Debug, Drop)]
struct Samples {
    stream: Vec<u8>,
    last: Bytes,
}

fn draw_samples(alloc: Global, games: u32, seed: u64) -> Result<Samples, AllocError>
    requires { games ≤ 131072 }
    ensures { IfOk result (λ samples.
        (draws : Lcg) × AreDrawn games seed samples.stream.items samples.last draws) }
{
    let mut draws = Lcg64Xsh32::new(seed, 1);
    let mut stream = Vec::new(alloc);
    let mut last = Bytes::from_vec(Vec::new(alloc));
    for index in 0..games {
        last = sample(alloc, index, &mut draws)?;
        stream.extend_from_slice(last.as_slice())?;
    }
    Ok(Samples { stream, last })
}

/// The position in which the game of a text ends, in FEN.
fn last_fen(alloc: Global, text: &[u8]) -> Result<ArrayVec<u8, 96>, AllocError>
    requires { IsReadable text.now }
    ensures reads { IfOk result (λ fen. (game : AGame) → IsTextOf text.now game
        → FenReads fen.items (Ok (position_behind game.root game.moves))) }
    ensures written { IfOk result (λ fen. (game : AGame) → IsTextOf text.now game
        → fen.items ≡ fen_text (position_behind game.root game.moves)) }
{
    // laws: a text has one game, which begins in a valid position; what is written of a valid position is read
    game_is_determined();
    games_begin_validly();
    written_fen_is_read();
    let game = match replay(alloc, text) {
        Ok(game) => game,
        Err(Stop::OutOfMemory) => return Err(AllocError),
        Err(Stop::Fault(_)) => unreachable!(),
    };
    let board = board_behind(&game.root, game.moves.as_slice());
    // The position of a board is valid.
    let _position = board.position();
    Ok(write_fen(&board))
}

/// The board behind the moves of a game that begins in this position.
fn board_behind(root: &Position, moves: &[Move]) -> Board
    requires valid { IsValid root.now }
    requires legal { AreLegalFrom root.now moves.now }
    ensures { result ≡ position_behind root.now moves.now }
{
    let mut board = Board::of_valid(*root);
    for step in moves {
        board.play_on(*step);
    }
    board
}

// ---- the store

/// How many batches and segments a store has, and the totals over its games.
#[derive(Clone, Copy, Debug)]
struct Tried {
    batches: u32,
    segments: usize,
    totals: Totals,
}

/// Stores the games of a stream of samples in a new store, which nothing is kept of, and counts
/// them.
fn try_stream<R: AllocGlobal + Wait + Threads + Sync>(
    rt: &R,
    stream: Vec<u8>,
    workers: Workers,
) -> Result<Tried, AllocError>
    requires samples { IsOfSamples stream.items }
    ensures { IfOk result (λ tried.
        (texts : List (List ℕ)) → IsStreamOf texts stream.items → IsTriedOf texts tried) }
{
    let unnamed = new_store(rt)?;
    try_unnamed::<Brand, R>(rt, unnamed, stream, workers)
}

/// The same, where the store is made.
fn try_unnamed<J: Index, R: AllocGlobal + Wait + Threads + Sync>(
    rt: &R,
    unnamed: Unnamed<Unkept>,
    stream: Vec<u8>,
    workers: Workers,
) -> Result<Tried, AllocError>
    requires name { unnamed.index.name ≡ J.name }
    requires sound { unnamed.manifest.fault ≡ None }
    requires empty { unnamed.index.list ≡ [] }
    requires samples { IsOfSamples stream.items }
    ensures { IfOk result (λ tried.
        (texts : List (List ℕ)) → IsStreamOf texts stream.items → IsTriedOf texts tried) }
{
    let (mut ingest, _passes, mut drawer) = match unnamed.named::<J>(rt.alloc()) {
        Ok(named) => named,
        Err(unnamed) => {
            let _disk = unnamed.into_disk(rt);
            return Err(AllocError);
        }
    };
    let tried = try_in(rt, &mut ingest, &mut drawer, stream, workers);
    let _disk = ingest.into_disk(rt);
    tried
}

/// The same, where the store without a batch is open.
fn try_in<J: Index, R: AllocGlobal + Wait + Threads + Sync>(
    rt: &R,
    ingest: &mut Ingest<Unkept, J>,
    drawer: &mut Drawer<J>,
    stream: Vec<u8>,
    workers: Workers,
) -> Result<Tried, AllocError>
    requires sound { ingest.old.manifest.fault ≡ None }
    requires empty { journal ingest.old ≡ [] }
    requires unlisted { list_by ingest.old.index ≡ [] }
    requires samples { IsOfSamples stream.items }
    ensures { IfOk result (λ tried.
        (texts : List (List ℕ)) → IsStreamOf texts stream.items → IsTriedOf texts tried) }
{
    store_samples(rt, ingest, drawer, stream, workers)?;
    count_stored(rt, ingest, workers)
}

/// Imports a stream of samples into a store without a batch.
fn store_samples<J: Index, R: AllocGlobal + Wait + Threads + Sync>(
    rt: &R,
    ingest: &mut Ingest<Unkept, J>,
    drawer: &mut Drawer<J>,
    stream: Vec<u8>,
    workers: Workers,
) -> Result<(), AllocError>
    requires sound { ingest.old.manifest.fault ≡ None }
    requires empty { journal ingest.old ≡ [] }
    requires samples { IsOfSamples stream.items }
    ensures stored { OnOk result ((texts : List (List ℕ)) → IsStreamOf texts stream.items
        → StoresTexts texts (journal ingest.new)) }
    ensures follows { OnOk result (Follows ingest.old ingest.new) }
{
    // laws: a stream of samples is cut into them; each has a game; no two have one id; an import
    // stores all texts of new games that find room
    streams_are_cut_into_samples();
    samples_have_games();
    ids_differ();
    new_games_are_stored::<Unkept, J>();
    let mut source = ByteSource::new(stream);
    let told = import_and_tell(
        rt,
        rt.alloc(),
        &mut source,
        ingest,
        drawer,
        Label::none(),
        workers,
        &FreeGate,
    );
    // Else the published list followed each batch.
    if told.lacked {
        return Err(AllocError);
    }
    match ending_of(&told.report.end) {
        ImportEnding::Whole => Ok(()),
        ImportEnding::OutOfMemory => Err(AllocError),
        // No read and no call of the disk fails, and all samples find room.
        _ => unreachable!(),
    }
}

/// Merges the segments of a store until no neighbours are due, and counts its games.
fn count_stored<J: Index, R: AllocGlobal + Wait + Threads + Sync>(
    rt: &R,
    ingest: &mut Ingest<Unkept, J>,
    workers: Workers,
) -> Result<Tried, AllocError>
    requires behind { GoAllBehind (batch_sizes (journal ingest.old)) []
        (segment_sizes (list_by ingest.old.index)) }
    ensures { IfOk result (IsTriedOver (journal ingest.old)) }
{
    merge_all(rt, ingest, workers)?;
    let query = default_query(rt.alloc())?;
    let found = found_in(rt.alloc(), ingest.publisher(), &query)?;
    Ok(Tried {
        batches: ingest.batches(),
        segments: ingest.publisher().list().segments().len(),
        totals: found.totals,
    })
}

/// Merges neighbours until none are due.
fn merge_all<J: Index, R: AllocGlobal + Wait + Threads + Sync>(
    rt: &R,
    ingest: &mut Ingest<Unkept, J>,
    workers: Workers,
) -> Result<(), AllocError>
    ensures same { StoresSame ingest.old ingest.new }
    ensures drained { OnOk result
        ((ingest.new.index.held ≡ None) × HasNoneDue ingest.new.index.list) }
    ensures joined { OnOk result (AreJoined (segment_sizes (list_by ingest.old.index))
        (segment_sizes ingest.new.index.list)) }
{
    'merging: loop {
        match merge_due(rt, rt.alloc(), ingest, workers) {
            Merging::Joined => {}
            Merging::Left(DrainEnd::Idle) => return Ok(()),
            // Nobody else changes the list: where some are left, memory is wanting.
            Merging::Left(_) => return Err(AllocError),
        }
    }
}

/// The query of a query string that gives no parameter.
fn default_query(alloc: Global) -> Result<Query, AllocError>
    ensures asks { IfOk result (λ query. QueryReads [] (Ok query)) }
    ensures valid { IfOk result (λ query. IsValid query.at) }
    ensures top { IfOk result (λ query. query.top ≤ 4) }
    ensures recent { IfOk result (λ query. query.recent ≤ 4) }
{
    match query(alloc, b"") {
        Ok(query) => Ok(query),
        Err(Stop::OutOfMemory) => Err(AllocError),
        Err(Stop::Fault(_)) => unreachable!(),
    }
}

// ---- what is printed

/// The lines that tell of a trial, by what it came to.
fn summary_lines(
    alloc: Global,
    games: u32,
    tried: &Tried,
    fen: &[u8],
) -> Result<Vec<u8>, AllocError>
    ensures { IfOk result (λ lines. lines.items ≡ summary games tried.now.batches
        tried.now.segments tried.now.totals fen.now) }
{
    let mut lines = Vec::new(alloc);
    push_number(&mut lines, b"games", u64::from(games))?;
    push_number(&mut lines, b"batches", u64::from(tried.batches))?;
    push_number(&mut lines, b"segments", tried.segments as u64)?;
    push_number(&mut lines, b"white", tried.totals.white)?;
    push_number(&mut lines, b"draws", tried.totals.draws)?;
    push_number(&mut lines, b"black", tried.totals.black)?;
    push_line(&mut lines, b"last", fen)?;
    Ok(lines)
}

fn push_number(lines: &mut Vec<u8>, name: &[u8], number: u64) -> Result<(), AllocError>
    ensures { OnOk result (lines.new.items ≡ lines.old.items ++ line name.now (decimal number)) }
{
    let mut buffer = Buffer::new();
    push_line(lines, name, buffer.format(number).as_bytes())
}

/// Appends a name, a space, a value and a line end.
fn push_line(lines: &mut Vec<u8>, name: &[u8], value: &[u8]) -> Result<(), AllocError>
    ensures { OnOk result (lines.new.items ≡ lines.old.items ++ line name.now value.now) }
{
    lines.extend_from_slice(name)?;
    lines.push(b' ')?;
    lines.extend_from_slice(value)?;
    lines.push(b'\n')?;
    Ok(())
}
