//! Answers to queries for a player's games.
ghost use Rattle.std.specs.Prelude.{◌≡◌, ◌<◌, ◌≤◌, IfOk};
ghost use Rattle.explorer_model.specs.Chess.{IsValid};
ghost use Rattle.explorer_model.specs.Players.{IsPlayerFound};
ghost use Rattle.explorer_model.specs.Timeline.{IsPrefix};
ghost use Rattle.published_index.specs.Cover.{journal_of};
ghost use Rattle.session.specs.Naming.{IsPlayed, IsPlayerBody};
ghost use Rattle.session.specs.Replies.{AnswersPlayerQuery, readings_of};

use crate::answering::found_reply;
use crate::kept_answers::{Answers, Asking};
use answer_json::laws::what_a_player_has_is_plain;
use answer_json::lent_player_body;
use explorer_model::fault::Stop;
use explorer_model::player::{PlayerFound, PlayerQuery};
use explorer_model::wire::Reply;
use opening_names::{Book, lend_player_naming};
use player_index::{PlayerIndex, player_query};
use player_lookup::laws::found_moves_are_legal;
use player_lookup::player_look;
use published_index::{EnterFault, Index, Pass, Snapshot};
use query_params::laws::player_queries_play_legal_moves;
use segment_blocks::Steps;
use std::alloc::{AllocError, Global};
use std::marker::Brand;
use std::sync::ledger::{Blank, Ledger};

/// The answer to a query string for a player's games, over the journal that the pass sees when it
/// enters, with answers that are kept. The index covers that journal then, unless the answer was kept
/// or memory was wanting.
pub fn answer_player<J: Index>(
    alloc: Global,
    pass: &mut Pass<J>,
    kept: &mut Answers<'_, J>,
    players: &mut PlayerIndex,
    text: &[u8],
) -> Reply
    requires covered { IsPrefix players.old.batches pass.old.seen }
    ensures answers { AnswersPlayerQuery kept.old text.now pass.new.seen
        (readings_of pass.old) (readings_of pass.new) result }
    ensures grew { IsPrefix pass.old.seen pass.new.seen }
    ensures unmoved { pass.new.entered ≡ pass.old.entered → pass.new.seen ≡ pass.old.seen }
    ensures covered { IsPrefix players.new.batches pass.new.seen }
    ensures book { kept.new ≡ kept.old }
{
    // law: a query plays legal moves, which lead to the position asked for
    player_queries_play_legal_moves();
    let query = match player_query(alloc, text) {
        Ok(query) => query,
        Err(Stop::Fault(fault)) => return Reply::BadPlayerParameter { name: fault.name },
        Err(Stop::OutOfMemory) => return Reply::NoMemory,
    };
    let snapshot = match pass.enter(alloc) {
        Ok(snapshot) => snapshot,
        Err(EnterFault::Unread { .. }) => return Reply::Unread,
        Err(EnterFault::OutOfMemory) => return Reply::NoMemory,
    };
    if let Some(body) = kept.find(alloc, pass, Asking::Player, text) {
        return found_reply(&snapshot, body);
    }
    let Ok(body) = body_for(alloc, kept.book(), players, &snapshot, &query) else {
        return Reply::NoMemory;
    };
    kept.keep(alloc, pass, Asking::Player, text, body.as_slice());
    found_reply(&snapshot, body)
}

/// The body that answers the query over the snapshot, which the index covers then, with the openings
/// that the book names.
fn body_for(
    alloc: Global,
    book: &Book,
    players: &mut PlayerIndex,
    snapshot: &Snapshot,
    query: &PlayerQuery,
) -> Result<Vec<u8>, AllocError>
    requires covered { IsPrefix players.old.batches (journal_of snapshot.now) }
    requires played { IsPlayed query.now.query }
    requires valid { IsValid query.now.query.at }
    requires recent { query.now.query.recent ≤ 4 }
    ensures body { IfOk result (λ body.
        IsPlayerBody book.now query.now (journal_of snapshot.now) body.items) }
    ensures covered { IsPrefix players.new.batches (journal_of snapshot.now) }
{
    players.extend(alloc, snapshot)?;
    // laws: what is found is written as plain JSON, and its moves are legal
    what_a_player_has_is_plain();
    found_moves_are_legal();
    let found = look_uncounted::<Brand>(alloc, players, snapshot, query, Blank::new(1))?;
    let names = lend_player_naming(alloc, book, query, &found)?;
    let text = lent_player_body(alloc, &found, names.whole, names.moves.as_slice())?;
    Ok(text)
}

/// What is found for the query over the snapshot, which the index covers, where no steps are counted.
fn look_uncounted<L: Ledger>(
    alloc: Global,
    players: &PlayerIndex,
    snapshot: &Snapshot,
    query: &PlayerQuery,
    blank: Blank,
) -> Result<PlayerFound, AllocError>
    requires covered { players.now.batches ≡ journal_of snapshot.now }
    requires valid { IsValid query.now.query.at }
    requires recent { query.now.query.recent ≤ 4 }
    requires name { blank.name ≡ L.name }
    requires parts { blank.parts ≡ L.parts }
    requires some { 0 < L.parts }
    ensures { IfOk result (λ found. IsPlayerFound (journal_of snapshot.now) query.now found) }
{
    let mut steps = Steps::<L>::new(blank);
    player_look(alloc, players, snapshot, query, &mut steps)
}
