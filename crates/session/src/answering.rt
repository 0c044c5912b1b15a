//! Answers to queries.
ghost use Rattle.std.specs.Prelude.{◌≡◌, ◌<◌, ◌≤◌, [], IfOk, length};
ghost use Rattle.explorer_model.specs.Chess.{IsValid};
ghost use Rattle.explorer_model.specs.declared.wire.Reply.TheVariants.{Found};
ghost use Rattle.explorer_model.specs.Timeline.{IsPrefix};
ghost use Rattle.published_index.specs.Cover.{journal_of};
ghost use Rattle.session.specs.Naming.{IsNamedBody, IsPlayed};
ghost use Rattle.session.specs.Replies.{AnswersQuery, readings_of};

use crate::kept_answers::{Answers, Asking};
use answer_json::answer::{body, lent_body};
use answer_json::laws::what_is_found_is_plain;
use explorer_model::archive::Bytes;
use explorer_model::fault::Stop;
use explorer_model::query::Query;
use explorer_model::wire::Reply;
use lookup::laws::found_moves_are_legal;
use lookup::look;
use opening_names::{Book, lend_naming};
use published_index::{EnterFault, Index, Pass, Snapshot};
use query_params::laws::queries_play_legal_moves;
use query_params::query;
use segment_blocks::Steps;
use std::alloc::{AllocError, Global};
use std::marker::Brand;
use std::sync::ledger::{Blank, Ledger};

/// The answer to a query string, over the journal that the pass sees when it enters, where no opening
/// is named. It waits for nobody, and takes memory for the query, the snapshot's list, the rows and
/// the body alone.
pub fn answer<J: Index>(alloc: Global, pass: &mut Pass<J>, text: &[u8]) -> Reply
    ensures answers { AnswersQuery [] text.now pass.new.seen
        (readings_of pass.old) (readings_of pass.new) result }
    ensures grew { IsPrefix pass.old.seen pass.new.seen }
    ensures unmoved { pass.new.entered ≡ pass.old.entered → pass.new.seen ≡ pass.old.seen }
{
    let book = Book::empty(alloc);
    answer_by(alloc, pass, &mut Answers::none(&book), text)
}

/// The same, with answers that are kept, and named by their book: one over that journal is given
/// again, and a new one is kept. A malformed query is told without entering, and each answer enters
/// once, kept or not.
pub fn answer_by<J: Index>(
    alloc: Global,
    pass: &mut Pass<J>,
    kept: &mut Answers<'_, J>,
    text: &[u8],
) -> Reply
    ensures answers { AnswersQuery kept.old text.now pass.new.seen
        (readings_of pass.old) (readings_of pass.new) result }
    ensures grew { IsPrefix pass.old.seen pass.new.seen }
    ensures unmoved { pass.new.entered ≡ pass.old.entered → pass.new.seen ≡ pass.old.seen }
    ensures book { kept.new ≡ kept.old }
{
    // law: a query plays legal moves, which lead to the position asked for
    queries_play_legal_moves();
    let query = match query(alloc, text) {
        Ok(query) => query,
        Err(Stop::Fault(fault)) => return Reply::BadParameter { name: fault.name },
        Err(Stop::OutOfMemory) => return Reply::NoMemory,
    };
    let snapshot = match pass.enter(alloc) {
        Ok(snapshot) => snapshot,
        Err(EnterFault::Unread { .. }) => return Reply::Unread,
        Err(EnterFault::OutOfMemory) => return Reply::NoMemory,
    };
    if let Some(body) = kept.find(alloc, pass, Asking::Games, text) {
        return found_reply(&snapshot, body);
    }
    let Ok(body) = body_for(alloc, kept.book(), &snapshot, &query) else {
        return Reply::NoMemory;
    };
    kept.keep(alloc, pass, Asking::Games, text, body.as_slice());
    found_reply(&snapshot, body)
}

/// The reply that this body is found over the snapshot.
pub(crate) fn found_reply(snapshot: &Snapshot, body: Vec<u8>) -> Reply
    ensures { result ≡ Found (length (journal_of snapshot.now)) body.items }
{
    Reply::Found {
        batches: snapshot.batches(),
        body: Bytes::from_vec(body),
    }
}

/// The body that answers the query over the snapshot, with the openings that the book names.
fn body_for(
    alloc: Global,
    book: &Book,
    snapshot: &Snapshot,
    query: &Query,
) -> Result<Vec<u8>, AllocError>
    requires played { IsPlayed query.now }
    requires valid { IsValid query.now.at }
    requires top { query.now.top ≤ 4 }
    requires recent { query.now.recent ≤ 4 }
    ensures { IfOk result (λ body.
        IsNamedBody book.now query.now (journal_of snapshot.now) body.items) }
{
    body_uncounted::<Brand>(alloc, book, snapshot, query, Blank::new(1))
}

/// The same, where no steps are counted.
fn body_uncounted<L: Ledger>(
    alloc: Global,
    book: &Book,
    snapshot: &Snapshot,
    query: &Query,
    blank: Blank,
) -> Result<Vec<u8>, AllocError>
    requires played { IsPlayed query.now }
    requires valid { IsValid query.now.at }
    requires top { query.now.top ≤ 4 }
    requires recent { query.now.recent ≤ 4 }
    requires name { blank.name ≡ L.name }
    requires parts { blank.parts ≡ L.parts }
    requires some { 0 < L.parts }
    ensures { IfOk result (λ body.
        IsNamedBody book.now query.now (journal_of snapshot.now) body.items) }
{
    // laws: what is found is written as plain JSON, and its moves are legal
    what_is_found_is_plain();
    found_moves_are_legal();
    let mut steps = Steps::<L>::new(blank);
    let found = look(alloc, snapshot, query, &mut steps)?;
    if book.is_empty() {
        return body(alloc, &found);
    }
    let names = lend_naming(alloc, book, query, &found)?;
    let text = lent_body(alloc, &found, names.whole, names.moves.as_slice())?;
    Ok(text)
}
