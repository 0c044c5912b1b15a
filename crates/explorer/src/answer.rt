//! The answer to a query over what is published.
ghost use Rattle.std.specs.Prelude.{◌≡◌, ◌<◌, ◌≤◌, IfOk};
ghost use Rattle.std.specs.List.{AllByRecursion};
ghost use Rattle.answer_json.specs.Plain.{IsPlainFound};
ghost use Rattle.explorer_model.specs.Chess.{IsValid, Legal};
ghost use Rattle.explorer_model.specs.Finds.{IsFound};
ghost use Rattle.published_index.specs.Cover.{journal_of};
ghost use Rattle.explorer.specs.Answer.{IsAnswer, IsLineOf};
ghost use Rattle.session.specs.Naming.{IsPlayed};

use answer_json::answer::named_body;
use answer_json::laws::what_is_found_is_plain;
use explorer_model::answer::Found;
use explorer_model::query::Query;
use lookup::laws::found_moves_are_legal;
use lookup::look;
use opening_names::{Book, naming};
use published_index::{Index, Publisher, Snapshot};
use segment_blocks::Steps;
use std::alloc::{AllocError, Global};
use std::marker::Brand;
use std::sync::ledger::{Blank, Ledger};

/// The line that answers the query over what is published, with the openings that the book names.
pub fn line_for<J: Index>(
    alloc: Global,
    book: &Book,
    publisher: &Publisher<J>,
    query: &Query,
) -> Result<Vec<u8>, AllocError>
    requires played { IsPlayed query.now }
    requires valid { IsValid query.now.at }
    requires top { query.now.top ≤ 4 }
    requires recent { query.now.recent ≤ 4 }
    ensures { IfOk result (IsAnswer book.now query.now (journal_of publisher.now.list)) }
{
    // laws: what is found is written as plain JSON, and its moves are legal
    what_is_found_is_plain();
    found_moves_are_legal();
    let found = found_in(alloc, publisher, query)?;
    line_of(alloc, book, query, &found)
}

/// The line of what is found for the query, with the openings that the book names.
pub fn line_of(
    alloc: Global,
    book: &Book,
    query: &Query,
    found: &Found,
) -> Result<Vec<u8>, AllocError>
    requires played { IsPlayed query.now }
    requires valid { IsValid query.now.at }
    requires plain { IsPlainFound found.now }
    requires legal { AllByRecursion (λ line. Legal query.now.at line.next) found.now.moves }
    ensures { IfOk result (IsLineOf book.now query.now found.now) }
{
    let names = naming(alloc, book, query, found)?;
    let mut line = named_body(alloc, found, &names)?;
    line.push(b'\n')?;
    Ok(line)
}

/// What is found for the query over what is published.
pub fn found_in<J: Index>(
    alloc: Global,
    publisher: &Publisher<J>,
    query: &Query,
) -> Result<Found, AllocError>
    requires valid { IsValid query.now.at }
    requires top { query.now.top ≤ 4 }
    requires recent { query.now.recent ≤ 4 }
    ensures { IfOk result (IsFound (journal_of publisher.now.list) query.now) }
{
    let snapshot = publisher.snapshot(alloc)?;
    found_uncounted::<Brand>(alloc, &snapshot, query, Blank::new(1))
}

/// The same, where no steps are counted.
fn found_uncounted<L: Ledger>(
    alloc: Global,
    snapshot: &Snapshot,
    query: &Query,
    blank: Blank,
) -> Result<Found, AllocError>
    requires valid { IsValid query.now.at }
    requires top { query.now.top ≤ 4 }
    requires recent { query.now.recent ≤ 4 }
    requires name { blank.name ≡ L.name }
    requires parts { blank.parts ≡ L.parts }
    requires some { 0 < L.parts }
    ensures { IfOk result (IsFound (journal_of snapshot.now) query.now) }
{
    let mut steps = Steps::<L>::new(blank);
    look(alloc, snapshot, query, &mut steps)
}
