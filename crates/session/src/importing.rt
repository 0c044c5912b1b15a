//! Replies to imports.
ghost use Rattle.std.specs.Prelude.{◌≡◌, ◌<◌, ◌≤◌, ◌^◌, ℕ, List, length, true};
ghost use Rattle.explorer_model.specs.declared.archive.Batch.{Batch};
ghost use Rattle.explorer_model.specs.Timeline.{IsPrefix};
ghost use Rattle.explorer_model.specs.Wire.{body_limit};
ghost use Rattle.ingest_desk.specs.Importers.{EndsInMemory, ending_of};
ghost use Rattle.ingest_desk.specs.Lives.{StandFrom};
ghost use Rattle.session.specs.Exchanges.{backend};
ghost use Rattle.session.specs.Imports.{AreNew, TellsEnding};
ghost use Rattle.session.specs.Replies.{readings_of};
ghost use Rattle.session.specs.Steps.{
  AreBehind,
  HasLearnt,
  ImportReplied,
  KnowsEnd,
  KnowsNotes,
  KnowsReceipts,
};

use answer_json::stored_body;
use explorer_model::archive::Bytes;
use explorer_model::fault::Refusal;
use explorer_model::wire::Reply;
use ingest_desk::{End, Importer, Receipt, Report, count_games};
use published_index::{Index, Note, Pass};
use std::alloc::{AllocError, Global};
use std::sync::Wait;
use std::thread::Threads;

/// Imports a body, lets the pass learn all that the report tells, and gives the reply.
pub fn import<J: Index, I: Importer<J>, R: Wait + Threads + Sync>(
    rt: &R,
    alloc: Global,
    pass: &mut Pass<J>,
    importer: &mut I,
    body: &[u8],
) -> Reply
    requires { length body.now ≤ body_limit }
    ensures replied { ImportReplied body.now (backend pass.old (I.importer importer.old)) result
        (backend pass.new (I.importer importer.new)) }
    ensures learnt { HasLearnt J body.now (I.importer importer.old) (I.importer importer.new)
        pass.new.seen }
{
    let seen = pass.front();
    let report = importer.import(rt, alloc, body);
    let Report {
        receipts,
        refused,
        clashes,
        end,
    } = report;
    let stored = Stored {
        games: count_games(receipts.as_slice()),
        are_new: are_behind(receipts.as_slice(), seen),
    };
    learn_receipts(pass, receipts);
    learn_notes(pass, clashes);
    reply_to_end(alloc, pass, end, &stored, refused.as_slice())
}

/// What receipts tell.
#[derive(Debug, Drop)]
struct Stored {
    games: u32,
    /// Whether each batch stands behind those that were seen before.
    are_new: bool,
}

/// Whether each of the receipts tells of a batch behind so many.
fn are_behind<J: Index>(receipts: &[Receipt<J>], seen: u32) -> bool
    ensures { result ≡ true → AreBehind seen receipts.now }
{
    match receipts.first() {
        Some(first) => seen < first.batches(),
        None => true,
    }
}

/// The pass learns the notes of receipts.
pub fn learn_receipts<J: Index>(pass: &mut Pass<J>, receipts: Vec<Receipt<J>>)
    ensures knows { KnowsReceipts receipts.items pass.new.seen }
    ensures grew { IsPrefix pass.old.seen pass.new.seen }
    ensures readings { readings_of pass.new ≡ readings_of pass.old }
{
    let mut rest = receipts;
    while let Some(receipt) = rest.pop() {
        pass.learn(receipt.into_note());
    }
}

/// The pass learns notes of journals.
pub fn learn_notes<J: Index>(pass: &mut Pass<J>, notes: Vec<Note<J>>)
    ensures knows { KnowsNotes notes.items pass.new.seen }
    ensures grew { IsPrefix pass.old.seen pass.new.seen }
    ensures readings { readings_of pass.new ≡ readings_of pass.old }
{
    let mut rest = notes;
    while let Some(note) = rest.pop() {
        pass.learn(note);
    }
}

/// The reply to an import that ended so and stored that. The pass learns the note of the end, where it
/// has one.
fn reply_to_end<J: Index>(
    alloc: Global,
    pass: &mut Pass<J>,
    end: End<J>,
    stored: &Stored,
    refused: &[Refusal],
) -> Reply
    requires { EndsInMemory (ending_of end) }
    ensures reply { TellsEnding (ending_of end) (length pass.new.seen) stored.now.games refused.now
        result }
    ensures new { (seen : ℕ) (journal batches : List Batch)
        → (stored.now.are_new ≡ true → StandFrom seen journal batches)
        → AreNew result seen journal batches }
    ensures knows { KnowsEnd end pass.new.seen }
    ensures grew { IsPrefix pass.old.seen pass.new.seen }
    ensures readings { readings_of pass.new ≡ readings_of pass.old }
{
    let games = stored.games;
    match end {
        End::Whole => {
            // No importer into the index of the pass stores what it had seen.
            if !stored.are_new {
                return Reply::NoMemory;
            }
            match stored_body(alloc, pass.front(), games, refused) {
                Ok(body) => Reply::Stored {
                    batches: pass.front(),
                    body: Bytes::from_vec(body),
                },
                Err(AllocError) => Reply::NoMemory,
            }
        }
        End::DiskFault { .. } => Reply::DiskFault { stored: games },
        End::Closed { .. } => Reply::Closed { stored: games },
        End::Full {
            games: all,
            bytes,
            note,
        } => {
            pass.learn(note);
            Reply::Full {
                games: all,
                bytes,
                stored: games,
            }
        }
        End::OutOfMemory => Reply::NoMemory,
        End::ReadFault { .. } | End::TooMuch { .. } => unreachable!(),
    }
}
