//! A group is settled: its new texts are stored as one batch.
ghost use Rattle.std.specs.Prelude.{IfSome};
ghost use Rattle.import_run.specs.Hand.{InHand};
ghost use Rattle.import_run.specs.Rounds.{Comes, ComesOnce};

use crate::committer::Committer;
use crate::naming::name;
use crate::text_group::{TalliedGroup, merge, with_label};
use explorer_model::archive::Batch;
use explorer_model::fault::Refusal;
use game_replay::laws::game_is_determined;
use ingest_desk::{CommitFault, Handed, Receipt};
use outside::Gate;
use published_index::{Index, Note};
use side_by_side::Workers;
use std::alloc::{AllocError, Global};
use std::sync::Wait;
use std::thread::Threads;

/// What became of a group: what was answered to its commit, if it has a batch, and what is refused.
#[derive(Drop)]
pub struct Done<J: Index> {
    pub answer: Option<Result<Receipt<J>, CommitFault<J>>>,
    pub refused: Vec<Refusal>,
}

/// What became of a tally that was handed to its commit.
#[derive(Drop)]
pub enum Round<J: Index> {
    Ended(Done<J>),
    /// Some ids are stored: the rest is tallied again.
    Again(TalliedGroup),
}

/// Settles a group that is tallied. The notes are those of the clashes.
pub fn settle<C: Committer<J>, J: Index, R: Wait + Threads + Sync, G: Gate>(
    rt: &R,
    alloc: Global,
    committer: &mut C,
    tallied: TalliedGroup,
    clashes: &mut Vec<Note<J>>,
    workers: Workers,
    gate: &G,
) -> Result<Done<J>, AllocError>
    requires hand { IfSome tallied.tally (λ counted. InHand counted tallied.places.items) }
    ensures comes { Comes result tallied clashes.old.items clashes.new.items
        (C.told committer.old) (C.told committer.new)
        (C.drawing committer.old) (C.drawing committer.new) }
    ensures since { C.since committer.old committer.new }
{
    let mut state = tallied;
    'settling: loop {
        let TalliedGroup {
            tally,
            places,
            refused,
        } = state;
        let Some(counted) = tally else {
            return Ok(Done {
                answer: None,
                refused,
            });
        };
        match commit_once(
            rt, alloc, committer, counted, places, refused, clashes, workers, gate,
        )? {
            Round::Again(next) => state = next,
            Round::Ended(done) => return Ok(done),
        }
    }
}

/// Commits a tally. Where ids clash, those texts are refused, and the rest is tallied again under its
/// label.
fn commit_once<C: Committer<J>, J: Index, R: Wait + Threads + Sync, G: Gate>(
    rt: &R,
    alloc: Global,
    committer: &mut C,
    counted: Handed,
    places: Vec<u64>,
    refused: Vec<Refusal>,
    clashes: &mut Vec<Note<J>>,
    workers: Workers,
    gate: &G,
) -> Result<Round<J>, AllocError>
    requires hand { InHand counted places.items }
    ensures comes { ComesOnce result counted places.items refused.items
        clashes.old.items clashes.new.items
        (C.told committer.old) (C.told committer.new)
        (C.drawing committer.old) (C.drawing committer.new) }
    ensures since { C.since committer.old committer.new }
{
    game_is_determined();
    clashes.reserve(1)?;
    let fault = match committer.commit(rt, alloc, counted, workers) {
        Ok(receipt) => {
            return Ok(Round::Ended(Done {
                answer: Some(Ok(receipt)),
                refused,
            }));
        }
        Err(fault) => fault,
    };
    match fault {
        CommitFault::Clash {
            handed,
            pairs,
            note,
        } => {
            clashes.push_reserved(note);
            let batch = handed.into_batch(alloc)?;
            let Batch { label, texts } = batch;
            let named = name(alloc, texts, places.as_slice(), pairs.as_slice())?;
            let refused = merge(alloc, refused.as_slice(), named.refused.as_slice())?;
            let again = batch_tally::tally(rt, alloc, named.rest, workers.count, gate)?;
            Ok(Round::Again(TalliedGroup {
                tally: with_label(again.tally, label),
                places: again.places,
                refused,
            }))
        }
        CommitFault::OutOfMemory { .. } => Err(AllocError),
        fault => Ok(Round::Ended(Done {
            answer: Some(Err(fault)),
            refused,
        })),
    }
}
