//! Segments without their rows.
ghost use Rattle.std.specs.Prelude.{◌≡◌, ◌+◌, ◌<◌, Some, length, slice_get};
ghost use Rattle.explorer_model.specs.Visits.{texts_of};
ghost use Rattle.segment_blocks.specs.Kept.{kept_of};

use crate::held_batch::{HeldBatch, game_at};
use crate::segment::{Segment, Span};
use crate::steps::Steps;
use explorer_model::archive::{Batch, Classes};
use std::marker::Model;
use std::sync::ledger::Ledger;

/// The batches of a segment and what their tags say, without the rows that count their games.
#[derive(Drop)]
pub struct Kept {
    first: u32,
    games: u32,
    batches: Vec<HeldBatch>,
}

impl Model for Kept {
    ghost use Rattle.segment_blocks.specs.Kept.{KeptSpan, kept_span, IsKept};

    ghost Value = { KeptSpan };

    ghost view = { λ k. kept_span k.first k.batches.items };

    ghost invariant = { λ k. IsKept k.first k.games k.batches.items };
}

impl Segment {
    /// Drops the rows. It takes no memory: the shares of the batches are those of the segment.
    pub fn into_kept(self) -> Kept
        ensures { result ≡ kept_of self }
    {
        let Segment {
            first,
            games,
            batches,
            ..
        } = self;
        Kept {
            first,
            games,
            batches,
        }
    }
}

impl Kept {
    /// Where the batches stand in the journal.
    pub fn span(&self) -> Span
        ensures first { result.first ≡ self.now.span.first }
        ensures count { result.count ≡ length self.now.span.batches }
    {
        Span {
            first: self.first,
            count: self.batches.len() as u32,
        }
    }

    /// How many games there are.
    pub fn games(&self) -> u32
        ensures { result ≡ length self.now.classes }
    {
        self.games
    }

    /// What the tags say of game `n` of the segment, from 0.
    pub fn classes(&self, n: u32) -> &Classes
        requires { n < length self.now.classes }
        ensures { slice_get self.now.classes n ≡ Some result.now }
    {
        let (held, place) = game_at(self.batches.as_slice(), n);
        &held.classes()[place]
    }

    /// The text of game `n` of the segment, from 0.
    pub fn text<L: Ledger>(&self, n: u32, steps: &mut Steps<L>) -> &[u8]
        requires { n < length self.now.classes }
        ensures text { slice_get (texts_of self.now.span.batches) n ≡ Some result.now }
        ensures cost { steps.new ≡ steps.old + 1 }
    {
        steps.tick();
        let (held, place) = game_at(self.batches.as_slice(), n);
        held.batch().texts.as_slice()[place].as_slice()
    }

    /// Batch `n` of the span, from 0. It takes as many steps as the batch has texts.
    pub fn batch<L: Ledger>(&self, n: u32, steps: &mut Steps<L>) -> &Batch
        requires { n < length self.now.span.batches }
        ensures batch { slice_get self.now.span.batches n ≡ Some result.now }
        ensures cost { steps.new ≡ steps.old + length result.now.texts }
    {
        let batch = self.batches[n as usize].batch();
        steps.add(batch.texts.len() as u64);
        batch
    }
}
