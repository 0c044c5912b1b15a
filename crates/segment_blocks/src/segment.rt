//! Segments.
ghost use Rattle.std.specs.Prelude.{◌≡◌, ℕ, ◌+◌, ◌<◌, ◌≤◌, ◌^◌, [], ◌∷◌, ◌++◌, Some, IfOk, MatchOption, length, filter, not, slice_get};
ghost use Rattle.explorer_model.specs.Visits.{texts_of};
ghost use Rattle.segment_blocks.specs.Segment.{IsSegment, CanJoin, IsTallyOfBoth, span_of_both};
ghost use Rattle.segment_blocks.specs.Block.{block_limit};
ghost use Rattle.segment_blocks.specs.PackedRows.{IsFirstKey, rows_of_parts};
ghost use Rattle.segment_blocks.specs.Walk.{has_key, is_below, is_within};

pub mod kept;
mod moved;

use crate::held_batch::{HeldBatch, game_at, share_all};
use crate::packed_rows::PackedRows;
use crate::row_walk::RowWalk;
use crate::steps::Steps;
use explorer_model::archive::{Batch, Classes};
use std::alloc::{AllocError, Global};
use std::marker::Model;
use std::sync::Arc;
use std::sync::ledger::Ledger;
use tally_rows::{PositionKey, Tally};

/// Batches that stand one after another in the journal, with what their tags say and the rows that
/// count their games. The batches are shared by all segments that have them.
#[derive(Drop)]
pub struct Segment {
    first: u32,
    games: u32,
    batches: Vec<HeldBatch>,
    rows: PackedRows,
}

impl Model for Segment {
    ghost use Rattle.segment_blocks.specs.Segment.{CountedSpan};
    ghost use Rattle.segment_blocks.specs.HeldBatches.{counted_span, IsHeld};

    ghost Value = { CountedSpan };

    ghost view = { λ s. counted_span s.first s.batches.items s.rows };

    ghost invariant = { λ s. IsHeld s.first s.games s.batches.items s.rows };
}

/// Batches by their places in the journal.
#[derive(Clone, Copy, Debug, PartialEq, Eq)]
pub struct Span {
    /// The place of the first batch, from 0.
    pub first: u32,
    /// How many batches there are.
    pub count: u32,
}

impl Segment {
    /// The segment of one batch.
    pub fn of(alloc: Global, first: u32, tally: Tally) -> Result<Segment, AllocError>
        requires { first + 1 < 2 ^ 32 }
        ensures first { IfOk result (λ segment. segment.span.first ≡ first) }
        ensures batches { IfOk result (λ segment. segment.span.batches ≡ tally.batch ∷ []) }
        ensures classes { IfOk result (λ segment. segment.classes ≡ tally.classes) }
        ensures rows { IfOk result (λ segment. segment.rows ≡ tally.rows) }
    {
        let (batch, classes, parts) = tally.into_parts();
        let rows = PackedRows::of(alloc, parts.as_slice())?;
        // That the blocks are those of the rows, their count tells.
        let _blocks = rows.block_count();
        let games = classes.len() as u32;
        let mut batches = Vec::new(alloc);
        batches.push(HeldBatch::of(alloc, batch, classes)?)?;
        Ok(Segment {
            first,
            games,
            batches,
            rows,
        })
    }

    /// The segment of both spans, which shares their batches, from the rows of both.
    pub fn of_both(
        alloc: Global,
        left: &Segment,
        right: &Segment,
        parts: Vec<PackedRows>,
    ) -> Result<Segment, AllocError>
        requires spans { CanJoin left.now right.now }
        requires tally { IsTallyOfBoth left.now right.now (rows_of_parts parts.items) }
        ensures span { IfOk result (λ segment. segment.span
            ≡ span_of_both left.now.span right.now.span) }
        ensures classes { IfOk result (λ segment. segment.classes
            ≡ left.now.classes ++ right.now.classes) }
        ensures rows { IfOk result (λ segment. segment.rows ≡ rows_of_parts parts.items) }
    {
        let rows = PackedRows::of_parts(alloc, parts)?;
        // That the blocks are those of the rows, their count tells.
        let _blocks = rows.block_count();
        let mut batches = Vec::new(alloc);
        share_all(&mut batches, left.batches.as_slice(), 0)?;
        share_all(&mut batches, right.batches.as_slice(), left.games)?;
        Ok(Segment {
            first: left.first,
            games: left.games + right.games,
            batches,
            rows,
        })
    }

    /// Where the batches stand in the journal.
    pub fn span(&self) -> Span
        ensures first { result.first ≡ self.now.span.first }
        ensures count { result.count ≡ length self.now.span.batches }
        ensures segment { IsSegment self.now }
    {
        Span {
            first: self.first,
            count: self.batches.len() as u32,
        }
    }

    /// How many games there are.
    pub fn games(&self) -> u32
        ensures { result ≡ length self.now.classes }
    {
        self.games
    }

    /// What the tags say of game `n` of the segment, from 0.
    pub fn classes(&self, n: u32) -> &Classes
        requires { n < length self.now.classes }
        ensures { slice_get self.now.classes n ≡ Some result.now }
    {
        let (held, place) = game_at(self.batches.as_slice(), n);
        &held.classes()[place]
    }

    /// The text of game `n` of the segment, from 0.
    pub fn text<L: Ledger>(&self, n: u32, steps: &mut Steps<L>) -> &[u8]
        requires { n < length self.now.classes }
        ensures text { slice_get (texts_of self.now.span.batches) n ≡ Some result.now }
        ensures cost { steps.new ≡ steps.old + 1 }
    {
        steps.tick();
        let (held, place) = game_at(self.batches.as_slice(), n);
        held.batch().texts.as_slice()[place].as_slice()
    }

    /// Batch `n` of the span, from 0. It takes as many steps as the batch has texts.
    pub fn batch<L: Ledger>(&self, n: u32, steps: &mut Steps<L>) -> &Batch
        requires { n < length self.now.span.batches }
        ensures batch { slice_get self.now.span.batches n ≡ Some result.now }
        ensures cost { steps.new ≡ steps.old + length result.now.texts }
    {
        let batch = self.batches[n as usize].batch();
        steps.add(batch.texts.len() as u64);
        batch
    }

    /// A walk over the rows of the key, in their order. A step is a first key compared or a row
    /// passed.
    pub fn rows_at<L: Ledger>(&self, key: &PositionKey, steps: &mut Steps<L>) -> RowWalk<'_>
        ensures rows { result ≡ filter (has_key key.now) self.now.rows }
        ensures cost { (digits : ℕ) → self.now.blocks < 2 ^ digits
            → steps.new ≤ steps.old + block_limit + digits }
    {
        self.rows.rows_at(key, steps)
    }

    /// A walk over the rows whose key is not below the key, in their order. It takes the steps of
    /// `rows_at`.
    pub fn rows_from<L: Ledger>(&self, key: &PositionKey, steps: &mut Steps<L>) -> RowWalk<'_>
        ensures rows { result ≡ filter (λ row. not (is_below key.now row)) self.now.rows }
        ensures cost { (digits : ℕ) → self.now.blocks < 2 ^ digits
            → steps.new ≤ steps.old + block_limit + digits }
    {
        self.rows.rows_from(key, steps)
    }

    /// A walk over the rows whose key is not below `from` and is below `below`, in their order. An
    /// absent bound is none. It takes the steps of `rows_at`.
    pub fn rows_within<L: Ledger>(
        &self,
        from: Option<PositionKey>,
        below: Option<PositionKey>,
        steps: &mut Steps<L>,
    ) -> RowWalk<'_>
        ensures rows { result ≡ filter (is_within from below) self.now.rows }
        ensures cost { (digits : ℕ) → self.now.blocks < 2 ^ digits
            → steps.new ≤ steps.old + block_limit + digits }
    {
        self.rows.rows_within(from, below, steps)
    }

    /// How many blocks the rows take, each of 1 to 128 rows, as `span` tells.
    pub fn block_count(&self) -> usize
        ensures { result ≡ self.now.blocks }
    {
        self.rows.block_count()
    }

    /// The key of the first row of block `n`, from 0, or None where there are not so many blocks.
    /// Either is one step.
    pub fn first_key<L: Ledger>(&self, n: usize, steps: &mut Steps<L>) -> Option<PositionKey>
        ensures key { MatchOption result (self.now.blocks ≤ n)
            (IsFirstKey self.now.rows self.now.blocks n) }
        ensures cost { steps.new ≡ steps.old + 1 }
    {
        self.rows.first_key(n, steps)
    }
}
