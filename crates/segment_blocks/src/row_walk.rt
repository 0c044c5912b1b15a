//! Walks over rows.
ghost use Rattle.std.specs.Prelude.{◌≡◌, ◌+◌, ◌≤◌, [], ◌∷◌, MatchOption, length};
ghost use Rattle.segment_blocks.specs.Block.{block_limit};
ghost use Rattle.segment_blocks.specs.HeldRow.{row_in};
ghost use Rattle.segment_blocks.specs.Both.{HaveBothMoved};
ghost use Rattle.segment_blocks.specs.Moving.{next_row_key};

use crate::block::Block;
use crate::held_row::HeldRow;
use crate::lane::Terms;
use crate::rows_cursor::RowsCursor;
use crate::steps::Steps;
use crate::until::Until;
use std::alloc::AllocError;
use std::marker::Model;
use std::sync::ledger::Ledger;
use tally_rows::{Row, RowKey};

/// The rows that a walk has still to come to.
#[derive(Drop)]
pub struct RowWalk<'a> {
    pub(crate) rest: RowsCursor<'a>,
    pub(crate) until: Until,
}

impl<'a> Model for RowWalk<'a> {
    ghost use Rattle.std.specs.Prelude.{List};
    ghost use Rattle.tally_rows.specs.declared.row.Row.{Row};

    ghost Value = { List Row };

    ghost use Rattle.segment_blocks.specs.Walk.{rows_until};

    ghost view = { λ w. rows_until w.until w.rest };
}

impl<'a> RowWalk<'a> {
    /// The next row, or None exactly at the end.
    pub fn next<L: Ledger>(&mut self, steps: &mut Steps<L>) -> Option<Row>
        ensures rows { MatchOption result ((self.old ≡ []) × (self.new ≡ []))
            (λ row. self.old ≡ row ∷ self.new) }
        ensures cost { steps.new ≡ steps.old + 1 }
    {
        Some(self.advance(steps)?.to_row())
    }

    /// The next row as its block holds it, or None exactly at the end. Either is one step.
    #[tactic(auto, unfolding(crate::specs::Walk::until_key))]
    pub fn advance<L: Ledger>(&mut self, steps: &mut Steps<L>) -> Option<HeldRow<'a>>
        ensures rows { MatchOption result ((self.old ≡ []) × (self.new ≡ []))
            (λ held. self.old ≡ row_in held ∷ self.new) }
        ensures cost { steps.new ≡ steps.old + 1 }
    {
        steps.tick();
        match self.until {
            Until::End => self.rest.next(),
            Until::Key(key) => {
                if let Some(held) = self.rest.next() {
                    if *held.key() == key {
                        return Some(held);
                    }
                }
                self.until = Until::Done;
                None
            }
            Until::Below(key) => {
                if let Some(held) = self.rest.next() {
                    if held.key().cmp(&key).is_lt() {
                        return Some(held);
                    }
                }
                self.until = Until::Done;
                None
            }
            Until::Done => None,
        }
    }

    /// What the games of the next row have in common, or None at the end.
    #[inline(always)]
    pub fn next_row_key(&self) -> Option<RowKey>
        ensures { result ≡ next_row_key self.now }
    {
        let row_key = self.rest.next_row_key()?;
        if self.until.goes_over(&row_key.key) {
            Some(row_key)
        } else {
            None
        }
    }

    /// Moves rows of this and another walk to the end of a block, as `Block::take_both`
    /// does, with numbers that are greater by so much.
    pub(crate) fn move_both<L: Ledger>(
        &mut self,
        other: &mut RowWalk<'_>,
        block: &mut Block,
        by: (u32, u32),
        steps: &mut Steps<L>,
    ) -> Result<(), AllocError>
        ensures moved { HaveBothMoved by.0 by.1 self.old self.new other.old other.new
            block.old block.new }
        ensures few { length block.old ≤ block_limit → length block.new ≤ block_limit }
        ensures cost { steps.new + length block.old ≡ steps.old + length block.new }
    {
        let own = Terms {
            by: by.0,
            until: &self.until,
        };
        let others = Terms {
            by: by.1,
            until: &other.until,
        };
        self.rest
            .move_both(&mut other.rest, block, (own, others), steps)
    }
}
