//! A block of rows.
ghost use Rattle.std.specs.Prelude.{◌≡◌, ℕ, List, ◌+◌, ◌<◌, ◌≤◌, ◌++◌, ◌∷◌, [], IfOk, OnOk, OnErr, length};
ghost use Rattle.segment_blocks.specs.Block.{block_limit};
ghost use Rattle.segment_blocks.specs.Encoded.{key_first};
ghost use Rattle.segment_blocks.specs.HeldRow.{row_in};
ghost use Rattle.segment_blocks.specs.Both.{MoveBoth};
ghost use Rattle.tally_rows.specs.Row.{row_of};

use crate::block_cursor::BlockCursor;
use crate::both::move_first;
use crate::encoded_rows::EncodedRows;
use crate::held_row::HeldRow;
use crate::lane::{Terms, lanes_of};
use crate::steps::Steps;
use std::alloc::{AllocError, Global};
use std::marker::Model;
use std::sync::ledger::Ledger;
use tally_rows::{PositionKey, Row, Single};

/// The most rows of a block.
pub const BLOCK_LIMIT: usize = 128;

/// 1 to 128 rows that stand one after another.
#[derive(Drop)]
pub struct Block {
    /// The key of the first row.
    first: PositionKey,
    /// The key of the last row.
    last: PositionKey,
    rows: EncodedRows,
}

impl Model for Block {
    ghost use Rattle.std.specs.Prelude.{List};
    ghost use Rattle.tally_rows.specs.declared.row.Row.{Row};

    ghost Value = { List Row };

    ghost use Rattle.segment_blocks.specs.Encoded.{rows_of};
    ghost use Rattle.segment_blocks.specs.Block.{IsBlock};

    ghost view = { λ b. rows_of b.rows b.first };

    ghost invariant = { λ b. IsBlock b.first b.last b.rows };
}

impl Block {
    /// A block with its first row.
    pub fn of(alloc: Global, held: &HeldRow<'_>) -> Result<Block, AllocError>
        ensures { IfOk result (λ block. block ≡ row_in held.now ∷ []) }
    {
        let key = held.key();
        let mut rows = EncodedRows::new(alloc)?;
        rows.push(key, held)?;
        Ok(Block {
            first: *key,
            last: *key,
            rows,
        })
    }

    /// How many rows there are.
    pub fn len(&self) -> usize
        ensures len { result ≡ length self.now }
        ensures some { 0 < length self.now }
        ensures few { length self.now ≤ block_limit }
    {
        self.rows.len()
    }

    /// The key of the first row.
    pub fn first(&self) -> &PositionKey
        ensures { (key : List ℕ) → result.now ≡ key_first key self.now }
    {
        &self.first
    }

    /// Puts the row of one game behind the others. After a refusal the block is as before.
    pub fn push_one(&mut self, game: &Single) -> Result<(), AllocError>
        requires { length self.old < block_limit }
        ensures ok { OnOk result (self.new ≡ self.old ++ row_of game.now ∷ []) }
        ensures err { OnErr result (self.new ≡ self.old) }
    {
        self.rows.push_one(&self.last, game)?;
        self.last = game.row_key.key;
        Ok(())
    }

    /// Puts a row behind the others. After a refusal the block is as before.
    pub fn push(&mut self, held: &HeldRow<'_>) -> Result<(), AllocError>
        requires { length self.old < block_limit }
        ensures ok { OnOk result (self.new ≡ self.old ++ row_in held.now ∷ []) }
        ensures err { OnErr result (self.new ≡ self.old) }
    {
        self.rows.push(&self.last, held)?;
        self.last = *held.key();
        Ok(())
    }

    /// Puts a row that stands whole behind the others. After a refusal the block is as before.
    pub fn push_whole(&mut self, row: Row) -> Result<(), AllocError>
        requires { length self.old < block_limit }
        ensures ok { OnOk result (self.new ≡ self.old ++ row ∷ []) }
        ensures err { OnErr result (self.new ≡ self.old) }
    {
        let key = row.key;
        self.rows.push_whole(&self.last, row)?;
        self.last = key;
        Ok(())
    }

    /// Moves rows of two places behind the others, the lesser of both next rows first, so as the
    /// terms of their walks say. It may stop early. Each row moved is a step, also where memory is
    /// then refused.
    pub fn take_both<L: Ledger>(
        &mut self,
        left: &mut BlockCursor<'_>,
        right: &mut BlockCursor<'_>,
        terms: (Terms<'_>, Terms<'_>),
        steps: &mut Steps<L>,
    ) -> Result<(), AllocError>
        ensures moved { MoveBoth terms.entry.0.until.now terms.entry.1.until.now
            terms.entry.0.by terms.entry.1.by left.old left.new right.old right.new self.old self.new }
        ensures few { length self.new ≤ block_limit }
        ensures cost { steps.new + length self.old ≡ steps.old + length self.new }
    {
        let count = self.len();
        let result = self.move_both(left, right, terms);
        steps.add((self.len() - count) as u64);
        result
    }

    /// The same, without steps.
    fn move_both(
        &mut self,
        left: &mut BlockCursor<'_>,
        right: &mut BlockCursor<'_>,
        terms: (Terms<'_>, Terms<'_>),
    ) -> Result<(), AllocError>
        ensures { MoveBoth terms.entry.0.until.now terms.entry.1.until.now
            terms.entry.0.by terms.entry.1.by left.old left.new right.old right.new self.old self.new }
    {
        let lanes = lanes_of(&self.last, &mut left.place, &mut right.place, terms);
        let Some(mut lanes) = lanes else {
            return Ok(());
        };
        for _row in self.rows.len()..BLOCK_LIMIT {
            let on = move_first(
                &mut left.place,
                &mut right.place,
                &mut lanes,
                &mut self.rows,
                &mut self.last,
            )?;
            if !on {
                return Ok(());
            }
        }
        Ok(())
    }

    /// A block with the first row behind this one, in the room that this one had, which then takes
    /// no more than its rows do.
    pub fn next_block(&mut self, alloc: Global, held: &HeldRow<'_>) -> Result<Block, AllocError>
        ensures same { self.new ≡ self.old }
        ensures next { IfOk result (λ block. block ≡ row_in held.now ∷ []) }
    {
        let key = held.key();
        let mut rows = self.rows.pass_room_on(alloc)?;
        rows.push(key, held)?;
        Ok(Block {
            first: *key,
            last: *key,
            rows,
        })
    }

    /// Gives back the room that the rows do not take.
    pub fn shrink_to_fit(&mut self)
        ensures { self.new ≡ self.old }
    {
        self.rows.shrink_to_fit();
    }

    /// The place before the first row.
    pub fn cursor(&self) -> BlockCursor<'_>
        ensures rows { result ≡ self.now }
        ensures few { length self.now ≤ block_limit }
    {
        self.rows.cursor(self.first)
    }
}
