//! Rows over several blocks.
ghost use Rattle.std.specs.Prelude.{◌≡◌, ◌+◌, ◌≤◌, [], ◌∷◌, MatchOption, length};
ghost use Rattle.segment_blocks.specs.Block.{block_limit};
ghost use Rattle.segment_blocks.specs.HeldRow.{row_in};
ghost use Rattle.segment_blocks.specs.Both.{HaveBothMoved};
ghost use Rattle.segment_blocks.specs.Moving.{next_row_key};
ghost use Rattle.segment_blocks.specs.Walk.{rows_until};

use crate::block::Block;
use crate::block_cursor::BlockCursor;
use crate::held_row::HeldRow;
use crate::lane::Terms;
use crate::steps::Steps;
use std::alloc::AllocError;
use std::marker::Model;
use std::sync::ledger::Ledger;
use tally_rows::RowKey;

/// What is left of blocks: perhaps a row that was looked at, the place in a block, and the blocks
/// behind it.
#[derive(Drop)]
pub struct RowsCursor<'a> {
    pub front: Option<HeldRow<'a>>,
    pub place: BlockCursor<'a>,
    pub blocks: &'a [Block],
}

impl<'a> Model for RowsCursor<'a> {
    ghost use Rattle.std.specs.Prelude.{List, ◌++◌};
    ghost use Rattle.tally_rows.specs.declared.row.Row.{Row};

    ghost Value = { List Row };

    ghost use Rattle.segment_blocks.specs.Walk.{front_rows, rows_in};

    ghost view = { λ r. front_rows r.front ++ r.place ++ rows_in r.blocks.now };
}

impl<'a> RowsCursor<'a> {
    /// The next row, or None at the end.
    pub fn next(&mut self) -> Option<HeldRow<'a>>
        ensures { MatchOption result ((self.old ≡ []) × (self.new ≡ []))
            (λ held. self.old ≡ row_in held ∷ self.new) }
    {
        if let Some(held) = self.front.take() {
            return Some(held);
        }
        if let Some(held) = self.place.next() {
            return Some(held);
        }
        let (block, blocks) = self.blocks.split_first()?;
        // A block has some row, as its length says.
        let _some = block.len();
        self.place = block.cursor();
        self.blocks = blocks;
        self.place.next()
    }

    /// What the games of the next row have in common, or None at the end.
    #[inline(always)]
    pub fn next_row_key(&self) -> Option<RowKey>
        ensures { result ≡ next_row_key self.now }
    {
        if let Some(held) = &self.front {
            return Some(held.row_key());
        }
        if let Some(row_key) = self.place.next_row_key() {
            return Some(row_key);
        }
        let (block, _blocks) = self.blocks.split_first()?;
        // A block has some row, as its length says.
        let _some = block.len();
        block.cursor().next_row_key()
    }

    /// Goes on to the next block where no row is left of one.
    fn refill(&mut self)
        ensures { self.new ≡ self.old }
    {
        if self.front.is_some() || !self.place.is_empty() {
            return;
        }
        if let Some((block, blocks)) = self.blocks.split_first() {
            self.place = block.cursor();
            self.blocks = blocks;
        }
    }

    /// Moves rows of this and another cursor to the end of a block, as
    /// `Block::take_both` does.
    pub fn move_both<L: Ledger>(
        &mut self,
        other: &mut RowsCursor<'_>,
        block: &mut Block,
        terms: (Terms<'_>, Terms<'_>),
        steps: &mut Steps<L>,
    ) -> Result<(), AllocError>
        ensures moved { HaveBothMoved terms.entry.0.by terms.entry.1.by
            (rows_until terms.entry.0.until.now self.old)
            (rows_until terms.entry.0.until.now self.new)
            (rows_until terms.entry.1.until.now other.old)
            (rows_until terms.entry.1.until.now other.new)
            block.old block.new }
        ensures few { length block.old ≤ block_limit → length block.new ≤ block_limit }
        ensures cost { steps.new + length block.old ≡ steps.old + length block.new }
    {
        self.refill();
        other.refill();
        if self.front.is_some() || other.front.is_some() {
            return Ok(());
        }
        block.take_both(&mut self.place, &mut other.place, terms, steps)
    }
}
