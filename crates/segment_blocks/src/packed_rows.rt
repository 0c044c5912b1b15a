//! Rows in little room.
ghost use Rattle.std.specs.Prelude.{◌≡◌, ℕ, List, ◌+◌, ◌≤◌, ◌<◌, ◌^◌, ◌++◌, ◌∷◌, [], filter, not, true, false, length, slice_index_or, IfOk, MatchOption, OnOk, OnErr};
ghost use Rattle.std.specs.List.{flat_map};
ghost use Rattle.segment_blocks.specs.Block.{block_limit};
ghost use Rattle.segment_blocks.specs.HeldRow.{row_in};
ghost use Rattle.segment_blocks.specs.Both.{HaveBothMoved, MayBothMove};
ghost use Rattle.segment_blocks.specs.PackedRows.{AreBlocksOf, AreInOrder, ArePacked, IsFirstKey, is_first_below, rows_of_parts};
ghost use Rattle.segment_blocks.specs.Walk.{is_below, is_within, has_key, from_key, from_bound, until_bound, rows_in, rows_until, front_rows};
ghost use Rattle.tally_rows.specs.declared.row.Row.{Row};
ghost use Rattle.tally_rows.specs.Row.{row_of};

use crate::block::{BLOCK_LIMIT, Block};
use crate::block_cursor::BlockCursor;
use crate::held_row::HeldRow;
use crate::row_walk::RowWalk;
use crate::rows_cursor::RowsCursor;
use crate::steps::Steps;
use crate::until::Until;
use std::alloc::{AllocError, Global};
use std::marker::Model;
use std::sync::ledger::Ledger;
use tally_rows::{CountedAs, CountedRow, PositionKey, Row, Single};

/// For how many blocks room is prepared at once.
const BLOCKS_AT_ONCE: usize = 16;

/// As many bytes as so many full blocks take, about. Much larger room is no part of a thread's heap.
const ROOM_AT_ONCE: usize = 96 * 1024;

/// Rows in their order, in blocks of at most 128. The first keys of the blocks are their index.
#[derive(Drop)]
pub struct PackedRows {
    blocks: Vec<Block>,
}

impl Model for PackedRows {
    ghost use Rattle.segment_blocks.specs.Walk.{rows_in};
    ghost use Rattle.segment_blocks.specs.PackedRows.{Packed, ArePacked};
    ghost use Rattle.std.specs.Prelude.{length};

    ghost Value = { Packed };

    ghost view = { λ p. record { rows = rows_in p.blocks.items; blocks = length p.blocks.items } };

    ghost invariant = { λ p. ArePacked p.blocks.items };
}

impl PackedRows {
    /// No row.
    pub fn new(alloc: Global) -> PackedRows
        ensures { result.rows ≡ [] }
    {
        PackedRows {
            blocks: Vec::new(alloc),
        }
    }

    /// Rows that stand in their order, in parts, one after another.
    pub(crate) fn of(alloc: Global, parts: &[Vec<CountedRow>]) -> Result<PackedRows, AllocError>
        requires in_order { AreInOrder (flat_map (λ part. part.items) parts.now) }
        ensures { IfOk result (λ packed. packed.rows ≡ flat_map (λ part. part.items) parts.now) }
    {
        let mut packed = PackedRows::new(alloc);
        for part in parts {
            packed.push_all(alloc, part.as_slice())?;
        }
        packed.shrink_last();
        Ok(packed)
    }

    /// Puts rows behind the others.
    pub(crate) fn push_all(&mut self, alloc: Global, rows: &[CountedRow]) -> Result<(), AllocError>
        requires in_order { AreInOrder (self.old.rows ++ rows.now) }
        ensures { OnOk result (self.new.rows ≡ self.old.rows ++ rows.now) }
    {
        for row in rows {
            self.push_counted(alloc, row)?;
        }
        Ok(())
    }

    /// Puts a row of a tally behind the others.
    fn push_counted(&mut self, alloc: Global, row: &CountedRow) -> Result<(), AllocError>
        requires in_order { AreInOrder (self.old.rows ++ row.now ∷ []) }
        ensures { OnOk result (self.new.rows ≡ self.old.rows ++ row.now ∷ []) }
    {
        match row.counted_as() {
            CountedAs::One(game) => self.push_one(alloc, game),
            CountedAs::More(row) => self.push(alloc, row),
        }
    }

    /// Puts the row of one game behind the others.
    fn push_one(&mut self, alloc: Global, game: &Single) -> Result<(), AllocError>
        requires in_order { AreInOrder (self.old.rows ++ row_of game.now ∷ []) }
        ensures { OnOk result (self.new.rows ≡ self.old.rows ++ row_of game.now ∷ []) }
    {
        let count = self.blocks.as_slice().len();
        if count == 0 {
            return self.push_held(alloc, &HeldRow::Game(*game));
        }
        if self.blocks[count - 1].len() < BLOCK_LIMIT {
            return self.blocks[count - 1].push_one(game);
        }
        self.push_held(alloc, &HeldRow::Game(*game))
    }

    /// The rows of parts, one part after another. Their blocks keep their rows.
    pub(crate) fn of_parts(alloc: Global, parts: Vec<PackedRows>) -> Result<PackedRows, AllocError>
        requires in_order { AreInOrder (rows_of_parts parts.items) }
        ensures { IfOk result (λ packed. packed.rows ≡ rows_of_parts parts.items) }
    {
        let mut all = PackedRows {
            blocks: Vec::with_capacity(alloc, count_blocks(parts.as_slice()))?,
        };
        for part in parts {
            let mut part = part;
            part.shrink_last();
            all.append(part)?;
        }
        Ok(all)
    }

    /// Puts a row behind the others. After a refusal they are as before.
    pub fn push(&mut self, alloc: Global, row: &Row) -> Result<(), AllocError>
        requires in_order { AreInOrder (self.old.rows ++ row.now ∷ []) }
        ensures ok { OnOk result (self.new.rows ≡ self.old.rows ++ row.now ∷ []) }
        ensures err { OnErr result (self.new ≡ self.old) }
    {
        self.push_held(alloc, &HeldRow::Whole(row))
    }

    /// Puts a row that is held so behind the others. After a refusal they are as before.
    pub fn push_held(&mut self, alloc: Global, held: &HeldRow<'_>) -> Result<(), AllocError>
        requires in_order { AreInOrder (self.old.rows ++ row_in held.now ∷ []) }
        ensures ok { OnOk result (self.new.rows ≡ self.old.rows ++ row_in held.now ∷ []) }
        ensures err { OnErr result (self.new ≡ self.old) }
    {
        let count = self.blocks.as_slice().len();
        if count == 0 {
            let block = Block::of(alloc, held)?;
            self.blocks.push(block)?;
            return Ok(());
        }
        if self.blocks[count - 1].len() < BLOCK_LIMIT {
            return self.blocks[count - 1].push(held);
        }
        prepare_room(alloc, count);
        let block = self.blocks[count - 1].next_block(alloc, held)?;
        self.blocks.push(block)?;
        Ok(())
    }

    /// Puts a row that stands whole behind the others. After a refusal they are as before.
    pub fn push_whole(&mut self, alloc: Global, row: Row) -> Result<(), AllocError>
        requires in_order { AreInOrder (self.old.rows ++ row ∷ []) }
        ensures ok { OnOk result (self.new.rows ≡ self.old.rows ++ row ∷ []) }
        ensures err { OnErr result (self.new ≡ self.old) }
    {
        let count = self.blocks.as_slice().len();
        if count > 0 && self.blocks[count - 1].len() < BLOCK_LIMIT {
            return self.blocks[count - 1].push_whole(row);
        }
        self.push_held(alloc, &HeldRow::Whole(&row))
    }

    /// Moves rows of two walks behind the others, the lesser of both next rows first, as they are
    /// packed and with numbers that are greater by so much. It may stop early. Each row moved is a
    /// step, also where memory is then refused.
    pub fn take_both<L: Ledger>(
        &mut self,
        left: &mut RowWalk<'_>,
        right: &mut RowWalk<'_>,
        by: (u32, u32),
        steps: &mut Steps<L>,
    ) -> Result<(), AllocError>
        requires in_order { MayBothMove by.0 by.1 left.old right.old self.old.rows }
        ensures moved { HaveBothMoved by.0 by.1 left.old left.new right.old right.new
            self.old.rows self.new.rows }
        ensures cost { steps.new + length left.new + length right.new
            ≡ steps.old + length left.old + length right.old }
    {
        let count = self.blocks.as_slice().len();
        if count == 0 {
            return Ok(());
        }
        left.move_both(right, &mut self.blocks[count - 1], by, steps)
    }

    /// A walk over the rows of the key, in their order. A step is a first key compared or a row
    /// passed.
    pub fn rows_at<L: Ledger>(&self, key: &PositionKey, steps: &mut Steps<L>) -> RowWalk<'_>
        ensures rows { result ≡ filter (has_key key.now) self.now.rows }
        ensures cost { (digits : ℕ) → self.now.blocks < 2 ^ digits
            → steps.new ≤ steps.old + block_limit + digits }
    {
        RowWalk {
            rest: seek(self.blocks.as_slice(), key, steps),
            until: Until::Key(*key),
        }
    }

    /// A walk over the rows whose key is not below the key, in their order. It takes the steps of
    /// `rows_at`.
    pub fn rows_from<L: Ledger>(&self, key: &PositionKey, steps: &mut Steps<L>) -> RowWalk<'_>
        ensures rows { result ≡ filter (λ row. not (is_below key.now row)) self.now.rows }
        ensures cost { (digits : ℕ) → self.now.blocks < 2 ^ digits
            → steps.new ≤ steps.old + block_limit + digits }
    {
        RowWalk {
            rest: seek(self.blocks.as_slice(), key, steps),
            until: Until::End,
        }
    }

    /// A walk over the rows whose key is not below `from` and is below `below`, in their order. An
    /// absent bound is none. It takes the steps of `rows_at`.
    pub fn rows_within<L: Ledger>(
        &self,
        from: Option<PositionKey>,
        below: Option<PositionKey>,
        steps: &mut Steps<L>,
    ) -> RowWalk<'_>
        ensures rows { result ≡ filter (is_within from below) self.now.rows }
        ensures cost { (digits : ℕ) → self.now.blocks < 2 ^ digits
            → steps.new ≤ steps.old + block_limit + digits }
    {
        RowWalk {
            rest: rows_behind(self.blocks.as_slice(), from, steps),
            until: until_bound(below),
        }
    }

    /// How many blocks there are, each of 1 to 128 rows.
    pub fn block_count(&self) -> usize
        ensures count { result ≡ self.now.blocks }
        ensures blocks { AreBlocksOf self.now.rows self.now.blocks }
    {
        self.blocks.len()
    }

    /// The key of the first row of block `n`, from 0, or None where there are not so many blocks.
    /// Either is one step.
    pub fn first_key<L: Ledger>(&self, n: usize, steps: &mut Steps<L>) -> Option<PositionKey>
        ensures key { MatchOption result (self.now.blocks ≤ n)
            (IsFirstKey self.now.rows self.now.blocks n) }
        ensures cost { steps.new ≡ steps.old + 1 }
    {
        steps.tick();
        let blocks = self.blocks.as_slice();
        if n < blocks.len() {
            Some(*blocks[n].first())
        } else {
            None
        }
    }

    /// Gives back the room that the rows of the last block do not take, where no more rows come. The
    /// blocks before it have just the room that theirs take.
    fn shrink_last(&mut self)
        ensures { self.new ≡ self.old }
    {
        let count = self.blocks.as_slice().len();
        if count > 0 {
            self.blocks[count - 1].shrink_to_fit();
        }
    }

    /// Puts other rows behind these. After a refusal these are as before, and the others are lost.
    fn append(&mut self, other: PackedRows) -> Result<(), AllocError>
        requires in_order { AreInOrder (self.old.rows ++ other.rows) }
        ensures ok { OnOk result (self.new.rows ≡ self.old.rows ++ other.rows) }
        ensures err { OnErr result (self.new ≡ self.old) }
    {
        let PackedRows { blocks } = other;
        let mut blocks = blocks;
        self.blocks.append(&mut blocks)
    }
}

/// The rows from the first one on whose key is not below the key.
fn seek<'a, L: Ledger>(
    blocks: &'a [Block],
    key: &PositionKey,
    steps: &mut Steps<L>,
) -> RowsCursor<'a>
    requires { ArePacked blocks.now }
    ensures rows { result ≡ from_key key.now (rows_in blocks.now) }
    ensures cost { (digits : ℕ) → length blocks.now < 2 ^ digits
        → steps.new ≤ steps.old + block_limit + digits }
{
    let below = count_below(blocks, key, steps);
    if below == 0 {
        return all_of(blocks);
    }
    let (front, place) = pass_below(blocks[below - 1].cursor(), key, steps);
    RowsCursor {
        front,
        place,
        blocks: &blocks[below..],
    }
}

/// The rows from a bound on, or all.
fn rows_behind<'a, L: Ledger>(
    blocks: &'a [Block],
    from: Option<PositionKey>,
    steps: &mut Steps<L>,
) -> RowsCursor<'a>
    requires { ArePacked blocks.now }
    ensures rows { result ≡ from_bound from (rows_in blocks.now) }
    ensures cost { (digits : ℕ) → length blocks.now < 2 ^ digits
        → steps.new ≤ steps.old + block_limit + digits }
{
    match from {
        Some(key) => seek(blocks, &key, steps),
        None => all_of(blocks),
    }
}

/// Where a walk ends that goes to the rows below a bound, or over all.
fn until_bound(below: Option<PositionKey>) -> Until
    ensures { (rows : List Row) → rows_until result rows ≡ until_bound below rows }
{
    match below {
        Some(key) => Until::Below(key),
        None => Until::End,
    }
}

/// How many blocks all parts have.
fn count_blocks(parts: &[PackedRows]) -> usize {
    let mut count = 0usize;
    for part in parts {
        count = count.saturating_add(part.block_count());
    }
    count
}

/// Asks for the room of some blocks at once and gives it back, behind each 16th block. The heap of a
/// thread grows by just what is asked for, by a call of the system for which the other threads have
/// to wait. Where there is no such room, the blocks may still find theirs.
fn prepare_room(alloc: Global, count: usize) {
    if count % BLOCKS_AT_ONCE == 1 {
        let _room: Result<Vec<u8>, AllocError> = Vec::with_capacity(alloc, ROOM_AT_ONCE);
    }
}

/// All rows of the blocks.
fn all_of(blocks: &[Block]) -> RowsCursor<'_>
    ensures { result ≡ rows_in blocks.now }
{
    RowsCursor {
        front: None,
        place: BlockCursor::empty(),
        blocks,
    }
}

/// How many blocks begin with a lesser key.
fn count_below<L: Ledger>(blocks: &[Block], key: &PositionKey, steps: &mut Steps<L>) -> usize
    requires { ArePacked blocks.now }
    ensures within { result ≤ length blocks.now }
    ensures below { (k : ℕ) → k < result
        → is_first_below key.now (slice_index_or blocks.now k []) ≡ true }
    ensures above { (k : ℕ) → result ≤ k → k < length blocks.now
        → is_first_below key.now (slice_index_or blocks.now k []) ≡ false }
    ensures cost { (digits : ℕ) → length blocks.now < 2 ^ digits → steps.new ≤ steps.old + digits }
{
    let mut first = 0;
    let mut size = blocks.len();
    while size > 0 {
        let half = size / 2;
        steps.tick();
        if begins_below(&blocks[first + half], key) {
            first += half + 1;
            size -= half + 1;
        } else {
            size = half;
        }
    }
    first
}

/// Whether the block begins with a lesser key.
fn begins_below(block: &Block, key: &PositionKey) -> bool
    ensures { result ≡ is_first_below key.now block.now }
{
    block.first().cmp(key).is_lt()
}

/// The first row whose key is not below the key, and what stands behind it.
fn pass_below<'a, L: Ledger>(
    place: BlockCursor<'a>,
    key: &PositionKey,
    steps: &mut Steps<L>,
) -> (Option<HeldRow<'a>>, BlockCursor<'a>)
    ensures rows { front_rows result.0 ++ result.1 ≡ from_key key.now place.entry }
    ensures cost { steps.new ≤ steps.old + length place.entry }
{
    let mut place = place;
    while let Some(held) = place.next() {
        if held.key().cmp(key).is_ge() {
            return (Some(held), place);
        }
        steps.tick();
    }
    (None, place)
}
