//! A place in a block.
ghost use Rattle.std.specs.Prelude.{◌≡◌, ◌≤◌, ℕ, List, [], ◌∷◌, length, None, Some, IfSome, IsTrue, MatchOption};
ghost use Rattle.segment_blocks.specs.Encoded.{own_len, key_behind, row_key_at, single_of};
ghost use Rattle.segment_blocks.specs.HeldRow.{row_in};
ghost use Rattle.segment_blocks.specs.Prefix.{common_len};
ghost use Rattle.segment_blocks.specs.declared.mark.Mark.{Mark};
ghost use Rattle.segment_blocks.specs.Place.{rows_left, IsPlace, IsBehind, IsNextShared};
ghost use Rattle.segment_blocks.specs.Moving.{next_row_key, HasMovedBehind, IfOff, IfOn, IsLane};

use crate::encoded_rows::EncodedRows;
use crate::held_row::HeldRow;
use crate::key_order::order_behind;
use crate::key_room::KeyRoom;
use crate::lane::Lane;
use crate::mark::Mark;
use crate::moved_row::moved_row;
use explorer_model::archive::Outcome;
use std::alloc::AllocError;
use std::marker::Model;
use tally_rows::{PositionKey, Row, RowKey, Single};

/// A place in a block, as its fields tell it.
#[derive(Drop)]
pub struct Place<'a> {
    /// The key before the next row, or the key of the next row itself, which serves as well.
    pub before: KeyRoom,
    /// Whether it is known to be the key of the next row.
    pub is_own: bool,
    pub marks: &'a [Mark],
    pub tails: &'a [u8],
    pub whole: &'a [Row],
}

/// What is left of a block: its rows from a place on.
#[derive(Drop)]
pub struct BlockCursor<'a> {
    pub place: Place<'a>,
}

impl<'a> Model for BlockCursor<'a> {
    ghost use Rattle.std.specs.Prelude.{List};
    ghost use Rattle.tally_rows.specs.declared.row.Row.{Row};

    ghost Value = { List Row };

    ghost use Rattle.segment_blocks.specs.Place.{rows_left, IsPlace, IsBehind};

    ghost view = { λ c. rows_left c.place };

    ghost invariant = { λ c. IsPlace c.place };
}

impl<'a> BlockCursor<'a> {
    /// No row.
    pub fn empty() -> BlockCursor<'a>
        ensures { result ≡ [] }
    {
        BlockCursor {
            place: Place {
                before: KeyRoom::of(&[0; 34]),
                is_own: false,
                marks: &[],
                tails: &[],
                whole: &[],
            },
        }
    }

    /// Whether it is known that no row is left.
    #[inline(always)]
    pub fn is_empty(&self) -> bool
        ensures { IsTrue result → self.now ≡ [] }
    {
        self.place.marks.is_empty()
    }

    /// The next row, or None at the end.
    pub fn next(&mut self) -> Option<HeldRow<'a>>
        ensures { MatchOption result ((self.old ≡ []) × (self.new ≡ []))
            (λ held. self.old ≡ row_in held ∷ self.new) }
    {
        let (mark, marks) = self.place.marks.split_first()?;
        if let Some(outcome) = mark.outcome {
            let (all, is_own) = (self.place.tails, self.place.is_own);
            let (_own, tails) = all.split_at(34 - usize::from(mark.shared));
            complete(&mut self.place.before, is_own, mark, all);
            self.place.is_own = false;
            self.place.marks = marks;
            self.place.tails = tails;
            Some(HeldRow::Game(single_of(*self.place.before.key(), mark, outcome)))
        } else {
            let (row, whole) = self.place.whole.split_first()?;
            self.place.before = KeyRoom::of(&row.key);
            self.place.is_own = false;
            self.place.marks = marks;
            self.place.whole = whole;
            Some(HeldRow::Whole(row))
        }
    }

    /// What the games of the next row have in common, or None at the end.
    #[inline(always)]
    pub fn next_row_key(&self) -> Option<RowKey>
        ensures { result ≡ next_row_key self.now }
    {
        self.place.next_row_key()
    }
}

impl<'a> Place<'a> {
    /// What the games of the next row have in common, or None at the end.
    #[inline(always)]
    pub fn next_row_key(&self) -> Option<RowKey>
        requires { IsPlace self.now }
        ensures { result ≡ next_row_key (rows_left self.now) }
    {
        let (mark, _marks) = self.marks.split_first()?;
        if let Some(_outcome) = mark.outcome {
            if self.is_own {
                return Some(row_key_at(*self.before.key(), mark));
            }
            let key = key_behind(&self.before, mark, self.tails);
            return Some(row_key_at(key, mark));
        }
        let (row, _whole) = self.whole.split_first()?;
        Some(row.row_key())
    }

    /// Makes the key of the next row, which it may be known to be already. Says how many bytes its
    /// mark has in common with the one before it, or None where there is no row.
    #[inline(always)]
    pub fn make_ready(&mut self, is_known: bool) -> Option<u8>
        requires filled { IsPlace self.old }
        requires known { IsTrue is_known → IsTrue self.old.is_own }
        ensures filled { IsPlace self.new }
        ensures marks { self.new.marks ≡ self.old.marks }
        ensures rows { rows_left self.new ≡ rows_left self.old }
        ensures own { IfSome result (λ shared. IsTrue self.new.is_own) }
        ensures told { IfSome result (λ shared. IsNextShared shared self.old.marks.now) }
    {
        let (mark, _marks) = self.marks.split_first()?;
        if let Some(_outcome) = mark.outcome {
            // How long a key is, the key before tells.
            let _before = self.before.key();
            complete(&mut self.before, is_known, mark, self.tails);
            self.is_own = true;
            return Some(mark.shared);
        }
        let (row, _whole) = self.whole.split_first()?;
        take_key(&mut self.before, row);
        self.is_own = true;
        Some(mark.shared)
    }

    /// Moves the next row behind others, the last of which has the key `last`, so as its lane says,
    /// where its numbers have room. Says whether it has moved.
    #[inline(always)]
    pub fn push_own(
        &mut self,
        lane: Lane,
        rows: &mut EncodedRows,
        last: &mut PositionKey,
    ) -> Result<bool, AllocError>
        requires filled { IsPlace self.old }
        requires own { IsTrue self.old.is_own }
        requires shared { lane.shared ≡ common_len last.old self.old.before }
        ensures filled { IsPlace self.new }
        ensures moved { IfOn result (HasMovedBehind lane.by (rows_left self.old)
            (rows_left self.new) last.old last.new rows.old rows.new) }
        ensures key { IfOn result (last.new ≡ self.old.before) }
        ensures behind { IfOn result (IsBehind last.new self.new) }
        ensures stays { IfOff result ((rows_left self.new ≡ rows_left self.old)
            × (last.new ≡ last.old) × (rows.new ≡ rows.old)) }
    {
        let Some((mark, marks)) = self.marks.split_first() else {
            return Ok(false);
        };
        let Some(_outcome) = mark.outcome else {
            return self.push_whole(lane, rows, last);
        };
        let Some(number) = mark.number.checked_add(lane.by) else {
            return Ok(false);
        };
        let (_own, tails) = self.tails.split_at(34 - usize::from(mark.shared));
        // How long a key is, the key before tells.
        let _before = self.before.key();
        rows.push_game(mark, number, lane.shared, &self.before)?;
        *last = *self.before.key();
        self.is_own = false;
        self.marks = marks;
        self.tails = tails;
        Ok(true)
    }

    /// The same of a row that stands whole. Kept apart, since few rows do.
    #[inline(never)]
    fn push_whole(
        &mut self,
        lane: Lane,
        rows: &mut EncodedRows,
        last: &mut PositionKey,
    ) -> Result<bool, AllocError>
        requires filled { IsPlace self.old }
        requires own { IsTrue self.old.is_own }
        requires whole { (mark : Mark) (marks : List Mark) → self.old.marks.now ≡ mark ∷ marks
            → mark.outcome ≡ None }
        requires shared { lane.shared ≡ common_len last.old self.old.before }
        ensures filled { IsPlace self.new }
        ensures moved { IfOn result (HasMovedBehind lane.by (rows_left self.old)
            (rows_left self.new) last.old last.new rows.old rows.new) }
        ensures key { IfOn result (last.new ≡ self.old.before) }
        ensures behind { IfOn result (IsBehind last.new self.new) }
        ensures stays { IfOff result ((rows_left self.new ≡ rows_left self.old)
            × (last.new ≡ last.old) × (rows.new ≡ rows.old)) }
    {
        let Some((_mark, marks)) = self.marks.split_first() else {
            return Ok(false);
        };
        let Some((row, whole)) = self.whole.split_first() else {
            return Ok(false);
        };
        let Some(moved) = moved_row(row, lane.by) else {
            return Ok(false);
        };
        // How long a key is, the key before tells.
        let _before = self.before.key();
        rows.push_row(moved, lane.shared)?;
        *last = *self.before.key();
        self.is_own = false;
        self.marks = marks;
        self.whole = whole;
        Ok(true)
    }

    /// Makes ready the next row, which stands behind the last one, whose key is `last`, and puts
    /// into its lane how many bytes both keys have in common. Says whether it can move.
    #[inline(always)]
    pub fn follow(&mut self, lane: &mut Lane, last: &PositionKey) -> bool
        requires filled { IsPlace self.old }
        requires behind { IsBehind last.now self.old }
        ensures filled { IsPlace self.new }
        ensures rows { rows_left self.new ≡ rows_left self.old }
        ensures by { lane.new.by ≡ lane.old.by }
        ensures lane { IsTrue result → IsLane last.now lane.new self.new }
    {
        let Some(shared) = self.make_ready(false) else {
            return false;
        };
        lane.shared = shared;
        !order_behind(last, self.before.key(), shared).is_gt()
    }
}

/// What the games of a mark have in common, in the position of a key.
#[inline(always)]
pub fn row_key_at(key: PositionKey, mark: &Mark) -> RowKey
    ensures { result ≡ row_key_at key mark.now }
{
    RowKey {
        key,
        next: mark.next,
        month: mark.month,
        speed: mark.speed,
        group: mark.group,
    }
}

/// Takes the key of a row that stands whole. Kept apart, since few rows do.
#[inline(never)]
fn take_key(key: &mut KeyRoom, row: &Row)
    ensures { key.new ≡ row.now.key }
{
    *key = KeyRoom::of(&row.key);
}

/// Makes the key of a mark from the key before it and the bytes of its own, the first ones of
/// `tails`, where it is not known to be its own key already. A call of its own for each row that moves would cost more
/// than the copy.
#[inline(always)]
fn complete(key: &mut KeyRoom, is_own: bool, mark: &Mark, tails: &[u8])
    requires own { own_len mark.now ≤ length tails.now }
    requires is_own { IsTrue is_own → key_behind key.old mark.now tails.now ≡ key.old }
    ensures { key.new ≡ key_behind key.old mark.now tails.now }
{
    if !is_own {
        key.complete(mark, tails);
    }
}

/// The key of a mark behind another key. Kept apart, since the key of a next row is mostly its own
/// already.
#[inline(never)]
fn key_behind(before: &KeyRoom, mark: &Mark, tails: &[u8]) -> PositionKey
    requires { own_len mark.now ≤ length tails.now }
    ensures { result ≡ key_behind before.now mark.now tails.now }
{
    let mut key = KeyRoom::of(before.key());
    key.complete(mark, tails);
    *key.key()
}

/// The game of a mark in the position of a key.
fn single_of(key: PositionKey, mark: &Mark, outcome: Outcome) -> Single
    ensures { result ≡ single_of key mark.now outcome }
{
    Single {
        row_key: row_key_at(key, mark),
        number: mark.number,
        outcome,
        rating: mark.rating,
        sum: u32::from(mark.sum),
    }
}
