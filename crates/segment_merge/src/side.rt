//! One side of a merge.
ghost use Rattle.std.specs.Prelude.{◌≡◌, ◌≤◌, ◌+◌, [], ◌∷◌, ◌++◌, MatchOption, OnOk, length, map};
ghost use Rattle.std.specs.List.{AllByRecursion};
ghost use Rattle.segment_blocks.specs.Moving.{next_row_key};
ghost use Rattle.segment_blocks.specs.PackedRows.{AreInOrder};
ghost use Rattle.segment_merge.specs.Merged.{merged};
ghost use Rattle.segment_merge.specs.Pushed.{HasPushed};
ghost use Rattle.segment_merge.specs.Room.{HasRoom, IsSmall};
ghost use Rattle.tally_rows.specs.declared.row.Row.{Row};
ghost use Rattle.tally_rows.specs.Row.{shifted_row};

use crate::shifting::{push_shifted, shift_row};
use segment_blocks::{PackedRows, RowWalk, Steps};
use std::alloc::{AllocError, Global};
use std::marker::Model;
use std::sync::ledger::Ledger;
use tally_rows::{Row, RowKey};

/// The rows of one side that are still to come, with the numbers that their games have among those
/// of both sides.
#[derive(Drop)]
pub struct Side<'a> {
    rest: RowWalk<'a>,
    by: u32,
}

impl<'a> Model for Side<'a> {
    ghost use Rattle.std.specs.Prelude.{List, map};
    ghost use Rattle.tally_rows.specs.declared.row.Row.{Row};
    ghost use Rattle.tally_rows.specs.Row.{shifted_row};

    ghost Value = { List Row };

    ghost use Rattle.std.specs.List.{AllByRecursion};
    ghost use Rattle.segment_merge.specs.Room.{HasRoom};

    ghost view = { λ s. map (shifted_row s.by) s.rest };

    ghost invariant = { λ s. AllByRecursion (HasRoom s.by) s.rest };
}

impl<'a> Side<'a> {
    /// The rows of a walk, whose games have numbers that are greater by `by`.
    pub fn new(rest: RowWalk<'a>, by: u32) -> Side<'a>
        requires { AllByRecursion (HasRoom by) rest }
        ensures { result ≡ map (shifted_row by) rest.entry }
    {
        Side { rest, by }
    }

    /// What the games of the next row have in common, or None at the end.
    #[inline(always)]
    pub fn row_key(&self) -> Option<RowKey>
        ensures { result ≡ next_row_key self.now }
    {
        self.rest.next_row_key()
    }

    /// Moves rows of this and the right side to the rows of a merge, the lesser of both next rows
    /// first, as long as they have not the same five parts. It may stop early.
    pub fn push_both<L: Ledger>(
        &mut self,
        right: &mut Side<'_>,
        packed: &mut PackedRows,
        steps: &mut Steps<L>,
    ) -> Result<(), AllocError>
        requires in_order { AreInOrder (packed.old.rows ++ merged self.old right.old) }
        ensures whole { packed.new.rows ++ merged self.new right.new
            ≡ packed.old.rows ++ merged self.old right.old }
        ensures fewer { length self.new + length right.new ≤ length self.old + length right.old }
    {
        packed.take_both(&mut self.rest, &mut right.rest, (self.by, right.by), steps)
    }

    /// Moves the next row, where there is one, to the rows of a merge.
    pub fn push_next<L: Ledger>(
        &mut self,
        alloc: Global,
        packed: &mut PackedRows,
        steps: &mut Steps<L>,
    ) -> Result<(), AllocError>
        requires in_order { AreInOrder (packed.old.rows ++ self.old) }
        ensures { OnOk result (HasPushed self.old self.new packed.old.rows packed.new.rows) }
    {
        let Some(held) = self.rest.advance(steps) else {
            return Ok(());
        };
        push_shifted(alloc, packed, &held, self.by)
    }

    /// The next row by itself, which is then past.
    pub fn take<L: Ledger>(&mut self, steps: &mut Steps<L>) -> Option<Row>
        ensures { MatchOption result ((self.old ≡ []) × (self.new ≡ []))
            (λ row. (self.old ≡ row ∷ self.new) × IsSmall row) }
    {
        let held = self.rest.advance(steps)?;
        Some(shift_row(&held.to_row(), self.by))
    }
}
