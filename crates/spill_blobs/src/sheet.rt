//! The rows of a segment as bytes, with their index.
ghost use Rattle.std.specs.Prelude.{◌≡◌, ◌<◌, ◌+◌, ℕ, List, [], ◌∷◌, ◌++◌, OnOk, IfOk};
ghost use Rattle.spill_blobs.specs.Marks.{marked, skipped};
ghost use Rattle.spill_blobs.specs.Sheets.{IsSheet};
ghost use Rattle.tally_rows.specs.declared.row.Row.{Row as Counted};

use crate::row_bytes::put_row;
use packed_keys::PositionKey;
use segment_blocks::{Segment, Steps};
use std::alloc::{AllocError, Global};
use std::marker::Brand;
use std::sync::ledger::{Blank, Ledger};
use tally_rows::Row;

/// How many rows stand behind an indexed one, before the next.
const ROWS_BEHIND: u64 = 127;

/// Rows as bytes.
#[derive(Drop)]
pub struct Sheet {
    pub bytes: Vec<u8>,
    /// How many rows there are.
    pub count: u64,
    /// The keys of rows 0, 128, 256 and so on.
    pub keys: Vec<PositionKey>,
    /// How many rows stand before the next of these.
    skip: u64,
}

impl Sheet {
    /// The rows of a segment, as bytes.
    pub fn of(alloc: Global, segment: &Segment) -> Result<Sheet, AllocError>
        ensures { IfOk result (λ sheet. IsSheet sheet segment.now.rows) }
    {
        Sheet::of_uncounted::<Brand>(alloc, segment, Blank::new(1))
    }

    /// The same, with a ledger for its steps.
    fn of_uncounted<L: Ledger>(
        alloc: Global,
        segment: &Segment,
        blank: Blank,
    ) -> Result<Sheet, AllocError>
        requires name { blank.name ≡ L.name }
        requires parts { blank.parts ≡ L.parts }
        requires some { 0 < L.parts }
        ensures { IfOk result (λ sheet. IsSheet sheet segment.now.rows) }
    {
        let mut steps = Steps::<L>::new(blank);
        let bytes = Vec::new(alloc);
        let keys = Vec::new(alloc);
        let mut sheet = Sheet {
            bytes,
            count: 0,
            keys,
            skip: 0,
        };
        let mut walk = segment.rows_within(None, None, &mut steps);
        while let Some(row) = walk.next(&mut steps) {
            sheet.put(&row)?;
        }
        Ok(sheet)
    }

    /// Puts a row behind the others.
    fn put(&mut self, row: &Row) -> Result<(), AllocError>
        ensures { OnOk result ((rows : List Counted) → IsSheet self.old rows
            → IsSheet self.new (rows ++ row.now ∷ [])) }
    {
        put_row(&mut self.bytes, row)?;
        self.mark(&row.key)?;
        self.count = self.count.saturating_add(1);
        Ok(())
    }

    /// Puts the key of a row into the index, where it has its turn.
    fn mark(&mut self, key: &PositionKey) -> Result<(), AllocError>
        ensures keys { OnOk result
            (self.new.keys.items ≡ self.old.keys.items ++ marked self.old.skip key.now) }
        ensures skip { OnOk result (self.new.skip ≡ skipped self.old.skip) }
        ensures rest { self.new ≡ record self.old { keys = self.new.keys; skip = self.new.skip } }
    {
        if self.skip > 0 {
            self.skip -= 1;
            return Ok(());
        }
        self.keys.push(*key)?;
        self.skip = ROWS_BEHIND;
        Ok(())
    }
}
