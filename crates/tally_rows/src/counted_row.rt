//! A row as a tally keeps it.
ghost use Rattle.std.specs.Prelude.{◌≡◌, ◌+◌, ◌<◌, ◌^◌, OnOk, OnErr};
ghost use Rattle.tally_rows.specs.CountedRow.{row_counted};
ghost use Rattle.tally_rows.specs.Row.{row_key_of, row_of, combined, HasRoomForOne};

use crate::{Row, Single};
use std::alloc::{AllocError, Global};
use std::marker::Model;

/// A row. That of one game is kept as its single, which takes less than half of the room and says
/// itself that the row counts one game.
#[derive(Debug, Drop)]
pub struct CountedRow {
    kept: KeptRow,
}

#[derive(Debug, Drop)]
enum KeptRow {
    One(Single),
    More(Box<Row>),
}

/// What a row is kept as.
#[derive(Clone, Copy, Debug)]
pub enum CountedAs<'a> {
    /// The single of its one game.
    One(&'a Single),
    /// Any row.
    More(&'a Row),
}

impl Model for CountedRow {
    ghost use Rattle.tally_rows.specs.declared.row.Row.{Row};

    ghost Value = { Row };

    ghost use Rattle.tally_rows.specs.CountedRow.{row_kept};

    ghost view = { λ r. row_kept r.kept };
}

impl CountedRow {
    /// The row of one game.
    #[tactic(auto, unfolding(crate::specs::Row::row_of))]
    pub fn of(single: &Single) -> CountedRow
        ensures row { result ≡ row_of single.now }
        ensures small { result.ratings < 2 ^ 16 }
    {
        let _rating = single.rating;
        CountedRow {
            kept: KeptRow::One(*single),
        }
    }

    /// Counts one more game. A game that is counted already counts twice. After a refusal the row is
    /// as before.
    pub fn add(&mut self, alloc: Global, single: &Single) -> Result<(), AllocError>
        requires same { row_key_of self.old ≡ single.now.row_key }
        requires room { HasRoomForOne self.old }
        ensures row { OnOk result (self.new ≡ combined self.old (row_of single.now)) }
        ensures small { OnOk result (self.new.ratings < self.old.ratings + 2 ^ 16) }
        ensures err { OnErr result (self.new ≡ self.old) }
    {
        match &mut self.kept {
            KeptRow::One(one) => {
                let mut row = Row::of(one);
                row.add(single);
                self.kept = KeptRow::More(Box::new(alloc, row)?);
            }
            KeptRow::More(row) => row.add(single),
        }
        Ok(())
    }

    /// The row by itself.
    pub fn to_row(&self) -> Row
        ensures { result ≡ self.now }
    {
        match &self.kept {
            KeptRow::One(single) => Row::of(single),
            KeptRow::More(row) => row.copy(),
        }
    }

    /// What the row is kept as.
    pub fn counted_as(&self) -> CountedAs<'_>
        ensures { row_counted result ≡ self.now }
    {
        match &self.kept {
            KeptRow::One(single) => CountedAs::One(single),
            KeptRow::More(row) => CountedAs::More(row),
        }
    }
}
