//! A batch that is counted.
ghost use Rattle.std.specs.Prelude.{◌≡◌, ℕ, List};
ghost use Rattle.std.specs.List.{flat_map};
ghost use Rattle.tally_rows.specs.Tally.{IsCounted};

use crate::CountedRow;
use explorer_model::archive::{Batch, Classes};
use explorer_model::label::Label;
use explorer_model::list::Items;
use std::marker::Model;

/// A batch of 1 to 512 texts, each with a game and no two with one id, with the classes of its
/// games in their order and the rows that count them.
#[derive(Debug, Drop)]
pub struct Tally {
    batch: Batch,
    classes: Items<Classes>,
    /// In parts, one after another.
    rows: Vec<Vec<CountedRow>>,
}

impl Model for Tally {
    ghost use Rattle.std.specs.List.{flat_map};
    ghost use Rattle.tally_rows.specs.Tally.{Counted, IsCounted};

    ghost Value = { Counted };

    ghost view = { λ t. record {
      batch = t.batch;
      classes = t.classes;
      rows = flat_map (λ part. part.items) t.rows.items;
    } };

    ghost invariant = { λ t. IsCounted (record {
      batch = t.batch;
      classes = t.classes;
      rows = flat_map (λ part. part.items) t.rows.items;
    }) };
}

impl Tally {
    /// The tally of a batch whose games have these classes and these rows, which may come in any parts.
    pub fn new(batch: Batch, classes: Items<Classes>, rows: Vec<Vec<CountedRow>>) -> Tally
        requires { IsCounted (record {
          batch = batch;
          classes = classes;
          rows = flat_map (λ part. part.items) rows.items;
        }) }
        ensures { result ≡ record {
          batch = batch;
          classes = classes;
          rows = flat_map (λ part. part.items) rows.items;
        } }
    {
        Tally {
            batch,
            classes,
            rows,
        }
    }

    /// The same under this label.
    pub fn labelled(self, label: Label) -> Tally
        ensures { result ≡ record self { batch = record self.batch { label = label } } }
    {
        let _label = label.as_str();
        let Batch { texts, .. } = self.batch;
        Tally {
            batch: Batch { label, texts },
            classes: self.classes,
            rows: self.rows,
        }
    }

    /// The batch alone.
    pub fn into_batch(self) -> Batch
        ensures { result ≡ self.batch }
    {
        self.batch
    }

    /// The batch, what the tags say of its games, and the rows that count them, in parts.
    pub fn into_parts(self) -> (Batch, Items<Classes>, Vec<Vec<CountedRow>>)
        ensures batch { result.0 ≡ self.batch }
        ensures classes { result.1 ≡ self.classes }
        ensures rows { flat_map (λ part. part.items) result.2.items ≡ self.rows }
        ensures counted { IsCounted self }
    {
        (self.batch, self.classes, self.rows)
    }

    /// The batch that is counted.
    pub fn batch(&self) -> &Batch
        ensures batch { result.now ≡ self.now.batch }
        ensures counted { IsCounted self.now }
    {
        &self.batch
    }

    /// What the tags say of the games, in the order of the texts.
    pub fn classes(&self) -> &[Classes]
        ensures { result.now ≡ self.now.classes }
    {
        self.classes.as_slice()
    }

    /// The rows in their order, by key, move, month, speed and group, in parts, one after another.
    pub fn row_parts(&self) -> &[Vec<CountedRow>]
        ensures { flat_map (λ part. part.items) result.now ≡ self.now.rows }
    {
        self.rows.as_slice()
    }
}
