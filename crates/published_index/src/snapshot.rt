//! Snapshots of a published list.
ghost use Rattle.std.specs.Prelude.{◌≡◌, map, length};
ghost use Rattle.std.specs.Arc.{arc_value};
ghost use Rattle.explorer_model.specs.Spans.{Covers};
ghost use Rattle.published_index.specs.Cover.{spans_of, journal_of, IsList};

use crate::list::{List, SharedSegment};
use std::marker::Model;

/// A published list as it was at a moment. It is owned: whatever is published later, it stays.
#[derive(Drop)]
pub struct Snapshot {
    pub(crate) list: List,
}

impl Model for Snapshot {
    ghost use Rattle.std.specs.Prelude.{List};
    ghost use Rattle.segment_blocks.specs.Segment.{CountedSpan};

    ghost Value = { List CountedSpan };

    ghost view = { λ snapshot. snapshot.list };
}

impl Snapshot {
    /// Its segments, in order.
    pub fn segments(&self) -> &[SharedSegment]
        ensures segments { map arc_value result.now ≡ self.now }
        ensures covers { Covers (spans_of self.now) (journal_of self.now) }
        ensures list { IsList self.now }
    {
        self.list.segments()
    }

    /// How many batches it has.
    pub fn batches(&self) -> u32
        ensures { result ≡ length (journal_of self.now) }
    {
        self.list.batches()
    }
}
