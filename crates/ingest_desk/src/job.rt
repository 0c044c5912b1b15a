//! Jobs: neighbours of a list that are to become one.
ghost use Rattle.std.specs.Prelude.{◌≡◌};

use published_index::{Index, Note, SharedSegment};
use segment_blocks::Segment;
use std::marker::Model;

/// Two neighbours of a list of an index that are to become one. An ingest of that index alone gives
/// one. Contracts see the two.
#[derive(Drop)]
pub struct Job<J: Index> {
    pub(crate) left: SharedSegment,
    pub(crate) right: SharedSegment,
    /// The journal of the list.
    pub(crate) note: Note<J>,
}

impl<J: Index> Model for Job<J> {
    ghost use Rattle.ingest_desk.specs.Jobs.{Neighbours};

    ghost Value = { Neighbours };

    ghost use Rattle.std.specs.Arc.{arc_value};
    ghost use Rattle.ingest_desk.specs.Jobs.{StandsIn};

    ghost view = { λ job. record { left = arc_value job.left; right = arc_value job.right } };

    ghost invariant = { λ job. StandsIn job.note (arc_value job.left).span
        × StandsIn job.note (arc_value job.right).span };
}

impl<J: Index> Job<J> {
    /// The one that stands first.
    pub fn left(&self) -> &Segment
        ensures { result.now ≡ self.now.left }
    {
        &self.left
    }

    /// The one behind it.
    pub fn right(&self) -> &Segment
        ensures { result.now ≡ self.now.right }
    {
        &self.right
    }
}

/// Where a segment of a list stands: the place of its first batch, from 0, and how many batches it
/// has.
#[derive(Clone, Copy, Debug, Default, PartialEq, Eq)]
pub struct Standing {
    pub first: u32,
    pub count: u32,
}
