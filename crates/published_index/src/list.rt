//! Lists of segments.
ghost use Rattle.std.specs.Prelude.{◌≡◌, [], IfOk, MatchResult, map, length};
ghost use Rattle.std.specs.Arc.{arc_value};
ghost use Rattle.published_index.specs.Cover.{IsList, journal_of};
ghost use Rattle.published_index.specs.Changes.{AddOf, JoinAt, with_change};

use segment_blocks::Segment;
use std::alloc::AllocError;
use std::marker::Model;
use std::sync::Arc;

/// The most segments of a list.
pub(crate) const LIMIT: usize = 64;

/// A segment that lists share.
pub type SharedSegment = Arc<Segment>;

/// At most 64 segments whose spans adjoin and start at 0.
#[derive(Drop)]
pub struct List {
    segments: Vec<SharedSegment>,
    end: u32,
}

impl Model for List {
    ghost use Rattle.std.specs.Prelude.{◌≡◌, List, map, length};
    ghost use Rattle.std.specs.Arc.{arc_value};
    ghost use Rattle.segment_blocks.specs.Segment.{CountedSpan};
    ghost use Rattle.published_index.specs.Cover.{IsList, journal_of};

    ghost Value = { List CountedSpan };

    ghost view = { λ list. map arc_value list.segments.items };

    ghost invariant = { λ list. IsList (map arc_value list.segments.items)
        × (list.end ≡ length (journal_of (map arc_value list.segments.items))) };
}

impl List {
    /// The list of these segments.
    pub fn of(segments: Vec<SharedSegment>) -> List
        requires { IsList (map arc_value segments.items) }
        ensures { result ≡ map arc_value segments.items }
    {
        let end = end_of(segments.as_slice());
        List { segments, end }
    }

    /// The segments, in order.
    pub fn segments(&self) -> &[SharedSegment]
        ensures segments { map arc_value result.now ≡ self.now }
        ensures list { IsList self.now }
    {
        self.segments.as_slice()
    }

    /// How many batches there are.
    pub fn batches(&self) -> u32
        ensures batches { result ≡ length (journal_of self.now) }
        ensures list { IsList self.now }
    {
        self.end
    }

    /// A copy with one more share of each segment, in a `Vec` that has room for them.
    pub(crate) fn copy_into(&self, room: Vec<SharedSegment>) -> Result<List, AllocError>
        requires { room.items ≡ [] }
        ensures { IfOk result (λ list. list ≡ self.now) }
    {
        Ok(List {
            segments: share_segments(self.segments.as_slice(), room)?,
            end: self.end,
        })
    }

    /// Puts a share of a segment behind the others. It is as before where the segment doesn't start at
    /// the end, or where the list is full.
    pub(crate) fn add(&mut self, segment: &SharedSegment) -> Result<(), AllocError>
        ensures { MatchResult result
            (λ _. self.new ≡ with_change self.old (AddOf (arc_value segment.now)))
            (λ _. self.new ≡ self.old) }
    {
        let span = segment.span();
        if self.segments.len() >= LIMIT || span.first != self.end {
            return Err(AllocError);
        }
        let share = Arc::try_clone(segment)?;
        self.segments.reserve(1)?;
        self.segments.push_reserved(share);
        self.end = span.first + span.count;
        Ok(())
    }

    /// Puts a share of a segment in place of the ones at `at` and `at + 1`. It is as before where the
    /// segment doesn't stand where these two stand.
    pub(crate) fn join(&mut self, at: usize, segment: &SharedSegment) -> Result<(), AllocError>
        ensures { MatchResult result
            (λ _. self.new ≡ with_change self.old (JoinAt at (arc_value segment.now)))
            (λ _. self.new ≡ self.old) }
    {
        if at >= self.segments.len() || at + 1 >= self.segments.len() {
            return Err(AllocError);
        }
        let left = self.segments[at].span();
        let right = self.segments[at + 1].span();
        let span = segment.span();
        if span.first != left.first || span.first + span.count != right.first + right.count {
            return Err(AllocError);
        }
        let share = Arc::try_clone(segment)?;
        self.segments.remove(at);
        self.segments[at] = share;
        Ok(())
    }
}

/// One more share of each of the segments.
fn share_segments(
    segments: &[SharedSegment],
    mut room: Vec<SharedSegment>,
) -> Result<Vec<SharedSegment>, AllocError>
    requires { room.items ≡ [] }
    ensures { IfOk result (λ shares.
        map arc_value shares.items ≡ map arc_value segments.now) }
{
    for segment in segments {
        room.push(Arc::try_clone(segment)?)?;
    }
    Ok(room)
}

/// Where the last of the segments ends.
fn end_of(segments: &[SharedSegment]) -> u32
    requires { IsList (map arc_value segments.now) }
    ensures { result ≡ length (journal_of (map arc_value segments.now)) }
{
    match segments.last() {
        Some(last) => {
            let span = last.span();
            span.first + span.count
        }
        None => 0,
    }
}
