//! Which segments are to become one.
ghost use Rattle.std.specs.Prelude.{◌≡◌, ◌↔◌, ◌≤◌, length, map, IsTrue, MatchOption};
ghost use Rattle.std.specs.Arc.{arc_value};
ghost use Rattle.explorer_model.specs.Journal.{game_count, game_limit};
ghost use Rattle.segment_blocks.specs.Segment.{IsSegment};
ghost use Rattle.published_index.specs.Cover.{IsList, journal_of, list_limit};
ghost use Rattle.ingest_desk.specs.Installs.{AreGone, HaveSpans, StandAt, place_of as placed};
ghost use Rattle.ingest_desk.specs.Jobs.{AreOfOneJournal, StandsIn};
ghost use Rattle.ingest_desk.specs.Picking.{AreDue, Picks};

use crate::job::Standing;
use arrayvec::ArrayVec;
use published_index::SharedSegment;
use segment_blocks::Segment;

/// The place of the last neighbours of which the left one has at most twice as many games as the
/// right one.
pub(crate) fn last_due(segments: &[SharedSegment]) -> Option<usize>
    requires { game_count (journal_of (map arc_value segments.now)) ≤ game_limit }
    ensures { Picks (map arc_value segments.now) result }
{
    let mut at = segments.len().saturating_sub(1);
    while at > 0 {
        at -= 1;
        if are_due(&segments[at], &segments[at + 1]) {
            return Some(at);
        }
    }
    None
}

/// Whether neighbours are to become one.
fn are_due(left: &Segment, right: &Segment) -> bool
    ensures due { IsTrue result ↔ AreDue left.now right.now }
    ensures left { IsSegment left.now }
    ensures right { IsSegment right.now }
{
    let _left = left.span();
    let _right = right.span();
    u64::from(left.games()) <= 2 * u64::from(right.games())
}

/// Where these two stand as neighbours, with their batches. The list's journal has them too.
pub(crate) fn place_of(segments: &[SharedSegment], left: &Segment, right: &Segment) -> Option<usize>
    requires list { IsList (map arc_value segments.now) }
    requires left { StandsIn (journal_of (map arc_value segments.now)) left.now.span }
    requires right { StandsIn (journal_of (map arc_value segments.now)) right.now.span }
    ensures { MatchOption result
        (AreGone (map arc_value segments.now) left.now.span right.now.span)
        (λ at. StandAt (map arc_value segments.now) at left.now.span right.now.span) }
{
    let mut at = segments.len().saturating_sub(1);
    while at > 0 {
        at -= 1;
        if have_spans_of(&segments[at], &segments[at + 1], left, right) {
            return Some(at);
        }
    }
    None
}

/// Whether two segments have the same spans as two others of one journal, with the same batches.
fn have_spans_of(first: &Segment, second: &Segment, left: &Segment, right: &Segment) -> bool
    requires left { AreOfOneJournal first.now.span left.now.span }
    requires right { AreOfOneJournal second.now.span right.now.span }
    ensures { IsTrue result
        ↔ HaveSpans first.now.span second.now.span left.now.span right.now.span }
{
    has_span_of(first, left) && has_span_of(second, right)
}

/// Whether a segment has the same span as another one of its journal, with the same batches: it has
/// where it begins at the same place and has as many.
fn has_span_of(segment: &Segment, other: &Segment) -> bool
    requires { AreOfOneJournal segment.now.span other.now.span }
    ensures { IsTrue result ↔ segment.now.span ≡ other.now.span }
{
    let span = segment.span();
    let other_span = other.span();
    if span.first != other_span.first {
        return false;
    }
    span.count == other_span.count
}

/// Where the segments stand.
pub(crate) fn spans_of(segments: &[SharedSegment]) -> ArrayVec<Standing, 64>
    requires { length segments.now ≤ list_limit }
    ensures { result.items ≡ map placed (map arc_value segments.now) }
{
    let mut spans = ArrayVec::new();
    for segment in segments {
        let span = segment.span();
        spans.push(Standing {
            first: span.first,
            count: span.count,
        });
    }
    spans
}
