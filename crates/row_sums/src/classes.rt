//! What the tags say of the games of segments.
ghost use Rattle.std.specs.Prelude.{◌≡◌, ◌≤◌, map, length, option_map};
ghost use Rattle.std.specs.Arc.{arc_value};
ghost use Rattle.std.specs.List.{AllByRecursion, slice_get};
ghost use Rattle.row_sums.specs.Listing.{classes_in};
ghost use Rattle.segment_blocks.specs.Segment.{IsSegment};

use explorer_model::archive::Classes;
use segment_blocks::Segment;
use std::sync::Arc;

/// What the tags say of the game of a number among all games of the segments, from 0.
pub fn classes_of(segments: &[Arc<Segment>], number: usize) -> Option<&Classes>
    ensures { option_map (λ classes. classes.now) result
        ≡ slice_get (classes_in (map arc_value segments.now)) number }
{
    let mut left = number;
    for segment in segments {
        let games = segment.games() as usize;
        if left < games {
            return Some(segment.classes(left as u32));
        }
        left -= games;
    }
    None
}

/// How many games the segments have.
pub fn count_games(segments: &[Arc<Segment>]) -> u32
    requires { length segments.now ≤ 64 }
    ensures games { result ≡ length (classes_in (map arc_value segments.now)) }
    ensures few { result ≤ 16777216 }
    ensures segments { AllByRecursion IsSegment (map arc_value segments.now) }
{
    let mut games = 0;
    for segment in segments {
        games += games_of(segment);
    }
    games
}

/// How many games a segment has.
fn games_of(segment: &Segment) -> u32
    ensures games { result ≡ length segment.now.classes }
    ensures segment { IsSegment segment.now }
{
    // What is known of a segment is told with its span.
    let _span = segment.span();
    segment.games()
}
