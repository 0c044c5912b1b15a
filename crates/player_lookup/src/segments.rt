//! Games of segments by their numbers.
ghost use Rattle.std.specs.Prelude.{◌<◌, map, length};
ghost use Rattle.std.specs.Arc.{arc_value};
ghost use Rattle.player_lookup.specs.Seen.{IsGameIn};
ghost use Rattle.row_sums.specs.Listing.{classes_in};

use segment_blocks::Segment;
use std::sync::Arc;

/// The segment that has the game of a number among all games, from 0, and the game's number there.
pub fn segment_of(segments: &[Arc<Segment>], number: u32) -> (&Segment, u32)
    requires { number < length (classes_in (map arc_value segments.now)) }
    ensures { IsGameIn (map arc_value segments.now) number result.0.now result.1 }
{
    let mut left = number;
    for segment in segments {
        // What is known of a segment is told with its span.
        let _span = segment.span();
        let games = segment.games();
        if left < games {
            return (segment, left);
        }
        left -= games;
    }
    unreachable!()
}
