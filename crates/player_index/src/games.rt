//! The names of players, as the tags of a published list's games say them.
ghost use Rattle.std.specs.Prelude.{◌≡◌, map, slice_get};
ghost use Rattle.std.specs.Arc.{arc_value};
ghost use Rattle.explorer_model.specs.Players.{name_of_side};
ghost use Rattle.player_index.specs.Entries.{name_in};
ghost use Rattle.row_sums.specs.Listing.{classes_in};

use crate::entry::Entry;
use explorer_model::archive::Classes;
use explorer_model::chess::Color;
use row_sums::classes_of;
use segment_blocks::Segment;
use std::sync::Arc;

/// The name of an entry's player.
pub fn name_of<'a>(segments: &'a [Arc<Segment>], entry: &Entry) -> &'a [u8]
    ensures { result.now ≡ name_in entry.now.color
        (slice_get (classes_in (map arc_value segments.now)) entry.now.number) }
{
    match classes_of(segments, entry.number as usize) {
        Some(classes) => name_of_side(classes, entry.color),
        None => &[],
    }
}

/// The name of the player that has the colour.
fn name_of_side(classes: &Classes, color: Color) -> &[u8]
    ensures { result.now ≡ name_of_side color classes.now }
{
    match color {
        Color::White => classes.white.name.as_str().as_bytes(),
        Color::Black => classes.black.name.as_str().as_bytes(),
    }
}
