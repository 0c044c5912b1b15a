//! Games by their numbers.
ghost use Rattle.std.specs.Prelude.{◌≡◌, List, map, option_map};
ghost use Rattle.std.specs.Arc.{arc_value};
ghost use Rattle.std.specs.List.{slice_get};
ghost use Rattle.explorer_model.specs.declared.archive.Classes.{Classes};
ghost use Rattle.row_sums.specs.Listing.{classes_in};

use crate::classes::classes_of;
use explorer_model::archive::Classes;
use segment_blocks::Segment;
use std::sync::Arc;

/// Games that are known by their numbers, from 0 on.
pub trait Games {
    /// What the tags say of each game, in the order of their numbers.
    ghost classes: { Self → List Classes };

    /// What the tags say of the game of a number.
    fn classes_of(&self, number: usize) -> Option<&Classes>
        ensures { option_map (λ classes. classes.now) result
            ≡ slice_get (classes self.now) number };
}

/// The games of segments, one segment after another.
impl Games for &[Arc<Segment>] {
    ghost classes = { λ segments. classes_in (map arc_value segments.now) };

    fn classes_of(&self, number: usize) -> Option<&Classes> {
        classes_of(*self, number)
    }
}
