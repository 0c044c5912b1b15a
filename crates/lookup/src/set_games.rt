//! The games of sets whose rows stand in a scratch file.
ghost use Rattle.std.specs.Prelude.{◌≡◌, option_map};
ghost use Rattle.std.specs.List.{slice_get};
ghost use Rattle.row_sums.specs.Listing.{classes_in};

use explorer_model::archive::Classes;
use row_sums::Games;
use spill_blobs::SpillSet;

/// The games of a set, one part after another.
#[derive(Clone, Copy)]
pub struct SetGames<'a> {
    pub set: &'a SpillSet,
}

impl Games for SetGames<'_> {
    ghost classes = { λ games. classes_in games.set.now };

    fn classes_of(&self, number: usize) -> Option<&Classes> {
        classes_through(self.set, number)
    }
}

/// What the tags say of the game of a number among all games of the set, from 0.
fn classes_through(set: &SpillSet, number: usize) -> Option<&Classes>
    ensures { option_map (λ classes. classes.now) result
        ≡ slice_get (classes_in set.now) number }
{
    let mut left = number;
    for part in 0..set.parts() {
        let kept = set.kept(part);
        let games = kept.games() as usize;
        if left < games {
            return Some(kept.classes(left as u32));
        }
        left -= games;
    }
    None
}
