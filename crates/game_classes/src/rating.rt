//! Ratings of players, and a game's rating group.
ghost use Rattle.std.specs.Prelude.{◌≡◌, ◌≤◌};
ghost use Rattle.explorer_model.specs.Classes.{rating_of, group_of};

use crate::tags::number_of;
use explorer_model::archive::Group;

/// One to four digits, at most 4000.
#[tactic(auto, unfolding(explorer_model::specs::Classes::rating_of))]
pub fn rating_of(text: &[u8]) -> Option<u16>
    ensures { result ≡ rating_of text.now }
{
    let rating = number_of(4, text)?;
    if 4000 < rating {
        return None;
    }
    Some(rating as u16)
}

/// The group of the mean of both ratings, rounded down.
#[tactic(auto, unfolding(explorer_model::specs::Classes::group_of))]
pub fn group_of(white: u16, black: u16) -> Group
    ensures { result ≡ group_of white black }
{
    let mean = ((white as u32 + black as u32) / 2) as u16;
    for floor in [2500, 2200, 2000, 1800, 1600, 1400, 1200, 1000] {
        if floor <= mean {
            return Group { value: floor };
        }
    }
    Group { value: 0 }
}
