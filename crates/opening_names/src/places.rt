//! Where the lines of a book stand, by their keys.
ghost use Rattle.std.specs.Prelude.{◌≡◌, IfOk};
ghost use Rattle.opening_names.specs.Held.{TellsPlaces};

use crate::line::NamedLine;
use crate::tidy_key::TidyKey;
use std::alloc::{AllocError, Global};
use std::collections::HashMap;

/// Places by keys.
pub type Places = HashMap<TidyKey, usize>;

/// The place of the first line of each key.
pub fn places_of(alloc: Global, lines: &[NamedLine]) -> Result<Places, AllocError>
    ensures { IfOk result (λ places. TellsPlaces places lines.now) }
{
    let mut places = HashMap::new(alloc);
    for (place, line) in lines.iter().enumerate() {
        if !places.contains_key(&line.key) {
            places.insert(line.key, place)?;
        }
    }
    Ok(places)
}
