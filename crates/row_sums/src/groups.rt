//! The places of groups of rows, which are told apart by numbers.
ghost use Rattle.std.specs.Prelude.{◌≡◌, ℕ, [], List, length, IfOk, OnOk};
ghost use Rattle.row_sums.specs.Groups.{Tells, TellsPlaces, place_of, with_number};

use std::alloc::{AllocError, Global};
use std::collections::HashMap;

/// The places of groups, in the order in which they first come. Rows of one group often stand
/// together, so the number that came last is looked at first.
#[derive(Drop)]
pub struct Places {
    all: HashMap<u32, usize>,
    last: Option<(u32, usize)>,
}

impl Places {
    /// No group.
    pub fn new(alloc: Global) -> Places
        ensures { Tells result [] }
    {
        Places {
            all: HashMap::new(alloc),
            last: None,
        }
    }

    /// The place of the group with the number. A number that is new comes to the places as the next
    /// one; `count` says how many there are.
    pub fn place_of(&mut self, number: u32, count: usize) -> Result<usize, AllocError>
        ensures place { IfOk result (λ place. (numbers : List ℕ) → length numbers ≡ count
            → Tells self.old numbers → place ≡ place_of numbers number) }
        ensures places { OnOk result ((numbers : List ℕ) → length numbers ≡ count
            → Tells self.old numbers → Tells self.new (with_number numbers number)) }
    {
        if let Some((last, place)) = self.last {
            if last == number {
                return Ok(place);
            }
        }
        let place = place_in(&mut self.all, number, count)?;
        self.last = Some((number, place));
        Ok(place)
    }
}

/// The same, by the map of all places.
fn place_in(
    places: &mut HashMap<u32, usize>,
    number: u32,
    count: usize,
) -> Result<usize, AllocError>
    ensures place { IfOk result (λ place. (numbers : List ℕ) → length numbers ≡ count
        → TellsPlaces places.old numbers → place ≡ place_of numbers number) }
    ensures places { OnOk result ((numbers : List ℕ) → length numbers ≡ count
        → TellsPlaces places.old numbers → TellsPlaces places.new (with_number numbers number)) }
{
    if let Some(place) = places.get(&number) {
        return Ok(*place);
    }
    places.insert(number, count)?;
    Ok(count)
}
