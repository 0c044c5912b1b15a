//! Which ids are stored, each with the number of its game.
ghost use Rattle.std.specs.Prelude.{◌≡◌, ◌<◌, ◌≤◌, ◌+◌, ◌^◌, ◌∷◌, [], ℕ, List, Option, None, OnOk, length, false, true};
ghost use Rattle.std.specs.List.{All};
ghost use Rattle.std.specs.Option.{option_or};
ghost use Rattle.explorer_model.specs.Imports.{group_limit};
ghost use Rattle.explorer_model.specs.Journal.{HaveDifferentIds};
ghost use Rattle.ingest_desk.specs.Clashes.{clashes_from, clashes_of, ids_of, number_among};
ghost use Rattle.ingest_desk.specs.IdTable.{number_at, room_of};

use crate::clashing::Clashing;
use arrayvec::ArrayVec;
use explorer_model::archive::{Classes, GameId};
use segment_blocks::Segment;
use std::alloc::{AllocError, Global};
use std::collections::HashMap;

/// The number of each stored game by its id.
#[derive(Debug, Drop)]
pub(crate) struct Ids {
    numbers: HashMap<[u8; 8], u32>,
}

impl Ids {
    /// No id.
    pub(crate) fn new(alloc: Global) -> Self
        ensures { (id : List ℕ) → number_at result id ≡ None }
    {
        Ids {
            numbers: HashMap::new(alloc),
        }
    }

    /// The number of the game that has the id.
    pub(crate) fn find(&self, id: &GameId) -> Option<u32>
        ensures { result ≡ number_at self.now id.now.bytes }
    {
        self.numbers.get(&id.bytes).copied()
    }

    /// Takes room for so many ids more.
    pub(crate) fn reserve(&mut self, more: usize) -> Result<(), AllocError>
        ensures same { (id : List ℕ) → number_at self.new id ≡ number_at self.old id }
        ensures room { OnOk result (more ≤ room_of self.new) }
    {
        self.numbers.reserve(more)
    }

    /// Puts in the ids of a segment's games, which have the numbers from `first` on.
    pub(crate) fn add_all(&mut self, first: u32, segment: &Segment)
        requires new { All (λ c. number_at self.old c.id.bytes ≡ None) segment.now.classes }
        requires different { HaveDifferentIds segment.now.classes }
        requires room { length segment.now.classes ≤ room_of self.old }
        requires fits { first + length segment.now.classes < 2 ^ 32 }
        ensures { (id : List ℕ) → number_at self.new id ≡ option_or (number_at self.old id)
            (number_among first (ids_of segment.now.classes) id) }
    {
        for n in 0..segment.games() {
            self.add(&segment.classes(n).id, first + n);
        }
    }

    /// Whether a game of a segment has an id that is there.
    pub(crate) fn has_any(&self, segment: &Segment) -> bool
        ensures none { result ≡ false → clashes_of (number_at self.now) segment.now.classes ≡ [] }
        ensures some { result ≡ true
            → ¬ (clashes_of (number_at self.now) segment.now.classes ≡ []) }
    {
        for n in 0..segment.games() {
            if self.find(&segment.classes(n).id).is_some() {
                return true;
            }
        }
        false
    }

    /// Puts in an id that is not there.
    fn add(&mut self, id: &GameId, number: u32)
        requires new { number_at self.old id.now.bytes ≡ None }
        requires room { 0 < room_of self.old }
        ensures added { (other : List ℕ) → number_at self.new other
            ≡ option_or (number_at self.old other) (number_among number (id.now.bytes ∷ []) other) }
        ensures room { room_of self.old ≤ room_of self.new + 1 }
    {
        let _ = self.numbers.insert(id.bytes, number);
    }

    /// The texts of a batch whose ids are there.
    pub(crate) fn clashes(&self, classes: &[Classes]) -> ArrayVec<Clashing, 512>
        requires { length classes.now ≤ group_limit }
        ensures { result.items ≡ clashes_from 0 (number_at self.now) (ids_of classes.now) }
    {
        let mut pairs = ArrayVec::new();
        let mut place = 0;
        for game in classes {
            if let Some(number) = self.find(&game.id) {
                pairs.push(Clashing { place, number });
            }
            place += 1;
        }
        pairs
    }
}
