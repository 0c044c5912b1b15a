//! The best four entries of any number.
ghost use Rattle.std.specs.Prelude.{◌≡◌, ℕ, ◌+◌, ◌≤◌, ◌<◌, ◌^◌, List, [], ◌∷◌, ◌++◌, length, map, MatchOption};
ghost use Rattle.std.specs.List.{All};
ghost use Rattle.best_lists.specs.declared.entry.Entry.{Entry};
ghost use Rattle.explorer_model.specs.Best.{best, IsBestFirst, SplitsBest};
ghost use Rattle.best_lists.specs.Entry.{moved_by};

use crate::{Entry, Ranking};
use arrayvec::ArrayVec;
use std::marker::{Model, PhantomData};

/// The best four of some entries, or all of them where they are fewer. They lie in the value
/// itself, so no call takes memory.
#[derive(Drop)]
#[derive_where(Clone, Debug, PartialEq, Eq)]
pub struct Best4<O: Ranking> {
    entries: ArrayVec<Entry, 4>,
    ranking: PhantomData<O>,
}

impl<O: Ranking> Model for Best4<O> {
    ghost Value = { List Entry };

    ghost view = { λ b. b.entries.items };

    // The entries are their own best four: best first, and no more than four.
    ghost invariant = { λ b. best O.before 4 b.entries.items ≡ b.entries.items };

    ghost inverse = { λ entries.
        record { entries = record { items = entries }; ranking = record {} } };
}

impl<O: Ranking> Best4<O> {
    /// No entry.
    pub fn empty() -> Self
        ensures { result ≡ [] }
    {
        Best4 {
            entries: ArrayVec::new(),
            ranking: PhantomData,
        }
    }

    /// One entry.
    pub fn one(rank: u32, number: u32) -> Self
        ensures { result ≡ record { rank = rank; number = number } ∷ [] }
    {
        let mut entries = ArrayVec::new();
        entries.push(Entry { rank, number });
        Best4 {
            entries,
            ranking: PhantomData,
        }
    }

    /// The entries, best first.
    pub fn entries(&self) -> &[Entry]
        ensures entries { result.now ≡ self.now }
        ensures best_first { IsBestFirst O.before self.now }
        ensures at_most_four { length self.now ≤ 4 }
        ensures own_best { best O.before 4 self.now ≡ self.now }
    {
        self.entries.as_slice()
    }

    /// The best four of all entries of both. An entry that stands in both counts twice.
    pub fn join(&self, other: &Self) -> Self
        ensures { result ≡ best O.before 4 (self.now ++ other.now) }
    {
        let mut left = self.entries();
        let mut right = other.entries();
        let mut entries = ArrayVec::new();
        while !entries.is_full() {
            let Some((first, left_rest, right_rest)) = split_best::<O>(left, right) else {
                break;
            };
            entries.push(first);
            left = left_rest;
            right = right_rest;
        }
        Best4 {
            entries,
            ranking: PhantomData,
        }
    }

    /// The same entries in the same order, each with a number that is greater by `by`.
    pub fn shifted(&self, by: u32) -> Self
        requires { All (λ entry. entry.number + by < 2 ^ 32) self.now }
        ensures { result ≡ map (moved_by by) self.now }
    {
        let mut entries = ArrayVec::new();
        for entry in self.entries() {
            entries.push(Entry {
                number: entry.number + by,
                ..*entry
            });
        }
        Best4 {
            entries,
            ranking: PhantomData,
        }
    }
}

/// The best entry of two lists that are best first, and what is left of each.
fn split_best<'a, O: Ranking>(
    left: &'a [Entry],
    right: &'a [Entry],
) -> Option<(Entry, &'a [Entry], &'a [Entry])>
    requires left_in_order { IsBestFirst O.before left.now }
    requires right_in_order { IsBestFirst O.before right.now }
    ensures { MatchOption result ((left.now ≡ []) × (right.now ≡ []))
        (λ split. SplitsBest O.before left.now right.now split.0 split.1.now split.2.now) }
{
    match (left.split_first(), right.split_first()) {
        (Some((left_first, left_rest)), Some((right_first, right_rest))) => {
            if O::is_before(right_first, left_first) {
                Some((*right_first, left, right_rest))
            } else {
                Some((*left_first, left_rest, right))
            }
        }
        (Some((first, rest)), None) => Some((*first, rest, right)),
        (None, Some((first, rest))) => Some((*first, left, rest)),
        (None, None) => None,
    }
}
