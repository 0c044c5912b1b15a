//! Which of two entries is better.
ghost use Rattle.std.specs.Prelude.{◌≡◌, Bool};
ghost use Rattle.best_lists.specs.declared.entry.Entry.{Entry};
ghost use Rattle.explorer_model.specs.Best.{IsStrictTotalOrder};
ghost use Rattle.best_lists.specs.Ranking.{KeepsWhenMoved, before_by_rating, by_rating_is_order, by_rating_keeps, before_by_month, by_month_is_order, by_month_keeps};

use crate::Entry;

/// An order of entries, in which of two different ones exactly one is before the other.
pub trait Ranking {
    ghost before: { Entry → Entry → Bool };

    /// Whether `left` is better than `right`.
    fn is_before(left: &Entry, right: &Entry) -> bool
        ensures { result ≡ before left.now right.now };

    ghost is_order: { IsStrictTotalOrder before };

    ghost keeps_when_moved: { KeepsWhenMoved before };
}

/// The greater rank first, then the lesser number: of games of equal rating the first in the archive.
#[derive(Clone, Copy, Debug, PartialEq, Eq, Hash)]
pub struct ByRating;

impl Ranking for ByRating {
    ghost before = { before_by_rating };

    ghost is_order = { by_rating_is_order };

    ghost keeps_when_moved = { by_rating_keeps };

    fn is_before(left: &Entry, right: &Entry) -> bool {
        left.rank > right.rank || left.rank == right.rank && left.number < right.number
    }
}

/// The greater rank first, then the greater number: of games of one month the last in the archive.
#[derive(Clone, Copy, Debug, PartialEq, Eq, Hash)]
pub struct ByMonth;

impl Ranking for ByMonth {
    ghost before = { before_by_month };

    ghost is_order = { by_month_is_order };

    ghost keeps_when_moved = { by_month_keeps };

    fn is_before(left: &Entry, right: &Entry) -> bool {
        left.rank > right.rank || left.rank == right.rank && left.number > right.number
    }
}
