//! What a merge of best lists rests on.
ghost use Rattle.std.specs.Prelude.{◌≡◌, ℕ, List, ◌++◌, map};
ghost use Rattle.best_lists.specs.declared.entry.Entry.{Entry};
ghost use Rattle.explorer_model.specs.Best.{best};
ghost use Rattle.best_lists.specs.Entry.{moved_by};

use crate::Ranking;

/// The best four of two lists together are what `join` answers of the best four of each.
pub fn best_of_both<O: Ranking>()
    ensures { (left right : List Entry)
        → best O.before 4 (left ++ right)
        ≡ best O.before 4 (best O.before 4 left ++ best O.before 4 right) }
{}

/// Entries whose numbers are moved alike have the same best four, moved. So `shifted` may come
/// before a join or after it.
pub fn best_of_shifted<O: Ranking>()
    ensures { (by : ℕ) (entries : List Entry)
        → best O.before 4 (map (moved_by by) entries)
        ≡ map (moved_by by) (best O.before 4 entries) }
{}
