//! Laws of merging. Each is the contract of a function that has nothing to do.
ghost use Rattle.std.specs.Prelude.{◌≡◌, ℕ, List, None, ◌++◌, map, length};
ghost use Rattle.explorer_model.specs.declared.archive.Classes.{Classes};
ghost use Rattle.segment_blocks.specs.PackedRows.{AreInOrder};
ghost use Rattle.segment_blocks.specs.Segment.{CountedSpan};
ghost use Rattle.segment_merge.specs.Merged.{merged};
ghost use Rattle.segment_merge.specs.Merging.{IsMergeOf};
ghost use Rattle.segment_merge.specs.Ranges.{AreRising, merged_ranges, rows_of_ranges};
ghost use Rattle.tally_rows.specs.declared.row.Row.{Row};
ghost use Rattle.tally_rows.specs.Row.{shifted_row};
ghost use Rattle.tally_rows.specs.Tallied.{Tallied};
ghost use Rattle.tally_rows.specs.Track.{Track};

/// Merged rows are tallied for both lists of games, those of the right list behind those of the
/// left.
pub fn merged_rows_are_tallied()
    ensures { (left right : List Track) (left_rows right_rows : List Row)
        → Tallied left left_rows → Tallied right right_rows
        → Tallied (left ++ right)
        (merged left_rows (map (shifted_row (length left)) right_rows)) }
{}

/// What is merged of ranges of keys, one range after another, is what is merged of all rows,
/// whichever rising keys part the ranges.
pub fn ranges_are_the_whole()
    ensures { (keys : List (List ℕ)) (lefts rights : List Row) → AreRising keys
        → AreInOrder lefts → AreInOrder rights
        → rows_of_ranges (merged_ranges None keys lefts rights) ≡ merged lefts rights }
{}

/// Two segments have one merge, however many workers there are: any two answers for them have the
/// same span, classes and rows.
pub fn merge_is_determined()
    ensures span { (left right segment other : CountedSpan) → IsMergeOf left right segment
        → IsMergeOf left right other → segment.span ≡ other.span }
    ensures classes { (left right segment other : CountedSpan) → IsMergeOf left right segment
        → IsMergeOf left right other → segment.classes ≡ other.classes }
    ensures rows { (left right segment other : CountedSpan) → IsMergeOf left right segment
        → IsMergeOf left right other → segment.rows ≡ other.rows }
{}
