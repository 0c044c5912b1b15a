//! Laws of rows in scratch files. Each is the contract of a function that only cites the laws below
//! it.
ghost use Rattle.std.specs.Prelude.{◌≡◌, ℕ, List, filter, length, Option};
ghost use Rattle.std.specs.List.{AllByRecursion};
ghost use Rattle.explorer_model.specs.declared.chess.Position.{Position};
ghost use Rattle.explorer_model.specs.Chess.{IsValid};
ghost use Rattle.explorer_model.specs.Tidy.{IsTidyKey};
ghost use Rattle.segment_blocks.specs.Segment.{CountedSpan, IsSegment};
ghost use Rattle.segment_blocks.specs.Walk.{has_key};
ghost use Rattle.spill_blobs.specs.Parts.{IsPlayed};
ghost use Rattle.spill_blobs.specs.RowBlocks.{IsRowAt};
ghost use Rattle.spill_blobs.specs.SoundRows.{AreSound};
ghost use Rattle.spill_blobs.specs.Walks.{WalksTo};
ghost use Rattle.tally_rows.specs.declared.row.Row.{Row};

use game_replay::laws::games_begin_validly;
use legal_moves::laws::{
    legal_moves_keep_validity, same_positions_have_the_same_moves, tidy_forms_decide_same,
};
use packed_keys::laws::equal_keys_mean_equal_positions;

/// A block is that of one row, or of none.
pub fn blocks_are_of_one_row()
    ensures { (block : List ℕ) (row other : Row) → IsRowAt block row → IsRowAt block other
        → row ≡ other }
{}

/// A walk over blocks comes to one thing: the rows of the key, or what is damaged.
pub fn walks_are_determined()
    ensures { (key : List ℕ) (blocks : List (List ℕ)) (more : ℕ) (found other : Option (List Row))
        → WalksTo key blocks more found → WalksTo key blocks more other → found ≡ other }
{}

/// Each row of a segment has the key of a valid position, and a move that has bytes.
pub fn rows_of_segments_are_played()
    ensures { (segment : CountedSpan) → IsSegment segment
        → AllByRecursion IsPlayed segment.rows }
{
    legal_moves_keep_validity();
    games_begin_validly();
}

/// The rows that a segment has of a position are those that its games can have.
pub fn tallied_rows_are_sound()
    ensures { (segment : CountedSpan) (at : Position) (key : List ℕ) → IsSegment segment
        → IsValid at → IsTidyKey at key
        → AreSound at (length segment.classes) (filter (has_key key) segment.rows) }
{
    legal_moves_keep_validity();
    tidy_forms_decide_same();
    same_positions_have_the_same_moves();
    equal_keys_mean_equal_positions();
    games_begin_validly();
    tally_rows::laws::tallied_rows_are_sound();
    tally_rows::laws::cover_gives_what_is_picked();
}
