//! Laws of looking up. Each is the contract of a function that only cites the laws below it.
ghost use Rattle.std.specs.Prelude.{◌≡◌, ℕ, ◌≤◌, Bool, List, length, map, Some};
ghost use Rattle.explorer_model.specs.declared.answer.Found.{Found};
ghost use Rattle.explorer_model.specs.declared.archive.Batch.{Batch};
ghost use Rattle.explorer_model.specs.declared.archive.Classes.{Classes};
ghost use Rattle.explorer_model.specs.declared.archive.Game.{Game};
ghost use Rattle.explorer_model.specs.declared.chess.Move.{Move};
ghost use Rattle.explorer_model.specs.declared.chess.Position.{Position};
ghost use Rattle.explorer_model.specs.declared.query.Query.{Query};
ghost use Rattle.explorer_model.specs.Chess.{IsValid, Legal};
ghost use Rattle.explorer_model.specs.Counting.{first_moves};
ghost use Rattle.explorer_model.specs.Finds.{IsFound};
ghost use Rattle.explorer_model.specs.Spans.{Span, Covers};
ghost use Rattle.explorer_model.specs.Tidy.{IsTidyKey};
ghost use Rattle.explorer_model.specs.Visits.{AreGamesOf, GameAt, IsTextOf, IsGameAt};
ghost use Rattle.std.specs.List.{AllByRecursion, AllZip};
ghost use Rattle.lookup.specs.Hits.{games_counted, rows_from};
ghost use Rattle.lookup.specs.Parts.{Part, IsPart, journal_of, tracks_in};
ghost use Rattle.lookup.specs.FromRows.{AreTallied, IsAnswerable, IsFromRows};
ghost use Rattle.row_sums.specs.Hits.{AreSound, look_limit};
ghost use Rattle.tally_rows.specs.declared.row.Row.{Row};
ghost use Rattle.tally_rows.specs.declared.row_key.RowKey.{RowKey};
ghost use Rattle.tally_rows.specs.Cover.{game_at};
ghost use Rattle.tally_rows.specs.Tally.{IsTrackOf};
ghost use Rattle.tally_rows.specs.Track.{Track, visit};

use explorer_model::laws::first_visit_is_determined;
use game_replay::laws::{game_is_determined, games_begin_validly};
use legal_moves::laws::{
    legal_moves_keep_validity, same_positions_have_the_same_moves, tidy_forms_decide_same,
};
use packed_keys::laws::equal_keys_mean_equal_positions;
use san_codec::laws::notation_is_determined;

/// What a game's track tells at the key of a position is how the game stands to that position: the
/// first of its counted positions that is the same, and the move that follows there.
pub fn tracks_see_what_games_see()
    ensures { (at : Position) (bytes : List ℕ) (text : List ℕ) (game : Game) (track : Track)
        → length at.squares ≡ 64 → IsTidyKey at bytes → IsTextOf text game → IsTrackOf game track
        → IsGameAt at game (game_at bytes track) }
{
    legal_moves_keep_validity();
    tidy_forms_decide_same();
    equal_keys_mean_equal_positions();
    games_begin_validly();
}

/// The move that a game's track tells to follow at the key of a position is legal in that position.
pub fn tracks_tell_legal_moves()
    ensures { (at : Position) (bytes : List ℕ) (text : List ℕ) (game : Game) (track : Track)
        (next : Move)
        → IsValid at → IsTidyKey at bytes → IsTextOf text game → IsTrackOf game track
        → visit bytes track ≡ Some (Some next) → Legal at next }
{
    legal_moves_keep_validity();
    tidy_forms_decide_same();
    same_positions_have_the_same_moves();
    equal_keys_mean_equal_positions();
    games_begin_validly();
}

/// Rows that are picked of parts are sound, however they are picked.
pub fn picked_rows_are_sound()
    ensures { (parts : List Part) → AllByRecursion IsPart parts → games_counted parts ≤ look_limit
        → (key : List ℕ) (pick : RowKey → Bool) → AreSound (rows_from key pick 0 parts) }
{
    tally_rows::laws::cover_gives_what_is_picked();
    tally_rows::laws::tallied_rows_are_sound();
}

/// The law of covers: whatever spans of batches cover a journal, what is made of the rows that are
/// tallied for the spans, filtered, summed and joined, is what is found by a recount of all games
/// of the journal.
pub fn cover_recounts()
    ensures { (spans : List Span) (journal : List Batch)
        (games : List (List Game)) (cover : List (List Track)) (tallies : List (List Row))
        (query : Query) (bytes : List ℕ) (found : Found)
        → Covers spans journal → AreTallied spans games cover tallies → IsAnswerable query bytes
        → IsFromRows query bytes cover tallies found → IsFound journal query found }
{
    tracks_see_what_games_see();
    tally_rows::laws::cover_recounts();
    tally_rows::laws::keys_tell_the_turn();
}

/// What is made of the rows of parts is what is found in their journal.
pub fn parts_recount()
    ensures { (parts : List Part) (each : AllByRecursion IsPart parts)
        (query : Query) (bytes : List ℕ) (found : Found)
        → IsAnswerable query bytes
        → IsFromRows query bytes (tracks_in parts each) (map (λ part. part.rows) parts) found
        → IsFound (journal_of parts) query found }
{
    cover_recounts();
}

/// A journal has one answer to a query.
pub fn answers_are_determined()
    ensures { (journal : List Batch) (query : Query) (found other : Found)
        → IsFound journal query found → IsFound journal query other → found ≡ other }
{
    game_is_determined();
    first_visit_is_determined();
    notation_is_determined();
}

/// Moves that are found are legal in the position that is asked for: each follows where a game first
/// comes to a position that is the same.
pub fn found_moves_are_legal()
    ensures first { (at : Position) (journal : List Batch) (games : List Game)
        (games_at : List GameAt) (most : ℕ) (wanted : Classes → Bool)
        → IsValid at → AreGamesOf journal games → AllZip (IsGameAt at) games games_at
        → AllByRecursion (λ m. Legal at m) (first_moves most wanted games_at) }
    ensures found { (journal : List Batch) (query : Query) (found : Found)
        → IsValid query.at → IsFound journal query found
        → AllByRecursion (λ line. Legal query.at line.next) found.moves }
{
    legal_moves_keep_validity();
    tidy_forms_decide_same();
    same_positions_have_the_same_moves();
    equal_keys_mean_equal_positions();
    games_begin_validly();
}
