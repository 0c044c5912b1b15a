//! Laws of tallied rows. Each is the contract of a function that has nothing to do.
ghost use Rattle.std.specs.Prelude.{◌≡◌, ℕ, ◌<◌, ◌&&◌, Bool, false, List, ◌++◌, map, length, cond, slice_index_or};
ghost use Rattle.std.specs.List.{All, AllZip, filter, flat_map};
ghost use Rattle.std.specs.List.Sorted.{IsStrictlySortedBy};
ghost use Rattle.explorer_model.specs.declared.chess.Position.{Position};
ghost use Rattle.explorer_model.specs.declared.query.Filter.{Filter};
ghost use Rattle.explorer_model.specs.Keys.{key};
ghost use Rattle.tally_rows.specs.Adding.{SameAt, IsSound};
ghost use Rattle.tally_rows.specs.Cover.{JoinsMoves, Recounts, turn_of};
ghost use Rattle.tally_rows.specs.declared.grid.Cell.{Cell};
ghost use Rattle.tally_rows.specs.declared.key_range.KeyRange.{KeyRange};
ghost use Rattle.tally_rows.specs.declared.row_key.RowKey.{RowKey};
ghost use Rattle.tally_rows.specs.declared.row.Row.{Row};
ghost use Rattle.tally_rows.specs.Grid.{IsShaped, zeros, no_games, plus, cell_of, added, chosen, total};
ghost use Rattle.tally_rows.specs.Games.{singles_from};
ghost use Rattle.tally_rows.specs.RowKey.{row_order};
ghost use Rattle.tally_rows.specs.Single.{AreSingles};
ghost use Rattle.tally_rows.specs.Recount.{GivesPicked};
ghost use Rattle.tally_rows.specs.Row.{row_key_of, shifted_row};
ghost use Rattle.tally_rows.specs.Tallied.{Tallied};
ghost use Rattle.tally_rows.specs.Track.{Track};
ghost use Rattle.tally_rows.specs.Within.{AreSinglesWithin, TalliedWithin, is_in_range, FollowFrom};

/// Rows that have at each five parts what the rows of two lists of games have there are tallied for
/// both lists together, where they are sound and in their order. The games of the second list stand
/// behind those of the first.
pub fn tallied_both()
    ensures { (left right : List Track) (left_rows right_rows rows : List Row)
        → Tallied left left_rows → Tallied right right_rows
        → ((row_key : RowKey)
        → SameAt (left_rows ++ map (shifted_row (length left)) right_rows) rows row_key)
        → All IsSound rows → IsStrictlySortedBy row_order (map row_key_of rows)
        → Tallied (left ++ right) rows }
{}

/// Tallied rows are sound.
pub fn tallied_rows_are_sound()
    ensures { (tracks : List Track) (rows : List Row) → Tallied tracks rows → All IsSound rows }
{}

/// A list of games has one list of tallied rows.
pub fn tallied_rows_are_determined()
    ensures { (tracks : List Track) (rows others : List Row) → Tallied tracks rows
        → Tallied tracks others → rows ≡ others }
{}

/// So it has one list of the rows whose keys pass a test.
pub fn rows_within_are_determined()
    ensures { (test : List ℕ → Bool) (tracks : List Track) (rows others : List Row)
        → TalliedWithin test tracks rows → TalliedWithin test tracks others → rows ≡ others }
{}

/// A row that is added to a grid is in its sums exactly where its speed and group are chosen.
pub fn grid_sums_rows()
    ensures zeros { (speeds groups : List Bool) (s r : ℕ)
        → total (chosen speeds groups (zeros s r)) ≡ no_games }
    ensures added { (speeds groups : List Bool) (grid : List (List Cell)) (speed group : ℕ)
        (row : Row)
        → IsShaped (length speeds) (length groups) grid → speed < length speeds
        → group < length groups
        → total (chosen speeds groups (added grid speed group row))
        ≡ plus (total (chosen speeds groups grid))
        (cond (slice_index_or speeds speed false && slice_index_or groups group false)
        (cell_of row) no_games) }
    ensures zeros_shape { (speeds groups : ℕ) → IsShaped speeds groups (zeros speeds groups) }
    ensures added_shape { (speeds groups : ℕ) (grid : List (List Cell)) (speed group : ℕ)
        (row : Row)
        → IsShaped speeds groups grid → speed < speeds
        → IsShaped speeds groups (added grid speed group row) }
{}

/// What games count for in each position that they visit first are their singles.
pub fn singles_of_first_visits()
    ensures { (tracks : List Track) → AreSingles tracks (singles_from 0 tracks) }
{}

/// What games count for in the positions whose key passes a test are those of their singles whose key passes.
pub fn singles_of_passing_keys()
    ensures { (test : List ℕ → Bool) (tracks : List Track)
        → AreSinglesWithin test tracks
        (filter (λ single. test single.row_key.key) (singles_from 0 tracks)) }
{}

/// Rows of ranges of keys that follow one another and leave no key out, those of one range after
/// those of another, are tallied where those of each range are tallied within it.
pub fn ranges_are_tallied()
    ensures { (tracks : List Track) (ranges : List KeyRange) (parts : List (List Row))
        → FollowFrom 0 ranges
        → AllZip (λ range rows. TalliedWithin (is_in_range range) tracks rows) ranges parts
        → Tallied tracks (flat_map (λ rows. rows) parts) }
{}

/// Whatever cover the games of a list have, what they say of a position, in the words of the answer,
/// is what the rows give that are tallied for the parts of the cover: sums of the rows that pass the
/// filter, and their best lists joined. At most four games are listed.
pub fn cover_recounts()
    ensures { (cover : List (List Track)) (tallies : List (List Row)) → AllZip Tallied cover tallies
        → (bytes : List ℕ) (wanted : Filter) → Recounts bytes wanted cover tallies }
{}

/// The same for games whose parts are picked in any way, in numbers and entries alone.
pub fn cover_gives_what_is_picked()
    ensures { (cover : List (List Track)) (tallies : List (List Row)) → AllZip Tallied cover tallies
        → (bytes : List ℕ) (pick : RowKey → Bool) → GivesPicked bytes pick cover tallies }
{}

/// The best games of a position are the best of those of each of its moves.
pub fn moves_join()
    ensures { (cover : List (List Track)) (tallies : List (List Row)) → AllZip Tallied cover tallies
        → (bytes : List ℕ) (wanted : Filter) → JoinsMoves bytes wanted cover tallies }
{}

/// The key of a position tells who is to move.
pub fn keys_tell_the_turn()
    ensures { (p : Position) → length p.squares ≡ 64 → turn_of (key p) ≡ p.turn }
{}
