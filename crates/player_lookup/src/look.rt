//! Answers about a player.
ghost use Rattle.std.specs.Prelude.{◌≡◌, ℕ, ◌+◌, ◌*◌, ◌≤◌, ◌<◌, ◌^◌, List, length, IfOk};
ghost use Rattle.explorer_model.specs.Chess.{IsValid};
ghost use Rattle.explorer_model.specs.Players.{IsPlayerFound, plays_as};
ghost use Rattle.explorer_model.specs.Tidy.{IsTidied, IsTidyKey};
ghost use Rattle.explorer_model.specs.declared.archive.Classes.{Classes};
ghost use Rattle.player_index.specs.Entries.{numbers_where};
ghost use Rattle.player_index.specs.Index.{AreClassesOf};
ghost use Rattle.published_index.specs.Cover.{journal_of};

use crate::asked::Asked;
use crate::games::rows_of_games;
use crate::rows::found_of;
use explorer_model::chess::Position;
use explorer_model::player::{PlayerFound, PlayerQuery};
use legal_moves::board::Board;
use lookup::laws::tracks_see_what_games_see;
use packed_keys::{PositionKey, pack};
use player_index::PlayerIndex;
use published_index::Snapshot;
use row_sums::count_games;
use segment_blocks::Steps;
use std::alloc::{AllocError, Global};
use std::sync::ledger::Ledger;

/// What is found of the player's games in the snapshot's journal. It takes the steps of `range`,
/// and at most one for each game in which the player has the colour: a text is read only where the
/// query takes its game.
pub fn player_look<L: Ledger>(
    alloc: Global,
    index: &PlayerIndex,
    snapshot: &Snapshot,
    query: &PlayerQuery,
    steps: &mut Steps<L>,
) -> Result<PlayerFound, AllocError>
    requires covered { index.now.batches ≡ journal_of snapshot.now }
    requires valid { IsValid query.now.query.at }
    requires recent { query.now.query.recent ≤ 4 }
    ensures found { IfOk result (IsPlayerFound (journal_of snapshot.now) query.now) }
    ensures cost { (digits : ℕ) (classes : List Classes) → length index.now.entries < 2 ^ digits
        → AreClassesOf (journal_of snapshot.now) classes → steps.new ≤ steps.old + 2 * digits
        + length (numbers_where (plays_as query.now.player query.now.color) 0 classes) }
{
    // law: each game is seen from a position in one way
    tracks_see_what_games_see();
    let segments = snapshot.segments();
    // What is known of segments is told as their games are counted.
    let _games = count_games(segments);
    let board = board_of(&query.query.at);
    let (tidy, key) = tidy_and_key(&board);
    let asked = Asked {
        query,
        tidy: &tidy,
        key,
    };
    let entries = index.range(snapshot, &query.player, query.color, steps);
    let hits = rows_of_games(alloc, segments, entries, &asked, steps)?;
    found_of(alloc, &board, segments, query, hits.as_slice())
}

/// The board of a valid position.
fn board_of(at: &Position) -> Board
    requires { IsValid at.now }
    ensures { result ≡ at.now }
{
    Board::of_valid(*at)
}

/// The tidy form of a board, and its key.
fn tidy_and_key(board: &Board) -> (Position, PositionKey)
    ensures tidied { IsTidied board.now result.0 }
    ensures key { IsTidyKey board.now result.1 }
{
    let tidy = board.tidy().position();
    let key = pack(&tidy);
    (tidy, key)
}
