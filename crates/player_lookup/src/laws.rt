//! Laws of answers about a player. Each is the contract of a function that cites laws below it.
ghost use Rattle.std.specs.Prelude.{◌≡◌, List};
ghost use Rattle.std.specs.List.{AllByRecursion};
ghost use Rattle.explorer_model.specs.declared.archive.Batch.{Batch};
ghost use Rattle.explorer_model.specs.declared.player.PlayerFound.{PlayerFound};
ghost use Rattle.explorer_model.specs.declared.player.PlayerQuery.{PlayerQuery};
ghost use Rattle.explorer_model.specs.Chess.{IsValid, Legal};
ghost use Rattle.explorer_model.specs.Players.{IsPlayerFound};

use explorer_model::laws::first_visit_is_determined;
use game_replay::laws::game_is_determined;
use san_codec::laws::notation_is_determined;

/// A journal has one answer to a query for a player's games.
pub fn answers_are_determined()
    ensures { (journal : List Batch) (query : PlayerQuery) (found other : PlayerFound)
        → IsPlayerFound journal query found → IsPlayerFound journal query other → found ≡ other }
{
    game_is_determined();
    first_visit_is_determined();
    notation_is_determined();
}

/// Moves that are found are legal in the position that is asked for.
pub fn found_moves_are_legal()
    ensures { (journal : List Batch) (query : PlayerQuery) (found : PlayerFound)
        → IsValid query.query.at → IsPlayerFound journal query found
        → AllByRecursion (λ line. Legal query.query.at line.next) found.moves }
{
    lookup::laws::found_moves_are_legal();
}
