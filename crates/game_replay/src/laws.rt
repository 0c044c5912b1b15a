//! Laws of games. Each is the contract of a function that only cites laws below it.
ghost use Rattle.std.specs.Prelude.{◌≡◌, ℕ, List, None, Result, Ok};
ghost use Rattle.explorer_model.specs.declared.archive.Game.{Game};
ghost use Rattle.explorer_model.specs.declared.archive.Parts.{Parts};
ghost use Rattle.explorer_model.specs.declared.fault.GameFault.{GameFault};
ghost use Rattle.explorer_model.specs.Chess.{IsValid, start};
ghost use Rattle.explorer_model.specs.Classes.{start_text};
ghost use Rattle.explorer_model.specs.Games.{GameOf};
ghost use Rattle.explorer_model.specs.Parts.{parts};
ghost use Rattle.explorer_model.specs.Visits.{IsTextOf};

use fen_uci::laws::{fen_is_determined, what_is_read_is_valid};
use legal_moves::board::Board;

/// A text has one game, or one first fault.
pub fn game_is_determined()
    ensures { (text : List ℕ) (game other : Result Game GameFault) → GameOf text game
        → GameOf text other → game ≡ other }
{
    san_codec::laws::notation_is_determined();
    fen_is_determined();
}

/// A game begins in a valid position.
pub fn games_begin_validly()
    ensures { (text : List ℕ) (game : Game) → IsTextOf text game → IsValid game.root }
{
    what_is_read_is_valid();
    let _start = Board::start().position();
}

/// A game whose text has no tag FEN begins in the starting position (FIDE 2.3).
pub fn games_begin_at_the_start()
    ensures { (text : List ℕ) (found : Parts) (game : Game) → parts text ≡ Ok found
        → start_text found.tags ≡ None → IsTextOf text game → game.root ≡ start }
{}
