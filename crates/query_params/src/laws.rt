//! What holds of the reading of a query string.
ghost use Rattle.std.specs.Prelude.{◌≡◌, ℕ, List, Some, None, Result, Ok};
ghost use Rattle.std.specs.List.{last_or};
ghost use Rattle.explorer_model.specs.declared.player.BadPlayerParameter.{BadPlayerParameter as ABadPlayerParameter};
ghost use Rattle.explorer_model.specs.declared.player.PlayerQuery.{PlayerQuery as APlayerQuery};
ghost use Rattle.explorer_model.specs.declared.query.BadParameter.{BadParameter as ABadParameter};
ghost use Rattle.explorer_model.specs.declared.query.Query.{Query as AQuery};
ghost use Rattle.explorer_model.specs.Openings.{positions_on};
ghost use Rattle.explorer_model.specs.Players.{PlayerQueryReads};
ghost use Rattle.explorer_model.specs.Query.{QueryReads};
ghost use Rattle.explorer_model.specs.Visits.{AreLegalFrom};

use fen_uci::laws::{fen_is_determined, uci_is_determined};

/// A query string has one reading.
pub fn query_is_determined()
    ensures { (text : List ℕ) (r s : Result AQuery ABadParameter) → QueryReads text r
        → QueryReads text s → r ≡ s }
{
    fen_is_determined();
    uci_is_determined();
}

/// The plays of a query that is read are legal, each in its turn, and lead from its root to the
/// position asked for.
pub fn queries_play_legal_moves()
    ensures legal { (text : List ℕ) (query : AQuery) → QueryReads text (Ok query)
        → AreLegalFrom query.root query.plays }
    ensures ends { (text : List ℕ) (query : AQuery) → QueryReads text (Ok query)
        → last_or None (positions_on query.root query.plays) ≡ Some query.at }
{}

/// A query string has one reading as a query for a player's games.
pub fn player_query_is_determined()
    ensures { (text : List ℕ) (r s : Result APlayerQuery ABadPlayerParameter)
        → PlayerQueryReads text r → PlayerQueryReads text s → r ≡ s }
{
    fen_is_determined();
    uci_is_determined();
}

/// The plays of a query for a player's games are legal too, each in its turn, and lead from its root
/// to the position asked for.
pub fn player_queries_play_legal_moves()
    ensures legal { (text : List ℕ) (asked : APlayerQuery) → PlayerQueryReads text (Ok asked)
        → AreLegalFrom asked.query.root asked.query.plays }
    ensures ends { (text : List ℕ) (asked : APlayerQuery) → PlayerQueryReads text (Ok asked)
        → last_or None (positions_on asked.query.root asked.query.plays) ≡ Some asked.query.at }
{}
