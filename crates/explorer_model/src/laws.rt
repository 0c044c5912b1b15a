//! Laws of the definitions. Each is the contract of a function that has nothing to do.
ghost use Rattle.std.specs.Prelude.{◌≡◌, ◌≤◌, ◌↔◌, ℕ, Bool, List, Option, Some, None, Ok, true, false, sum_by, slice_get, bytes_eq, IfSome};
ghost use Rattle.std.specs.List.{All};
ghost use Rattle.explorer_model.specs.declared.answer.Found.{Found};
ghost use Rattle.explorer_model.specs.declared.archive.Batch.{Batch};
ghost use Rattle.explorer_model.specs.declared.archive.Game.{Game};
ghost use Rattle.explorer_model.specs.declared.chess.Move.{Move};
ghost use Rattle.explorer_model.specs.declared.chess.Position.{Position};
ghost use Rattle.explorer_model.specs.declared.fault.Refusal.{Refusal};
ghost use Rattle.explorer_model.specs.declared.query.Query.{Query};
ghost use Rattle.explorer_model.specs.Chess.{Same};
ghost use Rattle.explorer_model.specs.Counting.{counts, passes, visits, take_all};
ghost use Rattle.explorer_model.specs.Finds.{IsRecount, IsFound};
ghost use Rattle.explorer_model.specs.Cuts.{Cut};
ghost use Rattle.explorer_model.specs.Games.{GameOf};
ghost use Rattle.explorer_model.specs.Imports.{Accounted, AccountedApart, AccountedBeside, numbers_of};
ghost use Rattle.explorer_model.specs.SoundClasses.{AreSoundClasses};
ghost use Rattle.explorer_model.specs.Uci.{uci_text};
ghost use Rattle.explorer_model.specs.Visits.{AreLegal, Stage, FirstVisit, GameAt, IsGameAt, IsTextOf, texts_of};

/// Each position is the same as itself, and positions that are the same as a third are the same.
pub fn same_is_an_equivalence()
    ensures reflexive { (p : Position) → Same p p }
    ensures symmetric { (p q : Position) → Same p q → Same q p }
    ensures transitive { (p q r : Position) → Same p q → Same q r → Same p r }
{}

/// What UCI writes of a move names it: no other move is written so.
pub fn uci_text_names_one_move()
    ensures { (m n : Move) → uci_text m ≡ uci_text n → m ≡ n }
{}

/// A game has one first visit of a position, or none.
pub fn first_visit_is_determined()
    ensures { (at : Position) (stages : List Stage) (v w : Option (Option Move))
        → FirstVisit at stages v → FirstVisit at stages w → v ≡ w }
{}

/// An answer counts at least as many games as its moves do: games that end in the position have no
/// move, and moves may be left out.
pub fn totals_cover_moves()
    ensures white { (query : Query) (games : List GameAt) (found : Found)
        → IsRecount query games found
        → sum_by (λ line. line.totals.white) found.moves ≤ found.totals.white }
    ensures draws { (query : Query) (games : List GameAt) (found : Found)
        → IsRecount query games found
        → sum_by (λ line. line.totals.draws) found.moves ≤ found.totals.draws }
    ensures black { (query : Query) (games : List GameAt) (found : Found)
        → IsRecount query games found
        → sum_by (λ line. line.totals.black) found.moves ≤ found.totals.black }
{}

/// What is found depends on the games of a journal alone, and not on how they stand in batches.
pub fn batches_do_not_matter()
    ensures { (journal other : List Batch) (query : Query) (found : Found) → texts_of journal
        ≡ texts_of other
        → IsFound journal query found → IsFound other query found }
{}

/// A filter that takes all changes nothing: each game that comes to the position counts.
pub fn taking_all_counts_each_visit()
    ensures { (test : Option Move → Bool) (at : Position) (text : List ℕ) (game : Game)
        (seen : GameAt)
        → GameOf text (Ok game) → IsGameAt at game seen
        → counts test (passes take_all) seen ≡ visits test seen.visit }
{}

/// An import by which nobody else stores is an import beside others, of which none stored.
pub fn alone_is_beside()
    ensures { (label : List ℕ) (stored : List Game) (groups : List (List Cut))
        (batches : List Batch) (refused : List Refusal)
        → Accounted label stored groups batches refused
        → AccountedBeside label groups batches refused }
{}

/// So are groups that are accounted each by itself.
pub fn apart_is_beside()
    ensures { (label : List ℕ) (groups : List (List Cut)) (batches : List Batch)
        (refused : List Refusal) → AccountedApart label groups batches refused
        → AccountedBeside label groups batches refused }
{}

/// A candidate that is refused as Repeated names, by its number, a stored game that has the id.
pub fn numbers_name_games()
    ensures named { (id : List ℕ) (games : List Game) (number : ℕ) → numbers_of games id
        ≡ Some number
        → IfSome (slice_get games number) (λ game. bytes_eq game.classes.id.bytes id ≡ true) }
    ensures none { (id : List ℕ) (games : List Game) → numbers_of games id ≡ None
        → All (λ game. bytes_eq game.classes.id.bytes id ≡ false) games }
{}

/// The classes of a game are what tags can say.
pub fn classes_of_games_are_sound()
    ensures { (text : List ℕ) (game : Game) → IsTextOf text game → AreSoundClasses game.classes }
{}

/// The moves of a game are legal, each in its turn.
pub fn moves_of_games_are_legal()
    ensures { (text : List ℕ) (game : Game) → IsTextOf text game → AreLegal game }
{}
