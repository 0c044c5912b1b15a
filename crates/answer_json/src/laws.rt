//! The laws of answers. Each is the contract of a function that has nothing to do.
ghost use Rattle.std.specs.Prelude.{◌≡◌, List, [], map, IfSome};
ghost use Rattle.std.specs.List.{AllByRecursion};
ghost use Rattle.explorer_model.specs.declared.answer.Found.{Found};
ghost use Rattle.explorer_model.specs.declared.archive.Batch.{Batch};
ghost use Rattle.explorer_model.specs.declared.chess.Position.{Position};
ghost use Rattle.explorer_model.specs.declared.opening.Naming.{Naming};
ghost use Rattle.explorer_model.specs.declared.player.PlayerFound.{PlayerFound};
ghost use Rattle.explorer_model.specs.declared.player.PlayerQuery.{PlayerQuery};
ghost use Rattle.explorer_model.specs.declared.query.Query.{Query};
ghost use Rattle.explorer_model.specs.Answer.{answer_body, named_body};
ghost use Rattle.explorer_model.specs.Finds.{IsFound};
ghost use Rattle.explorer_model.specs.Openings.{IsNaming};
ghost use Rattle.explorer_model.specs.Players.{IsPlayerFound};
ghost use Rattle.explorer_model.specs.San.{SanText};
ghost use Rattle.explorer_model.specs.SoundClasses.{AreSoundClasses};
ghost use Rattle.answer_json.specs.Plain.{IsPlainFound, IsPlainPlayerFound};

/// What is found in a journal has a body: its SAN texts and the ids of its games are ASCII.
pub fn what_is_found_is_plain()
    ensures { (journal : List Batch) (query : Query) (found : Found) → IsFound journal query found
        → IsPlainFound found }
{}

/// An answer whose lines are written in SAN, and whose games have tags that a game can have, has a
/// body, wherever it comes from.
pub fn sound_answers_are_plain()
    ensures { (at : Position) (found : Found)
        → AllByRecursion (λ line. SanText at line.next line.san) found.moves
        → AllByRecursion (λ line. IfSome line.game (λ game. AreSoundClasses game.classes))
        found.moves
        → AllByRecursion (λ game. AreSoundClasses game.classes) found.top
        → AllByRecursion (λ game. AreSoundClasses game.classes) found.recent
        → IsPlainFound found }
{}

/// What is found of a player's games has a body too.
pub fn what_a_player_has_is_plain()
    ensures { (journal : List Batch) (query : PlayerQuery) (found : PlayerFound)
        → IsPlayerFound journal query found → IsPlainPlayerFound found }
{}

/// By a book without a line an answer is written as where no opening is known.
pub fn an_empty_book_names_nothing()
    ensures { (query : Query) (found : Found) (naming : Naming)
        → IsNaming [] query (map (λ line. line.next) found.moves) naming
        → named_body found naming ≡ answer_body found }
{}
