//! What holds of books and of what they name. Each is the contract of a function that at most cites
//! laws below it.
ghost use Rattle.std.specs.Prelude.{◌≡◌, ℕ, List, Option, Result};
ghost use Rattle.explorer_model.specs.declared.chess.Move.{Move};
ghost use Rattle.explorer_model.specs.declared.chess.Position.{Position};
ghost use Rattle.explorer_model.specs.declared.opening.BookFault.{BookFault};
ghost use Rattle.explorer_model.specs.declared.opening.Naming.{Naming};
ghost use Rattle.explorer_model.specs.declared.opening.Opening.{Opening};
ghost use Rattle.explorer_model.specs.declared.query.Query.{Query};
ghost use Rattle.explorer_model.specs.Openings.{BookReads, IsNaming, NamedPosition, OpeningOf};

use san_codec::laws::notation_is_determined;

/// A text has one book, or one first faulty line.
pub fn book_is_determined()
    ensures { (text : List ℕ) (book other : Result (List NamedPosition) BookFault)
        → BookReads text book → BookReads text other → book ≡ other }
{
    notation_is_determined();
}

/// A position has one opening in a book, or none.
pub fn opening_is_determined()
    ensures { (book : List NamedPosition) (at : Position) (opening other : Option Opening)
        → OpeningOf book at opening → OpeningOf book at other → opening ≡ other }
{}

/// A query and moves have one naming.
pub fn naming_is_determined()
    ensures { (book : List NamedPosition) (query : Query) (played : List Move)
        (naming other : Naming)
        → IsNaming book query played naming → IsNaming book query played other → naming ≡ other }
{}
