//! What holds of the written form and its reading, whatever the position.
ghost use Rattle.std.specs.Prelude.{◌≡◌, ◌↔◌, ◌++◌, ℕ, List, IsTrue, Option, Some, Result, Ok};
ghost use Rattle.std.specs.List.{list_all};
ghost use Rattle.explorer_model.specs.declared.chess.Position.{Position as APosition};
ghost use Rattle.explorer_model.specs.declared.chess.Move.{Move as AMove};
ghost use Rattle.explorer_model.specs.declared.fault.SanFault.{SanFault};
ghost use Rattle.explorer_model.specs.Chess.{IsValid, Legal};
ghost use Rattle.explorer_model.specs.declared.notation.SanForm.{SanForm};
ghost use Rattle.explorer_model.specs.San.{is_mark, san_form, MoveText, SanText, SanReads};
ghost use Rattle.san_codec.specs.Spelled.{IsSpelled};

/// What is written is read as the same move, whatever run of `+` and `#` follows it, and also
/// where it follows the move without its own mark.
pub fn written_is_read()
    ensures written { (p : APosition) (m : AMove) (text marks : List ℕ) → IsValid p → Legal p m
        → SanText p m text → IsTrue (list_all is_mark marks) → SanReads p (text ++ marks) (Ok m) }
    ensures any_marks { (p : APosition) (m : AMove) (text marks : List ℕ) → IsValid p → Legal p m
        → MoveText p m text → IsTrue (list_all is_mark marks) → SanReads p (text ++ marks) (Ok m) }
{}

/// A text has one reading in a position, and a move one written form.
pub fn notation_is_determined()
    ensures reading { (p : APosition) (text : List ℕ) (r s : Result AMove SanFault)
        → SanReads p text r → SanReads p text s → r ≡ s }
    ensures writing { (p : APosition) (m : AMove) (text other : List ℕ)
        → SanText p m text → SanText p m other → text ≡ other }
{}

/// The texts that name a form are those that the grammar spells (PGN 8.2.3): the definition reads
/// them from the right.
pub fn forms_are_spelled()
    ensures { (text : List ℕ) (form : SanForm)
        → (san_form text ≡ Some form) ↔ IsSpelled form text }
{}
