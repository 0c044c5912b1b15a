//! What holds of the written forms and of their reading.
ghost use Rattle.std.specs.Prelude.{◌≡◌, ◌<◌, ◌↔◌, ℕ, List, Result, Ok, Err};
ghost use Rattle.explorer_model.specs.declared.chess.Position.{Position as APosition};
ghost use Rattle.explorer_model.specs.declared.chess.Move.{Move as AMove};
ghost use Rattle.explorer_model.specs.declared.notation.FenFault.{FenFault as AFenFault};
ghost use Rattle.explorer_model.specs.declared.notation.UciFault.{UciFault as AUciFault};
ghost use Rattle.explorer_model.specs.Chess.{IsValid, Legal};
ghost use Rattle.explorer_model.specs.Fen.{KeepsUpTo, FenReads, fen_text};
ghost use Rattle.explorer_model.specs.Uci.{UciReads, uci_text};
ghost use Rattle.fen_uci.specs.Faults.{IsFaulty};

/// What is written of a valid position is read as that position.
pub fn written_fen_is_read()
    ensures { (p : APosition) → IsValid p → FenReads (fen_text p) (Ok p) }
{}

/// A text has one reading.
pub fn fen_is_determined()
    ensures { (text : List ℕ) (r s : Result APosition AFenFault)
        → FenReads text r → FenReads text s → r ≡ s }
{}

/// A position that is read is valid.
pub fn what_is_read_is_valid()
    ensures { (text : List ℕ) (p : APosition) → FenReads text (Ok p) → IsValid p }
{}

/// What is written of a legal move is read as that move.
pub fn written_uci_is_read()
    ensures { (p : APosition) (m : AMove) → IsValid p → Legal p m → UciReads p (uci_text m) (Ok m) }
{}

/// A text has one reading in a position.
pub fn uci_is_determined()
    ensures { (p : APosition) (text : List ℕ) (r s : Result AMove AUciFault)
        → UciReads p text r → UciReads p text s → r ≡ s }
{}

/// What is read keeps the rules of all six fields. What is refused is told field by field: the
/// field that is told breaks its rule, and none before it does.
pub fn faults_are_told_field_by_field()
    ensures read { (text : List ℕ) (p : APosition) → FenReads text (Ok p) ↔ KeepsUpTo 6 text p }
    ensures refused { (text : List ℕ) (fault : AFenFault)
        → FenReads text (Err fault)
        ↔ (IsFaulty text fault.field
        × ((before : ℕ) → before < fault.field → ¬ IsFaulty text before)) }
{}
