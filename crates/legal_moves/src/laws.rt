//! Laws of the definitions. Each is the contract of a function that has nothing to do.
ghost use Rattle.std.specs.Prelude.{◌≡◌, ◌↔◌, false};
ghost use Rattle.explorer_model.specs.declared.chess.Move.{Move};
ghost use Rattle.explorer_model.specs.declared.chess.Position.{Position};
ghost use Rattle.explorer_model.specs.declared.chess.Role.TheVariants.{King};
ghost use Rattle.explorer_model.specs.Board.{piece_at, IsPiece};
ghost use Rattle.explorer_model.specs.Chess.{IsValid, PseudoLegal, Legal, after, takes_en_passant, Same};
ghost use Rattle.legal_moves.specs.Pins.{IsEvasion, StaysOnPins};
ghost use Rattle.legal_moves.specs.Tidy.{IsTidied};

/// A legal move on a valid position leaves a valid position.
pub fn legal_moves_keep_validity()
    ensures { (p : Position) (m : Move) → IsValid p → Legal p m → IsValid (after p m) }
{}

/// Two positions are the same exactly where their tidy forms are equal.
pub fn tidy_forms_decide_same()
    ensures { (p q p_tidied q_tidied : Position) → IsTidied p p_tidied → IsTidied q q_tidied
        → Same p q ↔ (p_tidied ≡ q_tidied) }
{}

/// A position has one tidy form.
pub fn tidy_is_determined()
    ensures { (p q r : Position) → IsTidied p q → IsTidied p r → q ≡ r }
{}

/// Two positions that are the same have the same legal moves.
pub fn same_positions_have_the_same_moves()
    ensures { (p q : Position) (m : Move) → IsValid p → IsValid q → Same p q
        → Legal p m → Legal q m }
{}

/// A pseudo-legal move of a piece other than the king, which takes nothing en passant, is legal
/// exactly where it meets each check and stays on the line of each pin.
pub fn pins_decide()
    ensures { (p : Position) (m : Move) → IsValid p → PseudoLegal p m
        → ¬ IsPiece p.turn King (piece_at p.squares m.from.index) → takes_en_passant p m ≡ false
        → Legal p m ↔ (IsEvasion p m.to.index × StaysOnPins p m.from.index m.to.index) }
{}
