//! The en passant square where a pawn can be taken there.
ghost use Rattle.std.specs.Prelude.{◌≡◌, ℕ, ◌↔◌, IsTrue, Some};
ghost use Rattle.explorer_model.specs.Chess.{IsSquare, CanCaptureEnPassant};
ghost use Rattle.legal_moves.specs.EnemySets.{IsInfoOf};
ghost use Rattle.legal_moves.specs.PieceSets.{IsKept};

use crate::check_info::CheckInfo;
use crate::destinations::pawn_diagonals;
use crate::piece_sets::PieceSets;
use explorer_model::chess::{Move, Position};
use explorer_model::square::Square;
use step_tables::{lowest, without};

/// The en passant square, where a pawn can legally be taken there.
pub fn legal_en_passant(position: &Position, sets: &PieceSets) -> Option<Square>
    requires { IsKept position.now sets.now }
    ensures { (s : ℕ) → IsSquare result s ↔ CanCaptureEnPassant position.now s }
{
    let to = position.en_passant?;
    let info = CheckInfo::of(position, sets);
    if can_capture_en_passant(position, &info, to) {
        Some(to)
    } else {
        None
    }
}

/// Can a pawn legally be taken on this square, the en passant square?
fn can_capture_en_passant(position: &Position, info: &CheckInfo, to: Square) -> bool
    requires informed { IsInfoOf position.now info.now }
    requires crossed { position.now.en_passant ≡ Some to }
    ensures { IsTrue result ↔ CanCaptureEnPassant position.now to.index }
{
    // A pawn of the other colour there would attack the squares from which it is attacked.
    let mut rest = info.own_pawns & pawn_diagonals(position.turn.opponent(), to.index);
    while rest != 0 {
        let index = lowest(rest);
        let m = Move {
            from: Square { index },
            to,
            promotion: None,
        };
        if info.is_legal(position, m) {
            return true;
        }
        rest = without(rest, index);
    }
    false
}
