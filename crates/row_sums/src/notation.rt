//! Moves of a position in SAN.
ghost use Rattle.std.specs.Prelude.{◌≡◌, ◌≢◌, ◌↔◌, IfOk};
ghost use Rattle.std.specs.List.{AllPairs, Contains};
ghost use Rattle.explorer_model.specs.declared.chess.Move.{Move};
ghost use Rattle.explorer_model.specs.Chess.{Legal, after};
ghost use Rattle.explorer_model.specs.San.{IsMarked, SanText};

use explorer_model::archive::Bytes;
use explorer_model::chess::Move as Step;
use explorer_model::notation::CheckMark;
use legal_moves::board::Board;
use std::alloc::{AllocError, Global};

/// The written form of a legal move; `legal` are the legal moves of the board.
pub fn san_of(alloc: Global, board: &Board, legal: &[Step], step: Step) -> Result<Bytes, AllocError>
    requires each { (m : Move) → Contains legal.now m ↔ Legal board.now m }
    requires once { AllPairs (λ a b. a ≢ b) legal.now }
    requires legal { Legal board.now step }
    ensures { IfOk result (λ text. SanText board.now step text) }
{
    let text = san_codec::write(&board.position(), legal, step, mark_of(&board.play(step)));
    Ok(Bytes::from_vec(Vec::from_slice(alloc, text.as_slice())?))
}

/// How the side that is to move stands.
fn mark_of(board: &Board) -> CheckMark
    ensures { IsMarked board.now result }
{
    if !board.checked() {
        CheckMark::Quiet
    } else if board.has_move() {
        CheckMark::Check
    } else {
        CheckMark::Mate
    }
}
