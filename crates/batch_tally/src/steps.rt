//! The positions that a game visits.
ghost use Rattle.std.specs.Prelude.{◌≡◌, List, slice_get, IfOk};
ghost use Rattle.std.specs.List.{AllZip};
ghost use Rattle.explorer_model.specs.Chess.{IsValid};
ghost use Rattle.explorer_model.specs.Visits.{AreLegalFrom, stage_limit};
ghost use Rattle.batch_tally.specs.Steps.{IsStepAt, stages_within};

use crate::keyed_board::KeyedBoard;
use crate::step::{Step, tag_of};
use explorer_model::chess::{Move, Position};
use std::alloc::{AllocError, Global};

/// The number of positions in which a game is looked for: those of plies 0 to 50.
pub const STAGE_LIMIT: usize = 51;

/// The first 51 positions of the moves, from the position that they begin in.
pub fn steps_of(alloc: Global, root: &Position, moves: &[Move]) -> Result<Vec<Step>, AllocError>
    requires valid { IsValid root.now }
    requires legal { AreLegalFrom root.now moves.now }
    ensures { IfOk result
        (λ steps. AllZip IsStepAt (stages_within stage_limit root.now moves.now) steps.items) }
{
    let mut board = KeyedBoard::of(root);
    let mut steps = Vec::with_capacity(alloc, STAGE_LIMIT)?;
    for ply in 0..STAGE_LIMIT {
        let next = move_at(moves, ply);
        let key = board.tidy_key();
        let tag = tag_of(&key);
        steps.push(Step { key, next, tag })?;
        match next {
            Some(step) => board.play_on(step),
            None => break,
        }
    }
    Ok(steps)
}

/// The move of a ply, counted from 0.
fn move_at(moves: &[Move], ply: usize) -> Option<Move>
    ensures { result ≡ slice_get moves.now ply }
{
    moves.get(ply).copied()
}
