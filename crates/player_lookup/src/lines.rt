//! The lines of moves in an answer about a player.
ghost use Rattle.std.specs.Prelude.{◌≢◌, ◌↔◌, map, IfOk};
ghost use Rattle.std.specs.Arc.{arc_value};
ghost use Rattle.std.specs.List.{AllByRecursion, AllPairs, AllZip, Contains};
ghost use Rattle.explorer_model.specs.declared.chess.Move.{Move};
ghost use Rattle.explorer_model.specs.Chess.{Legal};
ghost use Rattle.player_lookup.specs.Made.{HasMean, IsLineFrom};
ghost use Rattle.row_sums.specs.Listing.{classes_in};

use explorer_model::chess::Move as Step;
use explorer_model::player::PlayerLine;
use legal_moves::board::Board;
use row_sums::{MoveSum, average_of, only_game, san_of};
use segment_blocks::Segment;
use std::alloc::{AllocError, Global};
use std::sync::Arc;

/// The lines of moves that are legal on the board, in their order.
pub fn lines_of(
    alloc: Global,
    board: &Board,
    segments: &[Arc<Segment>],
    sums: &[MoveSum],
) -> Result<Vec<PlayerLine>, AllocError>
    requires legal { AllByRecursion (λ sum. Legal board.now sum.next) sums.now }
    requires means { AllByRecursion HasMean sums.now }
    ensures { IfOk result (λ lines. AllZip
        (IsLineFrom board.now (classes_in (map arc_value segments.now))) sums.now lines.items) }
{
    let legal = board.legal();
    let mut lines = Vec::with_capacity(alloc, sums.len())?;
    for sum in sums {
        lines.push(line_of(alloc, board, legal.as_slice(), segments, sum)?)?;
    }
    Ok(lines)
}

/// The line of a move; `legal` are the legal moves of the board.
fn line_of(
    alloc: Global,
    board: &Board,
    legal: &[Step],
    segments: &[Arc<Segment>],
    sum: &MoveSum,
) -> Result<PlayerLine, AllocError>
    requires each { (m : Move) → Contains legal.now m ↔ Legal board.now m }
    requires once { AllPairs (λ a b. a ≢ b) legal.now }
    requires legal { Legal board.now sum.now.next }
    requires mean { HasMean sum.now }
    ensures { IfOk result
        (IsLineFrom board.now (classes_in (map arc_value segments.now)) sum.now) }
{
    Ok(PlayerLine {
        next: sum.next,
        san: san_of(alloc, board, legal, sum.next)?,
        average: average_of(sum),
        totals: sum.totals,
        game: only_game(&segments, sum)?,
    })
}
