//! The lines of moves in an answer.
ghost use Rattle.std.specs.Prelude.{◌≡◌, ◌≢◌, ◌↔◌, map, IfOk};
ghost use Rattle.std.specs.List.{AllByRecursion, AllPairs, AllZip, Contains};
ghost use Rattle.explorer_model.specs.declared.chess.Move.{Move};
ghost use Rattle.explorer_model.specs.Chess.{Legal};
ghost use Rattle.lookup.specs.Lines.{IsLineMade};
ghost use Rattle.row_sums.specs.Hits.{hit_as, AreSound};
ghost use Rattle.row_sums.specs.MoveSums.{IsAveraged, sum_as};

use explorer_model::answer::MoveLine;
use explorer_model::chess::Move as Step;
use legal_moves::board::Board;
use row_sums::{Games, Hit, MoveSum, average_of, only_game, san_of};
use std::alloc::{AllocError, Global};

/// The lines of moves that are legal on the board, in their order.
pub fn lines_of<G: Games>(
    alloc: Global,
    board: &Board,
    games: &G,
    hits: &[Hit],
    sums: &[MoveSum],
) -> Result<Vec<MoveLine>, AllocError>
    requires sound { AreSound (map hit_as hits.now) }
    requires legal { AllByRecursion (λ sum. Legal board.now sum.next) sums.now }
    requires averaged { AllByRecursion (λ sum. IsAveraged (map hit_as hits.now) sum.next) sums.now }
    requires sums { AllByRecursion (λ sum. sum ≡ sum_as (map hit_as hits.now) sum.next) sums.now }
    ensures { IfOk result
        (λ lines. AllZip
        (λ sum line. IsLineMade board.now (G.classes games.now) (map hit_as hits.now) sum.next line)
        sums.now lines.items) }
{
    let legal = board.legal();
    let mut lines = Vec::with_capacity(alloc, sums.len())?;
    for sum in sums {
        lines.push(line_of(alloc, board, legal.as_slice(), games, hits, sum)?)?;
    }
    Ok(lines)
}

/// The line of a move; `legal` are the legal moves of the board.
fn line_of<G: Games>(
    alloc: Global,
    board: &Board,
    legal: &[Step],
    games: &G,
    hits: &[Hit],
    sum: &MoveSum,
) -> Result<MoveLine, AllocError>
    requires each { (m : Move) → Contains legal.now m ↔ Legal board.now m }
    requires once { AllPairs (λ a b. a ≢ b) legal.now }
    requires sound { AreSound (map hit_as hits.now) }
    requires legal { Legal board.now sum.now.next }
    requires averaged { IsAveraged (map hit_as hits.now) sum.now.next }
    requires sum { sum.now ≡ sum_as (map hit_as hits.now) sum.now.next }
    ensures { IfOk result
        (λ line. IsLineMade board.now (G.classes games.now) (map hit_as hits.now)
        sum.now.next line) }
{
    Ok(MoveLine {
        next: sum.next,
        san: san_of(alloc, board, legal, sum.next)?,
        average: average_of(sum),
        totals: sum.totals,
        game: only_game(games, sum)?,
    })
}
