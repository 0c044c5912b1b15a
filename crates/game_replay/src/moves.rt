//! The moves of a game, played from the position that it begins in.
ghost use Rattle.std.specs.Prelude.{◌≡◌, ◌≤◌, ◌<◌, ◌^◌, length, map, IfOk};
ghost use Rattle.std.specs.List.{All};
ghost use Rattle.explorer_model.specs.Chess.{Legal};
ghost use Rattle.explorer_model.specs.Games.{move_fault};
ghost use Rattle.explorer_model.specs.San.{SanReads};
ghost use Rattle.pgn_lex.specs.Span.{bytes_of, token_in, IsWithin};
ghost use Rattle.game_replay.specs.Replay.{GivesMoves};

use explorer_model::archive::Moves;
use explorer_model::chess::Move;
use explorer_model::fault::{GameFault, SanFault, Stop};
use legal_moves::board::Board;
use pgn_lex::Span;
use san_codec::read_on;
use std::alloc::Global;

/// The moves that the tokens name, one after another, or the fault of the first that names none.
pub fn moves_of(
    alloc: Global,
    text: &[u8],
    root: &Board,
    spans: &[Span],
) -> Result<Moves, Stop<GameFault>>
    requires few { length spans.now ≤ 1024 }
    requires within { All (IsWithin (length text.now)) spans.now }
    ensures { GivesMoves root.now (map (token_in text.now) spans.now) result }
{
    let mut board = *root;
    let mut moves = Vec::with_capacity(alloc, spans.len())?;
    let mut ply = 1;
    for span in spans {
        let step = match step_of(&board, text, span) {
            Ok(step) => step,
            Err(fault) => return Err(Stop::Fault(move_fault(fault, ply, span.start))),
        };
        if moves.push(step).is_err() {
            return Err(Stop::OutOfMemory);
        }
        board.play_on(step);
        ply += 1;
    }
    Ok(Moves::from_vec(moves))
}

/// The legal move that a token names on the board.
fn step_of(board: &Board, text: &[u8], span: &Span) -> Result<Move, SanFault>
    requires { IsWithin (length text.now) span.now }
    ensures reads { SanReads board.now (bytes_of text.now span.now) result }
    ensures legal { IfOk result (λ step. Legal board.now step) }
{
    read_on(span.of(text), board)
}

fn move_fault(fault: SanFault, ply: u32, place: u32) -> GameFault
    ensures { result ≡ move_fault fault ply place }
{
    match fault {
        SanFault::NotSan => GameFault::NotSan { ply, place },
        SanFault::NoSuchMove => GameFault::Illegal { ply, place },
        SanFault::Ambiguous => GameFault::Ambiguous { ply, place },
    }
}
