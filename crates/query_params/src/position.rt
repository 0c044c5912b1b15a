//! The position that is asked for, and the moves that lead to it.
ghost use Rattle.std.specs.Prelude.{◌≡◌, map, IfOk};
ghost use Rattle.explorer_model.specs.declared.query.Parameter.TheVariants.{Fen, Play};
ghost use Rattle.explorer_model.specs.Query.{value_in, pieces_of, RootReads, MovesRead, PlayReads, LineReads};
ghost use Rattle.query_params.specs.Given.{texts};
ghost use Rattle.query_params.specs.Lines.{NamesRoot, line_as};

use crate::given::{bad, given_value};
use crate::lists::split_piece;
use crate::pairs::Pair;
use explorer_model::archive::Moves;
use explorer_model::query::{BadParameter, Parameter};
use fen_uci::{read_fen, read_uci};
use legal_moves::board::Board;
use std::alloc::{AllocError, Global};

/// Moves from a position, and the board that they lead to.
#[derive(Drop)]
pub struct Line {
    pub moves: Moves,
    pub board: Board,
}

/// The position that `fen` sets up, or the start.
pub fn root_of(pairs: &[Pair]) -> Result<Board, BadParameter>
    ensures { RootReads (value_in Fen (map texts pairs.now)) result }
{
    match given_value(pairs, Parameter::Fen) {
        Ok(Some(text)) => root_named(text),
        Ok(None) => Ok(Board::start()),
        Err(fault) => Err(fault),
    }
}

fn root_named(text: &str) -> Result<Board, BadParameter>
    ensures { NamesRoot text.now result }
{
    match read_fen(text.as_bytes()) {
        Ok(board) => Ok(board),
        Err(_) => Err(bad(Parameter::Fen)),
    }
}

/// The line that is played from the root, where there is a root.
pub fn line_of(
    alloc: Global,
    root: &Result<Board, BadParameter>,
    pairs: &[Pair],
) -> Result<Result<Line, BadParameter>, AllocError>
    ensures { IfOk result (λ line. LineReads root.now (value_in Play (map texts pairs.now))
        (line_as line)) }
{
    match root {
        Ok(board) => play_of(alloc, board, pairs),
        Err(fault) => Ok(Err(*fault)),
    }
}

fn play_of(
    alloc: Global,
    root: &Board,
    pairs: &[Pair],
) -> Result<Result<Line, BadParameter>, AllocError>
    ensures { IfOk result (λ line. PlayReads root.now (value_in Play (map texts pairs.now))
        (line_as line)) }
{
    match given_value(pairs, Parameter::Play) {
        Ok(Some(text)) => read_moves(alloc, root, text),
        Ok(None) => Ok(Ok(Line {
            moves: Moves::from_vec(Vec::new(alloc)),
            board: *root,
        })),
        Err(fault) => Ok(Err(fault)),
    }
}

/// The line of moves with commas between them.
fn read_moves(
    alloc: Global,
    root: &Board,
    text: &str,
) -> Result<Result<Line, BadParameter>, AllocError>
    ensures { IfOk result (λ line. MovesRead root.now (pieces_of text.now) (line_as line)) }
{
    let mut board = *root;
    let mut moves = Vec::new(alloc);
    let mut rest = Some(text);
    while let Some(text) = rest {
        let (piece, more) = split_piece(text);
        let Ok(step) = read_uci(piece.as_bytes(), &board) else {
            return Ok(Err(bad(Parameter::Play)));
        };
        moves.push(step)?;
        board = board.play(step);
        rest = more;
    }
    Ok(Ok(Line {
        moves: Moves::from_vec(moves),
        board,
    }))
}
