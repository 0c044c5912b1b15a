//! Reading on a board, which asks only for the moves that a text may name.
ghost use Rattle.std.specs.Prelude.{IfOk};
ghost use Rattle.explorer_model.specs.declared.notation.SanForm.TheVariants.{Named, Castling};
ghost use Rattle.explorer_model.specs.Chess.{Legal};
ghost use Rattle.explorer_model.specs.San.{Answers, SanReads};

use crate::grammar::parse;
use crate::named_squares::{on_file, on_rank};
use explorer_model::chess::{Move, Side};
use explorer_model::fault::SanFault;
use explorer_model::notation::{NamedMove, SanForm};
use explorer_model::square::Square;
use legal_moves::board::Board;
use step_tables::{lowest, without};

/// The one legal move that `text` names on a board, as [`read`] finds it among all legal moves.
pub fn read_on(text: &[u8], board: &Board) -> Result<Move, SanFault>
    ensures reads { SanReads board.now text.now result }
    ensures legal { IfOk result (λ m. Legal board.now m) }
{
    let Some(form) = parse(text) else {
        return Err(SanFault::NotSan);
    };
    match form {
        SanForm::Castling(side) => read_castling(side, board),
        SanForm::Named(named) => read_named(named, board),
    }
}

fn read_castling(side: Side, board: &Board) -> Result<Move, SanFault>
    ensures { Answers board.now (Castling side) result }
{
    match board.castling(side) {
        Some(m) => Ok(m),
        None => Err(SanFault::NoSuchMove),
    }
}

/// The one legal move that is named, castling aside. Legality is asked of each piece before they
/// are counted, so that a pinned one is no rival.
fn read_named(named: NamedMove, board: &Board) -> Result<Move, SanFault>
    ensures { Answers board.now (Named named) result }
{
    if named.target >= 64 {
        return Err(SanFault::NoSuchMove);
    }
    let to = Square {
        index: named.target,
    };
    if board.takes(named.role, to) != named.captures {
        return Err(SanFault::NoSuchMove);
    }
    let among = on_file(named.file) & on_rank(named.rank);
    let found = board.sources(named.role, to, named.promotion, among);
    if found == 0 {
        return Err(SanFault::NoSuchMove);
    }
    let first = lowest(found);
    let more = without(found, first);
    if more != 0 {
        return Err(SanFault::Ambiguous);
    }
    Ok(Move {
        from: Square { index: first },
        to,
        promotion: named.promotion,
    })
}
