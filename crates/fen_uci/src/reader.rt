//! Positions as FEN writes them, read.
ghost use Rattle.std.specs.Prelude.{◌≡◌, ◌↔◌, IsTrue, IfSome, IfNone, List, Option};
ghost use Rattle.std.specs.List.{list_all};
ghost use Rattle.explorer_model.specs.declared.chess.Color.TheVariants.{White, Black};
ghost use Rattle.explorer_model.specs.declared.chess.Piece.{Piece as APiece};
ghost use Rattle.explorer_model.specs.Chess.{HasPieces, HasPawnsInside};
ghost use Rattle.explorer_model.specs.Fen.{PlacesPieces, is_digit, is_count, has_clock, has_number, FenReads};

use crate::fields::{count_fields, field};
use crate::placement::placement;
use crate::state::{en_passant_field, rights, turn};
use explorer_model::chess::{Color, Piece, Position};
use explorer_model::notation::FenFault;
use legal_moves::board::Board;
use legal_moves::valid::{has_pawns_inside, has_pieces};

/// The board of a text of four or six fields, or the first of its fields that is faulty. A right
/// without its king and rook on their first squares is dropped, and so is an en passant square
/// that no pawn has crossed; the counts in fields 5 and 6 are not kept.
pub fn read_fen(text: &[u8]) -> Result<Board, FenFault>
    ensures { FenReads text.now result }
{
    let position = position(text)?;
    match Board::of(&position) {
        Some(board) => Ok(board),
        None => unreachable!(),
    }
}

/// The position that a text of FEN says, or the first of its fields that is faulty.
fn position(text: &[u8]) -> Result<Position, FenFault>
    ensures { FenReads text.now result }
{
    let Some(squares) = placed_pieces(text) else {
        return Err(FenFault { field: 1 });
    };
    let Some(turn) = turn(text, &squares) else {
        return Err(FenFault { field: 2 });
    };
    let Some(rights) = rights(text, &squares) else {
        return Err(FenFault { field: 3 });
    };
    let Some(en_passant) = en_passant_field(text, &squares, turn) else {
        return Err(FenFault { field: 4 });
    };
    if !has_clock(text) {
        return Err(FenFault { field: 5 });
    }
    if !has_number(text) {
        return Err(FenFault { field: 6 });
    }
    Ok(Position {
        squares,
        turn,
        rights,
        en_passant,
    })
}

/// The pieces that field 1 places, where they can be those of a position.
fn placed_pieces(text: &[u8]) -> Option<[Option<Piece>; 64]>
    ensures some { IfSome result (λ squares. PlacesPieces text.now squares) }
    ensures none { IfNone result
        ((squares : List (Option APiece)) → ¬ PlacesPieces text.now squares) }
{
    let squares = placement(field(text, 1))?;
    if are_pieces_valid(&squares) {
        Some(squares)
    } else {
        None
    }
}

fn are_pieces_valid(squares: &[Option<Piece>; 64]) -> bool
    ensures { IsTrue result
        ↔ (HasPieces squares.now White × HasPieces squares.now Black × HasPawnsInside squares.now) }
{
    has_pieces(squares, Color::White)
        && has_pieces(squares, Color::Black)
        && has_pawns_inside(squares)
}

fn has_clock(text: &[u8]) -> bool
    ensures { result ≡ has_clock text.now }
{
    count_fields(text) == 4 || is_count(field(text, 5))
}

fn is_count(text: &[u8]) -> bool
    ensures { result ≡ is_count text.now }
{
    1 <= text.len() && text.len() <= 6 && are_digits(text)
}

fn are_digits(text: &[u8]) -> bool
    ensures { result ≡ list_all is_digit text.now }
{
    text.iter().all(|byte| is_digit(*byte))
}

fn is_digit(byte: u8) -> bool
    ensures { result ≡ is_digit byte }
{
    matches!(byte, b'0'..=b'9')
}

fn has_number(text: &[u8]) -> bool
    ensures { result ≡ has_number text.now }
{
    let count = count_fields(text);
    count == 4 || (count == 6 && is_count(field(text, 6)))
}
