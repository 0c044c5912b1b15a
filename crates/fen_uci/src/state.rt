//! Fields 2 to 4 of a FEN text: the side to move, the rights to castle, the en passant square.
ghost use Rattle.std.specs.Prelude.{◌≡◌, ◌↔◌, ℕ, nat_le, IsTrue, IfSome, IfNone, None};
ghost use Rattle.std.specs.List.{list_all};
ghost use Rattle.explorer_model.specs.declared.chess.Color.{Color as AColor};
ghost use Rattle.explorer_model.specs.declared.chess.Role.TheVariants.{King, Rook};
ghost use Rattle.explorer_model.specs.Board.{piece_at, IsPiece};
ghost use Rattle.explorer_model.specs.Chess.{king_home, rook_home, has_right, HasCrossed, IsSquare};
ghost use Rattle.explorer_model.specs.Fen.{field, is_filled, turn_named, GivesTurn, count_of, is_right, are_rights, is_dash, rights_named, KeepsRights, GivesRights, en_passant_digit, en_passant_named, IsNamed, GivesEnPassant};

use crate::fields::field;
use crate::letters::square_named;
use explorer_model::chess::{Color, Piece, Rights, Role, Side, is_piece, piece_at};
use explorer_model::square::Square;
use legal_moves::valid::{has_crossed, in_check};

/// The side to move, where field 2 names it and the other side is not in check.
pub fn turn(text: &[u8], squares: &[Option<Piece>; 64]) -> Option<Color>
    ensures some { IfSome result (λ turn. GivesTurn text.now squares.now turn) }
    ensures none { IfNone result ((turn : AColor) → ¬ GivesTurn text.now squares.now turn) }
{
    let turn = turn_named(field(text, 2))?;
    if in_check(squares, turn.opponent()) {
        return None;
    }
    Some(turn)
}

/// The rights that field 3 names and that can stand.
pub fn rights(text: &[u8], squares: &[Option<Piece>; 64]) -> Option<Rights>
    ensures some { IfSome result (λ rights. GivesRights text.now squares.now rights) }
    ensures none { IfNone result (rights_named (field 3 text.now) ≡ None) }
{
    Some(kept_rights(squares, rights_named(field(text, 3))?))
}

/// The en passant square that field 4 names and that can stand.
pub fn en_passant_field(
    text: &[u8],
    squares: &[Option<Piece>; 64],
    turn: Color,
) -> Option<Option<Square>>
    ensures some { IfSome result
        (λ en_passant. GivesEnPassant text.now squares.now turn en_passant) }
    ensures none { IfNone result (en_passant_named turn (field 4 text.now) ≡ None) }
{
    let named = en_passant_named(turn, field(text, 4))?;
    Some(kept_en_passant(squares, turn, named))
}

fn turn_named(text: &[u8]) -> Option<Color>
    ensures { result ≡ turn_named text.now }
{
    match *text {
        [b'w'] => Some(Color::White),
        [b'b'] => Some(Color::Black),
        _ => None,
    }
}

fn kept_rights(squares: &[Option<Piece>; 64], named: Rights) -> Rights
    ensures { KeepsRights squares.now named result }
{
    Rights {
        white_short: keeps(squares, named, Color::White, Side::Short),
        white_long: keeps(squares, named, Color::White, Side::Long),
        black_short: keeps(squares, named, Color::Black, Side::Short),
        black_long: keeps(squares, named, Color::Black, Side::Long),
    }
}

/// Is this right named, and do its king and its rook stand on their first squares?
fn keeps(squares: &[Option<Piece>; 64], named: Rights, color: Color, side: Side) -> bool
    ensures { IsTrue result
        ↔ (IsTrue (has_right named color side)
        × IsPiece color King (piece_at squares.now (king_home color))
        × IsPiece color Rook (piece_at squares.now (rook_home color side))) }
{
    named.has(color, side)
        && is_piece(color, Role::King, piece_at(squares, color.king_home()))
        && is_piece(color, Role::Rook, piece_at(squares, color.rook_home(side)))
}

fn rights_named(text: &[u8]) -> Option<Rights>
    ensures { result ≡ rights_named text.now }
{
    if is_dash(text) || are_rights(text) {
        Some(Rights {
            white_short: count_of(text, b'K') > 0,
            white_long: count_of(text, b'Q') > 0,
            black_short: count_of(text, b'k') > 0,
            black_long: count_of(text, b'q') > 0,
        })
    } else {
        None
    }
}

fn is_dash(text: &[u8]) -> bool
    ensures { result ≡ is_dash text.now }
{
    matches!(*text, [b'-'])
}

/// Are these some of K Q k q, each at most once?
fn are_rights(text: &[u8]) -> bool
    ensures { result ≡ are_rights text.now }
{
    is_filled(text)
        && are_letters(text)
        && is_at_most_once(text, b'K')
        && is_at_most_once(text, b'Q')
        && is_at_most_once(text, b'k')
        && is_at_most_once(text, b'q')
}

fn is_filled(text: &[u8]) -> bool
    ensures { result ≡ is_filled text.now }
{
    match text {
        [] => false,
        [_, ..] => true,
    }
}

fn are_letters(text: &[u8]) -> bool
    ensures { result ≡ list_all is_right text.now }
{
    text.iter().all(|byte| is_right(*byte))
}

fn is_right(byte: u8) -> bool
    ensures { result ≡ is_right byte }
{
    matches!(byte, b'K' | b'Q' | b'k' | b'q')
}

fn is_at_most_once(text: &[u8], byte: u8) -> bool
    ensures { result ≡ nat_le (count_of byte text.now) 1 }
{
    count_of(text, byte) <= 1
}

fn count_of(text: &[u8], byte: u8) -> usize
    ensures { result ≡ count_of byte text.now }
{
    text.iter().filter(|other| **other == byte).count()
}

fn en_passant_named(turn: Color, text: &[u8]) -> Option<Option<u8>>
    ensures { result ≡ en_passant_named turn text.now }
{
    match *text {
        [b'-'] => Some(None),
        [file, rank] if rank == en_passant_digit(turn) => Some(Some(square_named(file, rank)?)),
        _ => None,
    }
}

/// The digit of the rank that the other side's pawns cross.
fn en_passant_digit(turn: Color) -> u8
    ensures { result ≡ en_passant_digit turn }
{
    match turn {
        Color::White => b'6',
        Color::Black => b'3',
    }
}

/// The square, where a pawn of the other side has crossed it.
fn kept_en_passant(squares: &[Option<Piece>; 64], turn: Color, named: Option<u8>) -> Option<Square>
    ensures { (s : ℕ) → IsSquare result s ↔ (IsNamed named s × HasCrossed squares.now turn s) }
{
    let index = named?;
    if has_crossed(squares, turn, index) {
        Some(Square { index })
    } else {
        None
    }
}
