//! Positions as FEN writes them.
ghost use Rattle.std.specs.Prelude.{◌≡◌, ◌+◌, ◌≤◌, ◌++◌, codes, length};
ghost use Rattle.arrayvec.specs.ArrayVec.{array_vec_len};
ghost use Rattle.explorer_model.specs.Fen.{piece_letter, empty_text, run_text, ranks_text, turn_text, right_text, rights_text, en_passant_text, fen_text};

use crate::letters::{push_square, small_letter};
use arrayvec::ArrayVec;
use explorer_model::chess::{Color, Piece, Rights};
use explorer_model::letters::letter_of;
use explorer_model::square::Square;
use legal_moves::board::Board;

/// The six fields of the board's position, the en passant square as it stands, and the counts
/// `0 1`.
pub fn write_fen(board: &Board) -> ArrayVec<u8, 96>
    ensures { result.items ≡ fen_text board.now }
{
    let position = board.position();
    let mut text = ArrayVec::new();
    push_ranks(&mut text, &position.squares);
    text.push(b' ');
    push_turn(&mut text, position.turn);
    text.push(b' ');
    push_rights(&mut text, position.rights);
    text.push(b' ');
    push_en_passant(&mut text, position.en_passant);
    push_counts(&mut text);
    text
}

fn push_ranks(text: &mut ArrayVec<u8, 96>, squares: &[Option<Piece>; 64])
    requires { array_vec_len text.old + 71 ≤ 96 }
    ensures text { text.new.items ≡ text.old.items ++ ranks_text squares.now 7 }
    ensures room { array_vec_len text.new ≤ array_vec_len text.old + 71 }
{
    push_rank(text, &squares[56..]);
    for rank in (0..7usize).rev() {
        text.push(b'/');
        push_rank(text, &squares[8 * rank..8 * rank + 8]);
    }
}

/// Appends the squares of a rank, from file a to file h.
fn push_rank(text: &mut ArrayVec<u8, 96>, squares: &[Option<Piece>])
    requires room { array_vec_len text.old + length squares.now ≤ 96 }
    requires rank { length squares.now ≤ 8 }
    ensures text { text.new.items ≡ text.old.items ++ run_text 0 squares.now }
    ensures room { array_vec_len text.new ≤ array_vec_len text.old + length squares.now }
{
    let mut run = 0;
    for occupant in squares {
        match occupant {
            None => run += 1,
            Some(piece) => {
                push_empty(text, run);
                text.push(piece_letter(*piece));
                run = 0;
            }
        }
    }
    push_empty(text, run);
}

/// Appends the digit of a run of empty squares.
fn push_empty(text: &mut ArrayVec<u8, 96>, run: u8)
    requires room { array_vec_len text.old + run ≤ 96 }
    requires rank { run ≤ 8 }
    ensures text { text.new.items ≡ text.old.items ++ empty_text run }
    ensures room { array_vec_len text.new ≤ array_vec_len text.old + run }
{
    if run > 0 {
        text.push(b'0' + run);
    }
}

fn piece_letter(piece: Piece) -> u8
    ensures { result ≡ piece_letter piece.color piece.role }
{
    match piece.color {
        Color::White => letter_of(piece.role),
        Color::Black => small_letter(piece.role),
    }
}

fn push_turn(text: &mut ArrayVec<u8, 96>, turn: Color)
    requires { array_vec_len text.old + 1 ≤ 96 }
    ensures text { text.new.items ≡ text.old.items ++ turn_text turn }
    ensures room { array_vec_len text.new ≡ array_vec_len text.old + 1 }
{
    text.push(match turn {
        Color::White => b'w',
        Color::Black => b'b',
    });
}

fn push_rights(text: &mut ArrayVec<u8, 96>, rights: Rights)
    requires { array_vec_len text.old + 4 ≤ 96 }
    ensures text { text.new.items ≡ text.old.items ++ rights_text rights }
    ensures room { array_vec_len text.new ≤ array_vec_len text.old + 4 }
{
    if !(rights.white_short || rights.white_long || rights.black_short || rights.black_long) {
        text.push(b'-');
        return;
    }
    push_right(text, rights.white_short, b'K');
    push_right(text, rights.white_long, b'Q');
    push_right(text, rights.black_short, b'k');
    push_right(text, rights.black_long, b'q');
}

fn push_right(text: &mut ArrayVec<u8, 96>, right: bool, letter: u8)
    requires { array_vec_len text.old + 1 ≤ 96 }
    ensures text { text.new.items ≡ text.old.items ++ right_text right letter }
    ensures room { array_vec_len text.new ≤ array_vec_len text.old + 1 }
{
    if right {
        text.push(letter);
    }
}

fn push_en_passant(text: &mut ArrayVec<u8, 96>, en_passant: Option<Square>)
    requires { array_vec_len text.old + 2 ≤ 96 }
    ensures text { text.new.items ≡ text.old.items ++ en_passant_text en_passant }
    ensures room { array_vec_len text.new ≤ array_vec_len text.old + 2 }
{
    match en_passant {
        None => text.push(b'-'),
        Some(square) => push_square(text, square.index),
    }
}

/// Appends the halfmove clock and the number of the move, which are not kept.
fn push_counts(text: &mut ArrayVec<u8, 96>)
    requires { array_vec_len text.old + 4 ≤ 96 }
    ensures { text.new.items ≡ text.old.items ++ codes " 0 1" }
{
    text.push(b' ');
    text.push(b'0');
    text.push(b' ');
    text.push(b'1');
}
