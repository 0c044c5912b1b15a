//! Keys of positions, as maps take them.
ghost use Rattle.std.specs.Prelude.{◌≡◌, bytes_eq, false, length};
ghost use Rattle.std.specs.Cmp.Lexicographic.{nat_list_eq_equiv};
ghost use Rattle.explorer_model.specs.Chess.{IsValid, after, is_castling, squares_after, takes_en_passant};
ghost use Rattle.explorer_model.specs.Keys.{packed};
ghost use Rattle.explorer_model.specs.Tidy.{IsTidyKey};
ghost use Rattle.opening_names.specs.Hashed.{ArePacked, alike, as_one, equal_bytes};

use explorer_model::chess::{Move, Position, arriving_piece};
use legal_moves::board::Board;
use packed_keys::laws::equal_keys_mean_equal_positions;
use packed_keys::{PositionKey, key_of, pack, pack_squares, write_square};
use std::hash::{Hash, Hasher};
use std::marker::Model;

/// The key of a position's tidy form. It is hashed as a whole, not byte by byte.
#[derive(Clone, Copy)]
pub struct TidyKey {
    bytes: PositionKey,
}

impl Model for TidyKey {
    ghost use Rattle.std.specs.Prelude.{ℕ, List};

    ghost Value = { List ℕ };

    ghost view = { λ key. key.bytes };

    ghost inverse = { λ bytes. record { bytes = bytes } };

    ghost inverse_ok = { λ key _ i. key };
}

impl TidyKey {
    /// The key of the tidy form of the board, which is not made.
    pub fn of(board: &Board) -> TidyKey
        ensures key { IsTidyKey board.now result }
        ensures board { length board.now.squares ≡ 64 }
    {
        let position = board.as_position();
        let squares = pack_squares(&position.squares);
        let en_passant = board.tidy_en_passant();
        TidyKey {
            bytes: key_of(&squares, position.turn, position.rights, en_passant),
        }
    }

    /// The same of the board behind a move, by the packed squares before it: most moves write two.
    pub fn behind(board: &Board, squares: &[u8; 32], step: Move, next: &Board) -> TidyKey
        requires packed { ArePacked board.now squares.now }
        requires next { next.now ≡ after board.now step }
        ensures key { IsTidyKey next.now result }
        ensures board { length next.now.squares ≡ 64 }
    {
        let position = board.as_position();
        if position.takes_en_passant(step) {
            return TidyKey::of(next);
        }
        if position.is_castling(step) {
            return TidyKey::of(next);
        }
        let moved = moved_squares(squares, position, step);
        let behind = next.as_position();
        let en_passant = next.tidy_en_passant();
        TidyKey {
            bytes: key_of(&moved, behind.turn, behind.rights, en_passant),
        }
    }
}

/// The packed squares behind a move that writes two of them.
fn moved_squares(squares: &[u8; 32], position: &Position, m: Move) -> [u8; 32]
    requires packed { ArePacked position.now squares.now }
    requires no_taking { takes_en_passant position.now m ≡ false }
    requires no_castling { is_castling position.now m ≡ false }
    ensures { result ≡ packed (squares_after position.now m) }
{
    let mut moved = *squares;
    let arrives = arriving_piece(position.piece_at(m.from), m.promotion);
    write_square(&mut moved, m.from.index, None);
    write_square(&mut moved, m.to.index, arrives);
    moved
}

impl PartialEq for TidyKey {
    ghost eq = { bytes_eq };

    ghost laws = { equal_bytes };

    fn eq(&self, other: &TidyKey) -> bool {
        are_equal(&self.bytes, &other.bytes)
    }
}

impl Eq for TidyKey {
    ghost laws = { nat_list_eq_equiv };
}

impl Hash for TidyKey {
    ghost hash_input = { as_one };

    ghost respects_eq = { alike };

    fn hash<H: Hasher>(&self, state: &mut H) {
        state.write(&self.bytes);
    }
}

/// The board of a valid position. Nearly every query begins at the start, whose sets of pieces need
/// not be gathered.
pub fn board_of(position: &Position) -> Board
    requires { IsValid position.now }
    ensures { result ≡ position.now }
{
    // law: positions are equal where their keys are
    equal_keys_mean_equal_positions();
    let start = Board::start();
    let key = pack(position);
    let start_key = pack(start.as_position());
    if are_equal(&key, &start_key) {
        start
    } else {
        Board::of_valid(*position)
    }
}

/// Whether all bytes are equal. It looks at all of them, many at a time.
fn are_equal(one: &PositionKey, other: &PositionKey) -> bool
    ensures { result ≡ bytes_eq one.now other.now }
{
    let mut are_equal = true;
    for at in 0..34usize {
        if one[at] != other[at] {
            are_equal = false;
        }
    }
    are_equal
}
