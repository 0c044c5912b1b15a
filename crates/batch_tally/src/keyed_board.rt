//! A board whose key is kept while moves are played.
ghost use Rattle.std.specs.Prelude.{◌≡◌, ◌↔◌, IsTrue, List, Option, length};
ghost use Rattle.explorer_model.specs.declared.chess.Piece.{Piece};
ghost use Rattle.explorer_model.specs.Board.{piece_at};
ghost use Rattle.explorer_model.specs.Chess.{IsValid, Legal, after, arriving, squares_after};
ghost use Rattle.explorer_model.specs.Keys.{packed};
ghost use Rattle.explorer_model.specs.Tidy.{IsTidyKey};
ghost use Rattle.batch_tally.specs.KeyedBoard.{moved};

use explorer_model::chess::{Move, Piece, Position, Role, arriving_piece, piece_of};
use explorer_model::square::{Square, halfway};
use legal_moves::board::Board;
use packed_keys::{PositionKey, key_of, pack_squares, write_square};
use std::marker::Model;

/// A board with its squares packed as in a key: a move writes few of them.
#[derive(Clone, Copy, Debug)]
pub struct KeyedBoard {
    board: Board,
    /// The squares as the first bytes of a key.
    bytes: [u8; 32],
}

impl Model for KeyedBoard {
    ghost use Rattle.explorer_model.specs.declared.chess.Position.{Position};
    ghost use Rattle.explorer_model.specs.Keys.{packed};
    ghost use Rattle.std.specs.Prelude.{◌≡◌};
    ghost use Rattle.std.proofs.Common.{sym};

    ghost Value = { Position };

    ghost view = { λ b. b.board };

    ghost invariant = { λ b. b.bytes ≡ packed b.board.squares };

    ghost inverse = { λ p. record { board = p; bytes = packed p.squares } };

    ghost inverse_ok = { λ b kept i. record { board = b.board; bytes = sym kept i } };
}

impl KeyedBoard {
    /// The board of a valid position.
    pub fn of(position: &Position) -> KeyedBoard
        requires { IsValid position.now }
        ensures { result ≡ position.now }
    {
        let start = Board::start();
        let board = if are_same(position, start.as_position()) {
            start
        } else {
            Board::of_valid(*position)
        };
        let bytes = pack_squares(&position.squares);
        KeyedBoard { board, bytes }
    }

    /// The key of the tidy form.
    pub fn tidy_key(&self) -> PositionKey
        ensures { IsTidyKey self.now result }
    {
        let position = self.board.as_position();
        let en_passant = self.board.tidy_en_passant();
        key_of(&self.bytes, position.turn, position.rights, en_passant)
    }

    /// Plays a legal move on this board.
    pub fn play_on(&mut self, step: Move)
        requires { Legal self.old step }
        ensures { self.new ≡ after self.old step }
    {
        follow(&mut self.bytes, self.board.as_position(), step);
        self.board.play_on(step);
    }
}

/// Nearly every game begins at the start, whose sets of pieces need not be gathered.
fn are_same(one: &Position, other: &Position) -> bool
    ensures { IsTrue result ↔ (one.now ≡ other.now) }
{
    if !have_same_squares(&one.squares, &other.squares) {
        return false;
    }
    if !has_same_turn_and_rights(one, other) {
        return false;
    }
    is_same_square(one.en_passant, other.en_passant)
}

fn have_same_squares(one: &[Option<Piece>; 64], other: &[Option<Piece>; 64]) -> bool
    ensures { IsTrue result ↔ (one.now ≡ other.now) }
{
    *one == *other
}

fn has_same_turn_and_rights(one: &Position, other: &Position) -> bool
    ensures { IsTrue result
        ↔ ((one.now.turn ≡ other.now.turn) × (one.now.rights ≡ other.now.rights)) }
{
    one.turn == other.turn && one.rights == other.rights
}

fn is_same_square(one: Option<Square>, other: Option<Square>) -> bool
    ensures { IsTrue result ↔ (one ≡ other) }
{
    match (one, other) {
        (None, None) => true,
        (Some(one), Some(other)) => one.index == other.index,
        _ => false,
    }
}

/// Writes the squares that a move changes: a rook that castles goes first, or a pawn that is taken
/// en passant.
fn follow(bytes: &mut [u8; 32], position: &Position, m: Move)
    requires whole { length position.now.squares ≡ 64 }
    requires told { bytes.old ≡ packed position.now.squares }
    ensures { bytes.new ≡ packed (squares_after position.now m) }
{
    if position.takes_en_passant(m) {
        write_square(bytes, m.captured_en_passant(), None);
        return move_packed(bytes, position, m);
    }
    if position.is_castling(m) {
        let crossed = halfway(m.from.index, m.to.index);
        let home = position.turn.rook_home(m.castling_side());
        write_square(bytes, crossed, piece_of(position.turn, Role::Rook));
        write_square(bytes, home, None);
        return move_packed(bytes, position, m);
    }
    move_packed(bytes, position, m);
}

/// Writes the squares that a piece leaves and reaches.
fn move_packed(bytes: &mut [u8; 32], position: &Position, m: Move)
    ensures { (squares : List (Option Piece)) → length squares ≡ 64
        → bytes.old ≡ packed squares → bytes.new ≡ packed (moved squares m.from.index m.to.index
        (arriving (piece_at position.now.squares m.from.index) m.promotion)) }
{
    let arrives = arriving_piece(position.piece_at(m.from), m.promotion);
    write_square(bytes, m.from.index, None);
    write_square(bytes, m.to.index, arrives);
}
