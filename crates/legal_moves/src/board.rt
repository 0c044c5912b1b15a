//! A board, seen as its position, which is valid.
ghost use Rattle.std.specs.Prelude.{◌≡◌, ◌≢◌, ◌<◌, ◌≤◌, ◌↔◌, ℕ, true, Some, IsTrue, IfSome, IsSome, length};
ghost use Rattle.std.specs.List.{All, AllPairs, Contains};
ghost use Rattle.explorer_model.specs.declared.chess.Move.{Move};
ghost use Rattle.explorer_model.specs.declared.square.Square.{Square};
ghost use Rattle.explorer_model.specs.Board.{piece_at, InCheck};
ghost use Rattle.explorer_model.specs.Chess.{IsValid, Legal, after, is_castling, castling_side, start};
ghost use Rattle.explorer_model.specs.San.{IsRole, captures};
ghost use Rattle.step_tables.specs.Bitboard.{Holds};
ghost use Rattle.legal_moves.specs.Pins.{IsPinned, IsEvasion};
ghost use Rattle.legal_moves.specs.Sources.{IsSource, takes_on};
ghost use Rattle.legal_moves.specs.Tidy.{IsTidied, with_en_passant};

use crate::check_info::CheckInfo;
use crate::generate;
use crate::piece_sets::PieceSets;
use crate::pins::{evasions, pinned};
use crate::play::play_on;
use crate::sources::{castling, sources, takes};
use crate::tidy::legal_en_passant;
use crate::valid::{is_valid, start};
use arrayvec::ArrayVec;
use explorer_model::chess::{Move, Position, Role, Side};
use explorer_model::square::Square;
use std::marker::Model;
use step_tables::Bitboard;

/// The pieces of the starting position.
const START: PieceSets = PieceSets {
    white: 0xFFFF,
    black: 0xFFFF_0000_0000_0000,
    pawns: 0x00FF_0000_0000_FF00,
    knights: 0x4200_0000_0000_0042,
    bishops: 0x2400_0000_0000_0024,
    rooks: 0x8100_0000_0000_0081,
    queens: 0x0800_0000_0000_0008,
    kings: 0x1000_0000_0000_0010,
};

/// A valid position, ready to be asked for its moves.
#[derive(Clone, Copy, Debug)]
pub struct Board {
    position: Position,
    /// The pieces of the position.
    sets: PieceSets,
}

impl Model for Board {
    ghost use Rattle.explorer_model.specs.declared.chess.Position.{Position};
    ghost use Rattle.legal_moves.specs.PieceSets.{sets_in, IsKept};
    ghost use Rattle.std.proofs.Common.{sym};

    ghost Value = { Position };

    ghost view = { λ b. b.position };

    ghost invariant = { λ b. IsKept b.position b.sets };

    ghost inverse = { λ p. record { position = p; sets = sets_in p.squares } };

    ghost inverse_ok = { λ b kept i. record { position = b.position; sets = sym kept.told i } };
}

impl Board {
    /// The starting position (FIDE 2.3), with all four rights.
    pub fn start() -> Board
        ensures { result ≡ start }
    {
        Board {
            position: start(),
            sets: START,
        }
    }

    /// The board of a position; `None` exactly where the position is not valid.
    pub fn of(position: &Position) -> Option<Board>
        ensures same { IfSome result (λ board. board ≡ position.now) }
        ensures valid { IsSome result ↔ IsValid position.now }
    {
        if is_valid(position) {
            Some(Board::of_valid(*position))
        } else {
            None
        }
    }

    /// The board of a valid position, which is not tested.
    pub fn of_valid(position: Position) -> Board
        requires { IsValid position }
        ensures { result ≡ position }
    {
        Board {
            position,
            sets: PieceSets::of(&position.squares),
        }
    }

    /// The position on the board, a valid one.
    pub fn position(&self) -> Position
        ensures same { result ≡ self.now }
        ensures valid { IsValid result }
    {
        self.position
    }

    /// The position, without a copy of it.
    pub fn as_position(&self) -> &Position
        ensures { result.now ≡ self.now }
    {
        &self.position
    }

    /// Is the side to move in check (FIDE 3.9.1)?
    pub fn checked(&self) -> bool
        ensures { IsTrue result ↔ InCheck self.now.squares self.now.turn }
    {
        CheckInfo::of(&self.position, &self.sets).in_check(&self.position)
    }

    /// Every legal move, in no stated order. There are never more than 415: fifteen pieces have at
    /// most 27 moves each, and a king has at most 10.
    pub fn legal(&self) -> ArrayVec<Move, 416>
        ensures each { (m : Move) → Contains result.items m ↔ Legal self.now m }
        ensures once { AllPairs (λ a b. a ≢ b) result.items }
        ensures sound { All (λ m. Legal self.now m) result.items }
        ensures few { length result.items ≤ 415 }
    {
        generate::legal(&self.position, &self.sets)
    }

    /// The squares of `among` from which a piece of this role can legally go to a square and
    /// become what is named there, castling aside.
    pub fn sources(
        &self,
        role: Role,
        to: Square,
        promotion: Option<Role>,
        among: Bitboard,
    ) -> Bitboard
        ensures { (from : Square) → Holds result from.index
            ↔ (Holds among from.index × IsSource self.now role to promotion from) }
    {
        sources(&self.position, &self.sets, role, to, promotion, among)
    }

    /// The castling move toward this side, where it is legal.
    pub fn castling(&self, side: Side) -> Option<Move>
        ensures some { IfSome result (λ m. Legal self.now m
            × (is_castling self.now m ≡ true) × (castling_side m ≡ side)) }
        ensures only { (m : Move) → Legal self.now m → is_castling self.now m ≡ true
            → castling_side m ≡ side → result ≡ Some m }
    {
        castling(&self.position, &self.sets, side)
    }

    /// Does a piece of this role take something where it goes to the square, en passant included?
    pub fn takes(&self, role: Role, to: Square) -> bool
        ensures value { result ≡ takes_on self.now role to.index }
        ensures captures { (m : Move) → m.to.index ≡ to.index
            → IsRole role (piece_at self.now.squares m.from.index) → result ≡ captures self.now m }
    {
        takes(&self.position, role, to)
    }

    /// Is there a legal move? This stops at the first square from which there is one.
    pub fn has_move(&self) -> bool
        ensures { IsTrue result ↔ ((m : Move) × Legal self.now m) }
    {
        generate::has_move(&self.position, &self.sets)
    }

    /// The board after a legal move.
    pub fn play(&self, step: Move) -> Board
        requires { Legal self.now step }
        ensures { result ≡ after self.now step }
    {
        let mut board = *self;
        board.play_on(step);
        board
    }

    /// Plays a legal move on this board.
    #[inline(always)]
    pub fn play_on(&mut self, step: Move)
        requires { Legal self.old step }
        ensures { self.new ≡ after self.old step }
    {
        play_on(&mut self.position, &mut self.sets, step);
    }

    /// The own pieces that stand alone between their king and an enemy bishop, rook or queen whose
    /// line it is.
    pub fn pinned(&self) -> Bitboard
        ensures { (s : ℕ) → s < 64 → Holds result s ↔ IsPinned self.now s }
    {
        pinned(&self.position, &CheckInfo::of(&self.position, &self.sets))
    }

    /// Where a piece other than the king meets each check: all squares without one, none with two.
    pub fn evasions(&self) -> Bitboard
        ensures { (s : ℕ) → s < 64 → Holds result s ↔ IsEvasion self.now s }
    {
        evasions(&self.position, &CheckInfo::of(&self.position, &self.sets))
    }

    /// The board whose en passant square stays only where a pawn can legally be taken there. Two
    /// positions are the same (FIDE 9.2.3) exactly where their tidy boards are equal.
    pub fn tidy(&self) -> Board
        ensures { IsTidied self.now result }
    {
        Board {
            position: Position {
                en_passant: legal_en_passant(&self.position, &self.sets),
                ..self.position
            },
            sets: self.sets,
        }
    }

    /// The en passant square of the tidy board.
    pub fn tidy_en_passant(&self) -> Option<Square>
        ensures { IsTidied self.now (with_en_passant self.now result) }
    {
        legal_en_passant(&self.position, &self.sets)
    }
}
