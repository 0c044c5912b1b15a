//! Which moves are legal, told by the bitboards that they leave.
ghost use Rattle.std.specs.Prelude.{◌≡◌, ◌<◌, ◌↔◌, IsTrue};
ghost use Rattle.explorer_model.specs.Board.{opponent, piece_at, IsPiece, IsOpen, IsAttacked, InCheck};
ghost use Rattle.explorer_model.specs.declared.chess.Role.TheVariants.{King};
ghost use Rattle.explorer_model.specs.Chess.{CastlesTo, Castles, PseudoLegal, IsCastlingPathSafe, Legal, squares_after};
ghost use Rattle.legal_moves.specs.EnemySets.{Describes, IsInfoOf};
ghost use Rattle.legal_moves.specs.PieceSets.{IsKept};

use crate::enemy_sets::{EnemySets, is_clear};
use crate::piece_sets::PieceSets;
use explorer_model::chess::{Move, Position, Role, Side, is_piece};
use explorer_model::square::halfway;
use step_tables::{Bitboard, lowest};

/// Where the pieces of a position stand, as its side to move sees them.
#[derive(Clone, Copy)]
pub struct CheckInfo {
    /// All pieces, and those of the side that is not to move.
    pub enemy_sets: EnemySets,
    /// The pieces of the side to move.
    pub own: Bitboard,
    pub own_pawns: Bitboard,
    /// The pieces of the side that is not to move.
    pub enemies: Bitboard,
    /// The square of the king of the side to move.
    pub king: u8,
}

impl CheckInfo {
    /// The checks of a position, by the sets of its pieces.
    #[inline(always)]
    pub fn of(position: &Position, sets: &PieceSets) -> CheckInfo
        requires { IsKept position.now sets.now }
        ensures { IsInfoOf position.now result }
    {
        let enemy = position.turn.opponent();
        let own = sets.of_color(position.turn);
        let enemy_sets = EnemySets::of(sets, enemy);
        let king = lowest(own & sets.kings);
        CheckInfo {
            enemy_sets,
            own,
            own_pawns: own & sets.pawns,
            enemies: sets.of_color(enemy),
            king,
        }
    }

    /// Is the king of the side to move attacked?
    pub fn in_check(&self, position: &Position) -> bool
        requires { IsInfoOf position.now self.now }
        ensures { IsTrue result ↔ InCheck position.now.squares position.now.turn }
    {
        self.is_attacked(position, self.king)
    }

    /// Does the side that is not to move attack the square?
    fn is_attacked(&self, position: &Position, square: u8) -> bool
        requires informed { IsInfoOf position.now self.now }
        requires on_board { square < 64 }
        ensures { IsTrue result
            ↔ IsAttacked position.now.squares (opponent position.now.turn) square }
    {
        self.enemy_sets
            .is_attacked(position.turn.opponent(), square)
    }

    fn is_open(&self, position: &Position, a: u8, b: u8) -> bool
        requires informed { IsInfoOf position.now self.now }
        requires a_on_board { a < 64 }
        requires b_on_board { b < 64 }
        ensures { IsTrue result ↔ IsOpen position.now.squares a b }
    {
        // Read, so that the proof has it as one of the two colours.
        let _turn = position.turn;
        is_clear(self.enemy_sets.occupied, a, b)
    }

    /// Is it castling toward this side, as far as pieces and rights tell?
    pub fn castles_to(&self, side: Side, position: &Position, m: Move) -> bool
        requires { IsInfoOf position.now self.now }
        ensures { IsTrue result ↔ CastlesTo side position.now m }
    {
        let (color, from) = (position.turn, m.from.index);
        if !position.rights.has(color, side) {
            return false;
        }
        if from != color.king_home() || m.to.index != color.king_target(side) {
            return false;
        }
        if !is_piece(color, Role::King, position.piece_at(m.from)) {
            return false;
        }
        self.is_open(position, color.king_home(), color.rook_home(side))
    }

    fn castles(&self, position: &Position, m: Move) -> bool
        requires { IsInfoOf position.now self.now }
        ensures { IsTrue result ↔ Castles position.now m }
    {
        self.castles_to(Side::Short, position, m) || self.castles_to(Side::Long, position, m)
    }

    /// The bitboards after a pseudo-legal move, written as the squares are: a rook that castles
    /// goes first, or a pawn that is taken en passant.
    fn enemy_sets_after(&self, position: &Position, m: Move) -> EnemySets
        requires informed { IsInfoOf position.now self.now }
        requires pseudo_legal { PseudoLegal position.now m }
        ensures { Describes (squares_after position.now m) (opponent position.now.turn) result }
    {
        let (from, to) = (m.from.index, m.to.index);
        if position.takes_en_passant(m) {
            return self
                .enemy_sets
                .clear_square(m.captured_en_passant())
                .clear_square(from)
                .fill_square(to);
        }
        if position.is_castling(m) {
            let home = position.turn.rook_home(m.castling_side());
            return self
                .enemy_sets
                .fill_square(halfway(from, to))
                .clear_square(home)
                .clear_square(from)
                .fill_square(to);
        }
        self.enemy_sets.clear_square(from).fill_square(to)
    }

    /// Where the king of the side to move stands after a pseudo-legal move.
    fn king_after(&self, position: &Position, m: Move) -> u8
        requires informed { IsInfoOf position.now self.now }
        requires pseudo_legal { PseudoLegal position.now m }
        ensures on_board { result < 64 }
        ensures stands { IsPiece position.now.turn King
            (piece_at (squares_after position.now m) result) }
    {
        // Read, so that the proof has it as one of the two colours.
        let _turn = position.turn;
        if m.from.index == self.king {
            m.to.index
        } else {
            self.king
        }
    }

    /// Does a pseudo-legal move leave the own king safe?
    #[inline(always)]
    fn is_safe(&self, position: &Position, m: Move) -> bool
        requires informed { IsInfoOf position.now self.now }
        requires pseudo_legal { PseudoLegal position.now m }
        ensures { IsTrue result ↔ ¬ InCheck (squares_after position.now m) position.now.turn }
    {
        let king = self.king_after(position, m);
        !self
            .enemy_sets_after(position, m)
            .is_attacked(position.turn.opponent(), king)
    }

    /// Are the squares on which the king stands, which it crosses and to which it goes not
    /// attacked?
    fn is_castling_path_safe(&self, position: &Position, m: Move) -> bool
        requires { IsInfoOf position.now self.now }
        ensures { IsTrue result ↔ IsCastlingPathSafe position.now m }
    {
        let (from, to) = (m.from.index, m.to.index);
        if self.is_attacked(position, from) {
            return false;
        }
        if self.is_attacked(position, halfway(from, to)) {
            return false;
        }
        !self.is_attacked(position, to)
    }

    /// Is a pseudo-legal move legal?
    #[inline(always)]
    pub fn is_legal(&self, position: &Position, m: Move) -> bool
        requires informed { IsInfoOf position.now self.now }
        requires pseudo_legal { PseudoLegal position.now m }
        ensures { IsTrue result ↔ Legal position.now m }
    {
        if !self.is_safe(position, m) {
            return false;
        }
        if m.from.index != self.king {
            return true;
        }
        if !self.castles(position, m) {
            return true;
        }
        self.is_castling_path_safe(position, m)
    }
}
