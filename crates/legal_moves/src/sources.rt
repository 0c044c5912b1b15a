//! The legal moves that a text may name: those of one role to one square, and castling.
ghost use Rattle.std.specs.Prelude.{◌≡◌, ◌<◌, ◌↔◌, ◌⊎◌, IsTrue, IfSome, Some, true};
ghost use Rattle.step_tables.specs.Bitboard.{Holds};
ghost use Rattle.explorer_model.specs.declared.chess.Move.{Move};
ghost use Rattle.explorer_model.specs.declared.chess.Position.{Position};
ghost use Rattle.explorer_model.specs.declared.chess.Role.TheVariants.{Pawn};
ghost use Rattle.explorer_model.specs.declared.square.Square.{Square};
ghost use Rattle.explorer_model.specs.Board.{piece_at, IsPiece, RookLine, BishopLine};
ghost use Rattle.explorer_model.specs.Chess.{Legal, IsPromotion, Promotes, is_castling, castling_side, is_pawn, is_square};
ghost use Rattle.legal_moves.specs.EnemySets.{IsInfoOf, IsClear};
ghost use Rattle.legal_moves.specs.PieceSets.{IsKept};
ghost use Rattle.legal_moves.specs.Sources.{IsSource, Lands, BecomesAs, takes_on};

use crate::check_info::CheckInfo;
use crate::destinations::{pawn_advances, pawn_captures, pawn_diagonals};
use crate::enemy_sets::is_clear;
use crate::piece_sets::PieceSets;
use explorer_model::chess::{Color, Move, Position, Role, Side};
use explorer_model::square::Square;
use step_tables::{
    Bitboard, bishop_targets, contains, king_targets, knight_targets, lowest, only, queen_targets,
    rook_targets, without,
};

/// The squares of `among` from which a piece of this role can legally go to a square and become
/// what is named, castling aside.
pub fn sources(
    position: &Position,
    sets: &PieceSets,
    role: Role,
    to: Square,
    promotion: Option<Role>,
    among: Bitboard,
) -> Bitboard
    requires { IsKept position.now sets.now }
    ensures { (from : Square) → Holds result from.index
        ↔ (Holds among from.index × IsSource position.now role to promotion from) }
{
    let own = sets.of_color(position.turn) & sets.of_role(role);
    let all = own & reach_back(position.turn, role, to.index) & among;
    let info = CheckInfo::of(position, sets);
    let mut found = 0;
    let mut rest = all;
    while rest != 0 {
        let index = lowest(rest);
        let m = Move {
            from: Square { index },
            to,
            promotion,
        };
        if is_source(position, &info, role, m) {
            found |= only(index);
        }
        rest = without(rest, index);
    }
    found
}

/// The castling move toward this side, where it is legal.
pub fn castling(position: &Position, sets: &PieceSets, side: Side) -> Option<Move>
    requires { IsKept position.now sets.now }
    ensures some { IfSome result (λ m. Legal position.now m
        × (is_castling position.now m ≡ true) × (castling_side m ≡ side)) }
    ensures only { (m : Move) → Legal position.now m → is_castling position.now m ≡ true
        → castling_side m ≡ side → result ≡ Some m }
{
    let m = Move {
        from: Square {
            index: position.turn.king_home(),
        },
        to: Square {
            index: position.turn.king_target(side),
        },
        promotion: None,
    };
    let info = CheckInfo::of(position, sets);
    if !info.castles_to(side, position, m) {
        return None;
    }
    if !info.is_legal(position, m) {
        return None;
    }
    Some(m)
}

/// Does a piece of this role take something where it goes to the square, en passant included?
pub fn takes(position: &Position, role: Role, to: Square) -> bool
    ensures { result ≡ takes_on position.now role to.index }
{
    position.piece_at(to).is_some() || is_pawn(role) && is_square(position.en_passant, to.index)
}

/// The squares from which a piece of this role comes to a square, and perhaps more.
fn reach_back(color: Color, role: Role, to: u8) -> Bitboard
    requires { to < 64 }
    ensures { (p : Position) (m : Move) → p.turn ≡ color → m.to.index ≡ to
        → Lands p role m → Holds result m.from.index }
{
    match role {
        Role::Pawn => pawn_diagonals(color.opponent(), to) | rook_targets(to),
        Role::Knight => knight_targets(to),
        Role::Bishop => bishop_targets(to),
        Role::Rook => rook_targets(to),
        Role::Queen => queen_targets(to),
        Role::King => king_targets(to),
    }
}

/// May the piece, which has this role, legally make the move, and not by castling?
fn is_source(position: &Position, info: &CheckInfo, role: Role, m: Move) -> bool
    requires informed { IsInfoOf position.now info.now }
    requires piece { IsPiece position.now.turn role (piece_at position.now.squares m.from.index) }
    ensures { IsTrue result ↔ IsSource position.now role m.to m.promotion m.from }
{
    if contains(info.own, m.to.index) {
        return false;
    }
    if !lands(position, info, role, m) {
        return false;
    }
    if !becomes_as(position.turn, role, m) {
        return false;
    }
    info.is_legal(position, m)
}

/// Does the piece, which has this role, go as the move says, castling aside?
fn lands(position: &Position, info: &CheckInfo, role: Role, m: Move) -> bool
    requires informed { IsInfoOf position.now info.now }
    requires piece { IsPiece position.now.turn role (piece_at position.now.squares m.from.index) }
    ensures { IsTrue result ↔ Lands position.now role m }
{
    let (from, to) = (m.from.index, m.to.index);
    let occupied = info.enemy_sets.occupied;
    match role {
        Role::Pawn => goes_as_pawn(position, info, m),
        Role::Knight => contains(knight_targets(from), to),
        Role::Bishop => goes_diagonally(occupied, from, to),
        Role::Rook => goes_straight(occupied, from, to),
        Role::Queen => goes_as_queen(occupied, from, to),
        Role::King => contains(king_targets(from), to),
    }
}

fn goes_as_pawn(position: &Position, info: &CheckInfo, m: Move) -> bool
    requires informed { IsInfoOf position.now info.now }
    requires piece { IsPiece position.now.turn Pawn (piece_at position.now.squares m.from.index) }
    ensures { IsTrue result ↔ Lands position.now Pawn m }
{
    let (from, to) = (m.from.index, m.to.index);
    contains(pawn_advances(position, info, from), to)
        || contains(pawn_captures(position, info, from), to)
}

fn goes_diagonally(occupied: Bitboard, from: u8, to: u8) -> bool
    requires from_on_board { from < 64 }
    requires to_on_board { to < 64 }
    ensures { IsTrue result ↔ (BishopLine from to × IsClear occupied from to) }
{
    contains(bishop_targets(from), to) && is_clear(occupied, from, to)
}

fn goes_straight(occupied: Bitboard, from: u8, to: u8) -> bool
    requires from_on_board { from < 64 }
    requires to_on_board { to < 64 }
    ensures { IsTrue result ↔ (RookLine from to × IsClear occupied from to) }
{
    contains(rook_targets(from), to) && is_clear(occupied, from, to)
}

fn goes_as_queen(occupied: Bitboard, from: u8, to: u8) -> bool
    requires from_on_board { from < 64 }
    requires to_on_board { to < 64 }
    ensures { IsTrue result ↔ ((RookLine from to ⊎ BishopLine from to) × IsClear occupied from to) }
{
    contains(queen_targets(from), to) && is_clear(occupied, from, to)
}

/// Does the move of a piece of this role name what it becomes as it must?
fn becomes_as(color: Color, role: Role, m: Move) -> bool
    ensures { IsTrue result ↔ BecomesAs color role m }
{
    match role {
        Role::Pawn => promotes(color, m),
        Role::Knight | Role::Bishop | Role::Rook | Role::Queen | Role::King => {
            m.promotion.is_none()
        }
    }
}

/// Does the move of a pawn name what it becomes exactly where it reaches its last rank?
fn promotes(color: Color, m: Move) -> bool
    ensures { IsTrue result ↔ Promotes color m }
{
    if m.to.rank() == color.last_rank() {
        is_promotion(m.promotion)
    } else {
        m.promotion.is_none()
    }
}

/// Is this what a pawn may become?
fn is_promotion(promotion: Option<Role>) -> bool
    ensures { IsTrue result ↔ IsPromotion promotion }
{
    match promotion {
        None | Some(Role::Pawn) | Some(Role::King) => false,
        Some(Role::Knight) | Some(Role::Bishop) | Some(Role::Rook) | Some(Role::Queen) => true,
    }
}

fn is_pawn(role: Role) -> bool
    ensures { result ≡ is_pawn role }
{
    match role {
        Role::Pawn => true,
        Role::Knight | Role::Bishop | Role::Rook | Role::Queen | Role::King => false,
    }
}

fn is_square(square: Option<Square>, s: u8) -> bool
    ensures { result ≡ is_square square s }
{
    match square {
        None => false,
        Some(square) => square.index == s,
    }
}
