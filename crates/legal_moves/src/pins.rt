//! Which pieces are pinned, and where a check is met.
ghost use Rattle.std.specs.Prelude.{◌≡◌, ℕ, ◌<◌, ◌↔◌};
ghost use Rattle.step_tables.specs.Bitboard.{Holds};
ghost use Rattle.explorer_model.specs.Board.{PawnDiagonal};
ghost use Rattle.legal_moves.specs.EnemySets.{HasSuch, IsInfoOf};
ghost use Rattle.legal_moves.specs.Pins.{IsAlone, IsAttacker, IsPinned, IsEvasion};

use crate::check_info::CheckInfo;
use crate::enemy_sets::EnemySets;
use explorer_model::chess::{Color, Position};
use step_tables::{
    Bitboard, between, bishop_targets, black_pawn_targets, king_targets, knight_targets, lowest,
    only, open_targets, rook_targets, white_pawn_targets, without,
};

/// The own pieces that stand alone between their king and an enemy bishop, rook or queen whose line
/// it is.
pub fn pinned(position: &Position, info: &CheckInfo) -> Bitboard
    requires { IsInfoOf position.now info.now }
    ensures { (s : ℕ) → s < 64 → Holds result s ↔ IsPinned position.now s }
{
    // Read, so that the proof has it as one of the two colours.
    let _turn = position.turn;
    let king = info.king;
    let occupied = info.enemy_sets.occupied;
    let straight = alone_between(
        occupied,
        info.enemy_sets.straights & rook_targets(king),
        king,
    );
    let diagonal = alone_between(
        occupied,
        info.enemy_sets.diagonals & bishop_targets(king),
        king,
    );
    info.own & (straight | diagonal)
}

/// Where a piece other than the king meets each check.
pub fn evasions(position: &Position, info: &CheckInfo) -> Bitboard
    requires { IsInfoOf position.now info.now }
    ensures { (s : ℕ) → s < 64 → Holds result s ↔ IsEvasion position.now s }
{
    let king = info.king;
    let checkers = attackers(&info.enemy_sets, position.turn.opponent(), king);
    if checkers == 0 {
        return u64::MAX;
    }
    let first = lowest(checkers);
    let more = without(checkers, first);
    if more != 0 {
        return 0;
    }
    only(first) | between(first, king)
}

/// The squares that alone are occupied between a square and one of these.
fn alone_between(occupied: Bitboard, sliders: Bitboard, square: u8) -> Bitboard
    requires { square < 64 }
    ensures { (s : ℕ) → s < 64
        → Holds result s ↔ HasSuch sliders (λ a. IsAlone occupied a s square) }
{
    let mut found = 0;
    let mut rest = sliders;
    while rest != 0 {
        let slider = lowest(rest);
        let passed = between(slider, square);
        found |= single(passed & occupied);
        rest = without(rest, slider);
    }
    found
}

/// The set where it has one square alone, else none.
fn single(bitboard: Bitboard) -> Bitboard
    ensures { (s : ℕ) → s < 64 → Holds result s
        ↔ (Holds bitboard s × ((t : ℕ) → t < 64 → Holds bitboard t → t ≡ s)) }
{
    if bitboard == 0 {
        return 0;
    }
    let first = lowest(bitboard);
    let more = without(bitboard, first);
    if more != 0 {
        return 0;
    }
    bitboard
}

/// The squares of the enemies that attack a square.
fn attackers(enemy_sets: &EnemySets, enemy: Color, square: u8) -> Bitboard
    requires { square < 64 }
    ensures { (a : ℕ) → a < 64 → Holds result a ↔ IsAttacker enemy_sets.now enemy a square }
{
    let pawns = enemy_sets.pawns & pawn_origins(enemy, square);
    let knights = enemy_sets.knights & knight_targets(square);
    let king = enemy_sets.king & king_targets(square);
    let straight = enemy_sets.straights & rook_targets(square);
    let diagonal = enemy_sets.diagonals & bishop_targets(square);
    let sliders = open_targets(square, straight | diagonal, enemy_sets.occupied);
    pawns | (knights | (king | sliders))
}

/// The squares from which a pawn of this colour attacks a square.
fn pawn_origins(color: Color, square: u8) -> Bitboard
    requires { square < 64 }
    ensures { (a : ℕ) → a < 64 → Holds result a ↔ PawnDiagonal color a square }
{
    match color {
        Color::White => black_pawn_targets(square),
        Color::Black => white_pawn_targets(square),
    }
}
