//! The legal moves of a position, in the order of the squares that they begin and end on.
ghost use Rattle.std.specs.Prelude.{◌≡◌, ◌≢◌, ◌+◌, ◌*◌, ◌≤◌, ◌↔◌, IsTrue, length};
ghost use Rattle.std.specs.List.{All, AllPairs, Contains};
ghost use Rattle.explorer_model.specs.declared.chess.Move.{Move};
ghost use Rattle.explorer_model.specs.Board.{piece_at, IsOfColor};
ghost use Rattle.explorer_model.specs.Chess.{PseudoLegal, Legal};
ghost use Rattle.legal_moves.specs.Listing.{place_of, ListsBelow, IsDestination, IsPromoting};
ghost use Rattle.legal_moves.specs.CheckMasks.{AreMasksOf};
ghost use Rattle.legal_moves.specs.PieceSets.{IsKept};

use crate::check_masks::CheckMasks;
use crate::destinations::destinations;
use crate::piece_sets::PieceSets;
use arrayvec::ArrayVec;
use explorer_model::chess::{Move, Position, Role, is_piece};
use explorer_model::square::Square;
use step_tables::{lowest, without};

/// What a pawn may become, in the order in which moves are listed.
const PROMOTIONS: [Option<Role>; 4] = [
    Some(Role::Knight),
    Some(Role::Bishop),
    Some(Role::Rook),
    Some(Role::Queen),
];

/// The legal moves of a valid position with these pieces.
pub fn legal(position: &Position, sets: &PieceSets) -> ArrayVec<Move, 416>
    requires { IsKept position.now sets.now }
    ensures each { (m : Move) → Contains result.items m ↔ Legal position.now m }
    ensures once { AllPairs (λ a b. a ≢ b) result.items }
    ensures sound { All (λ m. Legal position.now m) result.items }
    ensures few { length result.items ≤ 415 }
{
    let masks = CheckMasks::of(position, sets);
    let mut moves = ArrayVec::new();
    let mut rest = masks.info.own;
    while rest != 0 {
        let index = lowest(rest);
        list_from(position, &masks, Square { index }, &mut moves);
        rest = without(rest, index);
    }
    moves
}

/// Is there a legal move? Stops at the first square from which there is one.
pub fn has_move(position: &Position, sets: &PieceSets) -> bool
    requires { IsKept position.now sets.now }
    ensures { IsTrue result ↔ ((m : Move) × Legal position.now m) }
{
    let masks = CheckMasks::of(position, sets);
    let mut moves = ArrayVec::new();
    let mut rest = masks.info.own;
    while rest != 0 {
        let index = lowest(rest);
        list_from(position, &masks, Square { index }, &mut moves);
        if !moves.is_empty() {
            return true;
        }
        rest = without(rest, index);
    }
    false
}

/// Lists the legal moves from one square.
fn list_from(position: &Position, masks: &CheckMasks, from: Square, moves: &mut ArrayVec<Move, 416>)
    requires masked { AreMasksOf position.now masks.now }
    requires own { IsOfColor position.now.turn (piece_at position.now.squares from.index) }
    requires before { ListsBelow position.now (512 * from.index) moves.old.items }
    ensures { ListsBelow position.now (512 * from.index + 512) moves.new.items }
{
    let all = destinations(position, &masks.info, from);
    let mut rest = all;
    while rest != 0 {
        let index = lowest(rest);
        list_between(position, masks, from, Square { index }, moves);
        rest = without(rest, index);
    }
}

/// Lists the legal moves from one square to another.
fn list_between(
    position: &Position,
    masks: &CheckMasks,
    from: Square,
    to: Square,
    moves: &mut ArrayVec<Move, 416>,
)
    requires masked { AreMasksOf position.now masks.now }
    requires destination { (m : Move) → m.from.index ≡ from.index → m.to.index ≡ to.index
        → IsDestination position.now m }
    requires before { ListsBelow position.now (512 * from.index + 8 * to.index) moves.old.items }
    ensures { ListsBelow position.now (512 * from.index + 8 * to.index + 8) moves.new.items }
{
    if is_promoting(position, from, to) {
        return list_promotions(position, masks, from, to, moves);
    }
    let m = Move {
        from,
        to,
        promotion: None,
    };
    list_move(position, masks, m, moves);
}

/// Is it a pawn that goes from one square to another, and on to its last rank?
fn is_promoting(position: &Position, from: Square, to: Square) -> bool
    ensures { IsTrue result ↔ IsPromoting position.now from.index to.index }
{
    to.rank() == position.turn.last_rank()
        && is_piece(position.turn, Role::Pawn, position.piece_at(from))
}

/// Lists the legal promotions from one square to another.
fn list_promotions(
    position: &Position,
    masks: &CheckMasks,
    from: Square,
    to: Square,
    moves: &mut ArrayVec<Move, 416>,
)
    requires masked { AreMasksOf position.now masks.now }
    requires destination { (m : Move) → m.from.index ≡ from.index → m.to.index ≡ to.index
        → IsDestination position.now m }
    requires promoting { IsPromoting position.now from.index to.index }
    requires before { ListsBelow position.now
        (512 * from.index + 8 * to.index + 1) moves.old.items }
    ensures { ListsBelow position.now (512 * from.index + 8 * to.index + 5) moves.new.items }
{
    for promotion in PROMOTIONS {
        let m = Move {
            from,
            to,
            promotion,
        };
        list_move(position, masks, m, moves);
    }
}

/// Lists the pseudo-legal move, if it is legal.
fn list_move(position: &Position, masks: &CheckMasks, m: Move, moves: &mut ArrayVec<Move, 416>)
    requires masked { AreMasksOf position.now masks.now }
    requires pseudo_legal { PseudoLegal position.now m }
    requires before { ListsBelow position.now (place_of m) moves.old.items }
    ensures { ListsBelow position.now (place_of m + 1) moves.new.items }
{
    if masks.is_legal(position, m) {
        moves.push(m);
    }
}
