//! Writing a move in its one form.
ghost use Rattle.std.specs.Prelude.{◌≡◌, ◌≢◌, ◌↔◌, ◌+◌, ◌<◌, ◌≤◌, ◌++◌, [], ◌∷◌, ℕ, List, IsTrue, AllPairs, Contains, None, length, true, false};
ghost use Rattle.explorer_model.specs.declared.chess.Move.{Move as AMove};
ghost use Rattle.explorer_model.specs.declared.chess.Role.TheVariants.{Pawn};
ghost use Rattle.explorer_model.specs.Chess.{IsValid, Legal, is_castling, castling_side, after as after_move};
ghost use Rattle.explorer_model.specs.San.{captures, IsRole, MovesLike, Rivals, RivalsOnFile, RivalsOnRank, PieceStart, StartOf, IsMarked, role_text, start_text, capture_text, promotion_text, castling_text, mark_text, named_text, MoveText, SanText};
ghost use Rattle.explorer_model.specs.Letters.{square_text, file_letter, rank_digit};

use crate::reader::captures;
use arrayvec::ArrayVec;
use explorer_model::chess::{Move, Piece, Position, Role, Side};
use explorer_model::letters::letter_of;
use explorer_model::notation::{CheckMark, Start};
use explorer_model::square::{file_of, rank_of};

/// The written form of `step`. `after` tells how the move leaves the other side.
pub fn write(position: &Position, legal: &[Move], step: Move, after: CheckMark) -> ArrayVec<u8, 8>
    requires valid { IsValid position.now }
    requires each { (m : AMove) → Contains legal.now m ↔ Legal position.now m }
    requires once { AllPairs (λ a b. a ≢ b) legal.now }
    requires listed { Contains legal.now step }
    requires mark { IsMarked (after_move position.now step) after }
    ensures { SanText position.now step result.items }
{
    let mut text = move_text(position, legal, step);
    push_mark(&mut text, after);
    text
}

fn move_text(position: &Position, legal: &[Move], m: Move) -> ArrayVec<u8, 8>
    requires each { (m : AMove) → Contains legal.now m ↔ Legal position.now m }
    requires listed { Contains legal.now m }
    ensures text { MoveText position.now m result.items }
    ensures room { length result.items ≤ 7 }
{
    if position.is_castling(m) {
        return castling_text(m.castling_side());
    }
    let Some(piece) = position.piece_at(m.from) else {
        unreachable!();
    };
    let start = start_of(position, legal, m, piece.role);
    named_text(position, m, piece.role, start)
}

fn castling_text(side: Side) -> ArrayVec<u8, 8>
    ensures text { result.items ≡ castling_text side }
{
    let mut text = ArrayVec::new();
    text.push(b'O');
    text.push(b'-');
    text.push(b'O');
    if side == Side::Long {
        text.push(b'-');
        text.push(b'O');
    }
    text
}

fn start_of(position: &Position, legal: &[Move], m: Move, role: Role) -> Start
    requires { (m : AMove) → Contains legal.now m ↔ Legal position.now m }
    ensures { StartOf position.now m role result }
{
    match role {
        Role::Pawn => {
            if captures(position, m) {
                Start::File
            } else {
                Start::Unnamed
            }
        }
        _ => piece_start(position, legal, m),
    }
}

/// What is written of the first square of a piece (PGN 8.2.3.4).
fn piece_start(position: &Position, legal: &[Move], m: Move) -> Start
    requires { (m : AMove) → Contains legal.now m ↔ Legal position.now m }
    ensures { PieceStart position.now m result }
{
    if !has_rival(position, legal, m) {
        return Start::Unnamed;
    }
    if !has_rival_on_file(position, legal, m) {
        return Start::File;
    }
    if !has_rival_on_rank(position, legal, m) {
        return Start::Rank;
    }
    Start::Square
}

fn has_rival(position: &Position, legal: &[Move], m: Move) -> bool
    requires { (m : AMove) → Contains legal.now m ↔ Legal position.now m }
    ensures { IsTrue result ↔ ((o : AMove) × Rivals position.now m o) }
{
    for other in legal {
        if moves_like(position, m, *other) {
            return true;
        }
    }
    false
}

/// Does the same kind of piece go to the same target from another square?
fn moves_like(position: &Position, m: Move, other: Move) -> bool
    ensures { IsTrue result ↔ MovesLike position.now m other }
{
    other.from.index != m.from.index
        && position.piece_at(other.from) == position.piece_at(m.from)
        && other.to.index == m.to.index
}

fn has_rival_on_file(position: &Position, legal: &[Move], m: Move) -> bool
    requires { (m : AMove) → Contains legal.now m ↔ Legal position.now m }
    ensures { IsTrue result ↔ ((o : AMove) × RivalsOnFile position.now m o) }
{
    for other in legal {
        if moves_like(position, m, *other) && other.from.file() == m.from.file() {
            return true;
        }
    }
    false
}

fn has_rival_on_rank(position: &Position, legal: &[Move], m: Move) -> bool
    requires { (m : AMove) → Contains legal.now m ↔ Legal position.now m }
    ensures { IsTrue result ↔ ((o : AMove) × RivalsOnRank position.now m o) }
{
    for other in legal {
        if moves_like(position, m, *other) && other.from.rank() == m.from.rank() {
            return true;
        }
    }
    false
}

/// A move that is not castling, whose piece is `role` and whose first square is named by `start`.
fn named_text(position: &Position, m: Move, role: Role, start: Start) -> ArrayVec<u8, 8>
    requires { length (named_text position.now m role start) ≤ 8 }
    ensures { result.items ≡ named_text position.now m role start }
{
    let mut text = ArrayVec::new();
    push_role(&mut text, role);
    push_start(&mut text, start, m.from.index);
    push_capture(&mut text, captures(position, m));
    push_square(&mut text, m.to.index);
    push_promotion(&mut text, m.promotion);
    text
}

fn push_role(text: &mut ArrayVec<u8, 8>, role: Role)
    requires { length text.old.items + length (role_text role) ≤ 8 }
    ensures { text.new.items ≡ text.old.items ++ role_text role }
{
    match role {
        Role::Pawn => {}
        _ => text.push(letter_of(role)),
    }
}

fn push_start(text: &mut ArrayVec<u8, 8>, start: Start, square: u8)
    requires room { length text.old.items + length (start_text start square) ≤ 8 }
    requires on_board { square < 64 }
    ensures { text.new.items ≡ text.old.items ++ start_text start square }
{
    match start {
        Start::Unnamed => {}
        Start::File => push_file(text, square),
        Start::Rank => push_rank(text, square),
        Start::Square => push_square(text, square),
    }
}

fn push_file(text: &mut ArrayVec<u8, 8>, square: u8)
    requires { length text.old.items + 1 ≤ 8 }
    ensures { text.new.items ≡ text.old.items ++ (file_letter square ∷ []) }
{
    text.push(b'a' + file_of(square));
}

fn push_rank(text: &mut ArrayVec<u8, 8>, square: u8)
    requires room { length text.old.items + 1 ≤ 8 }
    requires on_board { square < 64 }
    ensures { text.new.items ≡ text.old.items ++ (rank_digit square ∷ []) }
{
    text.push(b'1' + rank_of(square));
}

fn push_square(text: &mut ArrayVec<u8, 8>, square: u8)
    requires room { length text.old.items + 2 ≤ 8 }
    requires on_board { square < 64 }
    ensures { text.new.items ≡ text.old.items ++ square_text square }
{
    push_file(text, square);
    push_rank(text, square);
}

fn push_capture(text: &mut ArrayVec<u8, 8>, captures: bool)
    requires { length text.old.items + length (capture_text captures) ≤ 8 }
    ensures { text.new.items ≡ text.old.items ++ capture_text captures }
{
    if captures {
        text.push(b'x');
    }
}

fn push_promotion(text: &mut ArrayVec<u8, 8>, promotion: Option<Role>)
    requires { length text.old.items + length (promotion_text promotion) ≤ 8 }
    ensures { text.new.items ≡ text.old.items ++ promotion_text promotion }
{
    if let Some(role) = promotion {
        text.push(b'=');
        text.push(letter_of(role));
    }
}

fn push_mark(text: &mut ArrayVec<u8, 8>, mark: CheckMark)
    requires { length text.old.items + length (mark_text mark) ≤ 8 }
    ensures { text.new.items ≡ text.old.items ++ mark_text mark }
{
    match mark {
        CheckMark::Quiet => {}
        CheckMark::Check => text.push(b'+'),
        CheckMark::Mate => text.push(b'#'),
    }
}
