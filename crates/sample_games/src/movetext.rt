//! Moves that are drawn one after another, and written as they are played.
ghost use Rattle.std.specs.Prelude.{◌≡◌, ◌↔◌, ◌+◌, ◌*◌, ◌≤◌, ◌<◌, ◌++◌, OnOk, IfOk, All, length};
ghost use Rattle.std.specs.Cmp.Lexicographic.{slice_cmp};
ghost use Rattle.std.specs.Ordering.{nat_cmp};
ghost use Rattle.explorer_model.specs.declared.chess.Position.{Position as APosition};
ghost use Rattle.explorer_model.specs.Chess.{Legal, start, after};
ghost use Rattle.explorer_model.specs.San.{SanText, IsMarked};
ghost use Rattle.explorer_model.specs.Uci.{uci_text};
ghost use Rattle.sample_games.specs.Samples.{InUciOrder, number_text};
ghost use Rattle.sample_games.specs.Movetexts.{IsMovetext};

use crate::draws::draw;
use arrayvec::ArrayVec;
use explorer_model::chess::Move;
use explorer_model::notation::CheckMark;
use fen_uci::write_uci;
use itoa::Buffer;
use legal_moves::board::Board;
use rand_pcg::Lcg64Xsh32;
use san_codec::write;
use std::alloc::{AllocError, Global};

/// Draws at most `plies` moves from the starting position; each is written in SAN, with a space
/// behind it.
pub fn draw_movetext(
    alloc: Global,
    plies: u32,
    draws: &mut Lcg64Xsh32,
) -> Result<Vec<u8>, AllocError>
    requires { plies ≤ 60 }
    ensures drawn { IfOk result (λ text.
        IsMovetext plies start 0 draws.old text.items draws.new) }
    ensures short { IfOk result (λ text. length text.items ≤ 780) }
{
    let mut text = Vec::with_capacity(alloc, 512)?;
    let mut board = Board::start();
    for ply in 0..plies {
        let legal = uci_ordered(&board);
        if legal.is_empty() {
            return Ok(text);
        }
        let step = legal[draw(draws, legal.len() as u32) as usize];
        let next = board.play(step);
        push_number(&mut text, ply)?;
        let san = write(&board.position(), legal.as_slice(), step, check_mark(&next));
        text.extend_from_slice(san.as_slice())?;
        text.push(b' ')?;
        board = next;
    }
    Ok(text)
}

/// The legal moves in the ascending order of their UCI texts.
fn uci_ordered(board: &Board) -> ArrayVec<Move, 416>
    ensures ordered { InUciOrder board.now result.items }
    ensures sound { All (λ m. Legal board.now m) result.items }
    ensures few { length result.items ≤ 415 }
{
    let mut moves = board.legal();
    moves.sort_unstable_by(
        |a, b|
            ensures { result ≡ slice_cmp nat_cmp (uci_text a.now) (uci_text b.now) }
        { write_uci(*a).cmp(&write_uci(*b)) },
    );
    moves
}

/// Appends the number that stands before a move of White's; the first ply is 0.
fn push_number(text: &mut Vec<u8>, ply: u32) -> Result<(), AllocError>
    ensures { OnOk result (text.new.items ≡ text.old.items ++ number_text ply) }
{
    if ply % 2 == 0 {
        let mut number = Buffer::new();
        text.extend_from_slice(number.format(ply / 2 + 1).as_bytes())?;
        text.extend_from_slice(b". ")?;
    }
    Ok(())
}

/// How a move leaves the side that is then to move.
fn check_mark(board: &Board) -> CheckMark
    ensures { IsMarked board.now result }
{
    if !board.checked() {
        return CheckMark::Quiet;
    }
    if board.has_move() {
        CheckMark::Check
    } else {
        CheckMark::Mate
    }
}
