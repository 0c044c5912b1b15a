//! Moves as UCI names them.
ghost use Rattle.std.specs.Prelude.{◌≡◌, ◌↔◌, IsTrue, IfOk};
ghost use Rattle.explorer_model.specs.Chess.{Legal};
ghost use Rattle.explorer_model.specs.Uci.{promotion_named, uci_form, IsOntoRook, EndsOn, Means, UciReads, uci_text};

use crate::letters::{push_square, small_letter, square_named};
use arrayvec::ArrayVec;
use explorer_model::chess::{Move, Position, Role, Side, is_piece, piece_at};
use explorer_model::notation::{UciFault, UciForm};
use legal_moves::board::Board;

/// The move in the notation of UCI; castling is the king's move of two squares, as `e1g1`.
pub fn write_uci(step: Move) -> ArrayVec<u8, 5>
    ensures { result.items ≡ uci_text step }
{
    let mut text = ArrayVec::new();
    push_square(&mut text, step.from.index);
    push_square(&mut text, step.to.index);
    if let Some(role) = step.promotion {
        text.push(small_letter(role));
    }
    text
}

/// The one legal move that `text` names. Castling may also be written as the king's move onto
/// its own rook, as `e1h1`.
pub fn read_uci(text: &[u8], board: &Board) -> Result<Move, UciFault>
    ensures reads { UciReads board.now text.now result }
    ensures legal { IfOk result (λ m. Legal board.now m) }
{
    let Some(form) = uci_form(text) else {
        return Err(UciFault::NotUci);
    };
    let position = board.position();
    let legal = board.legal();
    for m in legal.as_slice() {
        if means(&position, form, *m) {
            return Ok(*m);
        }
    }
    Err(UciFault::NotLegal)
}

/// What `text` names, where it is in the form of UCI.
fn uci_form(text: &[u8]) -> Option<UciForm>
    ensures { result ≡ uci_form text.now }
{
    let [from_file, from_rank, to_file, to_rank, promotion @ ..] = text else {
        return None;
    };
    Some(UciForm {
        from: square_named(*from_file, *from_rank)?,
        to: square_named(*to_file, *to_rank)?,
        promotion: promotion_named(promotion)?,
    })
}

fn promotion_named(text: &[u8]) -> Option<Option<Role>>
    ensures { result ≡ promotion_named text.now }
{
    match *text {
        [] => Some(None),
        [b'n'] => Some(Some(Role::Knight)),
        [b'b'] => Some(Some(Role::Bishop)),
        [b'r'] => Some(Some(Role::Rook)),
        [b'q'] => Some(Some(Role::Queen)),
        _ => None,
    }
}

fn means(position: &Position, form: UciForm, m: Move) -> bool
    ensures { IsTrue result ↔ Means position.now form m }
{
    m.from.index == form.from
        && m.to.index == ends_on(position, form)
        && m.promotion == form.promotion
}

/// The square that the form means its move to end on.
fn ends_on(position: &Position, form: UciForm) -> u8
    ensures { EndsOn position.now form result }
{
    if is_onto_rook(position, Side::Short, form) {
        return position.turn.king_target(Side::Short);
    }
    if is_onto_rook(position, Side::Long, form) {
        return position.turn.king_target(Side::Long);
    }
    form.to
}

/// Does the king go onto its own rook, with the right to castle on this side?
fn is_onto_rook(position: &Position, side: Side, form: UciForm) -> bool
    ensures { IsTrue result ↔ IsOntoRook position.now side form }
{
    let color = position.turn;
    position.rights.has(color, side)
        && form.from == color.king_home()
        && is_piece(color, Role::King, piece_at(&position.squares, form.from))
        && form.to == color.rook_home(side)
        && is_piece(color, Role::Rook, piece_at(&position.squares, form.to))
}
