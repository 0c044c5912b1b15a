//! Reading a move's written form.
ghost use Rattle.std.specs.Prelude.{◌≡◌, ◌≢◌, ◌↔◌, ℕ, IsTrue, AllPairs, Contains};
ghost use Rattle.explorer_model.specs.declared.chess.Move.{Move as AMove};
ghost use Rattle.explorer_model.specs.Chess.{IsValid, Legal};
ghost use Rattle.explorer_model.specs.San.{captures, IsRole, IsAsNamed, StartsAs, EndsAs, Agrees, SanReads};

use crate::grammar::parse;
use explorer_model::chess::{Move, Piece, Position, Role};
use explorer_model::fault::SanFault;
use explorer_model::notation::{NamedMove, SanForm};

/// The one legal move that `text` names. Any run of `+` and `#` may follow the move; what it says
/// is not asked.
pub fn read(text: &[u8], position: &Position, legal: &[Move]) -> Result<Move, SanFault>
    requires valid { IsValid position.now }
    requires each { (m : AMove) → Contains legal.now m ↔ Legal position.now m }
    requires once { AllPairs (λ a b. a ≢ b) legal.now }
    ensures { SanReads position.now text.now result }
{
    let Some(form) = parse(text) else {
        return Err(SanFault::NotSan);
    };
    let mut found = None;
    for m in legal {
        if agrees(position, form, *m) {
            if found.is_some() {
                return Err(SanFault::Ambiguous);
            }
            found = Some(*m);
        }
    }
    found.ok_or(SanFault::NoSuchMove)
}

/// Does the move take something, en passant included?
pub fn captures(position: &Position, m: Move) -> bool
    ensures { result ≡ captures position.now m }
{
    position.piece_at(m.to).is_some() || position.takes_en_passant(m)
}

fn agrees(position: &Position, form: SanForm, m: Move) -> bool
    ensures { IsTrue result ↔ Agrees position.now form m }
{
    match form {
        SanForm::Castling(side) => position.is_castling(m) && m.castling_side() == side,
        SanForm::Named(named) => {
            !position.is_castling(m) && starts_as(position, named, m) && ends_as(position, named, m)
        }
    }
}

fn starts_as(position: &Position, form: NamedMove, m: Move) -> bool
    ensures { IsTrue result ↔ StartsAs position.now form m }
{
    is_role(form.role, position.piece_at(m.from))
        && is_as_named(form.file, m.from.file())
        && is_as_named(form.rank, m.from.rank())
}

fn is_role(role: Role, occupant: Option<Piece>) -> bool
    ensures { IsTrue result ↔ IsRole role occupant }
{
    match occupant {
        Some(piece) => piece.role == role,
        None => false,
    }
}

fn is_as_named(named: Option<u8>, actual: u8) -> bool
    ensures { IsTrue result ↔ IsAsNamed named actual }
{
    match named {
        Some(named) => actual == named,
        None => true,
    }
}

fn ends_as(position: &Position, form: NamedMove, m: Move) -> bool
    ensures { IsTrue result ↔ EndsAs position.now form m }
{
    captures(position, m) == form.captures
        && m.to.index == form.target
        && m.promotion == form.promotion
}
