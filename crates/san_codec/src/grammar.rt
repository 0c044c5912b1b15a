//! The grammar of SAN, read from the right end of a text.
ghost use Rattle.std.specs.Prelude.{◌≡◌, is_some, reverse};
ghost use Rattle.explorer_model.specs.Letters.{role_of, promotions, lettered, file_named, rank_named, square_named};
ghost use Rattle.explorer_model.specs.San.{unmarked, optional, byte_is, promoted, moved, from_start, to_target, named_move, is_o, castling, form_of, san_form};

use explorer_model::chess::{Role, Side};
use explorer_model::letters::{file_named, rank_named};
use explorer_model::notation::{NamedMove, SanForm};

/// What `text` names, where it is in the grammar.
pub fn parse(text: &[u8]) -> Option<SanForm>
    ensures { result ≡ san_form text.now }
{
    let text = without_marks(text);
    match castling(text) {
        Some(side) => Some(SanForm::Castling(side)),
        None => Some(SanForm::Named(named_move(text)?)),
    }
}

/// The text before its check marks.
fn without_marks(text: &[u8]) -> &[u8]
    ensures { reverse result.now ≡ unmarked (reverse text.now) }
{
    let mut rest = text;
    while let Some((b'+' | b'#', front)) = rest.split_last() {
        rest = front;
    }
    rest
}

fn castling(text: &[u8]) -> Option<Side>
    ensures { result ≡ castling (reverse text.now) }
{
    match *text {
        [a, b, c] if is_o(a) && b == b'-' && is_o(c) => Some(Side::Short),
        [a, b, c, d, e] if is_o(a) && b == b'-' && is_o(c) && d == b'-' && is_o(e) => {
            Some(Side::Long)
        }
        _ => None,
    }
}

fn is_o(byte: u8) -> bool
    ensures { result ≡ is_o byte }
{
    matches!(byte, b'O' | b'0')
}

fn named_move(text: &[u8]) -> Option<NamedMove>
    ensures { result ≡ named_move (reverse text.now) }
{
    let (promotion, text) = split_promotion(text);
    to_target(text, promotion)
}

fn split_promotion(text: &[u8]) -> (Option<Role>, &[u8])
    ensures part { result.0 ≡ (promoted (reverse text.now)).0 }
    ensures rest { reverse result.1.now ≡ (promoted (reverse text.now)).1 }
{
    if let Some((byte, rest)) = text.split_last()
        && let Some(role) = promotion_named(*byte)
    {
        return (Some(role), before_equals(rest));
    }
    (None, text)
}

fn promotion_named(byte: u8) -> Option<Role>
    ensures { result ≡ role_of promotions byte }
{
    match byte {
        b'N' => Some(Role::Knight),
        b'B' => Some(Role::Bishop),
        b'R' => Some(Role::Rook),
        b'Q' => Some(Role::Queen),
        _ => None,
    }
}

fn before_equals(text: &[u8]) -> &[u8]
    ensures { reverse result.now ≡ (optional (byte_is 61) (reverse text.now)).1 }
{
    match text.split_last() {
        Some((b'=', rest)) => rest,
        _ => text,
    }
}

fn to_target(text: &[u8], promotion: Option<Role>) -> Option<NamedMove>
    ensures { result ≡ to_target promotion (reverse text.now) }
{
    let (rank, text) = text.split_last()?;
    let (file, text) = text.split_last()?;
    from_start(text, square_named(*file, *rank)?, promotion)
}

fn from_start(text: &[u8], target: u8, promotion: Option<Role>) -> Option<NamedMove>
    ensures { result ≡ from_start promotion target (reverse text.now) }
{
    let (captures, text) = split_capture(text);
    let (rank, text) = split_rank(text);
    let (file, text) = split_file(text);
    Some(NamedMove {
        role: moved_role(text)?,
        file,
        rank,
        captures,
        target,
        promotion,
    })
}

fn split_capture(text: &[u8]) -> (bool, &[u8])
    ensures part { result.0 ≡ is_some (optional (byte_is 120) (reverse text.now)).0 }
    ensures rest { reverse result.1.now ≡ (optional (byte_is 120) (reverse text.now)).1 }
{
    match text.split_last() {
        Some((b'x', rest)) => (true, rest),
        _ => (false, text),
    }
}

fn split_rank(text: &[u8]) -> (Option<u8>, &[u8])
    ensures part { result.0 ≡ (optional rank_named (reverse text.now)).0 }
    ensures rest { reverse result.1.now ≡ (optional rank_named (reverse text.now)).1 }
{
    if let Some((byte, rest)) = text.split_last()
        && let Some(rank) = rank_named(*byte)
    {
        return (Some(rank), rest);
    }
    (None, text)
}

fn split_file(text: &[u8]) -> (Option<u8>, &[u8])
    ensures part { result.0 ≡ (optional file_named (reverse text.now)).0 }
    ensures rest { reverse result.1.now ≡ (optional file_named (reverse text.now)).1 }
{
    if let Some((byte, rest)) = text.split_last()
        && let Some(file) = file_named(*byte)
    {
        return (Some(file), rest);
    }
    (None, text)
}

/// The piece of a move whose text before the file is `text`.
fn moved_role(text: &[u8]) -> Option<Role>
    ensures { result ≡ moved (reverse text.now) }
{
    match text.split_last() {
        None => Some(Role::Pawn),
        Some((byte, rest)) => {
            if rest.is_empty() {
                role_named(*byte)
            } else {
                None
            }
        }
    }
}

fn role_named(byte: u8) -> Option<Role>
    ensures { result ≡ role_of lettered byte }
{
    match byte {
        b'K' => Some(Role::King),
        _ => promotion_named(byte),
    }
}

fn square_named(file: u8, rank: u8) -> Option<u8>
    ensures { result ≡ square_named file rank }
{
    Some(8 * rank_named(rank)? + file_named(file)?)
}
