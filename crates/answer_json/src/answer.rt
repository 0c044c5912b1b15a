//! The body that answers a query.
ghost use Rattle.std.specs.Prelude.{◌≡◌, ◌++◌, IfOk, OnOk, map};
ghost use Rattle.std.specs.Option.{option_copied};
ghost use Rattle.explorer_model.specs.Answer.{answer_body, named_body};
ghost use Rattle.answer_json.specs.Lists.{history_text, lists_text};
ghost use Rattle.answer_json.specs.Plain.{IsPlainFound};

use crate::game::games_value;
use crate::line::{push_months, push_moves};
use crate::opening::{lend, push_opening};
use crate::pieces::{push_count, push_value};
use explorer_model::answer::{Found, MonthLine};
use explorer_model::list::Items;
use explorer_model::opening::{Naming, Opening};
use std::alloc::{AllocError, Global};

/// The room that a body begins with: that of twelve moves with openings and eight games.
pub const ROOM: usize = 8192;

/// The body that answers a query where no opening is known: compact JSON without a line end.
pub fn body(alloc: Global, found: &Found) -> Result<Vec<u8>, AllocError>
    requires { IsPlainFound found.now }
    ensures { IfOk result (λ bytes. bytes.items ≡ answer_body found.now) }
{
    // no move is reached by these openings
    lent_body(alloc, found, None, &[])
}

/// The body that answers a query, with the openings that its naming has; a move that the naming does
/// not reach has none.
pub fn named_body(alloc: Global, found: &Found, naming: &Naming) -> Result<Vec<u8>, AllocError>
    requires { IsPlainFound found.now }
    ensures { IfOk result (λ bytes. bytes.items ≡ named_body found.now naming.now) }
{
    let openings = lend(alloc, naming.moves.as_slice())?;
    lent_body(alloc, found, naming.whole.as_ref(), openings.as_slice())
}

/// The same, with openings that are lent: that of the whole, and those of the moves. It is written
/// member by member.
pub fn lent_body(
    alloc: Global,
    found: &Found,
    whole: Option<&Opening>,
    openings: &[Option<&Opening>],
) -> Result<Vec<u8>, AllocError>
    requires { IsPlainFound found.now }
    ensures { IfOk result (λ bytes. bytes.items ≡ named_body found.now (record {
      whole = option_copied whole.entry;
      moves = map option_copied openings.now;
    })) }
{
    let totals = &found.totals;
    let mut body = Vec::with_capacity(alloc, ROOM)?;
    push_count(&mut body, b"{\"black\":", totals.black)?;
    push_count(&mut body, b",\"draws\":", totals.draws)?;
    push_history(alloc, &mut body, found.history.as_ref())?;
    push_lists(alloc, &mut body, found, whole, openings)?;
    push_count(&mut body, b",\"white\":", totals.white)?;
    body.push(b'}')?;
    Ok(body)
}

/// Writes the member with the months, where they are asked for.
fn push_history(
    alloc: Global,
    body: &mut Vec<u8>,
    history: Option<&Items<MonthLine>>,
) -> Result<(), AllocError>
    ensures { OnOk result (body.new.items
        ≡ body.old.items ++ history_text (option_copied history.entry)) }
{
    let Some(months) = history else {
        return Ok(());
    };
    body.extend_from_slice(b",\"history\":")?;
    push_months(alloc, body, months.as_slice())
}

/// Writes the members behind the months, up to the last one.
fn push_lists(
    alloc: Global,
    body: &mut Vec<u8>,
    found: &Found,
    whole: Option<&Opening>,
    openings: &[Option<&Opening>],
) -> Result<(), AllocError>
    requires { IsPlainFound found.now }
    ensures { OnOk result (body.new.items ≡ body.old.items ++ lists_text found.now (record {
      whole = option_copied whole.entry;
      moves = map option_copied openings.now;
    })) }
{
    body.extend_from_slice(b",\"moves\":")?;
    push_moves(alloc, body, found.moves.as_slice(), openings)?;
    push_opening(alloc, body, whole)?;
    let recent = games_value(alloc, found.recent.as_slice())?;
    push_value(alloc, body, b",\"recentGames\":", &recent)?;
    let top = games_value(alloc, found.top.as_slice())?;
    push_value(alloc, body, b",\"topGames\":", &top)?;
    Ok(())
}
