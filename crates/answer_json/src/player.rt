//! The answers to queries for a player's games.
ghost use Rattle.std.specs.Prelude.{◌≡◌, IfOk, map};
ghost use Rattle.std.specs.Option.{option_copied};
ghost use Rattle.explorer_model.specs.Players.{player_body};
ghost use Rattle.answer_json.specs.Plain.{IsPlainPlayerFound};

use crate::answer::ROOM;
use crate::game::games_value;
use crate::line::push_moves;
use crate::opening::{lend, push_opening};
use crate::pieces::{push_count, push_value};
use explorer_model::opening::{Naming, Opening};
use explorer_model::player::PlayerFound;
use std::alloc::{AllocError, Global};

/// The body that answers a query for a player's games, with the openings that its naming has; a move
/// that the naming does not reach has none. It is compact JSON without a line end.
pub fn player_body(
    alloc: Global,
    found: &PlayerFound,
    naming: &Naming,
) -> Result<Vec<u8>, AllocError>
    requires { IsPlainPlayerFound found.now }
    ensures { IfOk result (λ bytes. bytes.items ≡ player_body found.now naming.now) }
{
    let openings = lend(alloc, naming.moves.as_slice())?;
    lent_player_body(alloc, found, naming.whole.as_ref(), openings.as_slice())
}

/// The same, with openings that are lent: that of the whole, and those of the moves. It is written
/// member by member.
pub fn lent_player_body(
    alloc: Global,
    found: &PlayerFound,
    whole: Option<&Opening>,
    openings: &[Option<&Opening>],
) -> Result<Vec<u8>, AllocError>
    requires { IsPlainPlayerFound found.now }
    ensures { IfOk result (λ bytes. bytes.items ≡ player_body found.now (record {
      whole = option_copied whole.entry;
      moves = map option_copied openings.now;
    })) }
{
    let totals = &found.totals;
    let mut body = Vec::with_capacity(alloc, ROOM)?;
    push_count(&mut body, b"{\"black\":", totals.black)?;
    push_count(&mut body, b",\"draws\":", totals.draws)?;
    body.extend_from_slice(b",\"moves\":")?;
    push_moves(alloc, &mut body, found.moves.as_slice(), openings)?;
    push_opening(alloc, &mut body, whole)?;
    let recent = games_value(alloc, found.recent.as_slice())?;
    push_value(alloc, &mut body, b",\"recentGames\":", &recent)?;
    push_count(&mut body, b",\"white\":", totals.white)?;
    body.push(b'}')?;
    Ok(body)
}
