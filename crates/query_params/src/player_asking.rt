//! The query for a player's games.
ghost use Rattle.std.specs.Prelude.{◌≡◌, ◌≤◌, map, IfOk};
ghost use Rattle.explorer_model.specs.declared.player.PlayerParameter.TheVariants as players;
ghost use Rattle.explorer_model.specs.Chess.{IsValid};
ghost use Rattle.explorer_model.specs.Players.{demanded, player_named, player_query_by};
ghost use Rattle.query_params.specs.Given.{texts};
ghost use Rattle.query_params.specs.Lines.{line_as};
ghost use Rattle.query_params.specs.Players.{PlayerQueryIn, GivesPlayerQuery};

use crate::pairs::{Pair, pairs_of};
use crate::parameters::{bound, most_games, moves, speeds, variant};
use crate::player_parameters::{color, common, modes, player};
use crate::position::{Line, line_of, root_of};
use explorer_model::fault::Stop;
use explorer_model::player::{BadPlayerParameter, PlayerQuery};
use explorer_model::query::{BadParameter, Filter, Parameter, Query};
use explorer_model::text::Name;
use legal_moves::board::Board;
use std::alloc::{AllocError, Global};

/// The query for a player's games that a query string asks, or the first parameter in the order of
/// `PlayerParameter` that is malformed, missing or given twice: `player` and `color` have to be
/// given. Names that are no parameter of such a query are passed over, and an empty value of another
/// parameter stands for the default.
pub fn player_query(alloc: Global, text: &[u8]) -> Result<PlayerQuery, Stop<BadPlayerParameter>>
    ensures reads { GivesPlayerQuery text.now result }
    ensures root { IfOk result (λ asked. IsValid asked.query.root) }
    ensures at { IfOk result (λ asked. IsValid asked.query.at) }
    ensures recent { IfOk result (λ asked. asked.query.recent ≤ 4) }
{
    let pairs = pairs_of(alloc, text)?;
    match player_query_in(alloc, pairs.as_slice())? {
        Ok(query) => Ok(query),
        Err(fault) => Err(Stop::Fault(fault)),
    }
}

fn player_query_in(
    alloc: Global,
    pairs: &[Pair],
) -> Result<Result<PlayerQuery, BadPlayerParameter>, AllocError>
    ensures reads { IfOk result (λ query. PlayerQueryIn (map texts pairs.now) query) }
    ensures root { IfOk result (λ query. IfOk query (λ asked. IsValid asked.query.root)) }
    ensures at { IfOk result (λ query. IfOk query (λ asked. IsValid asked.query.at)) }
    ensures recent { IfOk result (λ query. IfOk query (λ asked. asked.query.recent ≤ 4)) }
{
    let player = player(alloc, pairs)?;
    let root = root_of(pairs);
    let line = line_of(alloc, &root, pairs)?;
    Ok(player_judged(pairs, player, root, line))
}

/// The parameters in their order.
#[tactic(auto, unfolding(explorer_model::specs::Players::player_query_by))]
fn player_judged(
    pairs: &[Pair],
    player: Result<Name, BadPlayerParameter>,
    root: Result<Board, BadParameter>,
    line: Result<Line, BadParameter>,
) -> Result<PlayerQuery, BadPlayerParameter>
    requires { player ≡ demanded player_named players.Player (map texts pairs.now) }
    ensures reads { result ≡ player_query_by (map texts pairs.now) root (line_as line) }
    ensures root { IfOk result (λ asked. IsValid asked.query.root) }
    ensures at { IfOk result (λ asked. IsValid asked.query.at) }
    ensures recent { IfOk result (λ asked. asked.query.recent ≤ 4) }
{
    let player = player?;
    let color = color(pairs)?;
    common(variant(pairs))?;
    let root = common(root)?;
    let line = common(line)?;
    let speeds = common(speeds(pairs))?;
    let modes = modes(pairs)?;
    let since = common(bound(pairs, Parameter::Since))?;
    let until = common(bound(pairs, Parameter::Until))?;
    let moves = common(moves(pairs))?;
    let recent = common(most_games(pairs, Parameter::RecentGames))?;
    Ok(PlayerQuery {
        player,
        color,
        modes,
        query: Query {
            root: root.position(),
            plays: line.moves,
            at: line.board.position(),
            filter: Filter {
                speeds,
                groups: [true; 9],
                since,
                until,
            },
            moves,
            top: 0,
            recent,
            history: false,
        },
    })
}
