//! The query of a query string.
ghost use Rattle.std.specs.Prelude.{◌≡◌, ◌≤◌, map, IfOk};
ghost use Rattle.explorer_model.specs.Chess.{IsValid};
ghost use Rattle.explorer_model.specs.Query.{query_from, QueryIn};
ghost use Rattle.query_params.specs.Given.{texts};
ghost use Rattle.query_params.specs.Lines.{line_as, query_by, GivesQuery};

use crate::pairs::{Pair, pairs_of};
use crate::parameters::{bound, groups, history, most_games, moves, speeds, variant};
use crate::position::{Line, line_of, root_of};
use explorer_model::fault::Stop;
use explorer_model::query::{BadParameter, Filter, Parameter, Query};
use legal_moves::board::Board;
use std::alloc::{AllocError, Global};

/// The query that a query string asks, or the first parameter in the order of `Parameter` that is
/// malformed or given twice. Names that are no parameter are passed over, and an empty value stands
/// for the default.
pub fn query(alloc: Global, text: &[u8]) -> Result<Query, Stop<BadParameter>>
    ensures reads { GivesQuery text.now result }
    ensures root { IfOk result (λ query. IsValid query.root) }
    ensures at { IfOk result (λ query. IsValid query.at) }
    ensures top { IfOk result (λ query. query.top ≤ 4) }
    ensures recent { IfOk result (λ query. query.recent ≤ 4) }
{
    let pairs = pairs_of(alloc, text)?;
    match query_in(alloc, pairs.as_slice())? {
        Ok(query) => Ok(query),
        Err(fault) => Err(Stop::Fault(fault)),
    }
}

fn query_in(alloc: Global, pairs: &[Pair]) -> Result<Result<Query, BadParameter>, AllocError>
    ensures reads { IfOk result (λ query. QueryIn (map texts pairs.now) query) }
    ensures root { IfOk result (λ query. IfOk query (λ query. IsValid query.root)) }
    ensures at { IfOk result (λ query. IfOk query (λ query. IsValid query.at)) }
    ensures top { IfOk result (λ query. IfOk query (λ query. query.top ≤ 4)) }
    ensures recent { IfOk result (λ query. IfOk query (λ query. query.recent ≤ 4)) }
{
    let root = root_of(pairs);
    let line = line_of(alloc, &root, pairs)?;
    Ok(judge_parameters(pairs, root, line))
}

/// The parameters in their order.
fn judge_parameters(
    pairs: &[Pair],
    root: Result<Board, BadParameter>,
    line: Result<Line, BadParameter>,
) -> Result<Query, BadParameter>
    ensures reads { result ≡ query_by (map texts pairs.now) root (line_as line) }
    ensures root { IfOk result (λ query. IsValid query.root) }
    ensures at { IfOk result (λ query. IsValid query.at) }
    ensures top { IfOk result (λ query. query.top ≤ 4) }
    ensures recent { IfOk result (λ query. query.recent ≤ 4) }
{
    variant(pairs)?;
    let root = root?;
    let line = line?;
    query_from(pairs, &root, line)
}

/// The parameters behind the position.
#[tactic(auto, unfolding(explorer_model::specs::Query::query_from))]
fn query_from(pairs: &[Pair], root: &Board, line: Line) -> Result<Query, BadParameter>
    ensures reads { result
        ≡ query_from (map texts pairs.now) root.now
        (record { moves = line.moves; at = line.board }) }
    ensures root { IfOk result (λ query. IsValid query.root) }
    ensures at { IfOk result (λ query. IsValid query.at) }
    ensures top { IfOk result (λ query. query.top ≤ 4) }
    ensures recent { IfOk result (λ query. query.recent ≤ 4) }
{
    let speeds = speeds(pairs)?;
    let groups = groups(pairs)?;
    let since = bound(pairs, Parameter::Since)?;
    let until = bound(pairs, Parameter::Until)?;
    let moves = moves(pairs)?;
    let top = most_games(pairs, Parameter::TopGames)?;
    let recent = most_games(pairs, Parameter::RecentGames)?;
    let history = history(pairs)?;
    Ok(Query {
        root: root.position(),
        plays: line.moves,
        at: line.board.position(),
        filter: Filter {
            speeds,
            groups,
            since,
            until,
        },
        moves,
        top,
        recent,
        history,
    })
}
