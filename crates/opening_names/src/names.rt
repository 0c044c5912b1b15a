//! What an answer names, by openings of its own.
ghost use Rattle.std.specs.Prelude.{◌≡◌, Some, None, map, option_map, IfOk};
ghost use Rattle.std.specs.List.{AllByRecursion, last_or};
ghost use Rattle.std.specs.Option.{option_copied};
ghost use Rattle.explorer_model.specs.Chess.{IsValid, Legal};
ghost use Rattle.explorer_model.specs.Openings.{IsNaming, positions_on};
ghost use Rattle.explorer_model.specs.Visits.{AreLegalFrom};
ghost use Rattle.opening_names.specs.Lent.{naming_lent};

use crate::book::Book;
use crate::lent::{LentNaming, lend_names, lend_naming, lend_player_naming};
use crate::line::new_opening;
use explorer_model::answer::Found;
use explorer_model::chess::Move;
use explorer_model::list::Items;
use explorer_model::opening::{Naming, Opening};
use explorer_model::player::{PlayerFound, PlayerQuery};
use explorer_model::query::Query;
use std::alloc::{AllocError, Global};

/// What the answer to a query names: the way that the query goes, by the last position on it that has
/// an opening, and each move that is found, by the position behind it.
pub fn naming(
    alloc: Global,
    book: &Book,
    query: &Query,
    found: &Found,
) -> Result<Naming, AllocError>
    requires root { IsValid query.now.root }
    requires plays { AreLegalFrom query.now.root query.now.plays }
    requires at { last_or None (positions_on query.now.root query.now.plays) ≡ Some query.now.at }
    requires moves { AllByRecursion (λ line. Legal query.now.at line.next) found.now.moves }
    ensures { IfOk result
        (IsNaming book.now query.now (map (λ line. line.next) found.now.moves)) }
{
    let lent = lend_naming(alloc, book, query, found)?;
    naming_of(alloc, &lent)
}

/// The same of the answer to a query for a player's games.
pub fn player_naming(
    alloc: Global,
    book: &Book,
    asked: &PlayerQuery,
    found: &PlayerFound,
) -> Result<Naming, AllocError>
    requires root { IsValid asked.now.query.root }
    requires plays { AreLegalFrom asked.now.query.root asked.now.query.plays }
    requires at { last_or None (positions_on asked.now.query.root asked.now.query.plays)
        ≡ Some asked.now.query.at }
    requires moves { AllByRecursion (λ line. Legal asked.now.query.at line.next) found.now.moves }
    ensures { IfOk result
        (IsNaming book.now asked.now.query (map (λ line. line.next) found.now.moves)) }
{
    let lent = lend_player_naming(alloc, book, asked, found)?;
    naming_of(alloc, &lent)
}

/// The same of moves that are given by themselves.
pub fn name_moves(
    alloc: Global,
    book: &Book,
    query: &Query,
    played: &[Move],
) -> Result<Naming, AllocError>
    requires root { IsValid query.now.root }
    requires plays { AreLegalFrom query.now.root query.now.plays }
    requires at { last_or None (positions_on query.now.root query.now.plays) ≡ Some query.now.at }
    requires moves { AllByRecursion (λ m. Legal query.now.at m) played.now }
    ensures { IfOk result (IsNaming book.now query.now played.now) }
{
    let lent = lend_names(alloc, book, query, played)?;
    naming_of(alloc, &lent)
}

/// The naming, with copies of what is lent.
fn naming_of(alloc: Global, lent: &LentNaming<'_>) -> Result<Naming, AllocError>
    ensures { IfOk result (λ naming. naming ≡ naming_lent lent.now) }
{
    let whole = copy_of(alloc, lent.whole)?;
    let moves = copies_of(alloc, lent.moves.as_slice())?;
    Ok(Naming {
        whole,
        moves: Items::from_vec(moves),
    })
}

fn copies_of(
    alloc: Global,
    openings: &[Option<&Opening>],
) -> Result<Vec<Option<Opening>>, AllocError>
    ensures { IfOk result (λ copies. copies.items ≡ map option_copied openings.now) }
{
    let mut copies = Vec::with_capacity(alloc, openings.len())?;
    for opening in openings {
        copies.push(copy_of(alloc, *opening)?)?;
    }
    Ok(copies)
}

fn copy_of(alloc: Global, opening: Option<&Opening>) -> Result<Option<Opening>, AllocError>
    ensures { IfOk result (λ copy. copy ≡ option_map (λ opening. opening.now) opening.entry) }
{
    let Some(opening) = opening else {
        return Ok(None);
    };
    let copy = new_opening(alloc, opening.eco.as_str(), opening.name.as_str())?;
    Ok(Some(copy))
}
