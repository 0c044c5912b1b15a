//! The games that are shown, by their numbers.
ghost use Rattle.std.specs.Prelude.{◌≡◌, ◌+◌, ◌==◌, map, filter_map, IfOk};
ghost use Rattle.std.specs.List.{list_any};
ghost use Rattle.row_sums.specs.Hits.{hit_as};
ghost use Rattle.row_sums.specs.Listing.{list_of, lists_number, next_where, listed_as, listed_where};

use crate::games::Games;
use crate::hits::Hit;
use best_lists::Entry;
use explorer_model::answer::Listed;
use explorer_model::archive::Classes;
use explorer_model::chess::Move;
use segment_blocks::HeldRow;
use std::alloc::{AllocError, Global};
use tally_rows::Row;

/// One of the two lists of a row.
#[derive(Clone, Copy, Debug)]
enum Listing {
    Top,
    Recent,
}

impl Listing {
    /// The entries of this list of the row.
    fn of(self, row: &Row) -> &[Entry]
        ensures { result.now ≡ list_of self row.now }
    {
        match self {
            Listing::Top => row.top.entries(),
            Listing::Recent => row.recent.entries(),
        }
    }
}

/// The games of entries of the `top` lists of the rows, in order.
pub fn listed_by_rating<G: Games>(
    alloc: Global,
    games: &G,
    hits: &[Hit],
    entries: &[Entry],
) -> Result<Vec<Listed>, AllocError>
    ensures { IfOk result (λ listed. listed.items
        ≡ filter_map (λ entry. listed_where (λ row. row.top)
        (G.classes games.now) (map hit_as hits.now) entry.number)
        entries.now) }
{
    listed_in(alloc, games, hits, Listing::Top, entries)
}

/// The games of entries of the `recent` lists of the rows, in order.
pub fn listed_by_month<G: Games>(
    alloc: Global,
    games: &G,
    hits: &[Hit],
    entries: &[Entry],
) -> Result<Vec<Listed>, AllocError>
    ensures { IfOk result (λ listed. listed.items
        ≡ filter_map (λ entry. listed_where (λ row. row.recent)
        (G.classes games.now) (map hit_as hits.now) entry.number)
        entries.now) }
{
    listed_in(alloc, games, hits, Listing::Recent, entries)
}

/// The games that are found by the numbers of the entries, in order.
fn listed_in<G: Games>(
    alloc: Global,
    games: &G,
    hits: &[Hit],
    list: Listing,
    entries: &[Entry],
) -> Result<Vec<Listed>, AllocError>
    ensures { IfOk result (λ listed. listed.items
        ≡ filter_map (λ entry. listed_where (list_of list)
        (G.classes games.now) (map hit_as hits.now) entry.number)
        entries.now) }
{
    let mut listed = Vec::with_capacity(alloc, entries.len())?;
    for entry in entries {
        if let Some(game) = game_of(games, hits, list, entry.number)? {
            listed.push(game)?;
        }
    }
    Ok(listed)
}

/// The game of a number.
fn game_of<G: Games>(
    games: &G,
    hits: &[Hit],
    list: Listing,
    number: u32,
) -> Result<Option<Listed>, AllocError>
    ensures { IfOk result (λ game. game
        ≡ listed_where (list_of list) (G.classes games.now)
        (map hit_as hits.now) number) }
{
    let Some(next) = next_in(hits, list, number) else {
        return Ok(None);
    };
    listed_game(games, next, number)
}

/// The game of a number with its next move.
pub fn listed_game<G: Games>(
    games: &G,
    next: Move,
    number: u32,
) -> Result<Option<Listed>, AllocError>
    ensures { IfOk result (λ listed. listed
        ≡ listed_as (G.classes games.now) next number) }
{
    let Some(classes) = games.classes_of(number as usize) else {
        return Ok(None);
    };
    Ok(Some(Listed {
        next,
        classes: copy_of(classes)?,
    }))
}

/// The same classes again.
fn copy_of(classes: &Classes) -> Result<Classes, AllocError>
    ensures { IfOk result (λ copy. copy ≡ classes.now) }
{
    classes.clone()
}

/// The move that follows in the game of a number, by the first row that lists it.
fn next_in(hits: &[Hit], list: Listing, number: u32) -> Option<Move>
    ensures { result ≡ next_where (list_of list) (map hit_as hits.now) number }
{
    for hit in hits {
        if lists(list, hit, number) {
            return hit.next();
        }
    }
    None
}

/// Whether the row lists the game of a number among all games.
#[tactic(auto, unfolding(tally_rows::specs::Row::row_of))]
fn lists(list: Listing, hit: &Hit, number: u32) -> bool
    ensures { result ≡ lists_number (list_of list) number (hit_as hit.now) }
{
    match &hit.row {
        HeldRow::Game(game) => {
            game.row_key.next.is_some()
                && u64::from(game.number) + u64::from(hit.first) == u64::from(number)
        }
        HeldRow::Whole(row) => has_number(list.of(row), hit.first, number),
    }
}

/// Whether the entries of a row list the game of a number, where the row's segment begins with game
/// `first`.
fn has_number(entries: &[Entry], first: u32, number: u32) -> bool
    ensures { result ≡ list_any (λ entry. entry.number + first == number) entries.now }
{
    entries.iter().any(|entry| u64::from(entry.number) + u64::from(first) == u64::from(number))
}
