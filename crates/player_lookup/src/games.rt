//! The games of a player, one after another.
ghost use Rattle.std.specs.Prelude.{◌≡◌, ◌+◌, ◌<◌, ◌≤◌, List, length, map, slice_get, IfOk};
ghost use Rattle.std.specs.Arc.{arc_value};
ghost use Rattle.std.specs.List.{AllByRecursion};
ghost use Rattle.explorer_model.specs.Cuts.{text_limit};
ghost use Rattle.explorer_model.specs.Visits.{GameAt, IsTextOf};
ghost use Rattle.player_lookup.specs.Kept.{row_of_single, rows_of_game, rows_of_numbers};
ghost use Rattle.player_lookup.specs.Seen.{AreSeen, HasGame, IsAsked};
ghost use Rattle.row_sums.specs.Hits.{hit_as};
ghost use Rattle.row_sums.specs.Listing.{classes_in};

use crate::asked::Asked;
use crate::segments::segment_of;
use crate::visit::visit_of;
use crate::wanted::{is_taken, single_of};
use explorer_model::archive::Game;
use explorer_model::fault::Stop;
use explorer_model::laws::{first_visit_is_determined, moves_of_games_are_legal};
use game_replay::laws::{game_is_determined, games_begin_validly};
use game_replay::replay;
use player_index::Entry;
use row_sums::Hit;
use segment_blocks::{HeldRow, Segment, Steps};
use std::alloc::{AllocError, Global};
use std::sync::Arc;
use std::sync::ledger::Ledger;
use tally_rows::Single;

/// A row for each game of the entries that the query takes and that comes to the position asked
/// for. A step is a text that is read.
pub fn rows_of_games<'a, L: Ledger>(
    alloc: Global,
    segments: &'a [Arc<Segment>],
    entries: &[Entry],
    asked: &Asked<'_>,
    steps: &mut Steps<L>,
) -> Result<Vec<Hit<'a>>, AllocError>
    requires asked { IsAsked asked.now }
    requires within { AllByRecursion
        (λ entry. entry.number < length (classes_in (map arc_value segments.now))) entries.now }
    ensures rows { IfOk result (λ hits. (games : List GameAt)
        → AreSeen (map arc_value segments.now) asked.now.query.now.query.at games
        → map hit_as hits.items ≡ rows_of_numbers asked.now.query.now asked.now.key games
        (map (λ entry. entry.number) entries.now)) }
    ensures cost { steps.new ≤ steps.old + length entries.now }
{
    let mut hits = Vec::new(alloc);
    for entry in entries {
        if let Some(game) = single_of_game(alloc, segments, entry.number, asked, steps)? {
            hits.push(Hit {
                row: HeldRow::Game(game),
                first: 0,
            })?;
        }
    }
    Ok(hits)
}

/// What the game of a number counts for, where the query takes it and it comes to the position
/// asked for. Its text is read only where the query takes it.
fn single_of_game<L: Ledger>(
    alloc: Global,
    segments: &[Arc<Segment>],
    number: u32,
    asked: &Asked<'_>,
    steps: &mut Steps<L>,
) -> Result<Option<Single>, AllocError>
    requires asked { IsAsked asked.now }
    requires within { number < length (classes_in (map arc_value segments.now)) }
    ensures row { IfOk result (λ single. (games : List GameAt)
        → AreSeen (map arc_value segments.now) asked.now.query.now.query.at games
        → row_of_single single ≡ rows_of_game asked.now.query.now asked.now.key number
        (slice_get games number)) }
    ensures cost { steps.new ≤ steps.old + 1 }
{
    // laws: a text has one game, which begins in a valid position, plays legal moves and has one
    // first visit
    game_is_determined();
    first_visit_is_determined();
    games_begin_validly();
    moves_of_games_are_legal();
    let (segment, place) = segment_of(segments, number);
    let classes = segment.classes(place);
    if !is_taken(asked.query, classes) {
        return Ok(None);
    }
    let game = game_of(alloc, segment.text(place, steps))?;
    match visit_of(&game.root, game.moves.as_slice(), asked.tidy) {
        Some(next) => Ok(Some(single_of(&asked.key, asked.query.color, number, classes, next))),
        None => Ok(None),
    }
}

/// The game of a text that has one.
fn game_of(alloc: Global, text: &[u8]) -> Result<Game, AllocError>
    requires short { length text.now ≤ text_limit }
    requires game { HasGame text.now }
    ensures { IfOk result (IsTextOf text.now) }
{
    // law: a text has one game, or one first fault
    game_is_determined();
    match replay(alloc, text) {
        Ok(game) => Ok(game),
        Err(Stop::OutOfMemory) => Err(AllocError),
        Err(Stop::Fault(_)) => unreachable!(),
    }
}
