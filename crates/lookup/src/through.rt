//! Answers by rows that are read back from a scratch file.
ghost use Rattle.std.specs.Prelude.{◌≡◌, ℕ, ◌+◌, ◌≤◌, ◌<◌, ◌^◌, List, length, IfOk, MatchResult};
ghost use Rattle.std.specs.List.{All, AllZip, sum_by};
ghost use Rattle.explorer_model.specs.Chess.{IsValid};
ghost use Rattle.explorer_model.specs.Finds.{IsFound};
ghost use Rattle.explorer_model.specs.Tidy.{IsTidyKey};
ghost use Rattle.lookup.specs.Reading.{most_steps, AreOfKey, AreRead};
ghost use Rattle.lookup.specs.Sound.{IsSoundAnswer};
ghost use Rattle.lookup.specs.Through.{IsFoundThrough, IsNotFoundThrough};
ghost use Rattle.segment_blocks.specs.Segment.{CountedSpan};
ghost use Rattle.spill_blobs.specs.Marks.{marks};
ghost use Rattle.spill_blobs.specs.Sets.{journal_of, set_bytes, IsSet};

use crate::answer::{board_and_key, found_in};
use crate::laws::parts_recount;
use crate::part_rows::{PartRows, hits_of, rows_of_parts};
use crate::set_games::SetGames;
use explorer_model::answer::Found;
use explorer_model::fault::Stop;
use explorer_model::laws::classes_of_games_are_sound;
use explorer_model::query::Query;
use legal_moves::board::Board;
use outside::Port;
use segment_blocks::Steps;
use spill_blobs::{PortFault, SpillSet};
use std::alloc::{AllocError, Global};
use std::sync::ledger::Ledger;

/// What is found in the journal of the set, by rows that are read back through the port, where the
/// port tells its bytes and holds those of the set. Whatever is read, an answer's lines are legal
/// moves in SAN, and its games are some of the set. A step is a key of an index that is compared,
/// or a row that is read.
pub fn look_through<P: Port, L: Ledger>(
    alloc: Global,
    set: &SpillSet,
    query: &Query,
    port: &mut P,
    steps: &mut Steps<L>,
) -> Result<Found, Stop<PortFault>>
    requires valid { IsValid query.now.at }
    requires top { query.now.top ≤ 4 }
    requires recent { query.now.recent ≤ 4 }
    requires size { length (set_bytes set.now) ≤ (P.port port.old).size }
    ensures through { MatchResult result
        (IsFoundThrough query.now set.now (P.port port.old) (P.port port.new) steps.old steps.new)
        (IsNotFoundThrough query.now set.now (P.port port.old) (P.port port.new)) }
    ensures most { (key : List ℕ) (digits : CountedSpan → ℕ) → IsTidyKey query.now.at key
        → All (λ segment. length (marks segment.rows) < 2 ^ digits segment) set.now
        → steps.new ≤ steps.old + sum_by (most_steps digits) set.now }
{
    let (board, _key) = board_and_key(query);
    let parts = match rows_of_parts(alloc, set, &query.at, port, steps) {
        Ok(parts) => parts,
        Err(stop) => return Err(stop),
    };
    match found_through(alloc, &board, set, query, parts.as_slice()) {
        Ok(found) => Ok(found),
        Err(AllocError) => Err(Stop::OutOfMemory),
    }
}

/// What is found in the journal of the set, of the rows that were read of each part.
fn found_through(
    alloc: Global,
    board: &Board,
    set: &SpillSet,
    query: &Query,
    parts: &[PartRows],
) -> Result<Found, AllocError>
    requires board { board.now ≡ query.now.at }
    requires valid { IsValid query.now.at }
    requires top { query.now.top ≤ 4 }
    requires recent { query.now.recent ≤ 4 }
    requires set { IsSet set.now }
    requires parts { AreRead query.now.at 0 set.now parts.now }
    ensures found { IfOk result (λ found. (key : List ℕ) → IsTidyKey query.now.at key
        → AllZip (AreOfKey key) set.now parts.now
        → IsFound (journal_of set.now) query.now found) }
    ensures sound { IfOk result (IsSoundAnswer query.now.at) }
{
    // laws: what is made of rows is what is found; what tags say of games is sound
    parts_recount();
    classes_of_games_are_sound();
    let hits = hits_of(alloc, parts, &query.filter)?;
    found_in(alloc, board, &SetGames { set }, query, hits.as_slice())
}
