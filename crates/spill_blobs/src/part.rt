//! The part of a segment in a scratch file.
ghost use Rattle.std.specs.Prelude.{◌≡◌, ℕ, ◌+◌, ◌-◌, ◌*◌, ◌≤◌, ◌<◌, ◌^◌, List, IfOk, IfSome, length};
ghost use Rattle.std.specs.List.{AllByRecursion};
ghost use Rattle.explorer_model.specs.Chess.{IsValid};
ghost use Rattle.explorer_model.specs.Tidy.{IsTidyKey};
ghost use Rattle.segment_blocks.specs.Kept.{kept_of};
ghost use Rattle.segment_blocks.specs.Segment.{IsSegment};
ghost use Rattle.spill_blobs.specs.Ends.{ComesTo, Reads};
ghost use Rattle.spill_blobs.specs.Index.{Begins};
ghost use Rattle.spill_blobs.specs.Judging.{GivesRowsOf, IsJudged, IsStopOf, Judges, NamesPart, ReadsPart, part_blocks};
ghost use Rattle.spill_blobs.specs.Marks.{marks, place_in};
ghost use Rattle.spill_blobs.specs.Parts.{part_bytes, StandsIn};
ghost use Rattle.spill_blobs.specs.RowBlocks.{block_size};
ghost use Rattle.spill_blobs.specs.Sheets.{IsSheet};
ghost use Rattle.spill_blobs.specs.SoundRows.{AreSound};
ghost use Rattle.spill_blobs.specs.Walks.{blocks_from, lesser_limit};

use crate::index::count_less;
use crate::laws::{rows_of_segments_are_played, tallied_rows_are_sound};
use crate::port_fault::PortFault;
use crate::sheet::Sheet;
use crate::sound_rows::are_sound;
use crate::walk::walk;
use crate::walk_fault::WalkFault;
use explorer_model::chess::Position;
use explorer_model::fault::Stop;
use legal_moves::board::Board;
use legal_moves::laws::tidy_is_determined;
use outside::Port;
use packed_keys::{PositionKey, pack};
use segment_blocks::{Kept, Segment, Steps};
use std::alloc::Global;
use std::marker::Model;
use std::snapshot::Snapshot;
use std::sync::ledger::Ledger;
use tally_rows::Row;

/// Where the rows of a segment stand in a scratch file, and what is kept of it. The segment itself
/// is gone: contracts alone see it.
#[derive(Drop)]
pub struct Part {
    /// Where its bytes begin.
    pub start: u64,
    /// How many rows there are.
    pub count: u64,
    /// The keys of rows 0, 128, 256 and so on.
    pub keys: Vec<PositionKey>,
    pub kept: Kept,
    pub was: Snapshot<Segment>,
}

impl Model for Part {
    ghost use Rattle.spill_blobs.specs.Parts.{Spilled, IsSpilled};

    ghost Value = { Spilled };

    ghost view = { λ p. record {
      start = p.start;
      count = p.count;
      keys = p.keys.items;
      kept = p.kept;
      segment = p.was.value;
    } };

    ghost invariant = { λ p. IsSpilled (record {
      start = p.start;
      count = p.count;
      keys = p.keys.items;
      kept = p.kept;
      segment = p.was.value;
    }) };
}

impl Part {
    /// The part of a segment whose rows stand from a place on, as the sheet has them.
    pub fn of(start: u64, sheet: Sheet, segment: Segment) -> Part
        requires sheet { IsSheet sheet segment.rows }
        requires low { start + length sheet.bytes.items < 2 ^ 64 }
        ensures start { result.start ≡ start }
        ensures segment { result.segment ≡ segment }
        ensures size { length (part_bytes segment) ≡ block_size * result.count }
        ensures sound { IsSegment segment }
    {
        // law: the rows of a segment have keys of valid positions, and moves that have bytes.
        rows_of_segments_are_played();
        let _span = segment.span();
        let Sheet { count, keys, .. } = sheet;
        Part {
            start,
            count,
            keys,
            was: Snapshot::of(&segment),
            kept: segment.into_kept(),
        }
    }

    /// What is kept of the segment.
    pub fn kept(&self) -> &Kept
        ensures { result.now ≡ kept_of self.now.segment }
    {
        &self.kept
    }

    /// The rows of a key, or why they are not had.
    fn rows_of<P: Port, L: Ledger>(
        &self,
        alloc: Global,
        key: &PositionKey,
        port: &mut P,
        steps: &mut Steps<L>,
    ) -> Result<Vec<Row>, WalkFault>
        requires inside { self.now.start + block_size * self.now.count ≤ (P.port port.old).size }
        ensures comes { ComesTo key.now
            (self.now.start + block_size * place_in key.now self.now.segment.rows)
            (self.now.count - place_in key.now self.now.segment.rows)
            result (P.port port.old) (P.port port.new) }
        ensures begins { Begins key.now self.now.segment.rows
            (place_in key.now self.now.segment.rows) }
        ensures keyed { IfOk result (λ rows. AllByRecursion (λ row. row.key ≡ key.now) rows.items) }
        ensures cost { IfOk result (λ rows. (digits : ℕ) → length self.now.keys < 2 ^ digits
            → steps.new ≤ steps.old + lesser_limit + digits + length rows.items + 1) }
        ensures reads { (digits : ℕ) → length self.now.keys < 2 ^ digits
            → Reads key.now (λ told. blocks_from told
            (self.now.start + block_size * place_in key.now self.now.segment.rows)
            (self.now.count - place_in key.now self.now.segment.rows)) self.now.count digits
            (P.port port.old) steps.old steps.new }
    {
        let passed = self.place_of(key, steps);
        walk(
            alloc,
            port,
            self.start + 129 * passed,
            self.count - passed,
            key,
            steps,
        )
    }

    /// The rows of a position, in the part of this number.
    pub fn rows<P: Port, L: Ledger>(
        &self,
        alloc: Global,
        number: u32,
        at: &Position,
        port: &mut P,
        steps: &mut Steps<L>,
    ) -> Result<Vec<Row>, Stop<PortFault>>
        requires valid { IsValid at.now }
        requires inside { self.now.start + block_size * self.now.count ≤ (P.port port.old).size }
        ensures judged { (key : List ℕ) → IsTidyKey at.now key
            → IfSome (P.port port.old).appended (λ told.
            Judges at.now key number (length self.now.segment.classes)
            (part_blocks key self.now told) result) }
        ensures found { (key : List ℕ) → IsTidyKey at.now key
            → StandsIn self.now (P.port port.old) → GivesRowsOf key self.now.segment result }
        ensures sound { IfOk result (λ rows.
            AreSound at.now (length self.now.segment.classes) rows.items) }
        ensures faults { ReadsPart result (P.port port.old) (P.port port.new) }
        ensures named { NamesPart number result }
        ensures cost { (digits : ℕ) → length (marks self.now.segment.rows) < 2 ^ digits
            → IfOk result (λ rows.
            steps.new ≤ steps.old + lesser_limit + digits + length rows.items + 1) }
        ensures reads { (key : List ℕ) (digits : ℕ) → IsTidyKey at.now key
            → length (marks self.now.segment.rows) < 2 ^ digits
            → Reads key (part_blocks key self.now) (length self.now.segment.rows) digits
            (P.port port.old) steps.old steps.new }
    {
        // law: a position has one tidy form.
        tidy_is_determined();
        // law: what is tallied of games is sound.
        tallied_rows_are_sound();
        let key = tidy_key(at);
        match self.rows_of(alloc, &key, port, steps) {
            Ok(rows) => judge_rows(alloc, number, at, self.kept.games(), rows),
            Err(fault) => Err(stop_of(fault, number)),
        }
    }

    /// How many rows a walk to a key may leave out.
    fn place_of<L: Ledger>(&self, key: &PositionKey, steps: &mut Steps<L>) -> u64
        ensures place { result ≡ place_in key.now self.now.segment.rows }
        ensures begins { Begins key.now self.now.segment.rows result }
        ensures within { result ≤ self.now.count }
        ensures cost { (digits : ℕ) → length self.now.keys < 2 ^ digits
            → steps.new ≤ steps.old + digits }
    {
        let less = count_less(self.keys.as_slice(), key, steps);
        128 * (less as u64).saturating_sub(1)
    }
}

/// The key that games are counted under in a position.
fn tidy_key(at: &Position) -> PositionKey
    requires { IsValid at.now }
    ensures { IsTidyKey at.now result }
{
    let tidied = Board::of_valid(*at).tidy().position();
    pack(&tidied)
}

/// The rows, where games can have them.
fn judge_rows(
    alloc: Global,
    number: u32,
    at: &Position,
    games: u32,
    rows: Vec<Row>,
) -> Result<Vec<Row>, Stop<PortFault>>
    requires valid { IsValid at.now }
    requires keyed { AllByRecursion (λ row. IsTidyKey at.now row.key) rows.items }
    ensures { IsJudged at.now number games rows.items result }
{
    match are_sound(alloc, at, games, &rows) {
        Ok(true) => Ok(rows),
        Ok(false) => Err(Stop::Fault(PortFault::Damaged { part: number })),
        Err(_) => Err(Stop::OutOfMemory),
    }
}

/// The fault of a walk over the part of this number.
fn stop_of(fault: WalkFault, number: u32) -> Stop<PortFault>
    ensures { IsStopOf fault number result }
{
    match fault {
        WalkFault::ReadFault { before, after } => {
            Stop::Fault(PortFault::ReadFault { before, after })
        }
        WalkFault::Damaged => Stop::Fault(PortFault::Damaged { part: number }),
        WalkFault::OutOfMemory => Stop::OutOfMemory,
    }
}
