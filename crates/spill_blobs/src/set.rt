//! Sets of segments whose rows stand in a scratch file.
ghost use Rattle.std.specs.Prelude.{◌≡◌, ℕ, List, ◌+◌, ◌≤◌, ◌<◌, ◌^◌, [], ◌∷◌, ◌++◌, Some, IfOk, IfErr, IfSome, OnOk, length, map, take, slice_get};
ghost use Rattle.explorer_model.specs.Chess.{IsValid};
ghost use Rattle.explorer_model.specs.Tidy.{IsTidyKey};
ghost use Rattle.outside.specs.Ports.{AppendsPiece};
ghost use Rattle.segment_blocks.specs.Kept.{kept_of};
ghost use Rattle.segment_blocks.specs.Segment.{segment_limit};
ghost use Rattle.spill_blobs.specs.Ends.{Reads};
ghost use Rattle.spill_blobs.specs.Judging.{GivesRowsOf, NamesPart, ReadsPart, blocks_at};
ghost use Rattle.spill_blobs.specs.Marks.{marks};
ghost use Rattle.spill_blobs.specs.Parts.{part_bytes};
ghost use Rattle.spill_blobs.specs.Sets.{games_in, journal_of, set_bytes, HasJust, Holds, IsNotAdded, IsSet, JudgesPart};
ghost use Rattle.spill_blobs.specs.SoundRows.{AreSound};
ghost use Rattle.spill_blobs.specs.Walks.{lesser_limit};

use crate::part::Part;
use crate::port_fault::PortFault;
use crate::sheet::Sheet;
use explorer_model::chess::Position;
use explorer_model::fault::Stop;
use outside::{Failed, Port};
use segment_blocks::{Kept, Segment, Steps};
use std::alloc::Global;
use std::marker::Model;
use std::sync::ledger::Ledger;
use tally_rows::Row;

/// Segments whose rows stand in a scratch file, one after another. Contracts see the segments.
#[derive(Drop)]
pub struct SpillSet {
    parts: Vec<Part>,
    /// How many bytes they have.
    end: u64,
}

impl Model for SpillSet {
    ghost use Rattle.std.specs.Prelude.{List, map};
    ghost use Rattle.segment_blocks.specs.Segment.{CountedSpan};
    ghost use Rattle.spill_blobs.specs.Sets.{AreLaid, IsSet};

    ghost Value = { List CountedSpan };

    ghost view = { λ s. map (λ part. part.segment) s.parts.items };

    ghost invariant = { λ s. AreLaid 0 s.parts.items s.end
        × IsSet (map (λ part. part.segment) s.parts.items) };
}

impl SpillSet {
    /// No segment.
    pub fn new(alloc: Global) -> SpillSet
        ensures { result ≡ [] }
    {
        SpillSet {
            parts: Vec::new(alloc),
            end: 0,
        }
    }

    /// How many parts there are, one for each segment.
    pub fn parts(&self) -> usize
        ensures count { result ≡ length self.now }
        ensures set { IsSet self.now }
    {
        self.parts.len()
    }

    /// The batches and the classes of a part's segment.
    pub fn kept(&self, part: usize) -> &Kept
        requires { part < length self.now }
        ensures { slice_get (map kept_of self.now) part ≡ Some result.now }
    {
        let parts = self.parts.as_slice();
        let held = &parts[part];
        held.kept()
    }

    /// Appends the rows of a segment by one call and drops them. After a refusal the set is as
    /// before, and the file may have a front of the part more: nothing is to be added over it.
    pub fn add<P: Port>(
        &mut self,
        alloc: Global,
        segment: Segment,
        port: &mut P,
    ) -> Result<(), Stop<PortFault>>
        requires adjoin { segment.span.first ≡ length (journal_of self.old) }
        requires few { games_in self.old + length segment.classes ≤ segment_limit }
        requires just { HasJust (P.port port.old) (set_bytes self.old) }
        ensures added { OnOk result (self.new ≡ self.old ++ segment ∷ []) }
        ensures appended { OnOk result
            (AppendsPiece (part_bytes segment) (P.port port.old) (P.port port.new)) }
        ensures just { OnOk result (HasJust (P.port port.new) (set_bytes self.new)) }
        ensures kept { IfErr result (λ _. self.new ≡ self.old) }
        ensures refused { IfErr result (λ stop.
            IsNotAdded stop (part_bytes segment) (P.port port.old) (P.port port.new)) }
    {
        if self.parts.reserve(1).is_err() {
            return Err(Stop::OutOfMemory);
        }
        let Ok(sheet) = Sheet::of(alloc, &segment) else {
            return Err(Stop::OutOfMemory);
        };
        let Some(end) = self.end.checked_add(sheet.bytes.len() as u64) else {
            return Err(Stop::OutOfMemory);
        };
        put_piece(port, sheet.bytes.as_slice())?;
        let part = Part::of(self.end, sheet, segment);
        self.parts.push_reserved(part);
        self.end = end;
        Ok(())
    }

    /// The rows of a part in a position: those that stand in the file between the places of the
    /// part. A step is a key of the index that is compared, or a row that is read.
    pub fn rows<P: Port, L: Ledger>(
        &self,
        alloc: Global,
        part: usize,
        at: &Position,
        port: &mut P,
        steps: &mut Steps<L>,
    ) -> Result<Vec<Row>, Stop<PortFault>>
        requires inside { part < length self.now }
        requires valid { IsValid at.now }
        requires size { length (set_bytes self.now) ≤ (P.port port.old).size }
        ensures judged { (key : List ℕ) → IsTidyKey at.now key
            → IfSome (P.port port.old).appended
            (λ told. JudgesPart at.now key part self.now told result) }
        ensures found { (key : List ℕ) → IsTidyKey at.now key → Holds self.now (P.port port.old)
            → IfSome (slice_get self.now part) (λ segment. GivesRowsOf key segment result) }
        ensures sound { IfOk result (λ rows. IfSome (slice_get self.now part)
            (λ segment. AreSound at.now (length segment.classes) rows.items)) }
        ensures faults { ReadsPart result (P.port port.old) (P.port port.new) }
        ensures named { NamesPart part result }
        ensures cost { IfSome (slice_get self.now part) (λ segment. (digits : ℕ)
            → length (marks segment.rows) < 2 ^ digits
            → IfOk result (λ rows. steps.new
            ≤ steps.old + lesser_limit + digits + length rows.items + 1)) }
        ensures reads { (key : List ℕ) (digits : ℕ) → IsTidyKey at.now key
            → IfSome (slice_get self.now part) (λ segment. length (marks segment.rows) < 2 ^ digits
            → Reads key (blocks_at key (length (set_bytes (take part self.now))) segment)
            (length segment.rows) digits (P.port port.old) steps.old steps.new) }
    {
        let parts = self.parts.as_slice();
        let held = &parts[part];
        held.rows(alloc, part as u32, at, port, steps)
    }
}

/// Appends a piece by one call.
fn put_piece<P: Port>(port: &mut P, piece: &[u8]) -> Result<(), Stop<PortFault>>
    ensures done { OnOk result (AppendsPiece piece.now (P.port port.old) (P.port port.new)) }
    ensures refused { IfErr result
        (λ stop. IsNotAdded stop piece.now (P.port port.old) (P.port port.new)) }
{
    let before = port.faults();
    if let Err(Failed) = port.append(piece) {
        let after = port.faults();
        return Err(Stop::Fault(PortFault::WriteFault { before, after }));
    }
    Ok(())
}
