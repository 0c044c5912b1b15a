//! Rows of a position that are read of the parts of a set.
ghost use Rattle.std.specs.Prelude.{◌≡◌, ℕ, ◌+◌, ◌≤◌, ◌<◌, ◌^◌, ◌++◌, List, map, length, IfErr, IfOk, IfSome, OnOk};
ghost use Rattle.std.specs.List.{All, AllZip, sum_by};
ghost use Rattle.explorer_model.specs.Chess.{IsValid};
ghost use Rattle.explorer_model.specs.Tidy.{IsTidyKey};
ghost use Rattle.lookup.specs.Reading.{hits_in, hits_of_part, most_steps, read_steps, AreJudged, AreOfKey, AreRead, IsPartOf, IsUndamaged, StopsAt};
ghost use Rattle.row_sums.specs.Hits.{hit_as};
ghost use Rattle.segment_blocks.specs.Segment.{CountedSpan};
ghost use Rattle.spill_blobs.specs.Judging.{ReadsPart};
ghost use Rattle.spill_blobs.specs.Marks.{marks};
ghost use Rattle.spill_blobs.specs.Sets.{set_bytes, Holds, IsSet};
ghost use Rattle.tally_rows.specs.Cover.{passes_row_key};

use crate::segment_rows::add_row;
use explorer_model::chess::Position;
use explorer_model::fault::Stop;
use explorer_model::query::Filter;
use outside::Port;
use row_sums::Hit;
use segment_blocks::{HeldRow, Steps};
use spill_blobs::{PortFault, SpillSet};
use std::alloc::{AllocError, Global};
use std::sync::ledger::Ledger;
use tally_rows::Row;

/// The rows of a part, and the number that its first game has among the games of all parts.
#[derive(Drop)]
pub struct PartRows {
    pub first: u32,
    pub rows: Vec<Row>,
}

/// The rows of the position in each part of the set, one part after another.
pub fn rows_of_parts<P: Port, L: Ledger>(
    alloc: Global,
    set: &SpillSet,
    at: &Position,
    port: &mut P,
    steps: &mut Steps<L>,
) -> Result<Vec<PartRows>, Stop<PortFault>>
    requires valid { IsValid at.now }
    requires size { length (set_bytes set.now) ≤ (P.port port.old).size }
    ensures set { IsSet set.now }
    ensures parts { IfOk result (λ parts. AreRead at.now 0 set.now parts.items) }
    ensures kept { IfOk result (λ _. P.port port.new ≡ P.port port.old) }
    ensures faults { IfErr result
        (λ stop. ReadsPart (Err stop) (P.port port.old) (P.port port.new)) }
    ensures found { IfOk result (λ parts. (key : List ℕ) → IsTidyKey at.now key
        → Holds set.now (P.port port.old) → AllZip (AreOfKey key) set.now parts.items) }
    ensures whole { IfErr result (λ stop. (key : List ℕ) → IsTidyKey at.now key
        → Holds set.now (P.port port.old) → IsUndamaged stop) }
    ensures part { IfErr result (IsPartOf (length set.now)) }
    ensures judged { IfOk result (λ _. (key : List ℕ) → IsTidyKey at.now key
        → IfSome (P.port port.old).appended
        (λ told. AreJudged at.now key set.now told (length set.now))) }
    ensures stopped { IfErr result (λ stop. (key : List ℕ) → IsTidyKey at.now key
        → StopsAt at.now key set.now (P.port port.old).appended stop) }
    ensures cost { IfOk result (λ _. (key : List ℕ) (digits : CountedSpan → ℕ)
        → IsTidyKey at.now key
        → All (λ segment. length (marks segment.rows) < 2 ^ digits segment) set.now
        → Holds set.now (P.port port.old)
        → steps.new ≤ steps.old + sum_by (read_steps key digits) set.now) }
    ensures most { (key : List ℕ) (digits : CountedSpan → ℕ) → IsTidyKey at.now key
        → All (λ segment. length (marks segment.rows) < 2 ^ digits segment) set.now
        → steps.new ≤ steps.old + sum_by (most_steps digits) set.now }
{
    let count = set.parts();
    let mut parts = Vec::new(alloc);
    let mut first = 0;
    for part in 0..count {
        let rows = match set.rows(alloc, part, at, port, steps) {
            Ok(rows) => rows,
            Err(stop) => return Err(stop),
        };
        let Ok(()) = parts.push(PartRows { first, rows }) else {
            return Err(Stop::OutOfMemory);
        };
        first += set.kept(part).games();
    }
    Ok(parts)
}

/// The rows that the filter takes.
pub fn hits_of<'a>(
    alloc: Global,
    parts: &'a [PartRows],
    wanted: &Filter,
) -> Result<Vec<Hit<'a>>, AllocError>
    ensures { IfOk result
        (λ hits. map hit_as hits.items ≡ hits_in (passes_row_key wanted.now) parts.now) }
{
    let mut hits = Vec::new(alloc);
    for part in parts {
        add_hits(&mut hits, part, wanted)?;
    }
    Ok(hits)
}

/// Adds the rows of a part that the filter takes.
fn add_hits<'a>(
    hits: &mut Vec<Hit<'a>>,
    part: &'a PartRows,
    wanted: &Filter,
) -> Result<(), AllocError>
    ensures { OnOk result (map hit_as hits.new.items
        ≡ map hit_as hits.old.items ++ hits_of_part (passes_row_key wanted.now) part.now) }
{
    let rows = part.rows.as_slice();
    for row in rows {
        add_row(hits, HeldRow::Whole(row), part.first, wanted)?;
    }
    Ok(())
}
