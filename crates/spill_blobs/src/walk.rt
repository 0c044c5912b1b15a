//! Walks over blocks in a scratch file.
ghost use Rattle.std.specs.Prelude.{◌≡◌, ◌≤◌, ◌<◌, ◌+◌, ◌*◌, ◌^◌, IfOk, length};
ghost use Rattle.std.specs.List.{AllByRecursion};
ghost use Rattle.spill_blobs.specs.RowBlocks.{block_size};
ghost use Rattle.spill_blobs.specs.Walks.{blocks_from, lesser_limit};
ghost use Rattle.spill_blobs.specs.Ends.{ComesTo, Puts, Reads, ReadsRow};

use crate::row_block::row_of;
use crate::walk_fault::WalkFault;
use outside::{Failed, Port};
use packed_keys::PositionKey;
use segment_blocks::Steps;
use std::alloc::Global;
use std::cmp::Ordering;
use std::sync::ledger::Ledger;
use tally_rows::Row;

/// The most rows that a walk passes before the key.
const LESSER_LIMIT: usize = 128;

/// The rows of a key among `count` blocks from the place `start` on, up to a row of a greater key.
/// Each block that is asked for is a step.
pub fn walk<P: Port, L: Ledger>(
    alloc: Global,
    port: &mut P,
    start: u64,
    count: u64,
    key: &PositionKey,
    steps: &mut Steps<L>,
) -> Result<Vec<Row>, WalkFault>
    requires inside { start + block_size * count ≤ (P.port port.old).size }
    requires low { start + block_size * count < 2 ^ 64 }
    ensures comes { ComesTo key.now start count result (P.port port.old) (P.port port.new) }
    ensures keyed { IfOk result (λ rows. AllByRecursion (λ row. row.key ≡ key.now) rows.items) }
    ensures cost { IfOk result
        (λ rows. steps.new ≤ steps.old + lesser_limit + length rows.items + 1) }
    ensures reads { Reads key.now (λ told. blocks_from told start count) count 0
        (P.port port.old) steps.old steps.new }
{
    let mut rows = Vec::new(alloc);
    let mut lesser = 0;
    let mut at = start;
    let mut left = count;
    while left > 0 {
        let row = match read_row(port, at, steps) {
            Ok(row) => row,
            Err(fault) => return Err(fault),
        };
        at += 129;
        left -= 1;
        match row.key.cmp(key) {
            Ordering::Less => {
                if lesser == LESSER_LIMIT {
                    return Err(WalkFault::Damaged);
                }
                lesser += 1;
            }
            Ordering::Equal => put(&mut rows, row)?,
            Ordering::Greater => return Ok(rows),
        }
    }
    Ok(rows)
}

/// Puts a row behind the others.
fn put(rows: &mut Vec<Row>, row: Row) -> Result<(), WalkFault>
    ensures { Puts row rows.old.items rows.new.items result }
{
    match rows.push(row) {
        Ok(()) => Ok(()),
        Err(_) => Err(WalkFault::OutOfMemory),
    }
}

/// The row of the block at a place, which is a step.
fn read_row<P: Port, L: Ledger>(
    port: &mut P,
    at: u64,
    steps: &mut Steps<L>,
) -> Result<Row, WalkFault>
    requires { at + block_size ≤ (P.port port.old).size }
    ensures reads { ReadsRow at result (P.port port.old) (P.port port.new) }
    ensures cost { steps.new ≡ steps.old + 1 }
{
    steps.tick();
    let mut block = [0u8; 129];
    let before = port.faults();
    if let Err(Failed) = port.read_at(at, &mut block) {
        return Err(WalkFault::ReadFault {
            before,
            after: port.faults(),
        });
    }
    match row_of(&block) {
        Some(row) => Ok(row),
        None => Err(WalkFault::Damaged),
    }
}
