//! Rows that are written as blocks of bytes.
ghost use Rattle.std.specs.Prelude.{◌≡◌, ◌++◌, ◌∷◌, ◌<◌, ◌≤◌, ◌^◌, OnOk, length};
ghost use Rattle.std.specs.List.{AllByRecursion, flat_map};
ghost use Rattle.spill_blobs.specs.RowBlocks.{row_key_bytes, row_bytes, count_bytes, list_bytes, entry_bytes, move_bytes, promotion_code, AreFew, Fits};
ghost use Rattle.spill_blobs.specs.Parts.{HasRoom};
ghost use Rattle.tally_rows.specs.Row.{row_key_of};

use best_lists::Entry;
use explorer_model::chess::{Move, Role};
use std::alloc::AllocError;
use tally_rows::Row;

/// Puts the bytes of a row behind others.
pub fn put_row(bytes: &mut Vec<u8>, row: &Row) -> Result<(), AllocError>
    ensures bytes { OnOk result (bytes.new.items ≡ bytes.old.items ++ row_bytes row.now) }
    ensures room { OnOk result (HasRoom row.now) }
{
    put_row_key(bytes, row)?;
    put_counts(bytes, row)?;
    put_list(bytes, row.top.entries())?;
    put_list(bytes, row.recent.entries())?;
    Ok(())
}

fn put_row_key(bytes: &mut Vec<u8>, row: &Row) -> Result<(), AllocError>
    ensures bytes { OnOk result
        (bytes.new.items ≡ bytes.old.items ++ row_key_bytes (row_key_of row.now)) }
    ensures room { OnOk result ((length row.now.key ≡ 34) × (row.now.month.year < 2 ^ 16)
        × (row.now.group.value < 2 ^ 16)) }
{
    bytes.extend_from_slice(&row.key)?;
    bytes.extend_from_slice(&bytes_of_move(row.next))?;
    bytes.extend_from_slice(&row.month.year.to_le_bytes())?;
    bytes.extend_from_slice(&[row.month.month, row.speed.index()])?;
    bytes.extend_from_slice(&row.group.value.to_le_bytes())?;
    Ok(())
}

fn put_counts(bytes: &mut Vec<u8>, row: &Row) -> Result<(), AllocError>
    ensures bytes { OnOk result (bytes.new.items ≡ bytes.old.items ++ count_bytes row.now) }
    ensures room { OnOk result ((row.now.white < 2 ^ 32) × (row.now.draws < 2 ^ 32)
        × (row.now.black < 2 ^ 32) × (row.now.ratings < 2 ^ 64)) }
{
    bytes.extend_from_slice(&row.white.to_le_bytes())?;
    bytes.extend_from_slice(&row.draws.to_le_bytes())?;
    bytes.extend_from_slice(&row.black.to_le_bytes())?;
    bytes.extend_from_slice(&row.ratings.to_le_bytes())?;
    Ok(())
}

/// Puts the bytes of a list of at most four entries behind others.
fn put_list(bytes: &mut Vec<u8>, entries: &[Entry]) -> Result<(), AllocError>
    requires { length entries.now ≤ 4 }
    ensures bytes { OnOk result (bytes.new.items ≡ bytes.old.items ++ list_bytes entries.now) }
    ensures few { OnOk result (AreFew entries.now) }
{
    bytes.push(entries.len() as u8)?;
    put_entries(bytes, entries)?;
    bytes.extend_from_slice(&[0; 32][..8 * (4 - entries.len())])?;
    Ok(())
}

fn put_entries(bytes: &mut Vec<u8>, entries: &[Entry]) -> Result<(), AllocError>
    ensures bytes { OnOk result
        (bytes.new.items ≡ bytes.old.items ++ flat_map entry_bytes entries.now) }
    ensures fit { OnOk result (AllByRecursion Fits entries.now) }
{
    for entry in entries {
        put_entry(bytes, entry)?;
    }
    Ok(())
}

fn put_entry(bytes: &mut Vec<u8>, entry: &Entry) -> Result<(), AllocError>
    ensures bytes { OnOk result (bytes.new.items ≡ bytes.old.items ++ entry_bytes entry.now) }
    ensures fits { Fits entry.now }
{
    let (rank, number) = (entry.rank, entry.number);
    bytes.extend_from_slice(&rank.to_le_bytes())?;
    bytes.extend_from_slice(&number.to_le_bytes())
}

fn bytes_of_move(next: Option<Move>) -> [u8; 3]
    ensures { result ≡ move_bytes next }
{
    match next {
        None => [255; 3],
        Some(step) => [step.from.index, step.to.index, code_of(step.promotion)],
    }
}

/// No code is that of a role to which no pawn is promoted.
fn code_of(promotion: Option<Role>) -> u8
    ensures { result ≡ promotion_code promotion }
{
    match promotion {
        None => 0,
        Some(Role::Knight) => 1,
        Some(Role::Bishop) => 2,
        Some(Role::Rook) => 3,
        Some(Role::Queen) => 4,
        Some(Role::Pawn) => 5,
        Some(Role::King) => 5,
    }
}
