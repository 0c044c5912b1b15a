//! Rows that are read from blocks of bytes.
ghost use Rattle.std.specs.Prelude.{◌≡◌, ◌≢◌, ◌≤◌, ◌+◌, ◌↔◌, ℕ, List, ◌++◌, IfSome, IfNone, IsTrue, length};
ghost use Rattle.std.specs.Int.{w32, w64, to_le_bytes};
ghost use Rattle.spill_blobs.specs.RowBlocks.{row_key_bytes, list_bytes, IsBroken, IsKeyOfValid, IsList, IsRowAt, IsRowKey};
ghost use Rattle.best_lists.specs.Ranking.{before_by_rating, before_by_month};
ghost use Rattle.best_lists.specs.declared.entry.Entry.{Entry as Listed};
ghost use Rattle.tally_rows.specs.declared.row_key.RowKey.{RowKey as Parts};

use crate::fields::{move_of, speed_of, take_byte, take_u16, take_u32, take_u64};
use crate::lists::take_list;
use best_lists::{Best4, ByMonth, ByRating};
use explorer_model::archive::{Group, Month};
use legal_moves::valid::is_valid;
use packed_keys::laws::unpacked_is_determined;
use packed_keys::{PositionKey, unpack};
use tally_rows::{Row, RowKey};

/// How many bytes a row has.
pub const BLOCK_SIZE: usize = 129;

/// The row of a block, whose key is that of a valid position. None where the block is no row.
pub fn row_of(block: &[u8; 129]) -> Option<Row>
    ensures some { IfSome result (IsRowAt block.now) }
    ensures none { IfNone result (IsBroken block.now) }
{
    let (row_key, rest) = take_row_key(block)?;
    let (white, rest) = take_u32(rest);
    let (draws, rest) = take_u32(rest);
    let (black, rest) = take_u32(rest);
    let (ratings, rest) = take_u64(rest);
    let (top, recent) = lists_of(rest)?;
    let key = row_key.key;
    Some(Row {
        key,
        next: row_key.next,
        month: row_key.month,
        speed: row_key.speed,
        group: row_key.group,
        white,
        draws,
        black,
        ratings,
        top,
        recent,
    })
}

/// What the row's games have in common, by the first 43 bytes, and the bytes behind them. None
/// where they are none of a valid position.
fn take_row_key(bytes: &[u8]) -> Option<(RowKey, &[u8])>
    requires { 43 ≤ length bytes.now }
    ensures some { IfSome result (λ taken. IsRowKey taken.0 × IsKeyOfValid taken.0.key
        × (bytes.now ≡ row_key_bytes taken.0 ++ taken.1.now)
        × (length taken.1.now + 43 ≡ length bytes.now)) }
    ensures none { IfNone result ((row_key : Parts) (rest : List ℕ) → IsRowKey row_key
        → IsKeyOfValid row_key.key → bytes.now ≢ row_key_bytes row_key ++ rest) }
{
    let (key, rest) = take_key(bytes);
    if !is_key_of_valid(&key) {
        return None;
    }
    let (from, rest) = take_byte(rest);
    let (to, rest) = take_byte(rest);
    let (promotion, rest) = take_byte(rest);
    let next = move_of(from, to, promotion)?;
    let (year, rest) = take_u16(rest);
    let (month, rest) = take_byte(rest);
    let (place, rest) = take_byte(rest);
    let speed = speed_of(place)?;
    let (value, rest) = take_u16(rest);
    let row_key = RowKey {
        key,
        next,
        month: Month { year, month },
        speed,
        group: Group { value },
    };
    Some((row_key, rest))
}

/// Both lists, where they are all the bytes.
fn lists_of(bytes: &[u8]) -> Option<(Best4<ByRating>, Best4<ByMonth>)>
    requires { length bytes.now ≡ 66 }
    ensures some { IfSome result (λ lists. IsList before_by_rating lists.0
        × IsList before_by_month lists.1
        × (bytes.now ≡ list_bytes lists.0 ++ list_bytes lists.1)) }
    ensures none { IfNone result ((top recent : List Listed) → IsList before_by_rating top
        → IsList before_by_month recent → bytes.now ≢ list_bytes top ++ list_bytes recent) }
{
    let (top, rest) = take_list::<ByRating>(bytes)?;
    let (recent, _rest) = take_list::<ByMonth>(rest)?;
    Some((top, recent))
}

fn take_key(bytes: &[u8]) -> (PositionKey, &[u8])
    requires { 34 ≤ length bytes.now }
    ensures is { bytes.now ≡ result.0 ++ result.1.now }
    ensures left { length result.1.now + 34 ≡ length bytes.now }
{
    let (front, rest) = bytes.split_at(34);
    let mut key = [0u8; 34];
    key.copy_from_slice(front);
    (key, rest)
}

/// Whether the bytes are the key of a valid position.
fn is_key_of_valid(key: &PositionKey) -> bool
    ensures { IsTrue result ↔ IsKeyOfValid key.now }
{
    // law: bytes are the key of one position, or of none.
    unpacked_is_determined();
    match unpack(key) {
        Some(position) => is_valid(&position),
        None => false,
    }
}
