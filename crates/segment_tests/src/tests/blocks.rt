//! Rows in packed blocks.
ghost use Rattle.std.specs.Prelude.{◌≡◌, ◌+◌, ◌<◌, ◌≤◌, IsTrue};
ghost use Rattle.segment_blocks.specs.PackedRows.{AreInOrder};

use super::rows::to_rows;
use explorer_model::archive::{Group, Month, Outcome, Speed};
use explorer_model::chess::Move;
use explorer_model::square::Square;
use packed_keys::PositionKey;
use segment_blocks::{PackedRows, RowWalk, Segment, Steps};
use std::alloc::{AllocError, Global};
use std::marker::Brand;
use std::sync::ledger::{Blank, Ledger};
use std::test::Fail;
use tally_rows::{Row, RowKey, Single, rows_of};

/// The key of some position, told by its first two bytes.
fn key(first: u8, second: u8) -> PositionKey {
    let mut key = [0; 34];
    key[0] = first;
    key[1] = second;
    key
}

/// One game of a month, 1 to 150, in the position of a key. With a move it is e2 to e4.
fn game(key: PositionKey, month: u32, number: u32, goes_on: bool) -> Single {
    let king_pawn = Move {
        from: Square { index: 12 },
        to: Square { index: 28 },
        promotion: None,
    };
    Single {
        row_key: RowKey {
            key,
            next: if goes_on { Some(king_pawn) } else { None },
            month: Month {
                year: (2010 + month % 150 / 12) as u16,
                month: (1 + month % 150 % 12) as u8,
            },
            speed: Speed::Blitz,
            group: Group { value: 1600 },
        },
        number,
        outcome: match number % 3 {
            0 => Outcome::White,
            1 => Outcome::Draw,
            _ => Outcome::Black,
        },
        rating: 1650,
        sum: 3310,
    }
}

/// The rows of 512 games. All begin in one position with one move, in 150 months. Each goes on to a
/// position that it has in common with one other game; every second game ends there.
fn rows_of_512(alloc: Global) -> Result<Vec<Row>, AllocError> {
    let mut singles = Vec::new(alloc);
    for number in 0..512u32 {
        singles.push(game(key(7, 7), number, number, true))?;
        let own = key(1 + (number / 200) as u8, (number % 200 / 2) as u8);
        singles.push(game(own, number, number, number % 2 == 0))?;
    }
    if 2000 < singles.len() {
        return Ok(Vec::new(alloc));
    }
    to_rows(alloc, rows_of(alloc, singles)?.as_slice())
}

/// The rows, packed, where they stand in order.
fn pack_rows(alloc: Global, rows: &[Row]) -> Result<Option<PackedRows>, AllocError> {
    if !are_in_order(rows) {
        return Ok(None);
    }
    let mut packed = PackedRows::new(alloc);
    for row in rows {
        packed.push(alloc, row)?;
    }
    Ok(Some(packed))
}

fn are_in_order(rows: &[Row]) -> bool
    ensures { IsTrue result → AreInOrder rows.now }
{
    for at in 1..rows.len() {
        if rows[at - 1].row_key().cmp(&rows[at].row_key()).is_ge() {
            return false;
        }
    }
    true
}

/// Whether a walk at the key gives the rows that have it, and then none.
fn walks_at<L: Ledger>(packed: &PackedRows, rows: &[Row], key: &PositionKey, blank: Blank) -> bool
    requires name { blank.name ≡ L.name }
    requires parts { blank.parts ≡ L.parts }
    requires some { 0 < L.parts }
{
    let mut steps = Steps::<L>::new(blank);
    let mut walk = packed.rows_at(key, &mut steps);
    for row in rows {
        if row.key == *key && !gives(&mut walk, row, &mut steps) {
            return false;
        }
    }
    walk.next(&mut steps).is_none()
}

/// Whether a walk from the key on gives the rows whose key is not below it, and then none.
fn walks_from<L: Ledger>(packed: &PackedRows, rows: &[Row], key: &PositionKey, blank: Blank) -> bool
    requires name { blank.name ≡ L.name }
    requires parts { blank.parts ≡ L.parts }
    requires some { 0 < L.parts }
{
    let mut steps = Steps::<L>::new(blank);
    let mut walk = packed.rows_from(key, &mut steps);
    for row in rows {
        if row.key.cmp(key).is_ge() && !gives(&mut walk, row, &mut steps) {
            return false;
        }
    }
    walk.next(&mut steps).is_none()
}

/// Whether the walk's next row is this one.
fn gives<L: Ledger>(walk: &mut RowWalk<'_>, row: &Row, steps: &mut Steps<L>) -> bool {
    match walk.next(steps) {
        Some(next) => next == *row,
        None => false,
    }
}

/// Whether walks at the key and from it give what a plain filter of the rows gives.
fn are_walked(packed: &PackedRows, rows: &[Row], key: &PositionKey) -> bool {
    walks_at::<Brand>(packed, rows, key, Blank::new(1))
        && walks_from::<Brand>(packed, rows, key, Blank::new(1))
}

#[test]
fn a_walk_gives_what_a_plain_filter_gives(rt: HostRuntime) -> Result<(), Fail> {
    let rows = rows_of_512(rt.alloc())?;
    let at_start = rows.iter().filter(|row| row.key == key(7, 7)).count();
    assert_eq!(rt; (at_start, rows.len()), (150, 662));
    let Some(packed) = pack_rows(rt.alloc(), rows.as_slice())? else {
        panic!(rt; "rows are out of order");
    };
    for row in &rows {
        assert!(rt;
            are_walked(&packed, rows.as_slice(), &row.key),
            "at {:?}",
            row.key
        );
    }
    // A key below all rows, some between them, one above all.
    for absent in [[0; 34], key(1, 200), key(6, 0), [255; 34]] {
        assert!(rt;
            are_walked(&packed, rows.as_slice(), &absent),
            "at {absent:?}"
        );
    }
    Ok(())
}

/// Whether a walk within the keys gives the rows whose key is not below the first one and is below
/// the second, and then none.
fn walks_within<L: Ledger>(
    packed: &PackedRows,
    rows: &[Row],
    from: &PositionKey,
    below: &PositionKey,
    blank: Blank,
) -> bool
    requires name { blank.name ≡ L.name }
    requires parts { blank.parts ≡ L.parts }
    requires some { 0 < L.parts }
{
    let mut steps = Steps::<L>::new(blank);
    let mut walk = packed.rows_within(Some(*from), Some(*below), &mut steps);
    for row in rows {
        if row.key.cmp(from).is_ge() && row.key.cmp(below).is_lt() {
            match walk.advance(&mut steps) {
                Some(held) if held.to_row() == *row => {}
                _ => return false,
            }
        }
    }
    walk.advance(&mut steps).is_none()
}

/// The same, where nobody counts the steps.
fn are_within(packed: &PackedRows, rows: &[Row], from: &PositionKey, below: &PositionKey) -> bool {
    walks_within::<Brand>(packed, rows, from, below, Blank::new(1))
}

/// The keys of the first rows of the blocks, and what is said of one block more.
fn first_keys<L: Ledger>(
    alloc: Global,
    packed: &PackedRows,
    blank: Blank,
) -> Result<Vec<Option<PositionKey>>, AllocError>
    requires name { blank.name ≡ L.name }
    requires parts { blank.parts ≡ L.parts }
    requires some { 0 < L.parts }
{
    let mut steps = Steps::<L>::new(blank);
    let mut keys = Vec::new(alloc);
    for n in 0..=packed.block_count() {
        keys.push(packed.first_key(n, &mut steps))?;
    }
    Ok(keys)
}

#[test]
fn a_walk_within_keys_gives_what_a_plain_filter_gives(rt: HostRuntime) -> Result<(), Fail> {
    let rows = rows_of_512(rt.alloc())?;
    let Some(packed) = pack_rows(rt.alloc(), rows.as_slice())? else {
        panic!(rt; "rows are out of order");
    };
    let bounds = [[0; 34], key(1, 200), key(2, 50), key(7, 7), [255; 34]];
    for from in bounds {
        for below in bounds {
            assert!(rt;
                are_within(&packed, rows.as_slice(), &from, &below),
                "from {from:?} below {below:?}"
            );
        }
    }
    // 662 rows take five full blocks and one of 22 rows.
    assert_eq!(rt; packed.block_count(), 6);
    let firsts = first_keys::<Brand>(rt.alloc(), &packed, Blank::new(1))?;
    for (n, first) in firsts.iter().enumerate() {
        let row = rows.get(n.saturating_mul(128));
        assert_eq!(rt; *first, row.map(|row| row.key), "of block {n}");
    }
    Ok(())
}

/// 1,024 has eleven binary digits.
fn rows_at_in_1024_blocks<'a, L: Ledger>(
    packed: &'a PackedRows,
    key: &PositionKey,
    steps: &mut Steps<L>,
) -> RowWalk<'a>
    requires { packed.now.blocks ≤ 1024 }
    ensures { steps.new ≤ steps.old + 139 }
{
    packed.rows_at(key, steps)
}

fn is_shared_by_threads<T: Send + Sync>() -> bool {
    true
}

#[test]
fn threads_may_share_a_segment(rt: HostRuntime) -> Result<(), Fail> {
    assert!(rt; is_shared_by_threads::<Segment>());
    Ok(())
}
