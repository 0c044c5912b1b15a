//! Rows, their order and their sums.
ghost use Rattle.std.specs.Prelude.{◌≡◌};

use best_lists::Entry;
use explorer_model::answer::Totals;
use explorer_model::archive::{Group, Month, Outcome, Speed};
use explorer_model::chess::{Move, Role};
use explorer_model::square::Square;
use packed_keys::PositionKey;
use std::alloc::{AllocError, Global};
use std::test::Fail;
use tally_rows::{Cell, CountedAs, CountedRow, Grid, Row, RowKey, Single, rows_of};

/// The key of some position, told by its first byte.
fn key(first: u8) -> PositionKey {
    let mut key = [0; 34];
    key[0] = first;
    key
}

/// The move of the king's pawn by two squares, e2 to e4.
fn king_pawn() -> Move {
    Move {
        from: Square { index: 12 },
        to: Square { index: 28 },
        promotion: None,
    }
}

fn row_key(first: u8, next: Option<Move>) -> RowKey {
    RowKey {
        key: key(first),
        next,
        month: Month {
            year: 2020,
            month: 1,
        },
        speed: Speed::Blitz,
        group: Group { value: 1600 },
    }
}

fn single(row_key: RowKey, number: u32, outcome: Outcome, rating: u16, sum: u32) -> Single
    ensures { result.row_key ≡ row_key }
{
    Single {
        row_key,
        number,
        outcome,
        rating,
        sum,
    }
}

/// Rows by themselves, as a tally keeps them.
pub(super) fn to_rows(alloc: Global, counted: &[CountedRow]) -> Result<Vec<Row>, AllocError> {
    let mut rows = Vec::with_capacity(alloc, counted.len())?;
    for row in counted {
        rows.push(row.to_row())?;
    }
    Ok(rows)
}

/// The rows of three games in one position: e4 follows in the first and in the last, and the second
/// ends there.
fn rows_of_three(alloc: Global) -> Result<Vec<CountedRow>, AllocError> {
    let played = row_key(1, Some(king_pawn()));
    let singles = vec![in alloc;
        single(played, 0, Outcome::White, 1700, 3300),
        single(row_key(1, None), 1, Outcome::Draw, 1650, 3310),
        single(played, 2, Outcome::Black, 1600, 3400),
    ]?;
    rows_of(alloc, singles)
}

/// The games of a row by their outcomes, and its sum of ratings.
fn counts(row: &Row) -> (u32, u32, u32, u64) {
    (row.white, row.draws, row.black, row.ratings)
}

/// Whether a row lists these games by rating, and these by month.
fn lists(row: &Row, top: &[Entry], recent: &[Entry]) -> bool {
    row.top.entries() == top && row.recent.entries() == recent
}

fn entry(rank: u32, number: u32) -> Entry {
    Entry { rank, number }
}

#[test]
fn rows_count_the_games_of_their_row_key(rt: HostRuntime) -> Result<(), Fail> {
    let counted = rows_of_three(rt.alloc())?;
    let rows = to_rows(rt.alloc(), counted.as_slice())?;
    assert_eq!(rt; rows.len(), 2);
    assert_eq!(rt; counts(&rows[0]), (0, 1, 0, 0));
    assert!(rt; lists(&rows[0], &[], &[]));
    assert_eq!(rt; counts(&rows[1]), (1, 0, 1, 3300));
    // January 2020 is month 12 * 2020 + 1; the later game comes first.
    let (top, recent) = (
        [entry(3400, 2), entry(3300, 0)],
        [entry(24241, 2), entry(24241, 0)],
    );
    assert!(rt; lists(&rows[1], &top, &recent));
    Ok(())
}

#[test]
fn only_a_row_of_one_game_is_kept_as_its_single(rt: HostRuntime) -> Result<(), Fail> {
    let rows = rows_of_three(rt.alloc())?;
    assert_eq!(rt; rows.len(), 2);
    assert!(rt; matches!(rows[0].counted_as(), CountedAs::One(_)));
    assert!(rt; matches!(rows[1].counted_as(), CountedAs::More(_)));
    Ok(())
}

/// The move from a7 to a8 or b8, as it promotes.
fn promotes(to: Square, role: Role) -> Option<Move> {
    Some(Move {
        from: Square { index: 48 },
        to,
        promotion: Some(role),
    })
}

#[test]
fn row_keys_stand_by_key_move_month_speed_and_group(rt: HostRuntime) -> Result<(), Fail> {
    let first = row_key(1, None);
    let a8 = Square { index: 56 };
    let b8 = Square { index: 57 };
    let later = Month {
        year: 2020,
        month: 2,
    };
    let ascending = [
        first,
        RowKey {
            group: Group { value: 2500 },
            ..first
        },
        RowKey {
            speed: Speed::Rapid,
            ..first
        },
        RowKey {
            month: later,
            ..first
        },
        row_key(1, Some(king_pawn())),
        row_key(1, promotes(a8, Role::Knight)),
        row_key(1, promotes(a8, Role::Queen)),
        row_key(1, promotes(b8, Role::Knight)),
        row_key(2, None),
    ];
    for pair in ascending.windows(2) {
        assert!(rt; pair[0] < pair[1]);
    }
    Ok(())
}

#[test]
fn combined_rows_have_the_sums(rt: HostRuntime) -> Result<(), Fail> {
    let played = row_key(1, Some(king_pawn()));
    let one = Row::of(&single(played, 5, Outcome::White, 1700, 3300));
    let other = Row::of(&single(played, 9, Outcome::White, 1650, 3310));
    assert!(rt; one.has_row_key_of(&other) && one.row_key() == played);
    let both = one.combine(&other);
    assert_eq!(rt;
        (both.white, both.draws, both.black, both.ratings),
        (2, 0, 0, 3350)
    );
    assert_eq!(rt; both.top.entries().len(), 2);
    Ok(())
}

#[test]
fn grids_sum_what_is_chosen(rt: HostRuntime) -> Result<(), Fail> {
    let row = Row::of(&single(row_key(1, Some(king_pawn())), 5, Outcome::Draw, 1700, 3300));
    let mut grid = Grid::<2, 3>::new();
    grid.add(1, 2, &row);
    let counted = Cell {
        totals: Totals {
            white: 0,
            draws: 1,
            black: 0,
        },
        ratings: 1700,
    };
    assert_eq!(rt; grid.sum_of(&[false, true], &[true, true, true]), counted);
    assert_eq!(rt;
        grid.sum_of(&[true, true], &[true, true, false]),
        Cell::default()
    );
    Ok(())
}
