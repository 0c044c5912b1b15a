//! The months of rows, with the totals of each.
ghost use Rattle.std.specs.Prelude.{◌≡◌, ◌≤◌, map, IfOk, OnOk, length};
ghost use Rattle.std.specs.List.{All};
ghost use Rattle.explorer_model.specs.Counting.{month_number};
ghost use Rattle.row_sums.specs.Groups.{changed_at};
ghost use Rattle.row_sums.specs.GroupSums.{HasRoom, line_with, no_line, no_totals};
ghost use Rattle.row_sums.specs.Hits.{hit_as, AreSound};
ghost use Rattle.row_sums.specs.Sums.{months_in, month_line, history_in};

use crate::groups::Places;
use crate::hits::Hit;
use crate::totals::with_games;
use explorer_model::answer::{MonthLine, Totals};
use std::alloc::{AllocError, Global};
use tally_rows::month_number;

/// A line for each month of the rows, ascending.
pub fn history_of(alloc: Global, hits: &[Hit]) -> Result<Vec<MonthLine>, AllocError>
    requires { AreSound (map hit_as hits.now) }
    ensures { IfOk result (λ lines. lines.items ≡ history_in (map hit_as hits.now)) }
{
    let mut lines = lines_of_months(alloc, hits)?;
    lines.sort_unstable_by_key(
        |line|
            ensures { result ≡ month_number line.now.month }
        { month_number(line.month) },
    );
    Ok(lines)
}

/// A line for each month of the rows, as they first come.
fn lines_of_months(alloc: Global, hits: &[Hit]) -> Result<Vec<MonthLine>, AllocError>
    requires { AreSound (map hit_as hits.now) }
    ensures { IfOk result (λ lines. lines.items
        ≡ map (month_line (map hit_as hits.now)) (months_in (map hit_as hits.now))) }
{
    let mut places = Places::new(alloc);
    let mut lines = Vec::new(alloc);
    for hit in hits {
        let place = places.place_of(month_number(hit.month()), lines.len())?;
        add_hit(&mut lines, place, hit)?;
    }
    Ok(lines)
}

/// Adds the row to the line at the place, or behind the last one to a line of its own.
fn add_hit(lines: &mut Vec<MonthLine>, place: usize, hit: &Hit) -> Result<(), AllocError>
    requires room { All (λ line. HasRoom line.totals (hit_as hit.now).row) lines.old.items }
    requires alone { HasRoom no_totals (hit_as hit.now).row }
    requires place { place ≤ length lines.old.items }
    ensures { let row = (hit_as hit.now).row in OnOk result (lines.new.items
        ≡ changed_at (line_with row) (line_with row (no_line row.month)) place lines.old.items) }
{
    if place < lines.len() {
        let line = &lines[place];
        let totals = with_games(&line.totals, hit);
        lines[place] = MonthLine {
            month: line.month,
            totals,
        };
    } else {
        lines.push(MonthLine {
            month: hit.month(),
            totals: with_games(&Totals::default(), hit),
        })?;
    }
    Ok(())
}
