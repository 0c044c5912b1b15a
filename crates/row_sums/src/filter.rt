//! Which rows and which games a filter takes.
ghost use Rattle.std.specs.Prelude.{◌≡◌, ◌==◌, false, position, slice_index_or};
ghost use Rattle.explorer_model.specs.Counting.{group_place, group_ratings, is_since, is_until, passes};
ghost use Rattle.tally_rows.specs.Cover.{passes_row_key};

use explorer_model::archive::{Classes, Group, Month};
use explorer_model::query::Filter;
use tally_rows::{RowKey, month_number};

/// The least ratings of the groups.
const GROUP_RATINGS: [u16; 9] = [0, 1000, 1200, 1400, 1600, 1800, 2000, 2200, 2500];

/// Whether the filter takes the speed, the group and the month of a row.
#[tactic(auto, unfolding(tally_rows::specs::Cover::passes_row_key))]
pub fn takes(filter: &Filter, row_key: &RowKey) -> bool
    ensures { result ≡ passes_row_key filter.now row_key.now }
{
    filter.speeds[usize::from(row_key.speed.index())]
        && is_in_groups(filter, row_key.group)
        && is_since(filter.since, row_key.month)
        && is_until(filter.until, row_key.month)
}

/// Whether the filter takes the speed, the group and the month of a game.
#[tactic(auto, unfolding(explorer_model::specs::Counting::passes))]
pub fn passes(filter: &Filter, classes: &Classes) -> bool
    ensures { result ≡ passes filter.now classes.now }
{
    filter.speeds[usize::from(classes.speed.index())]
        && is_in_groups(filter, classes.group)
        && is_since(filter.since, classes.month)
        && is_until(filter.until, classes.month)
}

/// The place of the group among the groups, 0 to 8, or None for a rating that is no group's least.
fn group_place(group: Group) -> Option<usize>
    ensures { result ≡ position (λ least. least == group.value) group_ratings }
{
    GROUP_RATINGS.iter().position(|least| *least == group.value)
}

fn is_in_groups(filter: &Filter, group: Group) -> bool
    ensures { result ≡ slice_index_or filter.now.groups (group_place group.value) false }
{
    match group_place(group) {
        Some(place) => filter.groups[place],
        None => false,
    }
}

fn is_since(since: Option<Month>, month: Month) -> bool
    ensures { result ≡ is_since since month }
{
    match since {
        Some(first) => month_number(first) <= month_number(month),
        None => true,
    }
}

fn is_until(until: Option<Month>, month: Month) -> bool
    ensures { result ≡ is_until until month }
{
    match until {
        Some(last) => month_number(month) <= month_number(last),
        None => true,
    }
}
