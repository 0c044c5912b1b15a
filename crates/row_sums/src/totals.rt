//! How many games rows count.
ghost use Rattle.std.specs.Prelude.{◌≡◌, map};
ghost use Rattle.row_sums.specs.GroupSums.{HasRoom, totals_with};
ghost use Rattle.row_sums.specs.Hits.{AreSound, hit_as};
ghost use Rattle.row_sums.specs.Sums.{any_row, totals_where};

use crate::hits::Hit;
use explorer_model::answer::Totals;

/// How many games of each outcome the rows count.
pub fn totals_of(hits: &[Hit]) -> Totals
    requires { AreSound (map hit_as hits.now) }
    ensures { result ≡ totals_where (map hit_as hits.now) any_row }
{
    let mut totals = Totals::default();
    for hit in hits {
        totals = with_games(&totals, hit);
    }
    totals
}

/// The totals with the games of the row.
pub fn with_games(totals: &Totals, hit: &Hit) -> Totals
    requires { HasRoom totals.now (hit_as hit.now).row }
    ensures { result ≡ totals_with (hit_as hit.now).row totals.now }
{
    let (white, draws, black) = hit.outcomes();
    Totals {
        white: totals.white + u64::from(white),
        draws: totals.draws + u64::from(draws),
        black: totals.black + u64::from(black),
    }
}
