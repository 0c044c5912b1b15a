//! What one game counts for in one position.
ghost use Rattle.std.specs.Prelude.{◌≡◌};
ghost use Rattle.std.proofs.Common.{rules};
ghost use Rattle.std.specs.Cmp.{partial_order_from_own_ties};
ghost use Rattle.std.specs.Cmp.Rules.{comparing};
ghost use Rattle.std.specs.Ordering.{as_partial_cmp, eq_by_cmp};

use crate::RowKey;
use explorer_model::archive::Outcome;
use std::cmp::Ordering;

/// One game in one position that it visits.
#[derive(Clone, Copy, Debug)]
pub struct Single {
    pub row_key: RowKey,
    /// The game's place in the list of games, from 0.
    pub number: u32,
    pub outcome: Outcome,
    /// The rating of the side to move.
    pub rating: u16,
    /// The sum of both ratings.
    pub sum: u32,
}

// The parts come first, then the number. A game counts once in a position, so these tell a single.
impl PartialEq for Single {
    ghost use Rattle.tally_rows.specs.Single.{single_order, single_order-total};

    ghost eq = { eq_by_cmp single_order };

    ghost laws = { Prim.search (comparing, single_order-total, rules) };

    #[tactic(auto, unfolding(crate::specs::RowKey::row_order))]
    fn eq(&self, other: &Single) -> bool {
        self.cmp(other).is_eq()
    }
}

impl Eq for Single {
    ghost use Rattle.tally_rows.specs.Single.{single_order-total};

    ghost laws = { Prim.search (comparing, single_order-total, rules) };
}

impl Ord for Single {
    ghost use Rattle.tally_rows.specs.Single.{single_order, single_order-total};

    ghost cmp = { single_order };

    ghost total = { single_order-total };

    ghost matches_partial_cmp = { Prim.search (comparing, rules) };

    ghost matches_eq = { Prim.search (comparing, rules) };

    #[tactic(auto, unfolding(crate::specs::RowKey::row_order))]
    fn cmp(&self, other: &Single) -> Ordering {
        self.row_key
            .cmp(&other.row_key)
            .then(self.number.cmp(&other.number))
    }
}

impl PartialOrd for Single {
    ghost use Rattle.tally_rows.specs.Single.{single_order, single_order-total};

    ghost partial_cmp = { as_partial_cmp single_order };

    ghost laws = { partial_order_from_own_ties (Prim.search (comparing, single_order-total, rules))
        (Prim.search (comparing, rules)) };

    fn partial_cmp(&self, other: &Single) -> Option<Ordering> {
        Some(self.cmp(other))
    }
}
