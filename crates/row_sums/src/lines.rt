//! What the line of a move shows.
ghost use Rattle.std.specs.Prelude.{◌≡◌, ◌/◌, ◌*◌, ◌<◌, ◌≤◌, IfOk};
ghost use Rattle.explorer_model.specs.Counting.{total};
ghost use Rattle.row_sums.specs.Hits.{look_limit};
ghost use Rattle.row_sums.specs.Listing.{shown_game};

use crate::games::Games;
use crate::listing::listed_game;
use crate::moves::{MoveSum, Shown};
use explorer_model::answer::Listed;
use std::alloc::AllocError;

/// The mean rating of those who played the move, rounded down.
pub fn average_of(sum: &MoveSum) -> u32
    requires played { 0 < total sum.now.totals }
    requires few { total sum.now.totals ≤ look_limit }
    requires rated { sum.now.ratings ≤ 65535 * total sum.now.totals }
    ensures { result ≡ sum.now.ratings / total sum.now.totals }
{
    (sum.ratings / (sum.totals.white + sum.totals.draws + sum.totals.black)) as u32
}

/// The game of a move that just one game plays.
pub fn only_game<G: Games>(games: &G, sum: &MoveSum) -> Result<Option<Listed>, AllocError>
    ensures { IfOk result (λ game. game
        ≡ shown_game (G.classes games.now) sum.now.next sum.now.shown) }
{
    match sum.shown {
        Shown::One(entry) => listed_game(games, sum.next, entry.number),
        Shown::Nothing | Shown::Several => Ok(None),
    }
}
