//! What rows of a position add up to: totals, moves, months, and the best games, which are found by
//! their numbers.
#![tactic(auto)]

mod best_games;
mod classes;
mod filter;
mod games;
mod groups;
mod history;
mod hits;
mod lines;
mod listing;
mod moves;
mod notation;
mod totals;

pub use best_games::{ListsGames, best_of};
pub use classes::{classes_of, count_games};
pub use filter::{passes, takes};
pub use games::Games;
pub use history::history_of;
pub use hits::Hit;
pub use lines::{average_of, only_game};
pub use listing::{listed_by_month, listed_by_rating};
pub use moves::{MoveSum, first_moves};
pub use notation::san_of;
pub use totals::totals_of;
