//! A row: games with five parts in common, counted.
ghost use Rattle.std.specs.Prelude.{◌≡◌, ◌+◌, ◌<◌, ◌^◌, cond, is_some};
ghost use Rattle.explorer_model.specs.Counting.{month_number};
ghost use Rattle.tally_rows.specs.RowKey.{same_row_key};
ghost use Rattle.tally_rows.specs.Row.{row_key_of, combined, row_of, rating_entries, month_entries, is_white, is_draw, is_black, Fit, HasRoomForOne};

use crate::{RowKey, Single};
use best_lists::{Best4, ByMonth, ByRating};
use explorer_model::archive::{Group, Month, Outcome, Speed};
use explorer_model::chess::Move;
use packed_keys::PositionKey;

/// The games that visit a position and have there the same next move, month, speed and group.
#[derive(Clone, Debug, PartialEq, Eq, Drop)]
pub struct Row {
    /// The position's key.
    pub key: PositionKey,
    /// The move that was played there, or None where the games end there.
    pub next: Option<Move>,
    pub month: Month,
    pub speed: Speed,
    pub group: Group,
    /// How many of the games White won.
    pub white: u32,
    pub draws: u32,
    /// How many of the games Black won.
    pub black: u32,
    /// The sum of the ratings of those who played the move; 0 without one.
    pub ratings: u64,
    /// The best games by the sum of both ratings; none without a move.
    pub top: Best4<ByRating>,
    /// The latest games, by `12 * year + month`; none without a move.
    pub recent: Best4<ByMonth>,
}

impl Row {
    /// What the row's games have in common.
    pub fn row_key(&self) -> RowKey
        ensures { result ≡ row_key_of self.now }
    {
        RowKey {
            key: self.key,
            next: self.next,
            month: self.month,
            speed: self.speed,
            group: self.group,
        }
    }

    /// Whether both rows count games with the same five parts.
    #[tactic(auto, unfolding(crate::specs::RowKey::same_row_key, crate::specs::RowKey::row_order))]
    pub fn has_row_key_of(&self, other: &Row) -> bool
        ensures { result ≡ same_row_key (row_key_of self.now) (row_key_of other.now) }
    {
        self.row_key().cmp(&other.row_key()).is_eq()
    }

    /// The same row once more.
    pub fn copy(&self) -> Row
        ensures { result ≡ self.now }
    {
        // Each list is its own best four, as its entries say.
        let _top = self.top.entries();
        let _recent = self.recent.entries();
        Row {
            key: self.key,
            next: self.next,
            month: self.month,
            speed: self.speed,
            group: self.group,
            white: self.white,
            draws: self.draws,
            black: self.black,
            ratings: self.ratings,
            top: self.top.join(&Best4::empty()),
            recent: self.recent.join(&Best4::empty()),
        }
    }

    /// The row of one game.
    #[inline(always)]
    #[tactic(auto, unfolding(crate::specs::Row::row_of))]
    pub fn of(single: &Single) -> Row
        ensures row { result ≡ row_of single.now }
        ensures small { result.ratings < 2 ^ 16 }
    {
        let (white, draws, black) = counts_of(single.outcome);
        Row {
            key: single.row_key.key,
            next: single.row_key.next,
            month: single.row_key.month,
            speed: single.row_key.speed,
            group: single.row_key.group,
            white,
            draws,
            black,
            ratings: ratings_of(single),
            top: top_of(single),
            recent: recent_of(single),
        }
    }

    /// Counts one more game. A game that is counted already counts twice.
    #[tactic(auto, unfolding(crate::specs::Row::combined, crate::specs::Row::row_of))]
    pub fn add(&mut self, single: &Single)
        requires same { row_key_of self.old ≡ single.now.row_key }
        requires room { HasRoomForOne self.old }
        ensures row { self.new ≡ combined self.old (row_of single.now) }
        ensures small { self.new.ratings < self.old.ratings + 2 ^ 16 }
    {
        let (white, draws, black) = counts_of(single.outcome);
        self.white += white;
        self.draws += draws;
        self.black += black;
        self.ratings += ratings_of(single);
        self.top = self.top.join(&top_of(single));
        self.recent = self.recent.join(&recent_of(single));
    }

    /// The row of the games of both. A game that counts in both counts twice.
    #[tactic(auto, unfolding(crate::specs::Row::combined))]
    pub fn combine(&self, other: &Row) -> Row
        requires same { row_key_of self.now ≡ row_key_of other.now }
        requires fit { Fit self.now other.now }
        ensures { result ≡ combined self.now other.now }
    {
        Row {
            key: self.key,
            next: self.next,
            month: self.month,
            speed: self.speed,
            group: self.group,
            white: self.white + other.white,
            draws: self.draws + other.draws,
            black: self.black + other.black,
            ratings: self.ratings + other.ratings,
            top: self.top.join(&other.top),
            recent: self.recent.join(&other.recent),
        }
    }
}

/// One game, counted for White, as a draw or for Black.
pub fn counts_of(outcome: Outcome) -> (u32, u32, u32)
    ensures white { result.0 ≡ cond (is_white outcome) 1 0 }
    ensures draws { result.1 ≡ cond (is_draw outcome) 1 0 }
    ensures black { result.2 ≡ cond (is_black outcome) 1 0 }
{
    match outcome {
        Outcome::White => (1, 0, 0),
        Outcome::Draw => (0, 1, 0),
        Outcome::Black => (0, 0, 1),
    }
}

/// The rating of the side to move, where it moves.
fn ratings_of(single: &Single) -> u64
    ensures rating { result ≡ cond (is_some single.now.row_key.next) single.now.rating 0 }
    ensures small { result < 2 ^ 16 }
{
    if single.row_key.next.is_some() {
        u64::from(single.rating)
    } else {
        0
    }
}

/// The game by the sum of both ratings, where a move follows.
fn top_of(single: &Single) -> Best4<ByRating>
    ensures { result ≡ rating_entries single.now }
{
    if single.row_key.next.is_some() {
        Best4::one(single.sum, single.number)
    } else {
        Best4::empty()
    }
}

/// The game by its month, where a move follows.
fn recent_of(single: &Single) -> Best4<ByMonth>
    ensures { result ≡ month_entries single.now }
{
    if single.row_key.next.is_some() {
        Best4::one(month_number(single.row_key.month), single.number)
    } else {
        Best4::empty()
    }
}

/// Months in their order in time.
pub fn month_number(month: Month) -> u32
    ensures { result ≡ month_number month }
{
    12 * u32::from(month.year) + u32::from(month.month)
}
