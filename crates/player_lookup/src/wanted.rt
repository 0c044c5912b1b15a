//! Which of a player's games a query takes, and as what they count.
ghost use Rattle.std.specs.Prelude.{◌≡◌, ◌<◌};
ghost use Rattle.explorer_model.specs.Board.{opponent};
ghost use Rattle.explorer_model.specs.Counting.{rating_of};
ghost use Rattle.explorer_model.specs.Players.{mode_index};
ghost use Rattle.player_lookup.specs.Kept.{is_taken, single_kept};

use explorer_model::archive::{Classes, Mode};
use explorer_model::chess::{Color, Move};
use explorer_model::player::PlayerQuery;
use packed_keys::PositionKey;
use row_sums::passes;
use tally_rows::{RowKey, Single};

/// Whether the query takes the mode, the speed and the month of a game.
#[tactic(auto, unfolding(crate::specs::Kept::is_taken))]
pub fn is_taken(query: &PlayerQuery, classes: &Classes) -> bool
    ensures { result ≡ is_taken query.now classes.now }
{
    query.modes[mode_index(classes.mode)] && passes(&query.query.filter, classes)
}

/// The place of a mode among the modes, 0 or 1.
fn mode_index(mode: Mode) -> usize
    ensures place { result ≡ mode_index mode }
    ensures within { result < 2 }
{
    match mode {
        Mode::Rated => 0,
        Mode::Casual => 1,
    }
}

/// What a game counts for in the position of the key, where `next` follows. Its rating is that of
/// the player who has not the colour.
pub fn single_of(
    key: &PositionKey,
    color: Color,
    number: u32,
    classes: &Classes,
    next: Option<Move>,
) -> Single
    ensures { result ≡ single_kept (rating_of (opponent color)) key.now number classes.now next }
{
    Single {
        row_key: RowKey {
            key: *key,
            next,
            month: classes.month,
            speed: classes.speed,
            group: classes.group,
        },
        number,
        outcome: classes.outcome,
        rating: rating_of(color.opponent(), classes),
        sum: u32::from(classes.white.rating) + u32::from(classes.black.rating),
    }
}

/// The rating of the player who has the colour.
fn rating_of(color: Color, classes: &Classes) -> u16
    ensures { result ≡ rating_of color classes.now }
{
    match color {
        Color::White => classes.white.rating,
        Color::Black => classes.black.rating,
    }
}
