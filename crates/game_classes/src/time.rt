//! The speed and the month of a game, from its tags.
ghost use Rattle.std.specs.Prelude.{◌≡◌, ◌||◌, option_map, IfSome, codes, bytes_eq};
ghost use Rattle.std.specs.Str.{all_ascii_digits};
ghost use Rattle.explorer_model.specs.Classes.{clock_of, speed_of, control_of, month_of};
ghost use Rattle.game_classes.specs.Clocks.{clock, IsShort};

use crate::bytes::split_once;
use crate::tags::{digits_value, number_of};
use explorer_model::archive::{Month, Speed};
use explorer_model::bytes::are_digits;

/// The time that a game gives each player: seconds for the game, and seconds more for each move.
#[derive(Clone, Copy)]
struct TimeControl {
    base: u32,
    increment: u32,
}

#[tactic(auto, unfolding(explorer_model::specs::Classes::clock_of))]
fn clock_of(text: &[u8]) -> Option<TimeControl>
    ensures value { option_map clock result ≡ clock_of text.now }
    ensures short { IfSome result IsShort }
{
    match split_once(text, b'+') {
        Some((base, increment)) => Some(TimeControl {
            base: number_of(6, base)?,
            increment: number_of(6, increment)?,
        }),
        None => Some(TimeControl {
            base: number_of(6, text)?,
            increment: 0,
        }),
    }
}

#[tactic(auto, unfolding(explorer_model::specs::Classes::speed_of))]
fn speed_of(control: &TimeControl) -> Speed
    requires { IsShort control.now }
    ensures { result ≡ speed_of (clock control.now) }
{
    let duration = control.base + 40 * control.increment;
    if duration < 30 {
        Speed::UltraBullet
    } else if duration < 180 {
        Speed::Bullet
    } else if duration < 480 {
        Speed::Blitz
    } else if duration < 1500 {
        Speed::Rapid
    } else {
        Speed::Classical
    }
}

/// The speed of a time control: `-` is correspondence; else N or N+I, in seconds, each of one to
/// six digits.
#[tactic(auto, unfolding(explorer_model::specs::Classes::control_of))]
pub fn control_of(text: &[u8]) -> Option<Speed>
    ensures { result ≡ control_of text.now }
{
    if text == b"-".as_slice() {
        return Some(Speed::Correspondence);
    }
    Some(speed_of(&clock_of(text)?))
}

/// The month of a date `YYYY.MM.DD`, whose day may be `??`.
#[tactic(auto, unfolding(explorer_model::specs::Classes::month_of))]
pub fn month_of(text: &[u8]) -> Option<Month>
    ensures { result ≡ month_of text.now }
{
    if text.len() != 10 {
        return None;
    }
    if text[4] != b'.' || text[7] != b'.' {
        return None;
    }
    if !are_digits(&text[..4]) || !are_digits(&text[5..7]) || !is_day(&text[8..]) {
        return None;
    }
    let month = digits_value(&text[5..7]);
    if month < 1 || 12 < month {
        return None;
    }
    Some(Month {
        year: digits_value(&text[..4]) as u16,
        month: month as u8,
    })
}

/// Digits, or two question marks where the day is not known (PGN 8.1.1.3).
fn is_day(text: &[u8]) -> bool
    ensures { result ≡ (all_ascii_digits text.now || bytes_eq text.now (codes "??")) }
{
    are_digits(text) || text == b"??".as_slice()
}
