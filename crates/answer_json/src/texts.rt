//! The texts that stand in an answer beside the names of players.
ghost use Rattle.std.specs.Prelude.{◌≡◌};
ghost use Rattle.std.specs.Str.{IsAscii};
ghost use Rattle.explorer_model.specs.Answer.{speed_text, mode_text, digit, month_text};

use explorer_model::archive::{Mode, Month, Speed};

/// The text that plain bytes are.
pub fn text_of(bytes: &[u8]) -> &str
    requires { IsAscii bytes.now }
    ensures { result.now ≡ bytes.now }
{
    match str::from_utf8(bytes) {
        Ok(text) => text,
        Err(_) => "",
    }
}

/// The name of a speed, as parameters and answers write it.
pub fn speed_text(speed: Speed) -> &'static str
    ensures { result.now ≡ speed_text speed }
{
    match speed {
        Speed::UltraBullet => "ultraBullet",
        Speed::Bullet => "bullet",
        Speed::Blitz => "blitz",
        Speed::Rapid => "rapid",
        Speed::Classical => "classical",
        Speed::Correspondence => "correspondence",
    }
}

/// `rated` or `casual`.
pub fn mode_text(mode: Mode) -> &'static str
    ensures { result.now ≡ mode_text mode }
{
    match mode {
        Mode::Rated => "rated",
        Mode::Casual => "casual",
    }
}

/// The month as `YYYY-MM`.
pub fn month_text(month: Month) -> [u8; 7]
    ensures text { result ≡ month_text month }
    ensures plain { IsAscii result }
{
    let year = month.year;
    [
        digit(year / 1000),
        digit(year / 100),
        digit(year / 10),
        digit(year),
        b'-',
        digit((month.month / 10) as u16),
        digit(month.month as u16),
    ]
}

/// The last decimal digit.
fn digit(number: u16) -> u8
    ensures { result ≡ digit number }
{
    b'0' + (number % 10) as u8
}
