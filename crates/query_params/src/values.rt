//! What single values stand for.
ghost use Rattle.std.specs.Prelude.{◌≡◌, ◌≤◌, ◌<◌, ◌^◌, IfSome};
ghost use Rattle.explorer_model.specs.Classes.{number_of};
ghost use Rattle.explorer_model.specs.Query.{month_named, switch_named};

use explorer_model::archive::Month;

/// The number that one to `most` decimal digits write.
pub fn number_of(most: usize, text: &str) -> Option<u32>
    requires { most ≤ 9 }
    ensures value { result ≡ number_of most text.now }
    ensures short { IfSome result (λ number. number < 10 ^ most) }
{
    // `parse` takes a sign, which is no digit.
    if most < text.len() || text.starts_with('+') {
        return None;
    }
    text.parse().ok()
}

/// The month of `YYYY-MM`.
#[tactic(auto, unfolding(explorer_model::specs::Query::month_named))]
pub fn month_named(text: &str) -> Option<Month>
    ensures { result ≡ month_named text.now }
{
    if text.len() != 7 || text.as_bytes()[4] != b'-' {
        return None;
    }
    let year = number_of(4, &text[..4])?;
    match number_of(2, &text[5..])? {
        month @ 1..=12 => Some(Month {
            year: year as u16,
            month: month as u8,
        }),
        _ => None,
    }
}

/// `true` or `false`; None for another text.
#[tactic(auto, unfolding(explorer_model::specs::Query::switch_named))]
pub fn switch_named(text: &str) -> Option<bool>
    ensures { result ≡ switch_named text.now }
{
    if text == "true" {
        return Some(true);
    }
    if text == "false" {
        return Some(false);
    }
    None
}
