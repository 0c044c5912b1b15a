//! Whether a game is rated, from its tag Event.
ghost use Rattle.std.specs.Prelude.{◌≡◌};
ghost use Rattle.explorer_model.specs.Classes.{mode_of};

use crate::bytes::split_once;
use explorer_model::archive::Mode;

/// Rated where the first word is `rated`, in any case of letters.
#[tactic(auto, unfolding(explorer_model::specs::Classes::mode_of))]
pub fn mode_of(event: &[u8]) -> Mode
    ensures { result ≡ mode_of event.now }
{
    let word = match split_once(event, b' ') {
        Some((word, _)) => word,
        None => event,
    };
    if word.eq_ignore_ascii_case(b"rated") {
        Mode::Rated
    } else {
        Mode::Casual
    }
}
