//! The id of a game, from its tag Site.
ghost use Rattle.std.specs.Prelude.{◌≡◌};
ghost use Rattle.std.specs.List.{list_all};
ghost use Rattle.std.specs.Char.{is_ascii_alphanumeric};
ghost use Rattle.explorer_model.specs.Classes.{id_of};

use crate::bytes::after_last;
use explorer_model::archive::GameId;

/// The eight letters or digits after the last slash.
#[tactic(auto, unfolding(explorer_model::specs::Classes::id_of))]
pub fn id_of(site: &[u8]) -> Option<GameId>
    ensures { result ≡ id_of site.now }
{
    let id = after_last(site, b'/')?;
    if id.len() != 8 || !are_alphanumeric(id) {
        return None;
    }
    let mut bytes = [0; 8];
    bytes.copy_from_slice(id);
    Some(GameId { bytes })
}

/// Every byte is a letter or a digit.
fn are_alphanumeric(text: &[u8]) -> bool
    ensures { result ≡ list_all is_ascii_alphanumeric text.now }
{
    for byte in text {
        if !byte.is_ascii_alphanumeric() {
            return false;
        }
    }
    true
}
