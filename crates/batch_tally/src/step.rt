//! A position and the move behind it.
ghost use Rattle.std.specs.Prelude.{◌≡◌};
ghost use Rattle.batch_tally.specs.Tag.{tag_after, tag_of};

use explorer_model::chess::Move;
use packed_keys::PositionKey;
use tally_rows::word_at;

/// A position by the key of its tidy form, and the move that follows there, if the game goes on.
#[derive(Clone, Copy, Debug)]
pub struct Step {
    pub key: PositionKey,
    pub next: Option<Move>,
    /// A number that the key determines: steps whose tags differ have different keys.
    pub tag: u64,
    pub ghost told: { tag ≡ tag_of key },
}

/// The tag of a key: a number of its first 32 bytes, which tell most positions apart.
#[tactic(auto, unfolding(crate::specs::Tag::tag_of))]
pub fn tag_of(key: &PositionKey) -> u64
    ensures { result ≡ tag_of key.now }
{
    let half = tag_after(word_at(key, 0), word_at(key, 8));
    tag_after(tag_after(half, word_at(key, 16)), word_at(key, 24))
}

fn tag_after(tag: u64, word: u64) -> u64
    ensures { result ≡ tag_after tag word }
{
    tag.wrapping_mul(31).wrapping_add(word)
}
