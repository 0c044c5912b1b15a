//! Texts cut at a byte.
ghost use Rattle.std.specs.Prelude.{◌≡◌, ◌++◌};
ghost use Rattle.fen_uci.specs.Splits.{IsFreeOf, StopsAt};

/// What stands before the first such byte, and what stands from there on.
pub fn split_before(text: &[u8], byte: u8) -> (&[u8], &[u8])
    ensures joined { text.now ≡ result.0.now ++ result.1.now }
    ensures free { IsFreeOf byte result.0.now }
    ensures stops { StopsAt byte result.1.now }
{
    for (place, other) in text.iter().enumerate() {
        if *other == byte {
            return text.split_at(place);
        }
    }
    text.split_at(text.len())
}
