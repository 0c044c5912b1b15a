//! What a store of the first format held at most.
ghost use Rattle.std.specs.Prelude.{◌≡◌, ◌<◌, ◌^◌, All, MatchOption, sum_by};
ghost use Rattle.manifest.specs.First.{IsBare, IsWithinFirst, PassesFirst};

use crate::encoding::size_of_all;
use explorer_model::archive::Batch;

/// The most games of a store of the first format.
const GAME_LIMIT: u64 = 131_072;

/// The most bytes of its texts.
const BYTE_LIMIT: u64 = 268_435_456;

/// The gate of the first batch with which these have more than a store of the first format had.
pub(crate) fn first_over(batches: &[Batch]) -> Option<u64>
    requires { All IsBare batches.now }
    ensures { MatchOption result (IsWithinFirst batches.now) (PassesFirst batches.now) }
{
    let mut games = 0;
    let mut bytes = 0;
    let mut gate = 12;
    for batch in batches {
        let count = batch.texts.as_slice().len() as u64;
        let size = size_of_all(batch.texts.as_slice()) as u64;
        games += count;
        bytes += size;
        if games > GAME_LIMIT {
            return Some(gate);
        }
        if bytes > BYTE_LIMIT {
            return Some(gate);
        }
        gate += 7 + 4 * count + size;
    }
    None
}
