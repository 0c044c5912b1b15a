//! The game of a text, played.
ghost use Rattle.std.specs.Prelude.{◌≤◌, length};
ghost use Rattle.game_replay.specs.Replay.{GivesGame};

use crate::moves::moves_of;
use crate::score::{Scored, score};
use explorer_model::archive::Game;
use explorer_model::fault::{GameFault, Stop};
use std::alloc::Global;

/// The game of a text of at most 65,536 bytes, played from the position that its tag FEN sets up,
/// and without one from the starting position. A fault is the first of these: one of the grammar,
/// one of the tags, a tag FEN that is no position, no termination, a termination that is not the
/// tag's result, more than 1,024 moves; then the first token that names no single legal move, with
/// its ply, from 1, and its offset in the text.
pub fn replay(alloc: Global, text: &[u8]) -> Result<Game, Stop<GameFault>>
    requires { length text.now ≤ 65536 }
    ensures { GivesGame text.now result }
{
    let Scored {
        classes,
        root,
        spans,
    } = score(alloc, text)?;
    let moves = moves_of(alloc, text, &root, spans.as_slice())?;
    Ok(Game {
        classes,
        root: root.position(),
        moves,
    })
}
