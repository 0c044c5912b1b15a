//! Games drawn from a generator.
ghost use Rattle.std.specs.Prelude.{◌≤◌, ◌<◌, IfOk, length};
ghost use Rattle.sample_games.specs.Samples.{IsSample};

use crate::draws::draw;
use crate::header::Header;
use crate::movetext::draw_movetext;
use explorer_model::archive::Bytes;
use rand_pcg::Lcg64Xsh32;
use std::alloc::{AllocError, Global};

/// The game of this number, drawn from the generator; `index` stands in its id and in the names of
/// its players.
pub fn sample(alloc: Global, index: u32, draws: &mut Lcg64Xsh32) -> Result<Bytes, AllocError>
    requires { index < 131072 }
    ensures sample { IfOk result (λ text. IsSample index draws.old text draws.new) }
    ensures short { IfOk result (λ text. length text ≤ 2048) }
{
    let plies = 20 + draw(draws, 41);
    let movetext = draw_movetext(alloc, plies, draws)?;
    let header = Header::draw(draws);
    let mut text = Vec::with_capacity(alloc, 1024)?;
    header.write(&mut text, index)?;
    text.push(b'\n')?;
    text.extend_from_slice(movetext.as_slice())?;
    text.extend_from_slice(header.result)?;
    text.extend_from_slice(b"\n\n")?;
    Ok(Bytes::from_vec(text))
}
