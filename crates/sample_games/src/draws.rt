//! Draws from a generator.
ghost use Rattle.std.specs.Prelude.{◌≡◌, ◌<◌};
ghost use Rattle.sample_games.specs.Samples.{drawn, later};

use rand_core::utils::NextWord;
use rand_pcg::Lcg64Xsh32;

/// A draw below `n`: the next word, modulo `n`.
pub fn draw(draws: &mut Lcg64Xsh32, n: u32) -> u32
    requires { 0 < n }
    ensures value { result ≡ drawn n draws.old }
    ensures below { result < n }
    ensures later { draws.new ≡ later draws.old }
{
    draws.next_word() % n
}
