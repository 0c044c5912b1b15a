//! What holds of each sample.
ghost use Rattle.std.specs.Prelude.{◌≡◌, ◌<◌, ℕ, List};
ghost use Rattle.explorer_model.specs.Cuts.{cuts, cuts_of};
ghost use Rattle.rand_pcg.specs.Lcg.{Lcg};
ghost use Rattle.sample_games.specs.Samples.{id_text, IsSample, HasGame};
ghost use Rattle.sample_games.specs.Streams.{AreSamples, joined};

/// Each sample has a game, with the moves that were drawn and the id of its number.
pub fn samples_have_games()
    ensures { (index : ℕ) (before behind : Lcg) (text : List ℕ)
        → (sample : IsSample index before text behind) → HasGame index text sample.moves }
{
    // laws: what is written is read; a legal move leaves a valid position
    san_codec::laws::written_is_read();
    legal_moves::laws::legal_moves_keep_validity();
}

/// Samples of different numbers have different ids.
pub fn ids_differ()
    ensures { (number other : ℕ) → number < 131072 → other < 131072
        → id_text number ≡ id_text other → number ≡ other }
{}

/// A stream of samples, one behind another, is cut into them.
pub fn streams_are_cut_into_samples()
    ensures { (first : ℕ) (before behind : Lcg) (texts : List (List ℕ))
        → AreSamples first before texts behind → cuts (joined texts) ≡ cuts_of 0 texts }
{}

/// A number and a generator have one sample, and one state of the generator behind it.
pub fn samples_are_determined()
    ensures { (index : ℕ) (before behind other_behind : Lcg) (text other : List ℕ)
        → IsSample index before text behind → IsSample index before other other_behind
        → (text ≡ other) × (behind ≡ other_behind) }
{
    // law: a move has one written form
    san_codec::laws::notation_is_determined();
}
