//! Laws of keys by what they have in common. Each is the contract of a function that has nothing to
//! do.
ghost use Rattle.std.specs.Prelude.{◌≡◌, ◌<◌, ℕ, List, false};
ghost use Rattle.std.specs.declared.cmp.Ordering.TheVariants.{Less};
ghost use Rattle.std.specs.Cmp.Lexicographic.{slice_cmp};
ghost use Rattle.std.specs.Ordering.{nat_cmp, is_gt};
ghost use Rattle.segment_blocks.specs.Prefix.{common_len};

/// Of two keys of which neither stands before `last`, the one that has more bytes in common with it
/// comes first, and the other one has as many in common with that one as with `last`.
pub fn longer_prefix_comes_first()
    ensures first { (last a b : List ℕ) → common_len last b < common_len last a
        → is_gt (slice_cmp nat_cmp last b) ≡ false → slice_cmp nat_cmp a b ≡ Less }
    ensures stays { (last a b : List ℕ) → common_len last b < common_len last a
        → common_len a b ≡ common_len last b }
{}
