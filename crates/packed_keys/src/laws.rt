//! The laws of keys. Each is the contract of a function that has nothing to do.
ghost use Rattle.std.specs.Prelude.{◌≡◌, ◌↔◌, ℕ, List, length};
ghost use Rattle.explorer_model.specs.declared.chess.Position.{Position};
ghost use Rattle.explorer_model.specs.Keys.{key, HasKey};

/// Two positions have equal keys exactly where they are equal.
pub fn equal_keys_mean_equal_positions()
    ensures { (p q : Position) → length p.squares ≡ 64 → length q.squares ≡ 64
        → (key p ≡ key q) ↔ (p ≡ q) }
{}

/// Bytes are the key of one position, or of none.
pub fn unpacked_is_determined()
    ensures { (bytes : List ℕ) (p q : Position) → HasKey p bytes → HasKey q bytes → p ≡ q }
{}
