//! What cutting is, in the words of the rule (PGN 8.1.1), and what a cutter gives in all.
ghost use Rattle.std.specs.Prelude.{◌≡◌, ◌↔◌, ◌<◌, ◌++◌, ℕ, List, Option, All, Contains, length, true};
ghost use Rattle.std.specs.List.{flat_map};
ghost use Rattle.explorer_model.specs.Cuts.{cuts, parted};
ghost use Rattle.pgn_cut.specs.Cut.{cuts_in};
ghost use Rattle.pgn_cut.specs.Runs.{Call, IsNew, Runs};
ghost use Rattle.pgn_cut.specs.Starts.{IsStart, places_of};
ghost use Rattle.pgn_cut.specs.declared.cut.Cut.{Cut as ACut};
ghost use Rattle.pgn_cut.specs.declared.cutter.Cutter.{Cutter as ACutter};

/// What stands before the first text and the texts make up the stream. Each text begins with a start, no other place is
/// one, and no text is empty.
pub fn texts_run_from_start_to_start()
    ensures whole { (bytes : List ℕ) → let parts = parted true bytes in
        parts.before ++ flat_map (λ text. text) parts.texts ≡ bytes }
    ensures starts { (bytes : List ℕ) (place : ℕ) → let parts = parted true bytes in
        IsStart bytes place ↔ Contains (places_of (length parts.before) parts.texts) place }
    ensures some { (bytes : List ℕ) → All (λ text. 0 < length text) (parted true bytes).texts }
{}

/// The pieces do not matter: the cuts of any calls and of the end are those of the bytes that were taken.
pub fn pieces_do_not_matter()
    ensures { (cutter : ACutter) (calls : List Call) (last : Option ACut)
        → IsNew cutter → Runs cutter calls last
        → flat_map (λ call. cuts_in call.cut) calls ++ cuts_in last
        ≡ cuts (flat_map (λ call. call.taken) calls) }
{}
