//! Laws of indexes. Each is the contract of a function that only cites laws below it.
ghost use Rattle.std.specs.Prelude.{◌≡◌, List};
ghost use Rattle.explorer_model.specs.declared.archive.Batch.{Batch};
ghost use Rattle.explorer_model.specs.declared.archive.Classes.{Classes};
ghost use Rattle.player_index.specs.Index.{AreClassesOf, Indexed, IsIndexed};

use game_replay::laws::game_is_determined;

/// A journal has one list of what the tags of its games say, and an index of it one list of
/// entries, however it came to cover the journal.
pub fn entries_are_determined()
    ensures classes { (journal : List Batch) (classes others : List Classes)
        → AreClassesOf journal classes → AreClassesOf journal others → classes ≡ others }
    ensures entries { (index other : Indexed) → IsIndexed index → IsIndexed other
        → index.batches ≡ other.batches → index.entries ≡ other.entries }
{
    game_is_determined();
}
