//! Laws of imports. Each is the contract of a function that has nothing to do.
ghost use Rattle.std.specs.Prelude.{◌≡◌, ◌<◌, ℕ, List, [], ◌∷◌, ◌++◌, None, Some, count_by, length};
ghost use Rattle.std.specs.List.{All};
ghost use Rattle.disk_model.specs.Disk.{LeavesOnly};
ghost use Rattle.explorer_model.specs.declared.archive.Batch.{Batch};
ghost use Rattle.explorer_model.specs.declared.archive.Game.{Game};
ghost use Rattle.explorer_model.specs.Imports.{group_limit, is_text};
ghost use Rattle.explorer_model.specs.Journal.{IsSound, input_limit};
ghost use Rattle.explorer_model.specs.Visits.{AreGamesOf};
ghost use Rattle.record_log.specs.Log.{EachImage};
ghost use Rattle.manifest.specs.Manifest.{HasJournal, IsWithOrWithoutBatch};
ghost use Rattle.segment_blocks.specs.Segment.{CountedSpan, IsSegment};
ghost use Rattle.published_index.specs.Cover.{IsList, journal_of};
ghost use Rattle.ingest_desk.specs.Alike.{StandAlike};
ghost use Rattle.ingest_desk.specs.Importers.{call_of};
ghost use Rattle.ingest_desk.specs.Installs.{list_by};
ghost use Rattle.ingest_desk.specs.Kept.{Keeps};
ghost use Rattle.ingest_desk.specs.Marked.{Marked};
ghost use Rattle.outside.specs.Stream.{Stream};
ghost use Rattle.ingest_desk.specs.Stored.{Stored, journal};
ghost use Rattle.ingest_desk.specs.declared.report.Report.{Report};
ghost use Rattle.ingest_desk.specs.declared.report.End.TheVariants as ends;
ghost use Rattle.import_run.specs.Alone.{ImportsAlone};
ghost use Rattle.import_run.specs.Determined.{AreAlike, ImportsBody, IsPlainEnd};
ghost use Rattle.import_run.specs.EndingBeside.{ComesBeside};
ghost use Rattle.import_run.specs.Faultless.{CanEnd, EndsWithoutFault, FindRoom, HasNewGames, IsFaultless, StoresAll};
ghost use Rattle.import_run.specs.Since.{HasSoundBehind};
ghost use Rattle.import_run.specs.SoFar.{ended_cuts};
ghost use Rattle.import_run.specs.Upkeep.{CountsItsSpan, Follows, FollowsAll};

use disk_model::Disk;
use game_replay::laws::game_is_determined;
use ingest_desk::laws::{fronts_are_sound, listing_is_determined};
use published_index::Index;

/// An import of a told stream below the bound into a store that is open, of which no read and no
/// call of the disk fails, settles all of the stream, unless a group finds no room or memory is
/// wanting.
pub fn an_import_without_faults_ends<D: Disk, J: Index>()
    ensures { (label : List ℕ) (source source_after : Stream) (before after : Stored D)
        (report : Report J)
        → ImportsAlone label D.disk D.left_since source before source_after after report
        → CanEnd D.disk source before → IsFaultless D.disk source source_after before after
        → EndsWithoutFault report.end }
{}

/// An import without faults into a store that is open, of a told stream below the bound that is texts
/// of new games alone and finds room, stores all of them, or memory is wanting.
pub fn new_games_are_stored<D: Disk, J: Index>()
    ensures { (label : List ℕ) (source source_after : Stream) (before after : Stored D)
        (report : Report J)
        (stored : List Game)
        → ImportsAlone label D.disk D.left_since source before source_after after report
        → (can : CanEnd D.disk source before)
        → IsFaultless D.disk source source_after before after
        → AreGamesOf (journal before) stored → (new : HasNewGames stored can.bytes)
        → FindRoom (journal before) new.texts
        → StoresAll report.end (journal before) new.texts report.refused.items (journal after) }
{
    game_is_determined();
}

/// Two imports into one store under one label store the same batches and refuse the same texts: where
/// both come to the end of one told stream; and where both took the same bytes, and a read failed
/// behind them or they came to the bound.
pub fn imports_are_determined<D: Disk, J: Index>()
    ensures whole { (label bytes : List ℕ) (source source_after source_other : Stream)
        (before after other_after : Stored D) (report other : Report J)
        → source.left ≡ Some bytes
        → (first : ImportsAlone label D.disk D.left_since source before source_after after report)
        → (second : ImportsAlone label D.disk D.left_since source before source_other other_after
        other)
        → report.end ≡ ends.Whole → other.end ≡ ends.Whole
        → (first.batches ≡ second.batches) × (report.refused.items ≡ other.refused.items) }
    ensures cut_off { (label : List ℕ) (source source_after source_other : Stream)
        (before after other_after : Stored D) (report other : Report J) (a b a' b' : ℕ)
        → (first : ImportsAlone label D.disk D.left_since source before source_after after report)
        → (second : ImportsAlone label D.disk D.left_since source before source_other other_after
        other)
        → first.stream ≡ second.stream
        → report.end ≡ ends.ReadFault a b → other.end ≡ ends.ReadFault a' b'
        → (first.batches ≡ second.batches) × (report.refused.items ≡ other.refused.items) }
    ensures too_much { (label : List ℕ) (source source_after source_other : Stream)
        (before after other_after : Stored D) (report other : Report J) (n n' : ℕ)
        → (first : ImportsAlone label D.disk D.left_since source before source_after after report)
        → (second : ImportsAlone label D.disk D.left_since source before source_other other_after
        other)
        → first.stream ≡ second.stream
        → report.end ≡ ends.TooMuch n → other.end ≡ ends.TooMuch n'
        → (first.batches ≡ second.batches) × (report.refused.items ≡ other.refused.items) }
{
    game_is_determined();
}

/// Two imports of one told stream into one store under one label have one end and come to the same,
/// unless a call of the disk or a read fails, the bound is reached or memory is wanting. Where the disk
/// fails, those come to the same that stored as many batches, and one batch has failed.
pub fn ends_are_determined<D: Disk, J: Index>()
    ensures plain { (label bytes : List ℕ) (source source_after source_other : Stream)
        (before after other_after : Stored D) (report other : Report J)
        → source.left ≡ Some bytes
        → (first : ImportsAlone label D.disk D.left_since source before source_after after report)
        → (second : ImportsAlone label D.disk D.left_since source before source_other other_after
        other)
        → IsPlainEnd report.end → IsPlainEnd other.end
        → AreAlike first.batches second.batches report other × (report.end ≡ other.end) }
    ensures disk_fault { (label bytes : List ℕ) (source source_after source_other : Stream)
        (before after other_after : Stored D) (report other : Report J) (a b a' b' : ℕ)
        (mark mark' : Marked) → source.left ≡ Some bytes
        → (first : ImportsAlone label D.disk D.left_since source before source_after after report)
        → (second : ImportsAlone label D.disk D.left_since source before source_other other_after
        other)
        → report.end ≡ ends.DiskFault a b mark → other.end ≡ ends.DiskFault a' b' mark'
        → length first.batches ≡ length second.batches
        → AreAlike first.batches second.batches report other
        × (after.failed ≡ other_after.failed) }
{
    game_is_determined();
}

/// Beside others too, nothing is stored of a text that has not ended, nor of a group that is not whole:
/// an import that took bytes in which fewer texts have ended than a group has, of a stream that goes on,
/// has no receipt, whatever its end.
pub fn what_has_not_ended_is_not_stored<J: Index>()
    ensures { (label stream rest : List ℕ) (byte : ℕ) (report : Report J)
        → length stream < input_limit → count_by is_text (ended_cuts stream) < group_limit
        → ComesBeside label stream (Some (byte ∷ rest)) report → report.receipts.items ≡ [] }
{}

/// Two importers over ingests of their own tell one call of one body into one store, but for these
/// ends.
pub fn calls_are_determined<D: Disk, J: Index>()
    ensures { (body : List ℕ) (before after other_after : Stored D) (report other : Report J)
        → ImportsBody D.disk D.left_since body before after report
        → ImportsBody D.disk D.left_since body before other_after other
        → IsPlainEnd report.end → IsPlainEnd other.end
        → call_of body report ≡ call_of body other }
{
    game_is_determined();
}

/// What is read of a disk that tells its content is the stored journal. After a disk fault the batch
/// that failed may stand behind it, and the journal is sound with it.
pub fn a_told_disk_has_the_journal<D: Disk>()
    ensures sound { (store : Stored D) (file : List ℕ)
        → (D.disk store.manifest.disk).content ≡ Some file
        → Keeps D.disk D.left_since (journal store) store.manifest store.failed
        → store.manifest.fault ≡ None → HasJournal (journal store) file }
    ensures closed { (store : Stored D) (file : List ℕ) (before after : ℕ)
        → (D.disk store.manifest.disk).content ≡ Some file
        → Keeps D.disk D.left_since (journal store) store.manifest store.failed
        → store.manifest.fault ≡ Some (before, after)
        → (batch : Batch) × (store.failed ≡ Some batch) × IsSound (journal store ++ batch ∷ [])
        × IsWithOrWithoutBatch (journal store) batch file }
{}

/// What a crash leaves of an import into an open store, at any moment of it, has a sound journal that
/// begins with the one before. So it is opened (`ingest_desk::laws::opening_is_determined`).
pub fn what_a_crash_leaves_is_sound<D: Disk, J: Index>()
    ensures { (label : List ℕ) (source source_after : Stream) (before after : Stored D)
        (report : Report J)
        → ImportsAlone label D.disk D.left_since source before source_after after report
        → before.manifest.fault ≡ None
        → EachImage D.disk D.left_since before.manifest.disk (HasJournal (journal before))
        → LeavesOnly D.disk D.left_since before.manifest.disk after.manifest.disk
        (HasSoundBehind (journal before)) }
{
    fronts_are_sound();
}

/// A list that followed batches has the journal that it had, with the batches behind it. A list of
/// segments that cover their journal stays one, and what its segments count stays the tally of their
/// texts.
pub fn a_list_that_follows_has_the_journal()
    ensures journal { (batches : List Batch) (list new : List CountedSpan)
        → FollowsAll batches list new → journal_of new ≡ journal_of list ++ batches }
    ensures list { (batches : List Batch) (list new : List CountedSpan) → IsList list
        → FollowsAll batches list new → IsList new }
    ensures counts { (segment : CountedSpan) → IsSegment segment → CountsItsSpan segment }
    ensures segments { (batches : List Batch) (list new : List CountedSpan)
        → All CountsItsSpan list → FollowsAll batches list new → All CountsItsSpan new }
{}

/// Lists that followed the same batches stand alike, where they were one list or stood alike: they have
/// as many segments, and these count the same one by one.
pub fn lists_that_follow_are_alike()
    ensures one { (batches : List Batch) (list first second : List CountedSpan)
        → FollowsAll batches list first → FollowsAll batches list second
        → StandAlike first second }
    ensures alike { (batches : List Batch) (list other first second : List CountedSpan)
        → StandAlike list other → FollowsAll batches list first
        → FollowsAll batches other second → StandAlike first second }
{
    listing_is_determined();
}

/// So of stores that kept up with what was stored behind one store: where they have the same journal,
/// their published lists stand alike.
pub fn stores_that_follow_are_alike<D: Disk>()
    ensures { (before after other : Stored D) → Follows before after → Follows before other
        → journal after ≡ journal other
        → StandAlike (list_by after.index) (list_by other.index) }
{
    listing_is_determined();
}
