//! Laws of commits, of jobs and of the lives of stores. Each is the contract of a function that has
//! nothing to do.
ghost use Rattle.std.specs.Prelude.{◌≡◌, ◌<◌, ◌++◌, [], ℕ, List, None, Option, Result, Some, length};
ghost use Rattle.disk_model.specs.Disk.{IsQuiet, LeavesOnly};
ghost use Rattle.explorer_model.specs.declared.archive.Batch.{Batch};
ghost use Rattle.explorer_model.specs.declared.archive.Game.{Game};
ghost use Rattle.explorer_model.specs.declared.store.LogFault.{LogFault};
ghost use Rattle.explorer_model.specs.Journal.{IsSound};
ghost use Rattle.explorer_model.specs.Spans.{Span};
ghost use Rattle.explorer_model.specs.Timeline.{IsPrefix};
ghost use Rattle.manifest.specs.Manifest.{HasJournal};
ghost use Rattle.record_log.specs.Log.{EachImage, Log};
ghost use Rattle.tally_rows.specs.Tally.{Counted};
ghost use Rattle.segment_blocks.specs.Segment.{CountedSpan};
ghost use Rattle.published_index.specs.Changes.{Change};
ghost use Rattle.published_index.specs.Calls.{Learns};
ghost use Rattle.published_index.specs.Cover.{journal_of, spans_of};
ghost use Rattle.published_index.specs.Places.{Drawing};
ghost use Rattle.published_index.specs.States.{IsPublishing, Publishing, Watching};
ghost use Rattle.ingest_desk.specs.Alike.{CountAlike, StandAlike};
ghost use Rattle.ingest_desk.specs.Answers.{Draws, HadMemory, IsAnswer};
ghost use Rattle.ingest_desk.specs.declared.fault.CommitFault.{CommitFault};
ghost use Rattle.ingest_desk.specs.declared.fault.InstallFault.{InstallFault};
ghost use Rattle.ingest_desk.specs.declared.receipt.Receipt.{Receipt};
ghost use Rattle.ingest_desk.specs.Histories.{AreSteps, MayBeLeft, Step, acknowledged_in};
ghost use Rattle.ingest_desk.specs.Installs.{Installs, IsDecided};
ghost use Rattle.ingest_desk.specs.Kept.{Keeps};
ghost use Rattle.ingest_desk.specs.Listing.{JoinsPicked, Lists, MakesRoom, PutsBehind};
ghost use Rattle.ingest_desk.specs.Lives.{
  AreAllowed,
  Failed,
  Life,
  LifeEvent,
  StandFrom,
  after,
  opening,
  run,
};
ghost use Rattle.ingest_desk.specs.Living.{
  BeginsWith,
  HasFailedBy,
  HasLived,
  IsClosedBy,
  IsCommit,
  IsFresh,
  IsOpening,
  IsReopened,
  IsRight,
  LivesOn,
  ReopensTo,
  StoresNothing,
  event_of,
};
ghost use Rattle.ingest_desk.specs.Openings.{IsWrong};
ghost use Rattle.ingest_desk.specs.Picking.{HasNoneDue, IsPicked};
ghost use Rattle.ingest_desk.specs.Stored.{Stored, journal};

use batch_tally::laws::tallies_are_determined;
use disk_model::Disk;
use published_index::Index;

/// A commit has one answer, want of memory aside, unless a call of the disk fails in one of two runs
/// and not in the other, which the manifest's fault tells. With an answer a drawer draws one thing.
pub fn commit_is_determined<D: Disk, J: Index>()
    ensures answer { (tally : Counted) (games : List Game) (journal : List Batch) (held : Option Change)
        (old new after : Log D) (answer other : Result (Receipt J) (CommitFault J))
        → IsAnswer D.disk tally games journal held old new answer
        → IsAnswer D.disk tally games journal held old after other
        → new.fault ≡ after.fault → HadMemory answer → HadMemory other → answer ≡ other }
    ensures drawn { (answer : Result (Receipt J) (CommitFault J)) (place : ℕ) (old mine yours : Drawing)
        → Draws answer place old mine → Draws answer place old yours → mine ≡ yours }
{}

/// A list has one pair that is to become one, or none. So there is one way to make room in it.
pub fn picking_is_determined()
    ensures picked { (list : List CountedSpan) (left right first second : CountedSpan)
        → IsPicked list left right → IsPicked list first second
        → (left ≡ first) × (right ≡ second) }
    ensures either { (list : List CountedSpan) (left right : CountedSpan) → HasNoneDue list
        → IsPicked list left right → ⊥ }
    ensures room { (list first second : List CountedSpan) → MakesRoom list first
        → MakesRoom list second → spans_of first ≡ spans_of second }
{}

/// What a commit and a join make of lists that stand alike stands alike: of one list there is one join,
/// or none, one way to make room, and one segment of a batch behind it.
pub fn listing_is_determined()
    ensures joins { (list other first second : List CountedSpan) → StandAlike list other
        → JoinsPicked list first → JoinsPicked other second → StandAlike first second }
    ensures either { (list other new : List CountedSpan) → StandAlike list other
        → HasNoneDue list → JoinsPicked other new → ⊥ }
    ensures room { (list other first second : List CountedSpan) → StandAlike list other
        → MakesRoom list first → MakesRoom other second → StandAlike first second }
    ensures puts { (batch : Batch) (list other first second : List CountedSpan)
        → StandAlike list other → PutsBehind batch list first
        → PutsBehind batch other second → StandAlike first second }
{
    tallies_are_determined();
}

/// What is published after a commit is one thing, want of memory aside: by the answer, and by what was
/// published and held before.
pub fn what_is_listed_is_determined<J: Index>()
    ensures { (answer : Result (Receipt J) (CommitFault J)) (batch : Batch) (old : Publishing)
        (first second : List CountedSpan) → HadMemory answer → Lists answer batch old first
        → Lists answer batch old second → StandAlike first second }
{
    tallies_are_determined();
}

/// What becomes of two neighbours that were merged is one thing, want of memory aside: their segment
/// stands in their one place, or they are gone. Segments that count alike leave lists that stand
/// alike.
pub fn installing_is_determined()
    ensures same { (left right : Span) (merged : CountedSpan) (old new after : Publishing)
        (answer other : Result (List Batch) InstallFault) → IsPublishing old
        → 0 < length left.batches → Installs left right merged old new answer
        → Installs left right merged old after other → IsDecided answer → IsDecided other
        → (answer ≡ other) × (new ≡ after) }
    ensures alike { (left right : Span) (merged joined : CountedSpan)
        (old new after : Publishing) (answer other : Result (List Batch) InstallFault)
        → IsPublishing old → 0 < length left.batches → CountAlike merged joined
        → Installs left right merged old new answer
        → Installs left right joined old after other → IsDecided answer → IsDecided other
        → (answer ≡ other) × StandAlike new.list after.list }
{}

/// A file is opened with one answer, want of memory and faults of the disk aside: with this journal,
/// or with this fault. A file whose journal is sound has no fault.
pub fn opening_is_determined()
    ensures opened { (file : List ℕ) (journal other : List Batch)
        → HasJournal journal file → HasJournal other file → journal ≡ other }
    ensures refused { (file : List ℕ) (fault other : LogFault)
        → IsWrong fault file → IsWrong other file → fault ≡ other }
    ensures either { (file : List ℕ) (journal : List Batch) (fault : LogFault)
        → HasJournal journal file → IsSound journal → IsWrong fault file → ⊥ }
{}

/// The front of a sound journal is sound.
pub fn fronts_are_sound()
    ensures { (front rest : List Batch) → IsSound (front ++ rest) → IsSound front }
{}

/// Whatever becomes of a store, the journal that it was opened with begins its journal, and what was
/// acknowledged since stands behind it, in its order. Neither is ever taken back.
pub fn every_life()
    ensures begins { (opened : List Batch) (events : List LifeEvent)
        → AreAllowed (opening opened) events
        → IsPrefix opened (run (opening opened) events).journal }
    ensures acknowledged { (opened : List Batch) (events : List LifeEvent)
        → AreAllowed (opening opened) events
        → StandFrom (length opened) (run (opening opened) events).journal
        (run (opening opened) events).acknowledged }
    ensures grows { (opened : List Batch) (events more : List LifeEvent)
        → AreAllowed (opening opened) (events ++ more)
        → IsPrefix (run (opening opened) events).journal
        (run (opening opened) (events ++ more)).journal }
    ensures acknowledges { (opened : List Batch) (events more : List LifeEvent)
        → AreAllowed (opening opened) (events ++ more)
        → IsPrefix (run (opening opened) events).acknowledged
        (run (opening opened) (events ++ more)).acknowledged }
{}

/// Each answer of a commit is an event in the life of its store, or none, where the store stays as it
/// was. A crash meanwhile is a commit that failed, and then an opening.
pub fn commits_are_events<D: Disk, J: Index>()
    ensures answers { (life : Life) (tally : Counted) (old new : Stored D)
        (answer : Result (Receipt J) (CommitFault J))
        → IsCommit D.disk D.left_since tally old new answer
        → HasLived D.disk D.left_since life old
        → LivesOn D.disk D.left_since life (event_of answer tally.batch) new }
    ensures crash { (life : Life) (tally : Counted) (old new : Stored D)
        (answer : Result (Receipt J) (CommitFault J))
        → IsCommit D.disk D.left_since tally old new answer
        → HasLived D.disk D.left_since life old → old.manifest.fault ≡ None
        → LeavesOnly D.disk D.left_since old.manifest.disk new.manifest.disk
        (ReopensTo (after life (Failed tally.batch))) }
    ensures others { (life : Life) (old new : Stored D) → StoresNothing old new
        → HasLived D.disk D.left_since life old → HasLived D.disk D.left_since life new }
{}

/// A new store begins a life, and so does an opening, which goes on with the life that left its file:
/// what a crash leaves, and what a disk reads that is given back. Nothing is wrong with such a file,
/// and an opening that fails leaves what stood there.
pub fn openings_are_events<D: Disk>()
    ensures fresh { (store : Stored D) → IsFresh D.disk D.left_since store
        → HasLived D.disk D.left_since (opening []) store }
    ensures begins { (file : List ℕ) (store : Stored D)
        → IsOpening D.disk D.left_since file store
        → HasLived D.disk D.left_since (opening (journal store)) store }
    ensures opens { (life : Life) (file : List ℕ) (store : Stored D)
        → IsOpening D.disk D.left_since file store → ReopensTo life file
        → IsReopened D.disk D.left_since life store }
    ensures left { (life : Life) (store : Stored D) → HasLived D.disk D.left_since life store
        → EachImage D.disk D.left_since store.manifest.disk (ReopensTo life) }
    ensures read { (life : Life) (file : List ℕ) (store : Stored D)
        → HasLived D.disk D.left_since life store
        → (D.disk store.manifest.disk).content ≡ Some file → ReopensTo life file }
    ensures right { (life : Life) (file : List ℕ) → ReopensTo life file → IsRight file }
    ensures quiet { (life : Life) (before later : D)
        → EachImage D.disk D.left_since before (ReopensTo life)
        → IsQuiet D.disk D.left_since before later
        → EachImage D.disk D.left_since later (ReopensTo life) }
{}

/// A disk fault closes a store, and each later commit answers so, with the counts of that fault, and
/// stores nothing.
pub fn closed_stores_stay_closed<D: Disk, J: Index>()
    ensures closes { (tally : Counted) (old new : Stored D) (before later : ℕ)
        (answer : Result (Receipt J) (CommitFault J))
        → IsCommit D.disk D.left_since tally old new answer → HasFailedBy before later answer
        → new.manifest.fault ≡ Some (before, later) }
    ensures stays { (tally : Counted) (old new : Stored D) (before later : ℕ)
        (answer : Result (Receipt J) (CommitFault J))
        → IsCommit D.disk D.left_since tally old new answer
        → old.manifest.fault ≡ Some (before, later)
        → IsClosedBy before later answer × StoresNothing old new }
{}

/// Whatever happens to a store, the journal that it was opened with begins its journal, and behind it
/// stand the batches of all commits that answered Ok, in their order: through commits, disk faults,
/// want of memory, crashes at any moment, and openings. Nothing is wrong with a file that a crash
/// leaves then.
pub fn what_is_acknowledged_stays<D: Disk, J: Index>()
    ensures begins { (first last : Stored D) (steps : List (Step J))
        → HasLived D.disk D.left_since (opening (journal first)) first
        → AreSteps D.disk D.left_since first steps last
        → IsPrefix (journal first) (journal last) }
    ensures stands { (first last : Stored D) (steps : List (Step J))
        → HasLived D.disk D.left_since (opening (journal first)) first
        → AreSteps D.disk D.left_since first steps last
        → StandFrom (length (journal first)) (journal last) (acknowledged_in steps) }
    ensures right { (first last : Stored D) (steps : List (Step J)) (file : List ℕ)
        → HasLived D.disk D.left_since (opening (journal first)) first
        → AreSteps D.disk D.left_since first steps last
        → MayBeLeft J D.disk D.left_since last file → IsRight file }
{}

/// What a pass has seen that was confirmed begins the journal of each file that a crash leaves, and so
/// does what is published. What a note tells is published where a pass has learnt it, and then the
/// publisher's, and knows no more than that.
pub fn what_was_told_outlives_a_crash<D: Disk>()
    ensures published { (store : Stored D)
        → Keeps D.disk D.left_since (journal store) store.manifest store.failed
        → EachImage D.disk D.left_since store.manifest.disk
        (BeginsWith (journal_of store.index.list)) }
    ensures seen { (store : Stored D) (seen : List Batch) → IsPrefix seen (journal store)
        → Keeps D.disk D.left_since (journal store) store.manifest store.failed
        → EachImage D.disk D.left_since store.manifest.disk (BeginsWith seen) }
    ensures told { (first second third : Watching) (note : List Batch) (list : List CountedSpan)
        → Learns first second note → Learns second third (journal_of list)
        → length third.seen ≡ length (journal_of list) → IsPrefix note (journal_of list) }
{}
