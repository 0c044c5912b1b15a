//! Laws of the published index. Each is the contract of a function that has nothing to do.
ghost use Rattle.std.specs.Prelude.{
  ◌≡◌,
  ℕ,
  ◌≤◌,
  List,
  [],
  ◌∷◌,
  Option,
  Ok,
  length,
  replicate,
  slice_set,
};
ghost use Rattle.explorer_model.specs.declared.archive.Batch.{Batch};
ghost use Rattle.explorer_model.specs.Timeline.{
  IsPrefix,
  IsStart,
  Put,
  Join,
  Enter,
  Learn,
  after,
  seen_by,
};
ghost use Rattle.segment_blocks.specs.Segment.{CountedSpan};
ghost use Rattle.published_index.specs.Cover.{IsList, journal_of};
ghost use Rattle.published_index.specs.Changes.{Change, AddOf, JoinAt, CanAdd, CanJoin};
ghost use Rattle.published_index.specs.States.{Publishing, Watching};
ghost use Rattle.published_index.specs.Calls.{Publishes, Retries, Sees, Learns};
ghost use Rattle.published_index.specs.Events.{timeline};

/// Whatever happens on a timeline, its cover covers its journal, and no pass ever sees less.
pub use explorer_model::timeline_laws::every_run;

/// The calls of an index are the events of the timeline of its list: an index begins at a start, a
/// `put` is a Put, a `replace` a Join, an `enter` an Enter, and a `learn` a Learn.
pub fn calls_are_events()
    ensures start { (list : List CountedSpan) (readers : ℕ) → IsList list
        → 1 ≤ readers → readers ≤ 64
        → IsStart (timeline list (replicate readers (journal_of list))) }
    ensures put { (old new : Publishing) (segment : CountedSpan) (note : List Batch) (batch : Batch)
        (passes : List (List Batch)) → CanAdd old.list segment
        → segment.span.batches ≡ batch ∷ [] → Publishes old new (AddOf segment) note
        → timeline new.list passes ≡ after (timeline old.list passes) (Put batch) }
    ensures join { (old new : Publishing) (at : ℕ) (segment : CountedSpan) (note : List Batch)
        (passes : List (List Batch)) → CanJoin old.list at segment
        → Publishes old new (JoinAt at segment) note
        → timeline new.list passes ≡ after (timeline old.list passes) (Join at) }
    ensures enter { (old new : Watching) (list : List CountedSpan) (passes : List (List Batch))
        (pass : ℕ) → Sees old new list
        → timeline list (slice_set passes pass new.seen)
        ≡ after (timeline list passes) (Enter pass) }
    ensures learn { (old new : Watching) (note : List Batch) (list : List CountedSpan)
        (passes : List (List Batch)) (pass : ℕ) → IsPrefix note (journal_of list)
        → seen_by pass (timeline list passes) ≡ old.seen → Learns old new note
        → timeline list (slice_set passes pass new.seen)
        ≡ after (timeline list passes) (Learn pass (length note)) }
{}

/// Two answers of one call are the same, want of memory aside.
pub fn answers_are_determined()
    ensures put { (old one two : Publishing) (change : Change) (note other : List Batch)
        → Publishes old one change note → Publishes old two change other
        → (one ≡ two) × (note ≡ other) }
    ensures retry { (old one two : Publishing) (held : Option Change)
        (told other : Option (List Batch)) → Retries {E = ℕ} old one held (Ok told)
        → Retries {E = ℕ} old two held (Ok other) → (one ≡ two) × (told ≡ other) }
    ensures enter { (old one two : Watching) (list : List CountedSpan)
        → Sees old one list → Sees old two list → one ≡ two }
    ensures learn { (old one two : Watching) (note : List Batch)
        → Learns old one note → Learns old two note → one ≡ two }
{}
