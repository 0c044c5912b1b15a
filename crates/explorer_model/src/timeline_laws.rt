//! Laws of the timeline. Each is the contract of a function that has nothing to do.
ghost use Rattle.std.specs.Prelude.{ℕ, List, ◌++◌};
ghost use Rattle.explorer_model.specs.Timeline.{
  Timeline,
  Event,
  IsRun,
  IsSound,
  IsPrefix,
  run,
  seen_by,
};

/// Whatever happens, the cover covers the journal, and each pass has seen a prefix of it. No event
/// shortens what a pass has seen: that stays the beginning of all that it sees later.
pub fn every_run()
    ensures sound { (start : Timeline) (events : List Event) → IsRun start events
        → IsSound (run start events) }
    ensures grows { (start : Timeline) (events more : List Event) (pass : ℕ)
        → IsRun start (events ++ more)
        → IsPrefix (seen_by pass (run start events)) (seen_by pass (run start (events ++ more))) }
{}
