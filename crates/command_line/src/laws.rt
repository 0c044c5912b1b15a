//! Laws of words.
ghost use Rattle.std.specs.Prelude.{◌≡◌, ◌≢◌, ◌↔◌, List, None, []};
ghost use Rattle.clap.specs.Faults.{fault_of};
ghost use Rattle.clap.specs.Walk.{Text};
ghost use Rattle.command_line.specs.Task.{explorer_app, task_of};

/// The command line refuses words exactly where they ask for nothing.
pub fn refused_words_ask_for_nothing()
    ensures { (words : List Text) → (task_of words ≡ None) ↔ (fault_of explorer_app words ≢ []) }
{}
