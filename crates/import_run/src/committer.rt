//! Who stores batches: one who stores alone, or one at a desk that others use too.
ghost use Rattle.std.specs.Prelude.{[], ◌∷◌, Option};
ghost use Rattle.std.specs.Thread.{IsSync};
ghost use Rattle.published_index.specs.Places.{Drawing};
ghost use Rattle.import_run.specs.Answered.{Ran};
ghost use Rattle.import_run.specs.Committing.{Store};

use ingest_desk::{CommitFault, Handed, Receipt};
use published_index::Index;
use side_by_side::Workers;
use std::alloc::Global;
use std::sync::Wait;
use std::thread::Threads;

/// Stores batches, and merges what is published.
pub trait Committer<J: Index> {
    // What is known of the store, where nobody else stores anything.
    ghost told: { Self → Option Store };

    // What its drawer has, which draws the place of each batch that is stored.
    ghost drawing: { Self → Drawing };

    // What its calls have done together, from an earlier moment to a later one.
    ghost since: { Self → Self → Type 0 };

    /// Stores a batch, packed or not, and publishes it. Then the last neighbours of the published list
    /// that are due become one.
    fn commit<R: Wait + Threads + Sync>(
        &mut self,
        rt: &R,
        alloc: Global,
        handed: Handed,
        workers: Workers,
    ) -> Result<Receipt<J>, CommitFault<J>>
        requires shares { IsSync R.row }
        ensures ran { Ran (record { handed = handed; answer = result } ∷ [])
            (told self.old) (told self.new) (drawing self.old) (drawing self.new) }
        ensures since { since self.old self.new };

    // Without a call nothing is done.
    ghost since_then: { (it : Self) → since it it };

    // What calls have done in turn they have done together.
    ghost since_before: { (first second third : Self) → since first second → since second third
        → since first third };
}
