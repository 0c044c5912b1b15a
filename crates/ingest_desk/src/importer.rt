//! Importers: who stores a body for a connection.
ghost use Rattle.std.specs.Prelude.{◌≤◌, ◌<◌, ◌^◌, ◌∷◌, [], length};
ghost use Rattle.std.specs.Thread.{IsSync};
ghost use Rattle.explorer_model.specs.Cuts.{cuts};
ghost use Rattle.explorer_model.specs.Labels.{no_label};
ghost use Rattle.explorer_model.specs.Wire.{body_limit};
ghost use Rattle.ingest_desk.specs.Drawn.{DrawsFor, most_untold};
ghost use Rattle.ingest_desk.specs.Importers.{
  CountsRose,
  EndsInMemory,
  ImporterState,
  TellsAll,
  call_of,
  ending_of,
};
ghost use Rattle.ingest_desk.specs.Reporting.{Reports, games_of};

use crate::report::Report;
use published_index::Index;
use std::alloc::Global;
use std::sync::Wait;
use std::thread::Threads;

/// One session's handle on a store.
pub trait Importer<J: Index> {
    // What the importer has come to.
    ghost importer: { Self → ImporterState };

    /// Imports the texts of a body, under the empty label. It may wait for other imports.
    fn import<R: Wait + Threads + Sync>(&mut self, rt: &R, alloc: Global, body: &[u8]) -> Report<J>
        requires shares { IsSync R.row }
        requires few { length body.now ≤ body_limit }
        ensures reports { Reports no_label (cuts body.now) result }
        ensures in_memory { EndsInMemory (ending_of result.end) }
        ensures few { games_of result.receipts.items < 2 ^ 32 }
        ensures counts { CountsRose (ending_of result.end)
            (importer self.old).counts (importer self.new).counts }
        ensures told { TellsAll (importer self.old).calls (importer self.new).calls
            (call_of body.now result ∷ []) }
        ensures drawn { DrawsFor (most_untold (ending_of result.end)) result.receipts.items
            (importer self.old).drawing (importer self.new).drawing };
}
