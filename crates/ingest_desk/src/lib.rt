//! The desk of a store: a batch that is acknowledged is stored, counted once and published.
//!
//! ```rust
//! // Behind an Ok the batch is stored, counted and published, and the drawer has drawn its place.
//! let receipt = ingest.commit(&rt, alloc, tally, &mut drawer)?;
//! if let Some(job) = ingest.pick()? {
//!     let merged = merge(&rt, alloc, job.left(), job.right(), workers, &FreeGate)?;
//!     let note = ingest.install(&rt, alloc, job, merged)?;
//! }
//! ```
#![tactic(auto)]

mod batches;
mod clashing;
mod commit;
mod counting;
mod fault;
mod handed;
mod ids;
mod importer;
mod ingest;
mod job;
pub mod laws;
mod mark;
mod merge_desk;
mod merging;
mod opening;
mod picking;
mod ready;
mod receipt;
mod recount;
mod register;
mod report;
mod spill_fault;
mod spilling;
mod unnamed;

pub use clashing::Clashing;
pub use fault::{CommitFault, InstallFault};
pub use handed::Handed;
pub use importer::Importer;
pub use ingest::{Desk, Ingest};
pub use job::{Job, Standing};
pub use mark::{Mark, MarkKind, Marks};
pub use merge_desk::MergeDesk;
pub use opening::open;
pub use ready::Ready;
pub use receipt::{Receipt, count_games};
pub use report::{End, ImportCall, ImportEnding, Report};
pub use spill_fault::SpillOpenFault;
pub use spilling::open_spilled;
pub use unnamed::{Named, Unnamed, fresh};
