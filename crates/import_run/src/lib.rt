//! Imports of streams: the new texts of each group are stored as one batch, and all else of it is
//! refused, each with its cause.
#![tactic(auto)]

mod ahead;
mod alone;
mod apart;
mod committer;
mod desk;
mod draining;
mod ends;
mod handles;
mod importing;
pub mod laws;
mod merging;
mod naming;
mod open_import;
mod settle;
mod stream;
mod text_group;
mod underway;

pub use ahead::{Ahead, INPUT_LIMIT, ReadEnd};
pub use alone::{LoneImport, import_alone, import_and_tell};
pub use committer::Committer;
pub use desk::store_beside;
pub use draining::{DrainEnd, Drained, drain, drain_alone};
pub use ends::ending_of;
pub use handles::{DeskHandle, OwnIngest};
pub use importing::import;
pub use merging::{Merging, merge_due};
pub use open_import::{OpenImport, Stopped};
pub use stream::{import_bytes, import_stream};
pub use text_group::{TalliedGroup, TextGroup};
pub use underway::Underway;
