//! The journal of batches on a disk, which a crash at any moment leaves with the batches that were
//! acknowledged.
//!
//! ```rust
//! let mut manifest = create(disk)?;
//! // Behind an Ok every file that a crash may leave has the batch behind those before it.
//! manifest.store(alloc, &batch)?;
//! let Opened { manifest, journal } = open(alloc, manifest.into_disk())?;
//! ```
#![tactic(auto)]

mod creating;
mod decoding;
mod encoding;
mod first;
mod first_limits;
mod format;
pub mod laws;
mod manifest;
mod opening;
mod store;

pub use creating::create;
pub use first::{OpenedFirst, open_first};
pub use manifest::Manifest;
pub use opening::{Opened, open};
