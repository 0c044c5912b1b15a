//! A log of payloads on a disk, which a crash at any moment leaves with the payloads that were
//! acknowledged.
//!
//! ```rust
//! // The number of a format, and the most bytes of a payload.
//! let format = Format { number: 1, most: 65_536 };
//! let mut log = create(disk, format)?;
//! // Behind an Ok every file that a crash may leave has the payload.
//! log.append(alloc, b"a payload")?;
//! let Opened { log, payloads } = open(alloc, log.into_disk(), format)?;
//! ```
#![tactic(auto)]

mod append;
mod creating;
mod fault;
mod format;
pub mod laws;
mod log;
mod opening;
mod reading;
mod stop;
mod writing;

pub use creating::create;
pub use fault::{AppendFault, Back, CreateFault, OpenFault};
pub use format::Format;
pub use log::RecordLog;
pub use opening::{Opened, open};
