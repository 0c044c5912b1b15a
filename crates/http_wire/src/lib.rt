//! The requests and replies of one connection over HTTP/1.0 and HTTP/1.1 (RFC 9112).
//!
//! ```rust
//! let mut wire = Wire::new();
//! while let Asked::Wanted(request) = wire.next(alloc, &mut link) {
//!     let reply = reply_to(&request);
//!     wire.reply(&mut link, &reply, request.last)?;
//! }
//! ```
#![tactic(auto)]

mod ahead;
mod body;
mod fields;
mod head;
mod judging;
pub mod laws;
mod reply;
mod wire;

pub use explorer_model::wire::{Asked, Method, Path, Reply, Request, RequestFault};
pub use wire::Wire;
