//! The words of a refusal in a report.
ghost use Rattle.std.specs.Prelude.{◌≡◌, IfOk};
ghost use Rattle.explorer_model.specs.Refusals.{why_text};

use explorer_model::archive::Bytes;
use explorer_model::fault::Why;
use std::alloc::{AllocError, Global};

/// The words that a report line has after a refusal's place, such as `TooLong 65537`.
pub fn why_text(alloc: Global, why: &Why) -> Result<Bytes, AllocError>
    ensures { IfOk result (λ text. text ≡ why_text why.now) }
{
    Ok(Bytes::from_vec(why.to_string(alloc)?.into_bytes()))
}
