//! What calls made, where each of them had the memory for it.
ghost use Rattle.std.specs.Prelude.{◌≡◌, Ok, IfOk, map};

use std::alloc::{AllocError, Global};

/// The parts, where each was made.
pub fn all_made<T: Drop>(
    alloc: Global,
    results: Vec<Result<T, AllocError>>,
) -> Result<Vec<T>, AllocError>
    ensures { IfOk result (λ parts. map Ok parts.items ≡ results.items) }
{
    let mut parts = Vec::with_capacity(alloc, results.len())?;
    for part in results {
        parts.push(part?)?;
    }
    Ok(parts)
}
