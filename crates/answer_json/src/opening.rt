//! The openings that an answer names.
ghost use Rattle.std.specs.Prelude.{◌≡◌, ◌++◌, IfOk, None, OnOk, codes, get_or, map};
ghost use Rattle.std.specs.Option.{option_copied};
ghost use Rattle.serde_json.specs.Written.{compact_text};
ghost use Rattle.explorer_model.specs.Answer.{opening_value};

use crate::pieces::push_text;
use explorer_model::opening::Opening;
use std::alloc::{AllocError, Global};

/// Writes the member with the opening's code and name, or null where there is none.
pub fn push_opening(
    alloc: Global,
    body: &mut Vec<u8>,
    opening: Option<&Opening>,
) -> Result<(), AllocError>
    ensures { OnOk result (body.new.items ≡ body.old.items
        ++ (codes ",\"opening\":" ++ compact_text (opening_value (option_copied opening.entry)))) }
{
    let Some(opening) = opening else {
        return body.extend_from_slice(b",\"opening\":null");
    };
    push_text(alloc, body, b",\"opening\":{\"eco\":", opening.eco.as_str())?;
    push_text(alloc, body, b",\"name\":", opening.name.as_str())?;
    body.push(b'}')?;
    Ok(())
}

/// The opening at a place, or None where it has none or the openings do not reach it.
pub fn opening_at<'a>(openings: &[Option<&'a Opening>], place: usize) -> Option<&'a Opening>
    ensures { option_copied result ≡ get_or (map option_copied openings.now) place None }
{
    *openings.get(place)?
}

/// The openings, lent.
pub fn lend(
    alloc: Global,
    openings: &[Option<Opening>],
) -> Result<Vec<Option<&Opening>>, AllocError>
    ensures { IfOk result (λ lent. map option_copied lent.items ≡ openings.now) }
{
    let mut lent = Vec::with_capacity(alloc, openings.len())?;
    for opening in openings {
        lent.push(opening.as_ref())?;
    }
    Ok(lent)
}
