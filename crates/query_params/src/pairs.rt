//! The pairs of a query string, decoded.
ghost use Rattle.std.specs.Prelude.{◌≡◌, IfOk, map, option_map};
ghost use Rattle.explorer_model.specs.Query.{pairs_of, value_named};
ghost use Rattle.query_params.specs.Given.{texts};

use explorer_model::text::Name;
use form_urlencoded::parse;
use std::alloc::{AllocError, Global};

/// A name and its value in a query string.
#[derive(Drop)]
pub struct Pair {
    name: Name,
    value: Name,
}

/// The pairs of a query string, in order.
pub fn pairs_of(alloc: Global, text: &[u8]) -> Result<Vec<Pair>, AllocError>
    ensures { IfOk result (λ pairs. map texts pairs.items ≡ pairs_of text.now) }
{
    let mut pairs = Vec::new(alloc);
    for pair in parse(alloc, text).into_owned() {
        let (name, value) = pair?;
        pairs.push(Pair {
            name: Name::from_string(name),
            value: Name::from_string(value),
        })?;
    }
    Ok(pairs)
}

/// The value under a name, which is empty where it is not given; `None` where it is given twice.
pub fn value_named<'a>(pairs: &'a [Pair], name: &str) -> Option<&'a str>
    ensures { option_map (λ value. value.now) result ≡ value_named name.now (map texts pairs.now) }
{
    let mut found: Option<&str> = None;
    for pair in pairs {
        if pair.name.as_str() == name {
            if found.is_some() {
                return None;
            }
            found = Some(pair.value.as_str());
        }
    }
    Some(found.unwrap_or(""))
}
