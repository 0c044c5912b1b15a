//! Which index a value is of.
use std::marker::Brand;

/// The name of an index, which contracts alone see. Whoever opens an index calls a function that is
/// generic in it with `Brand`, and picks the name of the index that was opened.
pub trait Index {
    ghost use Rattle.published_index.specs.Names.{Name};

    ghost name: { Name };
}

impl Index for Brand {
    ghost use Rattle.published_index.specs.Names.{no_name};

    ghost name = { no_name };
}
