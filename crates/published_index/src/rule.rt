//! The rule over what is published: no reader has seen more of the history than what is published has.
use crate::front::Front;
use crate::published::Published;
use atomic_table::{Join, Split};
use crossbeam_utils::rule::{Outcome, Protocol};

/// The published journal is the history that is published with it, and what each reader has seen is a
/// beginning of it.
pub struct Tied;

impl Protocol<Published, Option<Front>> for Tied {
    ghost use Rattle.std.specs.Prelude.{None};
    ghost use Rattle.published_index.specs.Rule.{IsKeptBy};

    ghost holds = { λ shown. IsKeptBy shown.list shown.front };

    ghost first = { None };
}

/// A step that sees what is published then.
pub struct Sees;

impl Outcome<Published, Option<Front>> for Sees {
    ghost use Rattle.published_index.specs.Rule.{SeesShown};

    ghost then = { λ seen before shown after. SeesShown seen shown.list shown.front after };
}

/// The publisher tells all that it has seen, and keeps it.
pub struct Twice;

impl Split<Option<Front>> for Twice {
    ghost left = { λ seen. seen };

    ghost right = { λ seen. seen };
}

/// A new reader takes what it is told.
pub struct Takes;

impl Join<Option<Front>> for Takes {
    ghost use Rattle.std.specs.Prelude.{None};

    ghost both = { λ seen told. told };

    ghost spent = { None };
}
