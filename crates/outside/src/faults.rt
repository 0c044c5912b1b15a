//! Counts of failed calls.
ghost use Rattle.std.specs.Prelude.{◌≡◌};
ghost use Rattle.outside.specs.Stream.{Rises};

use crate::stream::Failed;
use std::marker::Model;

/// How many calls have failed. It stays at `u64::MAX` once it stands there.
#[derive(Drop)]
pub(crate) struct Faults {
    count: u64,
}

impl Model for Faults {
    ghost use Rattle.std.specs.Prelude.{ℕ};

    ghost Value = { ℕ };

    ghost view = { λ faults. faults.count };
}

impl Faults {
    pub(crate) fn new() -> Self
        ensures { result ≡ 0 }
    {
        Faults { count: 0 }
    }

    pub(crate) fn count(&self) -> u64
        ensures { result ≡ self.now }
    {
        self.count
    }

    /// Counts a call that failed.
    pub(crate) fn raise(&mut self) -> Failed
        ensures { Rises self.old self.new }
    {
        raise(&mut self.count)
    }
}

/// Counts a call that failed. The count stays at `u64::MAX` once it stands there.
pub fn raise(faults: &mut u64) -> Failed
    ensures { Rises faults.old faults.new }
{
    *faults = faults.saturating_add(1);
    Failed
}
