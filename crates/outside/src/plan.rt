//! Plans of which calls of a form in memory fail.
ghost use Rattle.std.specs.Prelude.{◌≡◌, []};
ghost use Rattle.outside.specs.Memory.{fails_next, after_call};

use std::marker::Model;

/// Says which calls of a form in memory fail: those of these numbers, from 0.
#[derive(Drop)]
pub struct FailurePlan {
    failing: Vec<u64>,
    calls: u64,
}

impl Model for FailurePlan {
    ghost use Rattle.outside.specs.Memory as memory;

    ghost Value = { memory.FailurePlan };

    ghost view = { λ p. record { failing = p.failing.items; calls = p.calls } };
}

impl FailurePlan {
    /// Calls of these numbers fail, and none has been made.
    pub fn new(failing: Vec<u64>) -> Self
        ensures { result ≡ record { failing = failing.items; calls = 0 } }
    {
        FailurePlan { failing, calls: 0 }
    }

    /// Whether the next call is one that fails. It counts the call.
    pub fn next_fails(&mut self) -> bool
        ensures listed { result ≡ fails_next self.old }
        ensures counted { self.new ≡ after_call self.old }
    {
        let listed = self.failing.contains(&self.calls);
        self.calls = self.calls.saturating_add(1);
        listed
    }

    /// Plans that no call fails.
    pub fn clear(&mut self)
        ensures { self.new ≡ record { failing = []; calls = 0 } }
    {
        self.failing.clear();
        self.calls = 0;
    }
}
