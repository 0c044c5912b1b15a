//! Bytes of a connection that were read ahead.
ghost use Rattle.std.specs.Prelude.{◌≡◌, ◌<◌, ◌≤◌, [], length, drop, IfOk, OnErr};
ghost use Rattle.outside.specs.Stream.{FailsToGive};
ghost use Rattle.http_wire.specs.Steps.{Fills};

use outside::{Failed, Link};
use std::marker::Model;

/// Room for one head, and the bytes in it that were read and not taken yet.
#[derive(Drop)]
pub(crate) struct ReadAhead {
    bytes: [u8; 8192],
    start: usize,
    end: usize,
}

impl Model for ReadAhead {
    ghost use Rattle.std.specs.Prelude.{ℕ, ◌≤◌, List, slice_range};

    ghost Value = { List ℕ };

    ghost view = { λ a. slice_range a.bytes a.start a.end };

    ghost invariant = { λ a. (a.start ≤ a.end) × (a.end ≤ 8192) };
}

impl ReadAhead {
    /// Nothing is read ahead.
    pub fn new() -> Self
        ensures { result ≡ [] }
    {
        ReadAhead {
            bytes: [0; 8192],
            start: 0,
            end: 0,
        }
    }

    /// The bytes that are read and not taken, at most 8,192.
    pub fn as_slice(&self) -> &[u8]
        ensures items { result.now ≡ self.now }
        ensures room { length self.now ≤ 8192 }
    {
        &self.bytes[self.start..self.end]
    }

    /// Takes the first `count` bytes off.
    pub fn skip(&mut self, count: usize)
        requires { count ≤ length self.old }
        ensures { self.new ≡ drop count self.old }
    {
        self.start += count;
        if self.start == self.end {
            self.start = 0;
            self.end = 0;
        }
    }

    /// Makes one read, and says how many bytes it gave.
    pub fn fill<L: Link>(&mut self, link: &mut L) -> Result<usize, Failed>
        requires { length self.old < 8192 }
        ensures fills { IfOk result (λ count.
            Fills count self.old self.new (L.source link.old) (L.source link.new)) }
        ensures stays { OnErr result (self.new ≡ self.old) }
        ensures fails { OnErr result (FailsToGive (L.source link.old) (L.source link.new)) }
    {
        if self.end == 8192 {
            self.bytes.copy_within(self.start..self.end, 0);
            self.end -= self.start;
            self.start = 0;
        }
        let count = link.read(&mut self.bytes[self.end..])?;
        self.end += count;
        Ok(count)
    }
}
