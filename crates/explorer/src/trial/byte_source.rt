//! A source over bytes in memory.
ghost use Rattle.std.specs.Prelude.{◌≡◌, ◌<◌, Some, length, IfOk, OnErr};
ghost use Rattle.outside.specs.Stream.{source_alone, Gives, FailsToGive};

use outside::{Failed, Source};
use std::marker::Model;

/// A source over bytes in memory, none of whose reads fails.
#[derive(Drop)]
pub struct ByteSource {
    bytes: Vec<u8>,
    at: usize,
}

impl Model for ByteSource {
    ghost use Rattle.std.specs.Prelude.{◌≤◌, drop, vec_len};
    ghost use Rattle.explorer.specs.Trial.Bytes.{BytesLeft};

    ghost Value = { BytesLeft };

    ghost view = { λ s. record { left = drop s.at s.bytes.items; given = s.at } };

    ghost invariant = { λ s. s.at ≤ vec_len s.bytes };
}

impl ByteSource {
    /// The bytes, of which none is read yet.
    pub fn new(bytes: Vec<u8>) -> Self
        ensures { result ≡ record { left = bytes.items; given = 0 } }
    {
        ByteSource { bytes, at: 0 }
    }
}

impl Source for ByteSource {
    ghost source = { λ s. source_alone (Some s.left) s.given 0 };

    fn read(&mut self, into: &mut [u8]) -> Result<usize, Failed> {
        let rest = &self.bytes[self.at..];
        let count = rest.len().min(into.len());
        into[..count].copy_from_slice(&rest[..count]);
        self.at += count;
        Ok(count)
    }

    fn read_faults(&self) -> u64 {
        0
    }
}
