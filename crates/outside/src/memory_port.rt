//! The scratch file in memory.
ghost use Rattle.std.specs.Prelude.{◌≡◌, ◌≤◌, ◌+◌, ◌-◌, ◌^◌, ◌↔◌, false, if◌then◌else◌, [], length, min, take, IsTrue, IsOk, IsErr, IfOk, OnOk, OnErr};
ghost use Rattle.outside.specs.Memory.{fails_next, after_call};
ghost use Rattle.outside.specs.Ports.{AppendsPiece, FailsToAppend, GivesBack, FailsToGiveBack, scratch_of, size_of, cleared, held_at, held_with};
ghost use Rattle.outside.specs.Ports.Held.{Bytes, Blank};

use crate::faults::Faults;
use crate::plan::FailurePlan;
use crate::port::Port;
use crate::stream::Failed;
use std::alloc::{AllocError, Global};
use std::marker::Model;

/// A scratch file in memory, some of whose calls fail. A blank one keeps no byte: it tells how many
/// were appended, and gives zeros.
#[derive(Drop)]
pub struct MemPort {
    is_blank: bool,
    bytes: Vec<u8>,
    size: usize,
    room: usize,
    plan: FailurePlan,
    faults: Faults,
}

impl Model for MemPort {
    ghost use Rattle.std.specs.Prelude.{◌≡◌, ◌≤◌, false, if◌then◌else◌, vec_len, vec_capacity};
    ghost use Rattle.outside.specs.Ports.{MemoryPort};
    ghost use Rattle.outside.specs.Ports.Held.{Bytes, Blank};

    ghost Value = { MemoryPort };

    ghost view = { λ p. record {
      held = if p.is_blank then Blank p.size else Bytes p.bytes.items;
      room = p.room;
      plan = p.plan;
      faults = p.faults;
    } };

    ghost invariant = { λ p. (p.size ≤ p.room)
        × (p.is_blank ≡ false → (p.size ≡ vec_len p.bytes) × (p.room ≤ vec_capacity p.bytes)) };
}

impl MemPort {
    /// An empty file with room for `room` bytes. An append that goes past it fails, once the room
    /// is full. The calls whose numbers are in `failing` fail too, counted from 0, reads and
    /// appends together; such an append puts nothing there.
    pub fn new(alloc: Global, room: usize, failing: Vec<u64>) -> Result<Self, AllocError>
        ensures { IfOk result (λ port. port ≡ record {
          held = Bytes [];
          room = room;
          plan = record { failing = failing.items; calls = 0 };
          faults = 0;
        }) }
    {
        Ok(MemPort {
            is_blank: false,
            bytes: Vec::with_capacity(alloc, room)?,
            size: 0,
            room,
            plan: FailurePlan::new(failing),
            faults: Faults::new(),
        })
    }

    /// An empty file that keeps no byte. The calls whose numbers are in `failing` fail, counted
    /// from 0, and an append whose end would pass `usize::MAX`.
    pub fn blank(alloc: Global, failing: Vec<u64>) -> Self
        ensures { result ≡ record {
          held = Blank 0;
          room = 2 ^ 64 - 1;
          plan = record { failing = failing.items; calls = 0 };
          faults = 0;
        } }
    {
        MemPort {
            is_blank: true,
            bytes: Vec::new(alloc),
            size: 0,
            room: usize::MAX,
            plan: FailurePlan::new(failing),
            faults: Faults::new(),
        }
    }

    /// Drops all bytes. Which calls fail, and how many have failed, stays as it is.
    pub fn clear(&mut self)
        ensures { self.new ≡ record self.old { held = cleared self.old.held } }
    {
        self.bytes.clear();
        self.size = 0;
    }
}

impl Port for MemPort {
    ghost use Rattle.outside.specs.PortLaws as laws;

    ghost port = { scratch_of };

    /// Fails as it is planned, and then puts nothing there. Past the room it fails too, and fills
    /// it.
    fn append(&mut self, piece: &[u8]) -> Result<(), Failed>
        ensures done { OnOk result
            (AppendsPiece piece.now (scratch_of self.old) (scratch_of self.new)) }
        ensures fails { OnErr result
            (FailsToAppend piece.now (scratch_of self.old) (scratch_of self.new)) }

        ensures planned { IsOk result ↔ ((fails_next self.old.plan ≡ false)
            × (size_of self.old.held + length piece.now ≤ self.old.room)) }
        ensures filled { fails_next self.old.plan ≡ false → self.new.held
            ≡ held_with self.old.held (take (self.old.room - size_of self.old.held) piece.now) }
        ensures rest { self.new ≡ record self.old {
          held = self.new.held;
          plan = after_call self.old.plan;
          faults = self.new.faults;
        } }
    {
        if self.plan.next_fails() {
            return Err(self.faults.raise());
        }
        let fits = piece.len().min(self.room - self.size);
        if !self.is_blank && self.bytes.extend_from_slice(&piece[..fits]).is_err() {
            return Err(self.faults.raise());
        }
        self.size += fits;
        if fits < piece.len() {
            return Err(self.faults.raise());
        }
        Ok(())
    }

    /// Fails exactly as it is planned.
    fn read_at(&mut self, at: u64, into: &mut [u8]) -> Result<(), Failed>
        requires inside { at + length into.old ≤ (scratch_of self.old).size }
        ensures done { OnOk result
            (GivesBack at into.new (scratch_of self.old) (scratch_of self.new)) }
        ensures fails { OnErr result
            (FailsToGiveBack (scratch_of self.old) (scratch_of self.new)) }

        ensures planned { IsErr result ↔ IsTrue (fails_next self.old.plan) }
        ensures given { OnOk result (into.new ≡ held_at self.old.held at (length into.old)) }
        ensures rest { self.new ≡ record self.old {
          plan = after_call self.old.plan;
          faults = self.new.faults;
        } }
    {
        if self.plan.next_fails() {
            return Err(self.faults.raise());
        }
        if self.is_blank {
            into.fill(0);
            return Ok(());
        }
        let at = at as usize;
        into.copy_from_slice(&self.bytes[at..at + into.len()]);
        Ok(())
    }

    fn faults(&self) -> u64 {
        self.faults.count()
    }

    ghost told_size = { laws.told_size };
}
