//! Connections in memory.
ghost use Rattle.std.specs.Prelude.{◌≡◌, ◌<◌, ◌⊎◌, ◌↔◌, [], Some, IfOk, IsErr, IsTrue, OnErr, MatchOption, map};
ghost use Rattle.outside.specs.Doors.{GivesNone, Accepts, FailsToAccept};
ghost use Rattle.outside.specs.Memory.{stream_of, fails_next, after_call};

use crate::door::Door;
use crate::faults::Faults;
use crate::memory::{MemSink, MemSource};
use crate::plan::FailurePlan;
use crate::stream::{Failed, Link, Sink, Source};
use std::alloc::{AllocError, Global};
use std::marker::Model;
use std::vec::IntoIter;

/// A link in memory: reads go to the source, writes to the sink.
#[derive(Drop)]
pub struct MemLink {
    source: MemSource,
    sink: MemSink,
}

impl Model for MemLink {
    ghost use Rattle.outside.specs.Memory.{MemoryLink};

    ghost Value = { MemoryLink };

    ghost view = { λ l. record { source = l.source; sink = l.sink } };
}

impl MemLink {
    /// A connection that reads from the one and writes to the other.
    pub fn new(source: MemSource, sink: MemSink) -> Self
        ensures { result ≡ record { source = source; sink = sink } }
    {
        MemLink { source, sink }
    }

    /// The bytes written.
    pub fn written(&self) -> &[u8]
        ensures { (stream_of self.now).written ≡ Some result.now }
    {
        self.sink.bytes()
    }
}

impl Source for MemLink {
    ghost source = { stream_of };

    fn read(&mut self, into: &mut [u8]) -> Result<usize, Failed> {
        self.source.read(into)
    }

    fn read_faults(&self) -> u64 {
        self.source.read_faults()
    }
}

impl Sink for MemLink {
    ghost sink = { stream_of };

    fn write(&mut self, chunk: &[u8]) -> Result<(), Failed> {
        self.sink.write(chunk)
    }
}

impl Link for MemLink {
    ghost use Rattle.std.specs.Prelude.{refl};

    ghost one_stream = { λ _. refl };
}

/// A door in memory, some of whose accepts fail.
#[derive(Drop)]
pub struct MemDoor {
    to_come: IntoIter<MemLink>,
    taken_back: Vec<MemLink>,
    left: u32,
    out: usize,
    plan: FailurePlan,
    faults: Faults,
}

impl Model for MemDoor {
    ghost use Rattle.std.specs.Prelude.{◌+◌, ◌≤◌, Some, map, vec_len, vec_capacity};
    ghost use Rattle.std.specs.Vec.Iter.{into_iter_items, into_iter_len};
    ghost use Rattle.outside.specs.Memory.{MemoryDoor, stream_of};

    ghost Value = { MemoryDoor };

    ghost view = { λ d. record {
      connections = record {
        left = d.left;
        out = d.out;
        to_come = Some (map stream_of (into_iter_items d.to_come));
        taken_back = Some (map stream_of d.taken_back.items);
        faults = d.faults;
      };
      plan = d.plan;
    } };

    // There is room for each link that may still be taken back.
    ghost invariant = { λ d.
        vec_len d.taken_back + d.out + into_iter_len d.to_come ≤ vec_capacity d.taken_back };
}

impl MemDoor {
    /// A door that accepts up to `connections` of the links, in their order. The accepts whose
    /// numbers are in `failing` fail, counted from 0, and so do those for which no link is left.
    pub fn new(
        alloc: Global,
        links: Vec<MemLink>,
        connections: u32,
        failing: Vec<u64>,
    ) -> Result<Self, AllocError>
        ensures { IfOk result (λ door. door ≡ record {
          connections = record {
            left = connections;
            out = 0;
            to_come = Some (map stream_of links.items);
            taken_back = Some [];
            faults = 0;
          };
          plan = record { failing = failing.items; calls = 0 };
        }) }
    {
        Ok(MemDoor {
            taken_back: Vec::with_capacity(alloc, links.len())?,
            to_come: links.into_iter(),
            left: connections,
            out: 0,
            plan: FailurePlan::new(failing),
            faults: Faults::new(),
        })
    }

    /// How many accepts have failed; `u64::MAX` stands for that number and every greater one.
    pub fn faults(&self) -> u64
        ensures { result ≡ self.now.connections.faults }
    {
        self.faults.count()
    }

    /// The links taken back, in order.
    pub fn taken_back(&self) -> &[MemLink]
        ensures { self.now.connections.taken_back ≡ Some (map stream_of result.now) }
    {
        self.taken_back.as_slice()
    }
}

impl Door for MemDoor {
    type Link = MemLink;

    ghost door = { λ d. d.connections };

    /// Fails as it is planned, and where no link is left to come.
    fn accept(&mut self) -> Result<Option<MemLink>, Failed>
        ensures next { IfOk result (λ next. MatchOption next
            (GivesNone self.old.connections self.new.connections)
            (λ link. Accepts (stream_of link) self.old.connections self.new.connections)) }
        ensures fails { OnErr result
            (FailsToAccept self.old.connections self.new.connections) }

        ensures planned { 0 < self.old.connections.left → (IsErr result
            ↔ (IsTrue (fails_next self.old.plan) ⊎ (self.old.connections.to_come ≡ Some []))) }
        ensures counted { 0 < self.old.connections.left →
            self.new.plan ≡ after_call self.old.plan }
    {
        if self.left == 0 {
            return Ok(None);
        }
        if self.plan.next_fails() {
            return Err(self.faults.raise());
        }
        match self.to_come.next() {
            Some(link) => {
                self.left -= 1;
                self.out += 1;
                Ok(Some(link))
            }
            None => Err(self.faults.raise()),
        }
    }

    fn finish(&mut self, link: MemLink) {
        self.taken_back.push_reserved(link);
        self.out -= 1;
    }
}
