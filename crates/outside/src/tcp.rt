//! Connections over TCP, and doors for them.
ghost use Rattle.std.specs.Prelude.{◌≡◌, None};
ghost use Rattle.outside.specs.Stream.{source_alone, sink_alone, link_of};

use crate::door::Door;
use crate::faults::Faults;
use crate::peer;
use crate::peer::Peer;
use crate::standard::{StdSource, write_whole};
use crate::stream::{Failed, Link, Sink, Source};
use std::marker::Model;
use std::net::{TcpListener, TcpStream};

/// A connection over TCP. It tells none of its bytes, and counts each error of the socket. A read or
/// a write that waits longer than the socket allows is such an error.
#[derive(Drop)]
pub struct TcpLink {
    source: StdSource<Peer>,
    write_faults: Faults,
}

impl Model for TcpLink {
    ghost use Rattle.std.specs.Prelude.{None};
    ghost use Rattle.outside.specs.Stream.{Stream, sink_alone, link_of};

    ghost Value = { Stream };

    ghost view = { λ l. link_of l.source (sink_alone None l.write_faults) };
}

impl TcpLink {
    /// The connection over a stream.
    pub fn new(stream: TcpStream) -> Self
        ensures { result ≡ link_of (source_alone None 0 0) (sink_alone None 0) }
    {
        TcpLink {
            source: StdSource::new(Peer::new(stream)),
            write_faults: Faults::new(),
        }
    }

    /// Closes the connection: at once where a call has failed, and else by a farewell.
    fn close(self) {
        if self.source.read_faults() == 0 && self.write_faults.count() == 0 {
            self.source.reader.leave();
        }
    }
}

impl Source for TcpLink {
    ghost source = { λ stream. stream };

    fn read(&mut self, into: &mut [u8]) -> Result<usize, Failed> {
        self.source.read(into)
    }

    fn read_faults(&self) -> u64 {
        self.source.read_faults()
    }
}

impl Sink for TcpLink {
    ghost sink = { λ stream. stream };

    fn write(&mut self, chunk: &[u8]) -> Result<(), Failed> {
        if !write_whole(&mut self.source.reader, chunk) {
            return Err(self.write_faults.raise());
        }
        Ok(())
    }
}

impl Link for TcpLink {
    ghost use Rattle.std.specs.Prelude.{refl};

    ghost one_stream = { λ _. refl };
}

/// A door over a listening socket, which gives each link ten seconds for a read and for a write.
/// Doors that share the socket, each with a handle that `TcpListener::try_clone` gave, accept
/// whichever connection comes while they wait.
#[derive(Drop)]
pub struct TcpDoor {
    listener: TcpListener,
    left: u32,
    out: u32,
    faults: Faults,
}

impl Model for TcpDoor {
    ghost use Rattle.std.specs.Prelude.{◌+◌, ◌<◌, ◌^◌, None};
    ghost use Rattle.outside.specs.Doors.{Connections};

    ghost Value = { Connections };

    ghost view = { λ d. record {
      left = d.left;
      out = d.out;
      to_come = None;
      taken_back = None;
      faults = d.faults;
    } };

    ghost invariant = { λ d. d.left + d.out < 2 ^ 32 };
}

impl TcpDoor {
    /// A door that accepts up to `connections` of those that come to the listener.
    pub fn new(listener: TcpListener, connections: u32) -> Self
        ensures { result ≡ record {
          left = connections;
          out = 0;
          to_come = None;
          taken_back = None;
          faults = 0;
        } }
    {
        TcpDoor {
            listener,
            left: connections,
            out: 0,
            faults: Faults::new(),
        }
    }

    /// How many accepts have failed; `u64::MAX` stands for that number and every greater one.
    pub fn faults(&self) -> u64
        ensures { result ≡ self.now.faults }
    {
        self.faults.count()
    }
}

impl Door for TcpDoor {
    type Link = TcpLink;

    ghost door = { λ connections. connections };

    fn accept(&mut self) -> Result<Option<TcpLink>, Failed> {
        if self.left == 0 {
            return Ok(None);
        }
        match peer::accept(&self.listener) {
            Ok(stream) => {
                self.left -= 1;
                self.out += 1;
                Ok(Some(TcpLink::new(stream)))
            }
            Err(_) => Err(self.faults.raise()),
        }
    }

    /// Closes the connection, for which it may listen to the peer for a second.
    fn finish(&mut self, link: TcpLink) {
        self.out -= 1;
        link.close();
    }
}
