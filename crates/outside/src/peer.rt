//! The peer of a TCP connection: how its connection is accepted, how long it is waited for, and how
//! it is left.
use crate::clock::{monotonic, pause};
use std::io;
use std::io::{ErrorKind, Read, Write};
use std::net::{Shutdown, TcpListener, TcpStream};
use std::time::Duration;

/// How many seconds one read or write waits for the peer.
const PATIENCE: u64 = 10;

/// How many milliseconds a peer that still sends is listened to behind the last reply.
const FAREWELL: u64 = 1_000;

/// How many milliseconds the system is left alone where it has no room for one more connection.
const RESPITE: u64 = 100;

/// The errors by which Linux says that all its files are open, and that it has no buffers.
const ENFILE: i32 = 23;

const ENOBUFS: i32 = 105;

/// A peer over its socket. A read or a write that a signal cut short is made again: with a limit of
/// time, that comes also where the process was halted and goes on.
#[derive(Drop)]
pub(crate) struct Peer {
    stream: TcpStream,
}

impl Peer {
    pub(crate) fn new(stream: TcpStream) -> Self {
        Peer { stream }
    }

    /// Ends the connection so that what was written reaches a peer that still sends: a socket that
    /// is closed before all that came was read takes back what the peer has not read yet. So nothing
    /// more is written, and what comes is passed over, up to the peer's end or the farewell's.
    pub(crate) fn leave(mut self) {
        if self.stream.shutdown(Shutdown::Write).is_err() {
            return;
        }
        let Some(begun) = monotonic() else {
            return;
        };
        let mut passed = [0; 4096];
        for _ in 0..u64::MAX {
            if !limit_read(&self.stream, begun) {
                return;
            }
            match self.stream.read(&mut passed) {
                Ok(0) | Err(_) => return,
                Ok(_) => {}
            }
        }
    }
}

/// Whether some of the farewell is left, for which the next read may wait.
fn limit_read(stream: &TcpStream, begun: Duration) -> bool {
    let Some(now) = monotonic() else {
        return false;
    };
    let left = Duration::from_millis(FAREWELL).saturating_sub(now.saturating_sub(begun));
    // A limit of 0 would be none.
    !left.is_zero() && stream.set_read_timeout(Some(left)).is_ok()
}

impl Read for Peer {
    fn read(&mut self, buf: &mut [u8]) -> io::Result<usize> {
        for _ in 0..u64::MAX {
            match self.stream.read(buf) {
                Err(error) if error.kind() == ErrorKind::Interrupted => {}
                answer => return answer,
            }
        }
        Err(io::Error::from(ErrorKind::Interrupted))
    }
}

impl Write for Peer {
    fn write(&mut self, buf: &[u8]) -> io::Result<usize> {
        for _ in 0..u64::MAX {
            match self.stream.write(buf) {
                Err(error) if error.kind() == ErrorKind::Interrupted => {}
                answer => return answer,
            }
        }
        Err(io::Error::from(ErrorKind::Interrupted))
    }

    fn flush(&mut self) -> io::Result<()> {
        self.stream.flush()
    }
}

/// The next connection, with its limits. One that was gone before it could be taken is passed over,
/// and where the system has no room for one more it is asked again after a respite.
pub(crate) fn accept(listener: &TcpListener) -> io::Result<TcpStream> {
    for _ in 0..u64::MAX {
        match listener.accept() {
            Ok((stream, _)) => {
                if limit(&stream).is_ok() {
                    return Ok(stream);
                }
            }
            Err(error) if is_of_one_connection(&error) => {}
            Err(error) if is_want_of_room(&error) => pause(Duration::from_millis(RESPITE)),
            Err(error) => return Err(error),
        }
    }
    Err(io::Error::from(ErrorKind::Interrupted))
}

fn limit(stream: &TcpStream) -> io::Result<()> {
    // Else the second chunk of a reply waits for the peer's delayed acknowledgement.
    let _ = stream.set_nodelay(true);
    let patience = Some(Duration::from_secs(PATIENCE));
    stream.set_read_timeout(patience)?;
    stream.set_write_timeout(patience)
}

fn is_of_one_connection(error: &io::Error) -> bool {
    matches!(
        error.kind(),
        ErrorKind::ConnectionAborted | ErrorKind::Interrupted
    )
}

fn is_want_of_room(error: &io::Error) -> bool {
    matches!(
        error.raw_os_error(),
        Some(libc::EMFILE | ENFILE | ENOBUFS | libc::ENOMEM)
    )
}
