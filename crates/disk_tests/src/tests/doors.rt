//! Connections, in memory and over TCP.
use super::streams::{sink_of, source_of};
use outside::{Door, Failed, FreeGate, Gate, Link, MemDoor, MemLink, TcpDoor};
use std::alloc::Global;
use std::io::{Read, Write};
use std::net::{Net, TcpListener, TcpStream};
use std::test::Fail;

/// Sends back what one read of up to four bytes gives.
fn echo<L: Link>(link: &mut L) -> Result<usize, Failed> {
    let mut buffer = [0; 4];
    let count = link.read(&mut buffer)?;
    link.write(&buffer[..count])?;
    Ok(count)
}

/// Serves each connection of a door by one echo, and says how many accepts failed.
fn serve<D: Door + Send>(door: &mut D, calls: usize) -> Result<u32, Failed> {
    let mut failed: u32 = 0;
    for _ in 0..calls {
        match door.accept() {
            Ok(Some(mut link)) => {
                let sent = echo(&mut link);
                door.finish(link);
                sent?;
            }
            Ok(None) => return Ok(failed),
            Err(Failed) => failed = failed.saturating_add(1),
        }
    }
    Err(Failed)
}

/// A link that gives this letter and an exclamation mark.
fn link_of(alloc: Global, letter: u8) -> Result<MemLink, Fail> {
    let source = source_of(alloc, &[letter, b'!'], 4, &[])?;
    Ok(MemLink::new(source, sink_of(alloc, 4, &[])?))
}

/// A door in memory that accepts so many of the links that give these letters; the listed accepts
/// fail.
fn door_of(
    alloc: Global,
    letters: &[u8],
    connections: u32,
    failing: &[u64],
) -> Result<MemDoor, Fail> {
    let mut links = Vec::new(alloc);
    for letter in letters {
        links.push(link_of(alloc, *letter)?)?;
    }
    let failing = Vec::from_slice(alloc, failing)?;
    Ok(MemDoor::new(alloc, links, connections, failing)?)
}

/// Whether just so many links were taken back, with these texts written to them in order.
fn took_back(door: &MemDoor, texts: &[[u8; 2]]) -> bool {
    let links = door.taken_back();
    if links.len() != texts.len() {
        return false;
    }
    for (link, text) in links.iter().zip(texts) {
        if link.written() != text.as_slice() {
            return false;
        }
    }
    true
}

#[test]
fn door_in_memory_gives_its_links_in_order(rt: HostRuntime) -> Result<(), Fail> {
    let mut door = door_of(rt.alloc(), b"abc", 2, &[1])?;
    assert_eq!(rt; serve(&mut door, 4), Ok(1));
    assert_eq!(rt; door.faults(), 1);
    assert!(rt; took_back(&door, &[*b"a!", *b"b!"]));
    Ok(())
}

#[test]
fn door_in_memory_fails_where_no_link_is_left(rt: HostRuntime) -> Result<(), Fail> {
    let mut door = door_of(rt.alloc(), b"", 1, &[])?;
    assert_eq!(rt; serve(&mut door, 1), Err(Failed));
    Ok(())
}

/// A client of the listener that has sent `ping`.
fn client_of<R: Net<Stream = TcpStream, Listener = TcpListener>>(
    rt: &R,
    listener: &TcpListener,
) -> Result<TcpStream, Fail> {
    let mut client = TcpStream::connect(rt, listener.local_addr()?)?;
    client.write_all(b"ping")?;
    Ok(client)
}

/// The next four bytes, and how many a read of as many gives behind them.
fn four_of<I: Read>(reader: &mut I) -> Result<([u8; 4], usize), Fail> {
    let mut reply = [0; 4];
    reader.read_exact(&mut reply)?;
    let mut behind = [0; 4];
    Ok((reply, reader.read(&mut behind)?))
}

#[test]
fn door_over_tcp_serves_a_client(rt: HostRuntime) -> Result<(), Fail> {
    let listener = TcpListener::bind(&rt, "127.0.0.1:0")?;
    let mut client = client_of(&rt, &listener)?;
    let mut door = TcpDoor::new(listener, 1);
    assert_eq!(rt; serve(&mut door, 2), Ok(0));
    assert_eq!(rt; door.faults(), 0);
    assert_eq!(rt; four_of(&mut client)?, (*b"ping", 0));
    FreeGate.pass(1);
    Ok(())
}
