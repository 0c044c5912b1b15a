//! Sources and sinks, in memory and over readers and writers.
use outside::{Failed, MemSink, MemSource, Sink, Source, StdSink, StdSource};
use std::alloc::Global;
use std::io;
use std::io::{ErrorKind, Read, Write};
use std::test::Fail;

/// A source of these bytes that gives at most so many of them in one read; the listed reads fail.
pub(super) fn source_of(
    alloc: Global,
    bytes: &[u8],
    most: usize,
    failing: &[u64],
) -> Result<MemSource, Fail> {
    let failing = Vec::from_slice(alloc, failing)?;
    Ok(MemSource::new(Vec::from_slice(alloc, bytes)?, most.max(1), failing))
}

/// An empty sink with room for so many bytes; the listed writes fail.
pub(super) fn sink_of(alloc: Global, room: usize, failing: &[u64]) -> Result<MemSink, Fail> {
    Ok(MemSink::new(alloc, room, Vec::from_slice(alloc, failing)?)?)
}

/// Makes one read of up to four bytes, and writes what it gave.
fn pass_on<I: Source, O: Sink>(source: &mut I, sink: &mut O) -> Result<usize, Failed> {
    let mut buffer = [0; 4];
    let count = source.read(&mut buffer)?;
    sink.write(&buffer[..count])?;
    Ok(count)
}

/// What as many passes answer as are asked for.
fn passes<I: Source, O: Sink, const N: usize>(
    source: &mut I,
    sink: &mut O,
) -> [Result<usize, Failed>; N] {
    let mut answers = [Ok(0); N];
    for answer in answers.iter_mut() {
        *answer = pass_on(source, sink);
    }
    answers
}

/// Writes a text.
fn put<O: Sink>(sink: &mut O, text: &[u8]) -> Result<(), Failed> {
    sink.write(text)
}

/// A device that refuses each read, and takes nothing of what is written.
#[derive(Drop)]
struct Broken;

impl Read for Broken {
    fn read(&mut self, _: &mut [u8]) -> io::Result<usize> {
        Err(io::Error::from(ErrorKind::TimedOut))
    }
}

impl Write for Broken {
    fn write(&mut self, _: &[u8]) -> io::Result<usize> {
        Ok(0)
    }

    fn flush(&mut self) -> io::Result<()> {
        Ok(())
    }
}

/// A device that takes one byte a call, and refuses the rest once it is full.
#[derive(Drop)]
struct Narrow {
    taken: Vec<u8>,
    room: usize,
}

impl Write for Narrow {
    fn write(&mut self, chunk: &[u8]) -> io::Result<usize> {
        if chunk.is_empty() {
            return Ok(0);
        }
        if self.taken.len() >= self.room {
            return Err(io::Error::from(ErrorKind::TimedOut));
        }
        self.taken.push(chunk[0])?;
        Ok(1)
    }

    fn flush(&mut self) -> io::Result<()> {
        Ok(())
    }
}

#[test]
fn source_in_memory_fails_where_listed(rt: HostRuntime) -> Result<(), Fail> {
    let mut source = source_of(rt.alloc(), b"abcde", 2, &[1, 4])?;
    let mut sink = sink_of(rt.alloc(), 5, &[])?;
    let answers = passes(&mut source, &mut sink);
    let wanted = [Ok(2), Err(Failed), Ok(2), Ok(1), Err(Failed), Ok(0), Ok(0)];
    assert_eq!(rt; answers, wanted);
    assert_eq!(rt; sink.bytes(), b"abcde".as_slice());
    assert_eq!(rt; source.read_faults(), 2);
    Ok(())
}

#[test]
fn sink_in_memory_fails_where_listed_and_past_its_room(rt: HostRuntime) -> Result<(), Fail> {
    let mut sink = sink_of(rt.alloc(), 4, &[1])?;
    let answers = [
        put(&mut sink, b"abc"),
        put(&mut sink, b"x"),
        put(&mut sink, b"de"),
    ];
    assert_eq!(rt; answers, [Ok(()), Err(Failed), Err(Failed)]);
    assert_eq!(rt; sink.bytes(), b"abcd".as_slice());
    assert_eq!(rt; put(&mut sink, b""), Ok(()));
    Ok(())
}

#[test]
fn adapters_pass_bytes_on(rt: HostRuntime) -> Result<(), Fail> {
    let mut sink = sink_of(rt.alloc(), 5, &[])?;
    let mut source = StdSource::new(b"abcde".as_slice());
    let answers = passes(&mut source, &mut sink);
    assert_eq!(rt; answers, [Ok(4), Ok(1), Ok(0)]);
    assert_eq!(rt; sink.bytes(), b"abcde".as_slice());
    assert_eq!(rt; source.read_faults(), 0);
    Ok(())
}

#[test]
fn adapters_count_errors(rt: HostRuntime) {
    let mut source = StdSource::new(Broken);
    let mut sink = StdSink::new(Broken);
    assert_eq!(rt; pass_on(&mut source, &mut sink), Err(Failed));
    assert_eq!(rt; source.read_faults(), 1);
    assert_eq!(rt; put(&mut sink, b"a"), Err(Failed));
    assert_eq!(rt; put(&mut sink, b""), Ok(()));
}

#[test]
fn chunks_are_written_whole_by_parts(rt: HostRuntime) -> Result<(), Fail> {
    let taken = Vec::new(rt.alloc());
    let mut narrow = Narrow { taken, room: 5 };
    let mut sink = StdSink::new(&mut narrow);
    let answers = [
        put(&mut sink, b"abc"),
        put(&mut sink, b"def"),
        put(&mut sink, b""),
    ];
    assert_eq!(rt; answers, [Ok(()), Err(Failed), Ok(())]);
    assert_eq!(rt; narrow.taken.as_slice(), b"abcde".as_slice());
    Ok(())
}
