//! Streams cut into texts, in pieces of every length.
ghost use Rattle.std.specs.Prelude.{◌≡◌, ◌+◌, ◌<◌, ◌^◌, length, map, IfOk};
ghost use Rattle.explorer_model.specs.Cuts.{cuts};
ghost use Rattle.pgn_cut.specs.Cut.{meaning};

use pgn_cut::cut::Cut;
use pgn_cut::cutter::Cutter;
use std::alloc::{AllocError, Global};
use std::process::Abort;
use std::test::Fail;

/// A cut as a row names it.
#[derive(Clone, Copy, Debug)]
enum Wanted<'a> {
    Text(u64, &'a [u8]),
    TooLong(u64, u64),
    Preamble(u64),
}

struct Row {
    stream: &'static [u8],
    cuts: &'static [Wanted<'static>],
}

const ROWS: [Row; 14] = [
    Row {
        stream: b"",
        cuts: &[],
    },
    Row {
        stream: b"\n \t\x0b\x0c\r\n",
        cuts: &[],
    },
    Row {
        stream: b"\xef\xbb\xbf\r\n",
        cuts: &[],
    },
    Row {
        stream: b"[Event \"a\"]\n\n1. e4 *\n\n[Event \"b\"]\n\n1. d4 *",
        cuts: &[
            Wanted::Text(0, b"[Event \"a\"]\n\n1. e4 *\n\n"),
            Wanted::Text(22, b"[Event \"b\"]\n\n1. d4 *"),
        ],
    },
    Row {
        stream: b"\xef\xbb\xbf[Event \"a\"]\n*",
        cuts: &[Wanted::Text(3, b"[Event \"a\"]\n*")],
    },
    Row {
        stream: b"\n\xef\xbb\xbf[Event \"a\"]\n*",
        cuts: &[Wanted::Preamble(1)],
    },
    Row {
        stream: b"\xef\xbb\n[Event \"a\"]\n*",
        cuts: &[Wanted::Preamble(0), Wanted::Text(3, b"[Event \"a\"]\n*")],
    },
    Row {
        stream: b"\xef\xbb",
        cuts: &[Wanted::Preamble(0)],
    },
    Row {
        stream: b"\xef\xbb\xbf \nhello",
        cuts: &[Wanted::Preamble(5)],
    },
    Row {
        stream: b"hello\n[Event \"a\"]\n*",
        cuts: &[Wanted::Preamble(0), Wanted::Text(6, b"[Event \"a\"]\n*")],
    },
    Row {
        stream: b"[Event \"a\"]\n\n{ of\n[Event \"x\"]\n} *\n",
        cuts: &[
            Wanted::Text(0, b"[Event \"a\"]\n\n{ of\n"),
            Wanted::Text(18, b"[Event \"x\"]\n} *\n"),
        ],
    },
    Row {
        stream: b"[Event \"a\"]\r\n\r\n*\r\n\r\n[Event \"b\"]\r\n\r\n*\r\n",
        cuts: &[
            Wanted::Text(0, b"[Event \"a\"]\r\n\r\n*\r\n\r\n"),
            Wanted::Text(20, b"[Event \"b\"]\r\n\r\n*\r\n"),
        ],
    },
    Row {
        stream: b"[Event \"a\"]\n [Event \"b\"]\n[Events \"c\"]\n[Eve\n[Event",
        cuts: &[Wanted::Text(
            0,
            b"[Event \"a\"]\n [Event \"b\"]\n[Events \"c\"]\n[Eve\n[Event",
        )],
    },
    Row {
        stream: b"\n\n[Event",
        cuts: &[Wanted::Preamble(2)],
    },
];

fn is_wanted(cut: &Cut, wanted: &Wanted) -> bool {
    match (cut, wanted) {
        (Cut::Text(text), Wanted::Text(place, bytes)) => {
            text.place == *place && text.bytes.as_slice() == *bytes
        }
        (Cut::TooLong { place, length }, Wanted::TooLong(start, count)) => {
            place == start && length == count
        }
        (Cut::Preamble { place }, Wanted::Preamble(first)) => place == first,
        _ => false,
    }
}

/// All cuts of a stream that comes in a piece of `first` bytes and then in pieces of `size` bytes.
fn cuts_in_pieces(
    alloc: Global,
    stream: &[u8],
    first: usize,
    size: usize,
) -> Result<Vec<Cut>, AllocError>
    requires first { 0 < first }
    requires size { 0 < size }
    requires room { length stream.now < 2 ^ 62 }
    ensures { IfOk result (λ found. map meaning found.items ≡ cuts stream.now) }
{
    let mut cutter = Cutter::new();
    let mut found = Vec::new(alloc);
    let mut at = 0;
    while at < stream.len() {
        let left = stream.len() - at;
        let count = if at == 0 {
            first.min(left)
        } else {
            size.min(left)
        };
        let fed = cutter.feed(alloc, &stream[at..at + count])?;
        at += fed.taken;
        if let Some(cut) = fed.cut {
            found.push(cut)?;
        }
    }
    if let Some(cut) = cutter.end() {
        found.push(cut)?;
    }
    Ok(found)
}

fn assert_cuts(rt: &impl Abort, found: &[Cut], wanted: &[Wanted], stream: &[u8]) {
    assert_eq!(rt; found.len(), wanted.len(), "cuts of {stream:?}: {found:?}");
    for (cut, wanted) in found.iter().zip(wanted.iter()) {
        assert!(rt;
            is_wanted(cut, wanted),
            "{cut:?} in {stream:?}, not {wanted:?}"
        );
    }
}

#[test]
fn rows_in_any_two_pieces_and_byte_by_byte(rt: HostRuntime) -> Result<(), Fail> {
    for row in &ROWS {
        let stream = row.stream;
        for first in 1..=stream.len() {
            let found = cuts_in_pieces(rt.alloc(), stream, first, stream.len())?;
            assert_cuts(&rt, found.as_slice(), row.cuts, stream);
        }
        for size in 1..9 {
            let found = cuts_in_pieces(rt.alloc(), stream, size, size)?;
            assert_cuts(&rt, found.as_slice(), row.cuts, stream);
        }
    }
    Ok(())
}

/// A text of `length` bytes that ends with a line.
fn long_text(alloc: Global, length: usize) -> Result<Vec<u8>, AllocError> {
    let mut text = Vec::from_slice(alloc, b"[Event \"a\"]\n")?;
    for _ in text.len() + 1..length {
        text.push(b' ')?;
    }
    text.push(b'\n')?;
    Ok(text)
}

const SECOND: &[u8] = b"[Event \"b\"]\n*";

/// A text of `length` bytes, and a short one behind it.
fn long_stream(alloc: Global, length: usize) -> Result<Vec<u8>, AllocError> {
    let mut stream = long_text(alloc, length)?;
    stream.extend_from_slice(SECOND)?;
    Ok(stream)
}

#[test]
fn text_of_65536_bytes_is_read_and_a_longer_one_is_not(rt: HostRuntime) -> Result<(), Fail> {
    for length in [65_536, 65_537] {
        let stream = long_stream(rt.alloc(), length)?;
        let stream = stream.as_slice();
        assert!(rt; stream.len() < 100_000);
        let place = length as u64;
        let first = match stream.get(..length) {
            Some(text) if length == 65_536 => Wanted::Text(0, text),
            _ => Wanted::TooLong(0, place),
        };
        let wanted = [first, Wanted::Text(place, SECOND)];
        for size in [1, 1_000, 100_000] {
            let found = cuts_in_pieces(rt.alloc(), stream, size, size)?;
            assert_cuts(&rt, found.as_slice(), &wanted, stream);
        }
    }
    Ok(())
}
