//! Requests however they are cut, and replies byte by byte.
use explorer_model::archive::Bytes;
use explorer_model::query::Parameter;
use http_wire::{Asked, Method, Path, Reply, Request, RequestFault, Wire};
use outside::{MemLink, MemSink, MemSource};
use std::alloc::Global;
use std::test::Fail;

/// A link that gives the bytes, at most so many in one read; the listed reads fail.
fn link(alloc: Global, bytes: &[u8], most: usize, failing: Vec<u64>) -> Result<MemLink, Fail> {
    let most = most.max(1);
    let source = MemSource::new(Vec::from_slice(alloc, bytes)?, most, failing);
    Ok(MemLink::new(source, MemSink::new(alloc, 0, Vec::new(alloc))?))
}

/// What the bytes ask, up to the first answer that is no request; behind it comes only `Done`.
fn asked_by(alloc: Global, bytes: &[u8], most: usize) -> Result<Vec<Asked>, Fail> {
    let mut link = link(alloc, bytes, most, Vec::new(alloc))?;
    let mut wire = Wire::new();
    let mut all = Vec::new(alloc);
    for _ in 0..1002 {
        let asked = wire.next(alloc, &mut link);
        let is_request = matches!(asked, Asked::Wanted(_));
        all.push(asked)?;
        if !is_request {
            break;
        }
    }
    Ok(all)
}

/// The first answer, in a word.
fn first(alloc: Global, bytes: &[u8]) -> Result<&'static str, Fail> {
    let mut link = link(alloc, bytes, 8192, Vec::new(alloc))?;
    Ok(word(&Wire::new().next(alloc, &mut link)))
}

fn word(asked: &Asked) -> &'static str {
    match asked {
        Asked::Wanted(request) => if request.last { "last" } else { "wanted" },
        Asked::Refused(RequestFault::BadRequest) => "400",
        Asked::Refused(RequestFault::TooLarge) => "413",
        Asked::Refused(RequestFault::HeadTooLarge) => "431",
        Asked::NoMemory => "no memory",
        Asked::Done => "done",
        Asked::Cut => "cut",
        Asked::ReadFault => "read fault",
    }
}

/// A text with a piece that comes so many times.
fn text(
    alloc: Global,
    front: &[u8],
    piece: &[u8],
    times: usize,
    back: &[u8],
) -> Result<Vec<u8>, Fail> {
    let mut text = Vec::from_slice(alloc, front)?;
    for _ in 0..times {
        text.extend_from_slice(piece)?;
    }
    text.extend_from_slice(back)?;
    Ok(text)
}

fn bytes(alloc: Global, text: &[u8]) -> Result<Bytes, Fail> {
    Ok(Bytes::from_vec(Vec::from_slice(alloc, text)?))
}

const TWO: &[u8] = b"\r\n\nPOST /import?a=1?b HTTP/1.1\r\ncontent-LENGTH:\t 3 \r\nHost:\n\r\nabc\
GET /lichess?moves=1 HTTP/1.1\nConnection: keep-alive, Close\n\nGET / HTTP/1.1\n\n";

#[test]
fn requests_are_read_however_they_are_cut(rt: HostRuntime) -> Result<(), Fail> {
    let alloc: Global = rt.alloc();
    let import = Request {
        method: Method::Post,
        path: Path::Import,
        query: bytes(alloc, b"a=1?b")?,
        body: bytes(alloc, b"abc")?,
        last: false,
    };
    let query = Request {
        method: Method::Get,
        path: Path::Lichess,
        query: bytes(alloc, b"moves=1")?,
        body: bytes(alloc, b"")?,
        last: true,
    };
    let wanted = vec![in alloc; Asked::Wanted(import), Asked::Wanted(query), Asked::Done]?;
    for most in 1..TWO.len() + 1 {
        assert_eq!(rt; asked_by(alloc, TWO, most)?, wanted, "in reads of {most}");
    }
    Ok(())
}

#[test]
fn request_may_end_at_each_byte(rt: HostRuntime) -> Result<(), Fail> {
    let alloc: Global = rt.alloc();
    // How many bytes of line ends stand before the request.
    let table: [(&[u8], usize); 4] = [
        (
            b"\r\nPOST /import HTTP/1.1\r\nContent-Length: 5\r\n\r\n12345",
            2,
        ),
        (b"GET /lichess HTTP/1.1\r\n\r\n", 0),
        (b"\nGET /lichess?moves=3&moves=3 HTTP/1.0\n\n", 1),
        (b"DELETE /lichess HTTP/1.1\r\nConnection: close\r\n\r\n", 0),
    ];
    for (text, blank) in table {
        for end in 0..text.len() {
            let word = first(alloc, &text[..end])?;
            assert_eq!(rt; word, if end <= blank { "done" } else { "cut" }, "at {end}");
        }
    }
    Ok(())
}

/// The first answer to a text with a piece that comes so many times, in a word.
fn first_of(
    alloc: Global,
    front: &[u8],
    piece: &[u8],
    times: usize,
    back: &[u8],
) -> Result<&'static str, Fail> {
    let text = text(alloc, front, piece, times, back)?;
    first(alloc, &text)
}

#[test]
fn heads_and_lengths_at_their_limits(rt: HostRuntime) -> Result<(), Fail> {
    let alloc: Global = rt.alloc();
    let line: &[u8] = b"\r\nGET /lichess?";
    let fields: &[u8] = b"GET / HTTP/1.1\n";
    let post: &[u8] = b"POST / HTTP/1.1\nContent-Length: 4194304\n\n";
    let rows: [(&[u8], &[u8], usize, &[u8], &str); 6] = [
        // The line ends, the target and the rest of the head have 28 bytes beside the letters.
        (line, b"a", 8163, b" HTTP/1.1\r\n\r\n", "wanted"),
        (line, b"a", 8164, b" HTTP/1.1\r\n\r\n", "wanted"),
        (line, b"a", 8165, b" HTTP/1.1\r\n\r\n", "431"),
        (fields, b"A:\n", 32, b"\n", "wanted"),
        (fields, b"A:\n", 33, b"\n", "431"),
        (post, &[b'a'; 1024], 4096, b"", "wanted"),
    ];
    for (front, piece, times, back, word) in rows {
        assert_eq!(rt; first_of(alloc, front, piece, times, back)?, word);
    }
    Ok(())
}

#[test]
fn heads_ask_or_are_refused(rt: HostRuntime) -> Result<(), Fail> {
    let rows: [(&[u8], &str); 16] = [
        (b"", "done"),
        (b"\r\n\n\r", "done"),
        (b"GET /lich", "cut"),
        (b"GET\n\n", "400"),
        (b"GET / HTTP/1.1\r\n\r\n", "wanted"),
        (b"GET / HTTP/1.0\n\n", "last"),
        (b"GET / HTTP/1.2\n\n", "400"),
        (b"GET / HTTP/1.1\nTransfer-Encoding: chunked\n\n", "400"),
        (
            b"GET / HTTP/1.1\nContent-Length: 0\ncontent-length: 0\n\n",
            "400",
        ),
        (b"GET / HTTP/1.1\nContent-Length:\n\n", "400"),
        (b"GET / HTTP/1.1\nContent-Length: +1\n\n1", "400"),
        (b"GET / HTTP/1.1\nContent-Length: 0000000001\n\n1", "wanted"),
        (b"GET / HTTP/1.1\nContent-Length: 00000000001\n\n1", "400"),
        (b"GET / HTTP/1.1\nContent-Length: 4194304\n\n1", "cut"),
        (b"GET / HTTP/1.1\nContent-Length: 4194305\n\n1", "413"),
        (
            b"GET / HTTP/1.1\nConnection: a, close\nConnection: b\n\n",
            "last",
        ),
    ];
    for (text, word) in rows {
        assert_eq!(rt; first(rt.alloc(), text)?, word);
    }
    Ok(())
}

/// What a field's name or its value of one byte is answered with.
fn first_with(alloc: Global, byte: u8) -> Result<(&'static str, &'static str), Fail> {
    let name = first_of(alloc, b"GET / HTTP/1.1\r\nA", &[byte], 1, b": x\r\n\r\n")?;
    let value = first_of(alloc, b"GET / HTTP/1.1\r\nA: ", &[byte], 1, b"\r\n\r\n")?;
    Ok((name, value))
}

fn answer_where(is_allowed: bool) -> &'static str {
    if is_allowed { "wanted" } else { "400" }
}

#[test]
fn any_byte_in_a_field(rt: HostRuntime) -> Result<(), Fail> {
    for byte in 0..=255u8 {
        let is_name = byte.is_ascii_alphanumeric() || b"!#$%&'*+-.^_`|~:".contains(&byte);
        let is_value = byte == b'\t' || byte == b'\n' || 32 <= byte && byte != 127;
        assert_eq!(rt;
            first_with(rt.alloc(), byte)?,
            (answer_where(is_name), answer_where(is_value)),
            "{byte}"
        );
    }
    Ok(())
}

#[test]
fn thousandth_request_is_the_last(rt: HostRuntime) -> Result<(), Fail> {
    let alloc: Global = rt.alloc();
    let requests = text(alloc, b"", b"GET / HTTP/1.1\n\n", 1001, b"")?;
    let all = asked_by(alloc, &requests, 8192)?;
    assert_eq!(rt; all.len(), 1001);
    for (number, asked) in all.iter().enumerate() {
        let expected = if number < 999 {
            "wanted"
        } else if number == 999 {
            "last"
        } else {
            "done"
        };
        assert_eq!(rt; word(asked), expected, "at {number}");
    }
    Ok(())
}

#[test]
fn faults_of_a_link(rt: HostRuntime) -> Result<(), Fail> {
    let alloc: Global = rt.alloc();
    // Both requests come with the first read, so that no second one is made for them.
    let text = b"GET / HTTP/1.1\n\nGET / HTTP/1.1\n\nGET";
    let mut link = link(alloc, text, 8192, vec![in alloc; 1]?)?;
    let mut wire = Wire::new();
    for expected in ["wanted", "wanted", "read fault", "done"] {
        assert_eq!(rt; word(&wire.next(alloc, &mut link)), expected);
    }
    Ok(())
}

/// Writes a reply to a sink whose second write fails, and gives what was written.
fn write_reply(alloc: Global, reply: &Reply, last: bool) -> Result<(bool, Vec<u8>), Fail> {
    let source = MemSource::new(Vec::new(alloc), 1, Vec::new(alloc));
    let mut link = MemLink::new(source, MemSink::new(alloc, 9000, vec![in alloc; 1]?)?);
    let is_done = Wire::new().reply(&mut link, reply, last).is_ok();
    Ok((is_done, Vec::from_slice(alloc, link.written())?))
}

/// Whether a reply is written with this status line, fields of its own and body.
fn is_written(
    alloc: Global,
    reply: &Reply,
    last: bool,
    status: &str,
    own: &str,
    body: &str,
) -> Result<bool, Fail> {
    let size = body.len();
    let text = format!(in alloc;
        "HTTP/1.1 {status}\r\nContent-Type: application/json\r\nContent-Length: {size}\r\n\
         {own}\r\n{body}"
    )?;
    let (is_done, bytes) = write_reply(alloc, reply, last)?;
    Ok(is_done && bytes.as_slice() == text.as_bytes())
}

/// A reply, and the status line, the fields of its own and the body that it is written with.
type Row = (Reply, &'static str, &'static str, &'static str);

fn replies(alloc: Global) -> Result<[Row; 13], Fail> {
    let found = Reply::Found {
        batches: 12,
        body: bytes(alloc, b"{}")?,
    };
    let stored = Reply::Stored {
        batches: 0,
        body: bytes(alloc, b"{\"stored\":1}")?,
    };
    let malformed = Reply::BadParameter {
        name: Parameter::TopGames,
    };
    let full = Reply::Full {
        games: 64,
        bytes: 18446744073709551615,
        stored: 4294967295,
    };
    Ok([
        (found, "200 OK", "X-Explorer-Batches: 12\r\n", "{}"),
        (
            stored,
            "200 OK",
            "X-Explorer-Batches: 0\r\n",
            "{\"stored\":1}",
        ),
        (
            malformed,
            "400 Bad Request",
            "",
            "{\"error\":\"malformed parameter\",\"parameter\":\"topGames\"}",
        ),
        (
            Reply::BadRequest,
            "400 Bad Request",
            "",
            "{\"error\":\"bad request\"}",
        ),
        (
            Reply::NotFound,
            "404 Not Found",
            "",
            "{\"error\":\"not found\"}",
        ),
        (
            Reply::NotAllowed {
                allow: Method::Post,
            },
            "405 Method Not Allowed",
            "Allow: POST\r\n",
            "{\"error\":\"method not allowed\"}",
        ),
        (
            Reply::TooLarge,
            "413 Content Too Large",
            "",
            "{\"error\":\"body too large\"}",
        ),
        (
            Reply::HeadTooLarge,
            "431 Request Header Fields Too Large",
            "",
            "{\"error\":\"head too large\"}",
        ),
        (
            Reply::DiskFault { stored: 512 },
            "500 Internal Server Error",
            "",
            "{\"error\":\"disk fault\",\"stored\":512}",
        ),
        (
            Reply::Closed { stored: 0 },
            "500 Internal Server Error",
            "",
            "{\"error\":\"closed\",\"stored\":0}",
        ),
        (
            full,
            "507 Insufficient Storage",
            "",
            "{\"bytes\":18446744073709551615,\"error\":\"full\",\"games\":64,\"stored\":4294967295}",
        ),
        (
            Reply::NoMemory,
            "503 Service Unavailable",
            "",
            "{\"error\":\"out of memory\"}",
        ),
        (
            Reply::Unread,
            "503 Service Unavailable",
            "",
            "{\"error\":\"no reading\"}",
        ),
    ])
}

#[test]
fn replies_byte_by_byte(rt: HostRuntime) -> Result<(), Fail> {
    let alloc: Global = rt.alloc();
    let rows = replies(alloc)?;
    for (reply, status, own, body) in &rows {
        let last = format!(in alloc; "{own}Connection: close\r\n")?;
        assert!(rt;
            is_written(alloc, reply, false, status, own, body)?,
            "{status} {body}"
        );
        assert!(rt;
            is_written(alloc, reply, true, status, last.as_str(), body)?,
            "{status} {body}"
        );
    }
    Ok(())
}

#[test]
fn long_reply_is_two_writes(rt: HostRuntime) -> Result<(), Fail> {
    let alloc: Global = rt.alloc();
    let reply = Reply::Found {
        batches: 1,
        body: Bytes::from_vec(vec![in alloc; b'1'; 5000]?),
    };
    let (is_done, bytes) = write_reply(alloc, &reply, false)?;
    assert!(rt; !is_done);
    assert!(rt; bytes.ends_with(b"Content-Length: 5000\r\nX-Explorer-Batches: 1\r\n\r\n"));
    Ok(())
}
