//! What a head asks, and whether it is refused.
ghost use Rattle.std.specs.Prelude.{◌≡◌, ◌≤◌, ◌+◌, ◌==◌, ◌||◌, length, map, codes, drop, IfOk, IfErr, IfSome, IfNone};
ghost use Rattle.std.specs.List.{All, list_any, position_or_len};
ghost use Rattle.httparse.specs.Grammar.{RequestHead};
ghost use Rattle.httparse.specs.Spans.{IsHeaderWithin, IsRequestWithin, header_bytes};
ghost use Rattle.explorer_model.specs.Wire.{has_close, method_of, path_of};
ghost use Rattle.http_wire.specs.Fields.{values_in, body_len_in};
ghost use Rattle.http_wire.specs.Judging.{is_question, IsWholeHead, IsNoHead, Says, IsRefusal};

use crate::fields::{has_close, length_by, values};
use explorer_model::archive::Bytes;
use explorer_model::wire::{Asked, Method, Path, RequestFault};
use httparse::Status;
use httparse::spans::{EMPTY_HEADER_SPAN, HeaderSpan, RequestSpans, parse_request};
use std::alloc::Global;

/// The most bytes of a body.
const BODY_LIMIT: u64 = 4194304;

/// What a head says of its request. `closes`: the version or a field closes the connection.
#[derive(Drop)]
pub(crate) struct Judged {
    pub method: Method,
    pub path: Path,
    pub query: Bytes,
    pub body_len: usize,
    pub closes: bool,
}

/// Judges the text of a head.
pub(crate) fn judge(alloc: Global, text: &[u8]) -> Result<Judged, Asked>
    ensures says { IfOk result (λ judged. (head : RequestHead) × Says text.now judged head) }
    ensures refuses { IfErr result (IsRefusal text.now) }
{
    let mut headers = [EMPTY_HEADER_SPAN; 32];
    let Some(spans) = spans_of(text, &mut headers) else {
        return Err(Asked::Refused(RequestFault::BadRequest));
    };
    let fields = &headers[..spans.headers];
    let body_len = match body_len(text, fields) {
        Ok(body_len) => body_len,
        Err(fault) => return Err(Asked::Refused(fault)),
    };
    let target = spans.path.of(text);
    let mark = question_mark(target);
    let Ok(query) = Vec::from_slice(alloc, after(target, mark)) else {
        return Err(Asked::NoMemory);
    };
    Ok(Judged {
        method: method_of(spans.method.of(text)),
        path: path_of(&target[..mark]),
        query: Bytes::from_vec(query),
        body_len,
        closes: is_closing(spans.version, text, fields),
    })
}

/// The parts of a head, where the whole text is one with room for its fields.
fn spans_of(text: &[u8], headers: &mut [HeaderSpan]) -> Option<RequestSpans>
    requires { length headers.old ≡ 32 }
    ensures whole { IfSome result (IsWholeHead text.now headers.new) }
    ensures within { IfSome result (IsRequestWithin text.now headers.new) }
    ensures none { IfNone result (IsNoHead text.now) }
{
    match parse_request(text, headers) {
        Ok(Status::Complete(spans)) => {
            if spans.len != text.len() {
                return None;
            }
            Some(spans)
        }
        Ok(Status::Partial) => None,
        Err(_) => None,
    }
}

/// How many bytes the body has, by the fields.
fn body_len(text: &[u8], fields: &[HeaderSpan]) -> Result<usize, RequestFault>
    requires few { length fields.now ≤ 32 }
    requires within { All (IsHeaderWithin (length text.now)) fields.now }
    ensures { result ≡ body_len_in (map (header_bytes text.now) fields.now) }
{
    let codings = values(text, fields, b"transfer-encoding");
    if !codings.is_empty() {
        return Err(RequestFault::BadRequest);
    }
    let lengths = values(text, fields, b"content-length");
    match length_by(lengths.as_slice()) {
        None => Err(RequestFault::BadRequest),
        Some(length) if length <= BODY_LIMIT => Ok(length as usize),
        Some(_) => Err(RequestFault::TooLarge),
    }
}

/// Whether the version or a field closes the connection (RFC 9112, 9.3 and 9.6).
fn is_closing(version: u8, text: &[u8], fields: &[HeaderSpan]) -> bool
    requires few { length fields.now ≤ 32 }
    requires within { All (IsHeaderWithin (length text.now)) fields.now }
    ensures { result ≡ (version == 0 || list_any has_close
        (values_in (codes "connection") (map (header_bytes text.now) fields.now))) }
{
    version == 0 || is_any_close(values(text, fields, b"connection").as_slice())
}

fn is_any_close(values: &[&[u8]]) -> bool
    ensures { result ≡ list_any has_close (map (λ value. value.now) values.now) }
{
    for value in values {
        if has_close(value) {
            return true;
        }
    }
    false
}

/// The place of the first question mark, or the length.
fn question_mark(target: &[u8]) -> usize
    ensures place { result ≡ position_or_len is_question target.now }
    ensures within { result ≤ length target.now }
{
    let mut at = 0;
    while at < target.len() && target[at] != b'?' {
        at += 1;
    }
    at
}

/// What stands behind a place; nothing where it is the end.
fn after(target: &[u8], mark: usize) -> &[u8]
    requires { mark ≤ length target.now }
    ensures { result.now ≡ drop (mark + 1) target.now }
{
    if mark == target.len() {
        return &target[mark..];
    }
    &target[mark + 1..]
}

fn method_of(text: &[u8]) -> Method
    ensures { result ≡ method_of text.now }
{
    if text == b"GET".as_slice() {
        return Method::Get;
    }
    if text == b"POST".as_slice() {
        return Method::Post;
    }
    Method::Other
}

fn path_of(text: &[u8]) -> Path
    ensures { result ≡ path_of text.now }
{
    if text == b"/lichess".as_slice() {
        return Path::Lichess;
    }
    if text == b"/player".as_slice() {
        return Path::Player;
    }
    if text == b"/import".as_slice() {
        return Path::Import;
    }
    Path::Other
}
