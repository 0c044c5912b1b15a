//! Replies as they are written (RFC 9112, 4 to 6).
ghost use Rattle.std.specs.Prelude.{◌≡◌, ◌+◌, ◌≤◌, [], ◌++◌, codes, decimal, length, OnOk, OnErr};
ghost use Rattle.arrayvec.specs.ArrayVec.{array_vec_len};
ghost use Rattle.outside.specs.Stream.{Takes, FailsToTake};
ghost use Rattle.explorer_model.specs.Replies.{status_text, own_line, close_line, method_text, reply_body, reply_text};
ghost use Rattle.http_wire.specs.Replying.{head_text, own_body};

use arrayvec::ArrayVec;
use explorer_model::wire::{Method, Reply};
use itoa::Buffer;
use outside::{Failed, Link};

/// Writes a reply: at once where it is short, else its head and its body.
pub(crate) fn write_reply<L: Link>(link: &mut L, reply: &Reply, last: bool) -> Result<(), Failed>
    ensures takes { OnOk result
        (Takes (reply_text reply.now last) (L.source link.old) (L.source link.new)) }
    ensures fails { OnErr result
        (FailsToTake (reply_text reply.now last) (L.source link.old) (L.source link.new)) }
{
    let own = own_body(reply);
    let body = body_of(reply, own.as_slice());
    let mut text: ArrayVec<u8, 4096> = ArrayVec::new();
    push_head(&mut text, reply, body.len(), last);
    if text.remaining_capacity() < body.len() {
        return send_both(link, text.as_slice(), body);
    }
    push(&mut text, body);
    send(link, text.as_slice())
}

fn send<L: Link>(link: &mut L, chunk: &[u8]) -> Result<(), Failed>
    ensures takes { OnOk result (Takes chunk.now (L.source link.old) (L.source link.new)) }
    ensures fails { OnErr result (FailsToTake chunk.now (L.source link.old) (L.source link.new)) }
{
    link.write(chunk)
}

/// Writes two chunks in turn.
fn send_both<L: Link>(link: &mut L, first: &[u8], second: &[u8]) -> Result<(), Failed>
    ensures takes { OnOk result
        (Takes (first.now ++ second.now) (L.source link.old) (L.source link.new)) }
    ensures fails { OnErr result
        (FailsToTake (first.now ++ second.now) (L.source link.old) (L.source link.new)) }
{
    match send(link, first) {
        Ok(()) => send(link, second),
        Err(Failed) => Err(Failed),
    }
}

/// The reply's body, where `own` is that of a reply that does not bring it.
fn body_of<'a>(reply: &'a Reply, own: &'a [u8]) -> &'a [u8]
    requires { own.now ≡ own_body reply.now }
    ensures { result.now ≡ reply_body reply.now }
{
    match reply {
        Reply::Found { body, .. } | Reply::Stored { body, .. } => body.as_slice(),
        _ => own,
    }
}

/// What stands before a body of `size` bytes.
fn push_head(text: &mut ArrayVec<u8, 4096>, reply: &Reply, size: usize, last: bool)
    requires { text.old.items ≡ [] }
    ensures { text.new.items ≡ head_text reply.now size last }
{
    push(text, b"HTTP/1.1 ");
    push(text, status_text(reply));
    push(
        text,
        b"\r\nContent-Type: application/json\r\nContent-Length: ",
    );
    push_number(text, size as u64);
    push(text, b"\r\n");
    push_own_line(text, reply);
    push_close_line(text, last);
    push(text, b"\r\n");
}

fn push_close_line(text: &mut ArrayVec<u8, 4096>, last: bool)
    requires { array_vec_len text.old ≤ 1000 }
    ensures text { text.new.items ≡ text.old.items ++ close_line last }
    ensures room { array_vec_len text.new ≤ array_vec_len text.old + 20 }
{
    if last {
        push(text, b"Connection: close\r\n");
    }
}

fn push_own_line(text: &mut ArrayVec<u8, 4096>, reply: &Reply)
    requires { array_vec_len text.old ≤ 1000 }
    ensures text { text.new.items ≡ text.old.items ++ own_line reply.now }
    ensures room { array_vec_len text.new ≤ array_vec_len text.old + 60 }
{
    match reply {
        Reply::Found { batches, .. } | Reply::Stored { batches, .. } => {
            push(text, b"X-Explorer-Batches: ");
            push_number(text, u64::from(*batches));
            push(text, b"\r\n");
        }
        Reply::NotAllowed { allow } => {
            push(text, b"Allow: ");
            push(text, method_text(*allow));
            push(text, b"\r\n");
        }
        _ => {}
    }
}

fn method_text(method: Method) -> &'static [u8]
    ensures text { result.now ≡ method_text method }
    ensures short { length result.now ≤ 4 }
{
    match method {
        Method::Get => b"GET",
        Method::Post => b"POST",
        Method::Other => b"",
    }
}

fn status_text(reply: &Reply) -> &'static [u8]
    ensures text { result.now ≡ status_text reply.now }
    ensures short { length result.now ≤ 40 }
{
    match reply {
        Reply::Found { .. } | Reply::Stored { .. } => b"200 OK",
        Reply::BadParameter { .. } | Reply::BadPlayerParameter { .. } | Reply::BadRequest => {
            b"400 Bad Request"
        }
        Reply::NotFound => b"404 Not Found",
        Reply::NotAllowed { .. } => b"405 Method Not Allowed",
        Reply::TooLarge => b"413 Content Too Large",
        Reply::HeadTooLarge => b"431 Request Header Fields Too Large",
        Reply::DiskFault { .. } | Reply::Closed { .. } => b"500 Internal Server Error",
        Reply::Full { .. } => b"507 Insufficient Storage",
        Reply::NoMemory | Reply::Unread => b"503 Service Unavailable",
    }
}

/// The body of a reply that does not bring it.
fn own_body(reply: &Reply) -> ArrayVec<u8, 128>
    ensures { result.items ≡ own_body reply.now }
{
    match reply {
        Reply::Found { .. } | Reply::Stored { .. } => body_from(b""),
        Reply::BadParameter { name } => parameter_body(name.as_str()),
        Reply::BadPlayerParameter { name } => parameter_body(name.as_str()),
        Reply::BadRequest => body_from(b"{\"error\":\"bad request\"}"),
        Reply::NotFound => body_from(b"{\"error\":\"not found\"}"),
        Reply::NotAllowed { .. } => body_from(b"{\"error\":\"method not allowed\"}"),
        Reply::TooLarge => body_from(b"{\"error\":\"body too large\"}"),
        Reply::HeadTooLarge => body_from(b"{\"error\":\"head too large\"}"),
        Reply::DiskFault { stored } => body_with_number(
            b"{\"error\":\"disk fault\",\"stored\":",
            *stored,
        ),
        Reply::Closed { stored } => body_with_number(b"{\"error\":\"closed\",\"stored\":", *stored),
        Reply::Full {
            games,
            bytes,
            stored,
        } => full_body(*games, *bytes, *stored),
        Reply::NoMemory => body_from(b"{\"error\":\"out of memory\"}"),
        Reply::Unread => body_from(b"{\"error\":\"no reading\"}"),
    }
}

fn body_from(bytes: &[u8]) -> ArrayVec<u8, 128>
    requires { length bytes.now ≤ 128 }
    ensures { result.items ≡ bytes.now }
{
    let mut body = ArrayVec::new();
    push(&mut body, bytes);
    body
}

/// The body that names a malformed parameter.
fn parameter_body(name: &str) -> ArrayVec<u8, 128>
    requires { length name.now ≤ 16 }
    ensures { result.items ≡ codes "{\"error\":\"malformed parameter\",\"parameter\":\""
        ++ name.now ++ codes "\"}" }
{
    let mut body = body_from(b"{\"error\":\"malformed parameter\",\"parameter\":\"");
    push(&mut body, name.as_bytes());
    push(&mut body, b"\"}");
    body
}

/// The body that begins with these bytes and ends with a number.
fn body_with_number(bytes: &[u8], number: u32) -> ArrayVec<u8, 128>
    requires { length bytes.now ≤ 64 }
    ensures { result.items ≡ bytes.now ++ decimal number ++ codes "}" }
{
    let mut body = body_from(bytes);
    push_number(&mut body, u64::from(number));
    push(&mut body, b"}");
    body
}

fn full_body(games: u64, bytes: u64, stored: u32) -> ArrayVec<u8, 128>
    ensures { result.items ≡ codes "{\"bytes\":" ++ decimal bytes
        ++ codes ",\"error\":\"full\",\"games\":" ++ decimal games
        ++ codes ",\"stored\":" ++ decimal stored ++ codes "}" }
{
    let mut body = body_from(b"{\"bytes\":");
    push_number(&mut body, bytes);
    push(&mut body, b",\"error\":\"full\",\"games\":");
    push_number(&mut body, games);
    push(&mut body, b",\"stored\":");
    push_number(&mut body, u64::from(stored));
    push(&mut body, b"}");
    body
}

fn push_number<const N: usize>(text: &mut ArrayVec<u8, N>, number: u64)
    requires { array_vec_len text.old + 20 ≤ N }
    ensures text { text.new.items ≡ text.old.items ++ decimal number }
    ensures room { array_vec_len text.new ≤ array_vec_len text.old + 20 }
{
    let mut buffer = Buffer::new();
    push(text, buffer.format(number).as_bytes());
}

fn push<const N: usize>(text: &mut ArrayVec<u8, N>, bytes: &[u8])
    requires { array_vec_len text.old + length bytes.now ≤ N }
    ensures text { text.new.items ≡ text.old.items ++ bytes.now }
    ensures room { array_vec_len text.new ≡ array_vec_len text.old + length bytes.now }
{
    match text.try_extend_from_slice(bytes) {
        Ok(()) => {}
        Err(_) => unreachable!(),
    }
}
