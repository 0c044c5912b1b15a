//! The body of a request (RFC 9112, 6).
ghost use Rattle.std.specs.Prelude.{◌≡◌, ◌≤◌, length, IfOk, IfErr, OnOk};
ghost use Rattle.http_wire.specs.Steps.{TakesBody, LacksBody, TakesAhead, Grows, Completes, Breaks};

use crate::ahead::ReadAhead;
use explorer_model::wire::Asked;
use outside::{Failed, Link};
use std::alloc::{AllocError, Global};

/// For how many bytes room is made before any has come.
const FIRST_ROOM: usize = 16 * 1024;

/// Reads a body of `count` bytes. Its room grows with the bytes that come.
pub(crate) fn read_body<L: Link>(
    alloc: Global,
    ahead: &mut ReadAhead,
    link: &mut L,
    count: usize,
) -> Result<Vec<u8>, Asked>
    ensures took { IfOk result (λ body. TakesBody body.items count
        ahead.old ahead.new (L.source link.old) (L.source link.new)) }
    ensures lacked { IfErr result (λ asked. LacksBody asked count
        ahead.old (L.source link.old) (L.source link.new)) }
{
    let Ok(mut body) = take_ahead(alloc, ahead, count) else {
        return Err(Asked::NoMemory);
    };
    match fill_body(&mut body, link, count) {
        Ok(()) => Ok(body),
        Err(asked) => Err(asked),
    }
}

/// The first bytes of a body of `count` bytes, as far as they were read ahead.
fn take_ahead(alloc: Global, ahead: &mut ReadAhead, count: usize) -> Result<Vec<u8>, AllocError>
    ensures { IfOk result (λ body. TakesAhead body.items count ahead.old ahead.new) }
{
    let held = ahead.as_slice().len().min(count);
    let body = Vec::from_slice(alloc, &ahead.as_slice()[..held])?;
    ahead.skip(held);
    Ok(body)
}

/// Fills a body up to `count` bytes. It makes room for as many bytes as have come, not for those
/// that were declared: a peer that sends nothing takes no more than the first room.
fn fill_body<L: Link>(body: &mut Vec<u8>, link: &mut L, count: usize) -> Result<(), Asked>
    requires { length body.old.items ≤ count }
    ensures took { OnOk result
        (Grows body.old.items body.new.items (L.source link.old) (L.source link.new)) }
    ensures whole { OnOk result (length body.new.items ≡ count) }
    ensures broken { IfErr result (λ asked.
        Breaks asked (length body.old.items) count (L.source link.old) (L.source link.new)) }
{
    while body.len() < count {
        let start = body.len();
        let room = start.max(FIRST_ROOM).min(count - start);
        if body.resize(start + room, 0).is_err() {
            return Err(Asked::NoMemory);
        }
        match read_rest(body, start, link) {
            Ok(()) => {}
            Err(asked) => return Err(asked),
        }
    }
    Ok(())
}

/// Reads the bytes of a body from `start` on.
fn read_rest<L: Link>(body: &mut [u8], start: usize, link: &mut L) -> Result<(), Asked>
    requires { start ≤ length body.old }
    ensures whole { OnOk result
        (Completes start body.old body.new (L.source link.old) (L.source link.new)) }
    ensures broken { IfErr result (λ asked.
        Breaks asked start (length body.old) (L.source link.old) (L.source link.new)) }
{
    let mut at = start;
    while at < body.len() {
        match link.read(&mut body[at..]) {
            Ok(0) => return Err(Asked::Cut),
            Ok(count) => at += count,
            Err(Failed) => return Err(Asked::ReadFault),
        }
    }
    Ok(())
}
