//! One connection's requests and replies, in turn.
ghost use Rattle.std.specs.Prelude.{◌≡◌, ◌<◌, ◌≤◌, length, OnOk, OnErr};
ghost use Rattle.outside.specs.Stream.{Takes, FailsToTake};
ghost use Rattle.explorer_model.specs.Wire.{body_limit};
ghost use Rattle.explorer_model.specs.Replies.{reply_text};
ghost use Rattle.http_wire.specs.Asking.{fresh, more_behind, Asks, StaysClosed, IfWanted};
ghost use Rattle.http_wire.specs.Judging.{request_by};
ghost use Rattle.http_wire.specs.Steps.{IsNext};

use crate::ahead::ReadAhead;
use crate::body::read_body;
use crate::head::find_head;
use crate::judging::{Judged, judge};
use crate::reply::write_reply;
use explorer_model::archive::Bytes;
use explorer_model::wire::{Asked, Reply, Request};
use outside::{Failed, Link};
use std::alloc::Global;
use std::marker::Model;

/// The most requests of a connection.
const REQUEST_LIMIT: u32 = 1000;

/// One connection's requests, and the bytes that were read ahead of them.
#[derive(Drop)]
pub struct Wire {
    ahead: ReadAhead,
    more: u32,
}

impl Model for Wire {
    ghost use Rattle.http_wire.specs.Asking.{Buffer};

    ghost Value = { Buffer };

    ghost view = { λ w. record { pending = w.ahead; more = w.more } };
}

impl Wire {
    /// A connection of which nothing was read.
    pub fn new() -> Self
        ensures { result ≡ fresh }
    {
        Wire {
            ahead: ReadAhead::new(),
            more: REQUEST_LIMIT,
        }
    }

    /// What is asked next, however the bytes come. Each request is read whole, its body included,
    /// whatever its path and method. `NoMemory` is want of memory for its query or its body.
    /// Behind everything but a request that leaves the connection open, only `Done` comes.
    pub fn next<L: Link>(&mut self, alloc: Global, link: &mut L) -> Asked
        ensures asks { 0 < self.old.more
            → Asks result self.old self.new (L.source link.old) (L.source link.new) }
        ensures closed { self.old.more ≡ 0
            → StaysClosed result self.old self.new (L.source link.old) (L.source link.new) }
        ensures within { IfWanted result (λ request. length request.body ≤ body_limit) }
    {
        if self.more == 0 {
            return Asked::Done;
        }
        let asked = read_request(alloc, &mut self.ahead, link, self.more);
        self.more = more_behind(self.more, &asked);
        asked
    }

    /// Writes a reply; `last`: the connection is closed behind it. It takes no memory.
    pub fn reply<L: Link>(&mut self, link: &mut L, reply: &Reply, last: bool) -> Result<(), Failed>
        ensures same { self.new ≡ self.old }
        ensures takes { OnOk result
            (Takes (reply_text reply.now last) (L.source link.old) (L.source link.new)) }
        ensures fails { OnErr result
            (FailsToTake (reply_text reply.now last) (L.source link.old) (L.source link.new)) }
    {
        write_reply(link, reply, last)
    }
}

/// How many requests may come behind what is asked.
fn more_behind(more: u32, asked: &Asked) -> u32
    requires { 0 < more }
    ensures { result ≡ more_behind more asked.now }
{
    match asked {
        Asked::Wanted(request) => { if request.last { 0 } else { more - 1 } }
        _ => 0,
    }
}

/// Reads the next request whole, where `more` may come.
fn read_request<L: Link>(alloc: Global, ahead: &mut ReadAhead, link: &mut L, more: u32) -> Asked
    ensures next { IsNext more result
        ahead.old ahead.new (L.source link.old) (L.source link.new) }
    ensures within { IfWanted result (λ request. length request.body ≤ body_limit) }
{
    let count = match find_head(ahead, link) {
        Ok(count) => count,
        Err(asked) => return asked,
    };
    let judged = match judge(alloc, &ahead.as_slice()[..count]) {
        Ok(judged) => judged,
        Err(asked) => return asked,
    };
    ahead.skip(count);
    match read_body(alloc, ahead, link, judged.body_len) {
        Ok(body) => Asked::Wanted(request_of(judged, body, more)),
        Err(asked) => asked,
    }
}

/// The request that a head and a body make.
fn request_of(judged: Judged, body: Vec<u8>, more: u32) -> Request
    ensures { result ≡ request_by judged body.items more }
{
    Request {
        method: judged.method,
        path: judged.path,
        query: judged.query,
        body: Bytes::from_vec(body),
        last: judged.closes || more == 1,
    }
}
