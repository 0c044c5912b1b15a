//! Replies to what is asked.
ghost use Rattle.std.specs.Prelude.{◌≡◌, ◌≤◌, length};
ghost use Rattle.explorer_model.specs.Wire.{body_limit};
ghost use Rattle.explorer_model.specs.declared.wire.Asked.TheVariants.{Wanted};
ghost use Rattle.session.specs.Backends.{StaysLent, state_of};
ghost use Rattle.session.specs.Readers.{IsCovered, offer_of};
ghost use Rattle.session.specs.Replies.{closes, refusal_reply};
ghost use Rattle.session.specs.Steps.{IsReplied, Replied};

use crate::answering::answer_by;
use crate::backend::Backend;
use crate::importing::import;
use crate::player_answering::answer_player;
use crate::reader::Reader;
use explorer_model::wire::{Asked, Method, Path, Reply, Request, RequestFault};
use ingest_desk::Importer;
use published_index::Index;
use std::alloc::Global;
use std::sync::Wait;
use std::thread::Threads;

/// Whether the connection is closed behind the reply.
pub fn closes(asked: &Asked) -> bool
    ensures { result ≡ closes asked.now }
{
    match asked {
        Asked::Wanted(request) => request.last,
        _ => true,
    }
}

/// The reply to what is asked.
pub fn reply_to<J: Index, I: Importer<J>, R: Wait + Threads + Sync>(
    rt: &R,
    alloc: Global,
    asked: &Asked,
    backend: &mut Backend<'_, J, I>,
    reader: &mut Reader<'_, J>,
) -> Reply
    requires replied { IsReplied asked.now }
    requires covered { IsCovered reader.old.players backend.old.pass.now.seen }
    ensures replied { Replied (offer_of reader.old) asked.now (state_of I.importer backend.old)
        result (state_of I.importer backend.new) }
    ensures covered { IsCovered reader.new.players backend.new.pass.now.seen }
    ensures offer { offer_of reader.new ≡ offer_of reader.old }
    ensures lent { StaysLent backend.old backend.new }
{
    match asked {
        Asked::Wanted(request) => reply_to_request(rt, alloc, request, backend, reader),
        Asked::Refused(fault) => refusal_reply(*fault),
        Asked::NoMemory => Reply::NoMemory,
        Asked::Done | Asked::Cut | Asked::ReadFault => unreachable!(),
    }
}

fn refusal_reply(fault: RequestFault) -> Reply
    ensures { result ≡ refusal_reply fault }
{
    match fault {
        RequestFault::BadRequest => Reply::BadRequest,
        RequestFault::TooLarge => Reply::TooLarge,
        RequestFault::HeadTooLarge => Reply::HeadTooLarge,
    }
}

fn reply_to_request<J: Index, I: Importer<J>, R: Wait + Threads + Sync>(
    rt: &R,
    alloc: Global,
    request: &Request,
    backend: &mut Backend<'_, J, I>,
    reader: &mut Reader<'_, J>,
) -> Reply
    requires short { length request.now.body ≤ body_limit }
    requires covered { IsCovered reader.old.players backend.old.pass.now.seen }
    ensures replied { Replied (offer_of reader.old) (Wanted request.now)
        (state_of I.importer backend.old) result (state_of I.importer backend.new) }
    ensures covered { IsCovered reader.new.players backend.new.pass.now.seen }
    ensures offer { offer_of reader.new ≡ offer_of reader.old }
    ensures lent { StaysLent backend.old backend.new }
{
    match request.path {
        Path::Lichess => match request.method {
            Method::Get => {
                let text = request.query.as_slice();
                answer_by(alloc, backend.pass, &mut reader.kept, text)
            }
            _ => Reply::NotAllowed { allow: Method::Get },
        },
        Path::Player => match &mut reader.players {
            Some(players) => match request.method {
                Method::Get => {
                    let text = request.query.as_slice();
                    answer_player(alloc, backend.pass, &mut reader.kept, players, text)
                }
                _ => Reply::NotAllowed { allow: Method::Get },
            },
            None => Reply::NotFound,
        },
        Path::Import => match request.method {
            Method::Post => {
                let body = request.body.as_slice();
                import(rt, alloc, backend.pass, backend.importer, body)
            }
            _ => Reply::NotAllowed {
                allow: Method::Post,
            },
        },
        Path::Other => Reply::NotFound,
    }
}
