//! Doors.
ghost use Rattle.std.specs.Prelude.{◌≡◌};
ghost use Rattle.explorer_model.specs.Timeline.{IsPrefix};
ghost use Rattle.session.specs.Backends.{StaysLent, state_of};
ghost use Rattle.session.specs.Doors.{DoorServed, EndsDoor};
ghost use Rattle.session.specs.Exchanges.{backend};
ghost use Rattle.session.specs.Readers.{IsCovered, offer_of};
ghost use Rattle.session.specs.Replies.{with_players};

use crate::backend::Backend;
use crate::kept_answers::Answers;
use crate::reader::Reader;
use crate::serving::serve_by;
use ingest_desk::Importer;
use opening_names::Book;
use outside::{Door, Failed};
use player_index::PlayerIndex;
use published_index::{Index, Pass};
use std::alloc::Global;
use std::sync::Wait;
use std::thread::Threads;

/// How the serving of a door ended.
#[derive(Clone, Copy, Debug, PartialEq, Eq)]
pub enum DoorEnd {
    /// No connection is left.
    Whole,
    AcceptFault,
}

/// Serves the connections of a door, one after another, with the openings that the book names and
/// with a player's games, and gives each back to it. It may wait for a peer.
pub fn serve_door<J: Index, D: Door, I: Importer<J>, R: Wait + Threads + Sync>(
    rt: &R,
    alloc: Global,
    door: &mut D,
    pass: &mut Pass<J>,
    importer: &mut I,
    book: &Book,
    players: &mut PlayerIndex,
) -> DoorEnd
    requires { IsPrefix players.old.batches pass.old.seen }
    ensures served { DoorServed (with_players book.now) (D.door door.old)
        (backend pass.old (I.importer importer.old))
        (D.door door.new) (backend pass.new (I.importer importer.new)) }
    ensures ends { EndsDoor result (D.door door.old) (D.door door.new) }
    ensures covered { IsPrefix players.new.batches pass.new.seen }
{
    let mut reader = Reader::with_players(alloc, Answers::new(alloc, book), players);
    let mut backend = Backend {
        pass: &mut *pass,
        importer: &mut *importer,
    };
    let end = serve_door_by(rt, alloc, door, &mut backend, &mut reader);
    reader.give_back(players);
    end
}

/// The same, by what the reader offers.
fn serve_door_by<J: Index, D: Door, I: Importer<J>, R: Wait + Threads + Sync>(
    rt: &R,
    alloc: Global,
    door: &mut D,
    backend: &mut Backend<'_, J, I>,
    reader: &mut Reader<'_, J>,
) -> DoorEnd
    requires { IsCovered reader.old.players backend.old.pass.now.seen }
    ensures served { DoorServed (offer_of reader.old) (D.door door.old)
        (state_of I.importer backend.old)
        (D.door door.new) (state_of I.importer backend.new) }
    ensures ends { EndsDoor result (D.door door.old) (D.door door.new) }
    ensures covered { IsCovered reader.new.players backend.new.pass.now.seen }
    ensures offer { offer_of reader.new ≡ offer_of reader.old }
    ensures lent { StaysLent backend.old backend.new }
{
    'accepting: loop {
        match door.accept() {
            Ok(Some(link)) => {
                let mut link = link;
                let _ = serve_by(rt, alloc, &mut link, backend, reader);
                door.finish(link);
            }
            Ok(None) => return DoorEnd::Whole,
            Err(Failed) => return DoorEnd::AcceptFault,
        }
    }
}
