//! Opening an index.
ghost use Rattle.std.specs.Prelude.{◌≡◌, ◌≤◌, [], IfOk, IfErr, length, replicate};
ghost use Rattle.published_index.specs.Cover.{journal_of};
ghost use Rattle.published_index.specs.Places.{HasDrawn};
ghost use Rattle.published_index.specs.States.{publishing, watching};
ghost use Rattle.published_index.specs.Seated.{AreSeated};

use crate::index::Index;
use crate::list::List;
use crate::list_writer::ListWriter;
use crate::pass::Pass;
use crate::places::{Drawer, UnnamedPlaces};
use crate::publisher::Publisher;
use crate::seat::Seat;
use std::alloc::{AllocError, Global};
use std::marker::{Model, PhantomData};
use std::sync::Wait;

/// What an index has once a type names it.
pub type Named<J> = (Publisher<J>, Vec<Pass<J>>, Drawer<J>);

/// An index whose name no type has yet. It is not `Drop`: end it by `close`.
pub struct Unnamed {
    writer: ListWriter,
    seats: Vec<Seat>,
    places: UnnamedPlaces,
}

impl Model for Unnamed {
    ghost use Rattle.std.specs.Prelude.{◌≡◌, None, length};
    ghost use Rattle.published_index.specs.States.{Opened};
    ghost use Rattle.published_index.specs.Cover.{journal_of};
    ghost use Rattle.published_index.specs.Seated.{AreSeated};

    ghost Value = { Opened };

    ghost view = { λ unnamed. record {
      name = record { book = unnamed.writer.book; places = unnamed.places.table };
      list = unnamed.writer.publishing.list;
      readers = length unnamed.seats.items;
    } };

    ghost invariant = { λ unnamed. (unnamed.writer.publishing.held ≡ None)
        × (unnamed.places.count ≡ length (journal_of unnamed.writer.publishing.list))
        × AreSeated unnamed.writer.book (journal_of unnamed.writer.publishing.list)
        unnamed.seats.items };
}

impl Unnamed {
    /// The publisher, the passes, and the drawer that drew the places of the list's batches, of the
    /// index whose name this one has. It is as before where there is no room for the passes.
    pub fn named<J: Index>(self, alloc: Global) -> Result<Named<J>, Unnamed>
        requires { self.name ≡ J.name }
        ensures publisher { IfOk result (λ index. index.0 ≡ publishing self.list) }
        ensures passes { IfOk result (λ index.
            index.1.items ≡ replicate self.readers (watching (journal_of self.list))) }
        ensures drawer { IfOk result (λ index. HasDrawn (length (journal_of self.list)) index.2) }
        ensures back { IfErr result (λ unnamed. unnamed ≡ self) }
    {
        let Ok(mut passes) = Vec::with_capacity(alloc, self.seats.len()) else {
            return Err(self);
        };
        let Unnamed {
            writer,
            mut seats,
            places,
        } = self;
        while let Some(seat) = seats.pop() {
            passes.push_reserved(Pass {
                seat,
                of: PhantomData,
            });
        }
        let (places, drawer) = places.named::<J>();
        let publisher = Publisher {
            writer,
            places,
            of: PhantomData,
        };
        Ok((publisher, passes, drawer))
    }

    /// Ends the index. It waits for the readers that are inside.
    pub fn close<R: Wait>(self, rt: &R) {
        let Unnamed {
            writer,
            seats: _seats,
            places: _places,
        } = self;
        writer.close(rt);
    }
}

/// Makes an index of the list, with so many passes.
pub fn open_list<R: Wait>(
    rt: &R,
    alloc: Global,
    list: List,
    readers: usize,
) -> Result<Unnamed, AllocError>
    requires some { 1 ≤ readers }
    requires few { readers ≤ 64 }
    ensures list { IfOk result (λ unnamed. unnamed.list ≡ list) }
    ensures readers { IfOk result (λ unnamed. unnamed.readers ≡ readers) }
{
    let seats = Vec::with_capacity(alloc, readers)?;
    let places = UnnamedPlaces::of(rt, alloc, list.batches())?;
    let mut writer = ListWriter::open(rt, alloc, &list, readers)?;
    match seat_readers(&mut writer, seats, readers) {
        Ok(seats) => Ok(Unnamed {
            writer,
            seats,
            places,
        }),
        Err(refused) => {
            writer.close(rt);
            Err(refused)
        }
    }
}

/// So many places of readers.
fn seat_readers(
    writer: &mut ListWriter,
    mut seats: Vec<Seat>,
    readers: usize,
) -> Result<Vec<Seat>, AllocError>
    requires { seats.items ≡ [] }
    ensures same { writer.new ≡ writer.old }
    ensures seats { IfOk result (λ seats. AreSeated writer.old.book
        (journal_of writer.old.publishing.list) seats.items) }
    ensures readers { IfOk result (λ seats. length seats.items ≡ readers) }
{
    for _ in 0..readers {
        seats.push(writer.seat()?)?;
    }
    Ok(seats)
}
