//! A reader's place, of an index whose name no type has.
ghost use Rattle.std.specs.Prelude.{◌≡◌, ◌+◌, ◌<◌, ◌^◌, length};
ghost use Rattle.published_index.specs.Cover.{journal_of};
ghost use Rattle.published_index.specs.Calls.{Enters, Learns};

use crate::fault::EnterFault;
use crate::front::Front;
use crate::list::LIMIT;
use crate::published::Published;
use crate::rule::{Sees, Tied};
use crate::snapshot::Snapshot;
use core::mem::replace_with;
use left_right::reader::Reader;
use std::alloc::Global;
use std::marker::Model;

/// What a reader has seen, with how often it looked.
#[derive(Drop)]
pub struct Seat {
    pub(crate) reader: Reader<Published, Option<Front>, Tied>,
    pub(crate) front: Front,
    pub(crate) entered: u64,
    pub(crate) unread: u64,
}

impl Model for Seat {
    ghost use Rattle.std.specs.Prelude.{◌≡◌};
    ghost use Rattle.left_right.specs.Sides.{view as view_of};
    ghost use Rattle.published_index.specs.Seated.{Seated};
    ghost use Rattle.published_index.specs.Rule.{IsOf};

    ghost Value = { Seated };

    ghost view = { λ seat. record {
      book = seat.front.book;
      watching = record {
        seen = seat.front.log;
        entered = seat.entered;
        unread = seat.unread;
      };
    } };

    ghost invariant = { λ seat. IsOf (view_of seat.reader.place) seat.front.book };
}

impl Seat {
    /// A snapshot of what is published, which has all that was seen.
    pub fn enter(&mut self, alloc: Global) -> Result<Snapshot, EnterFault>
        ensures book { self.new.book ≡ self.old.book }
        ensures answer { Enters self.old.watching self.new.watching result }
    {
        replace_with(self, alloc, |seat, alloc| seat.read(alloc))
    }

    /// The few lines round the reader: a reading that is not given is counted.
    fn read(self, alloc: Global) -> (Seat, Result<Snapshot, EnterFault>)
        ensures book { result.0.book ≡ self.book }
        ensures answer { Enters self.watching result.0.watching result.1 }
    {
        if self.entered == u64::MAX || self.unread == u64::MAX {
            return (self, Err(EnterFault::OutOfMemory));
        }
        let Ok(room) = Vec::with_capacity(alloc, LIMIT) else {
            return (self, Err(EnterFault::OutOfMemory));
        };
        let Seat {
            reader,
            front,
            entered,
            unread,
        } = self;
        match reader.enter_as::<Sees>() {
            Ok(reading) => {
                let published = reading.get();
                let shown = published.front.again();
                let copy = published.list.copy_into(room);
                let seat = Seat {
                    reader: reading.leave(),
                    front,
                    entered,
                    unread,
                };
                match copy {
                    Ok(list) => seat.with_list(shown, Snapshot { list }),
                    Err(_) => (seat, Err(EnterFault::OutOfMemory)),
                }
            }
            Err(reader) => {
                let seat = Seat {
                    reader,
                    front,
                    entered,
                    unread: unread + 1,
                };
                let fault = EnterFault::Unread {
                    before: unread,
                    after: unread + 1,
                };
                (seat, Err(fault))
            }
        }
    }

    /// Takes over what was published. It cannot be shorter than what was seen: there the answer is want
    /// of memory.
    fn with_list(self, shown: Front, snapshot: Snapshot) -> (Seat, Result<Snapshot, EnterFault>)
        requires book { shown.book ≡ self.book }
        requires journal { shown.log ≡ journal_of snapshot }
        requires count { self.watching.entered + 1 < 2 ^ 64 }
        ensures book { result.0.book ≡ self.book }
        ensures answer { Enters self.watching result.0.watching result.1 }
    {
        if !self.front.begins(&shown) {
            return (self, Err(EnterFault::OutOfMemory));
        }
        let Seat {
            reader,
            front: _front,
            entered,
            unread,
        } = self;
        let seat = Seat {
            reader,
            front: shown,
            entered: entered + 1,
            unread,
        };
        (seat, Ok(snapshot))
    }

    /// Learns what was published.
    pub fn learn(&mut self, told: Front)
        requires { told.book ≡ self.old.book }
        ensures book { self.new.book ≡ self.old.book }
        ensures learns { Learns self.old.watching self.new.watching told.log }
    {
        self.front.learn(told);
    }

    /// What was seen.
    pub fn front(&self) -> &Front
        ensures book { result.now.book ≡ self.now.book }
        ensures log { result.now.log ≡ self.now.watching.seen }
    {
        &self.front
    }

    /// How many batches were seen.
    pub fn count(&self) -> u32
        ensures { result ≡ length self.now.watching.seen }
    {
        self.front.count()
    }

    /// How many readings were not given.
    pub fn unread(&self) -> u64
        ensures { result ≡ self.now.watching.unread }
    {
        self.unread
    }
}
