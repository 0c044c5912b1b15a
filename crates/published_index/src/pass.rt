//! Passes: a reader's way into an index.
ghost use Rattle.std.specs.Prelude.{◌≡◌, ◌↔◌, IsTrue, length};
ghost use Rattle.published_index.specs.Calls.{Enters, Learns};

use crate::fault::EnterFault;
use crate::index::Index;
use crate::note::Note;
use crate::seat::Seat;
use crate::snapshot::Snapshot;
use std::alloc::Global;
use std::marker::{Model, PhantomData};

/// A reader of an index. It never sees less than it saw, and it waits for nobody.
#[derive(Drop)]
pub struct Pass<J: Index> {
    pub(crate) seat: Seat,
    pub(crate) of: PhantomData<J>,
}

impl<J: Index> Model for Pass<J> {
    ghost use Rattle.std.specs.Prelude.{◌≡◌};
    ghost use Rattle.published_index.specs.States.{Watching};

    ghost Value = { Watching };

    ghost view = { λ pass. pass.seat.watching };

    ghost invariant = { λ pass. pass.seat.book ≡ J.name.book };
}

impl<J: Index> Pass<J> {
    /// A snapshot of the published list, which has all that the pass saw.
    pub fn enter(&mut self, alloc: Global) -> Result<Snapshot, EnterFault>
        ensures { Enters self.old self.new result }
    {
        self.seat.enter(alloc)
    }

    /// Learns what was published. It takes no memory.
    pub fn learn(&mut self, note: Note<J>)
        ensures { Learns self.old self.new note }
    {
        self.seat.learn(note.front);
    }

    /// A note of all that the pass has seen. It takes no memory.
    pub fn tell(&self) -> Note<J>
        ensures { result ≡ self.now.seen }
    {
        Note {
            front: self.seat.front().again(),
            of: PhantomData,
        }
    }

    /// Whether the note has just what the pass has seen.
    pub fn is_at(&self, note: &Note<J>) -> bool
        ensures { IsTrue result ↔ (note.now ≡ self.now.seen) }
    {
        self.seat.front().is_same(&note.front)
    }

    /// How many batches the pass has seen.
    pub fn front(&self) -> u32
        ensures { result ≡ length self.now.seen }
    {
        self.seat.count()
    }

    /// How many readings were not given.
    pub fn unread(&self) -> u64
        ensures { result ≡ self.now.unread }
    {
        self.seat.unread()
    }
}
