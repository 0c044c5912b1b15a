//! The publisher of an index.
ghost use Rattle.std.specs.Prelude.{◌≡◌, ◌+◌, ◌<◌, IfOk, IfSome, IsSome, None, length};
ghost use Rattle.std.specs.Arc.{arc_value};
ghost use Rattle.published_index.specs.Cover.{IsList, journal_of};
ghost use Rattle.explorer_model.specs.Timeline.{IsPrefix};
ghost use Rattle.published_index.specs.Changes.{AddOf, JoinAt, CanAdd, CanJoin};
ghost use Rattle.published_index.specs.States.{IsPublishing, journal_by};
ghost use Rattle.published_index.specs.Calls.{Makes, Retries};
ghost use Rattle.published_index.specs.Held.{Remakes};
ghost use Rattle.published_index.specs.Places.{
  DrewEach,
  HasAllParts,
  new_drawing,
  with_drawing,
  with_place,
};

use crate::held::Held;
use crate::index::Index;
use crate::list::{List, SharedSegment};
use crate::list_writer::ListWriter;
use crate::note::Note;
use crate::pass::Pass;
use crate::places::{Drawer, Places};
use crate::snapshot::Snapshot;
use std::alloc::{AllocError, Global};
use std::marker::{Model, PhantomData};
use std::sync::Wait;

/// The one that changes the list of an index, and gives the places of its journal: there are as many
/// as batches that are published or held. It is not `Drop`: end it by `close`.
pub struct Publisher<J: Index> {
    pub(crate) writer: ListWriter,
    pub(crate) places: Places<J>,
    pub(crate) of: PhantomData<J>,
}

impl<J: Index> Model for Publisher<J> {
    ghost use Rattle.std.specs.Prelude.{◌≡◌, length};
    ghost use Rattle.published_index.specs.States.{Publishing, journal_by};

    ghost Value = { Publishing };

    ghost view = { λ publisher. publisher.writer.publishing };

    ghost invariant = { λ publisher. (publisher.writer.book ≡ J.name.book)
        × (publisher.places ≡ length (journal_by publisher.writer.publishing)) };
}

impl<J: Index> Publisher<J> {
    /// Publishes the segment of the next batch, whose place is drawn. It waits for the readers that
    /// are inside.
    pub fn put<R: Wait>(
        &mut self,
        rt: &R,
        segment: SharedSegment,
        mine: &mut Drawer<J>,
    ) -> Result<Note<J>, AllocError>
        requires none_held { self.old.held ≡ None }
        requires next { CanAdd self.old.list (arc_value segment) }
        ensures makes { Makes self.old self.new (AddOf (arc_value segment)) result }
        ensures drawn { mine.new ≡ with_place (length (journal_by self.old)) mine.old }
    {
        self.writer.hold(Held::Add(segment));
        self.places.draw(rt, mine);
        self.publish(rt)
    }

    /// Publishes a segment in place of the two at `at` and `at + 1`. It waits for the readers that are
    /// inside.
    pub fn replace<R: Wait>(
        &mut self,
        rt: &R,
        at: usize,
        segment: SharedSegment,
    ) -> Result<Note<J>, AllocError>
        requires none_held { self.old.held ≡ None }
        requires both { CanJoin self.old.list at (arc_value segment) }
        ensures { Makes self.old self.new (JoinAt at (arc_value segment)) result }
    {
        self.writer.hold(Held::Join(at, segment));
        self.publish(rt)
    }

    /// Publishes the change that is held, if one is. It waits for the readers that are inside.
    pub fn retry<R: Wait>(&mut self, rt: &R) -> Result<Option<Note<J>>, AllocError>
        ensures { Retries self.old self.new self.old.held result }
    {
        if self.writer.flush(rt)? {
            return Ok(Some(self.tell()));
        }
        Ok(None)
    }

    /// The published list.
    pub fn list(&self) -> &List
        ensures list { result.now ≡ self.now.list }
        ensures sound { IsPublishing self.now }
    {
        self.writer.list()
    }

    /// A note of the whole published journal. It takes no memory.
    pub fn tell(&self) -> Note<J>
        ensures { result ≡ journal_of self.now.list }
    {
        Note {
            front: self.writer.front(),
            of: PhantomData,
        }
    }

    /// Makes sure that a pass has seen nothing but what was published, or waits to be. It takes no
    /// memory.
    pub fn confirm(&mut self, pass: &Pass<J>)
        ensures same { self.new ≡ self.old }
        ensures seen { IsPrefix pass.now.seen (journal_by self.old) }
    {
        self.writer.confirm(pass.seat.front());
    }

    /// Makes sure that a note has nothing but what was published, or waits to be. It takes no memory.
    pub fn confirm_note(&mut self, note: &Note<J>)
        ensures same { self.new ≡ self.old }
        ensures told { IsPrefix note.now (journal_by self.old) }
    {
        self.writer.confirm(&note.front);
    }

    /// A new drawer, with one part of another's.
    pub fn another(&self, rest: &mut Drawer<J>) -> Drawer<J>
        requires { 1 < rest.old.parts }
        ensures drawer { result ≡ new_drawing }
        ensures left { rest.new.parts + 1 ≡ rest.old.parts }
        ensures drawn { rest.new.drawn ≡ rest.old.drawn }
    {
        self.places.another(rest)
    }

    /// Puts all that another drawer has to a drawer.
    pub fn take(&self, rest: &mut Drawer<J>, other: Drawer<J>)
        ensures { rest.new ≡ with_drawing other rest.old }
    {
        self.places.take(rest, other);
    }

    /// The drawer that has all other parts drew the place of each batch that is published or held,
    /// once, and no other.
    pub fn settle<R: Wait>(&mut self, rt: &R, all: &mut Drawer<J>)
        requires { HasAllParts all.old }
        ensures same { self.new ≡ self.old }
        ensures drawer { all.new ≡ all.old }
        ensures each { DrewEach (length (journal_by self.old)) all.old }
    {
        self.places.settle(rt, all);
    }

    /// A snapshot of the published list.
    pub fn snapshot(&self, alloc: Global) -> Result<Snapshot, AllocError>
        ensures { IfOk result (λ snapshot. snapshot ≡ self.now.list) }
    {
        self.writer.snapshot(alloc)
    }

    /// Ends the publisher. It waits for the readers that are inside.
    pub fn close<R: Wait>(self, rt: &R) {
        let Publisher {
            writer,
            places: _places,
            of: _,
        } = self;
        writer.close(rt);
    }

    /// Publishes the change that was just taken.
    fn publish<R: Wait>(&mut self, rt: &R) -> Result<Note<J>, AllocError>
        requires { IsSome self.old.held }
        ensures { IfSome self.old.held (λ change. Remakes self.old self.new change result) }
    {
        match self.writer.flush(rt)? {
            true => Ok(self.tell()),
            false => Err(AllocError),
        }
    }
}
