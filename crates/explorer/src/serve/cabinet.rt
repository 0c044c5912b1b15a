//! What is behind the desk of a store that is served.
ghost use Rattle.std.specs.Prelude.{◌≡◌, ◌+◌, ◌<◌, length};
ghost use Rattle.published_index.specs.Places.{DrewEach, HasAllParts, new_drawing, with_drawing};
ghost use Rattle.ingest_desk.specs.Stored.{journal};

use disk_model::Disk;
use ingest_desk::Ingest;
use published_index::{Drawer, Index};
use std::sync::Wait;

/// An ingest, and the drawer that has all parts that no worker has. It is not `Drop`, since the ingest
/// is not.
pub struct Cabinet<D: Disk, J: Index> {
    pub ingest: Ingest<D, J>,
    pub drawer: Drawer<J>,
}

impl<D: Disk, J: Index> Cabinet<D, J> {
    /// A new drawer for a worker.
    pub fn lend(&mut self) -> Drawer<J>
        requires { 1 < self.old.drawer.parts }
        ensures drawer { result ≡ new_drawing }
        ensures left { self.new.drawer.parts + 1 ≡ self.old.drawer.parts }
        ensures drawn { self.new.drawer.drawn ≡ self.old.drawer.drawn }
        ensures same { self.new.ingest ≡ self.old.ingest }
    {
        self.ingest.another(&mut self.drawer)
    }

    /// Takes back the drawer of a worker, with all that it drew.
    pub fn take(&mut self, drawer: Drawer<J>)
        ensures drawer { self.new.drawer ≡ with_drawing drawer self.old.drawer }
        ensures same { self.new.ingest ≡ self.old.ingest }
    {
        self.ingest.take(&mut self.drawer, drawer);
    }

    /// Once no worker has a drawer, the place of each stored batch was drawn once, and no other.
    pub fn settle<R: Wait>(&mut self, rt: &R)
        requires { HasAllParts self.old.drawer }
        ensures same { self.new ≡ self.old }
        ensures each { DrewEach (length (journal self.old.ingest)) self.old.drawer }
    {
        self.ingest.settle(rt, &mut self.drawer);
    }
}
