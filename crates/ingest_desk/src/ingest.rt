//! What is stored and published.
ghost use Rattle.std.specs.Prelude.{◌≡◌, ◌+◌, ◌<◌, ◌≤◌, None, IsOk, OnOk, length};
ghost use Rattle.published_index.specs.Cover.{journal_of, list_limit};
ghost use Rattle.published_index.specs.Calls.{Retries};
ghost use Rattle.published_index.specs.Places.{DrewEach, HasAllParts, new_drawing, with_drawing};
ghost use Rattle.published_index.specs.States.{IsPublishing};
ghost use Rattle.explorer_model.specs.Journal.{IsSound};
ghost use Rattle.explorer_model.specs.Timeline.{IsPrefix};
ghost use Rattle.ingest_desk.specs.Kept.{Keeps};
ghost use Rattle.ingest_desk.specs.Stored.{journal};

use crate::register::Register;
use disk_model::Disk;
use explorer_model::archive::Batch;
use manifest::Manifest;
use published_index::{Drawer, Index, Note, Pass, Publisher};
use std::alloc::AllocError;
use std::marker::Model;
use std::snapshot::Snapshot;
use std::sync::{Mutex, Wait};

/// A store with its ids and its published list, as one value: what is published is what is stored,
/// but for a batch that is held until there is memory to publish it. It is not `Drop`: end it by
/// `into_disk`.
pub struct Ingest<D: Disk, J: Index> {
    pub(crate) manifest: Manifest<D>,
    pub(crate) publisher: Publisher<J>,
    pub(crate) register: Register,
    /// The batch that failed, if one did, for contracts alone.
    pub(crate) failed: Option<Snapshot<Batch>>,
}

/// An ingest that threads share. What is true of each `Ingest` is known whenever the lock is taken.
pub type Desk<D, J> = Mutex<Ingest<D, J>>;

impl<D: Disk, J: Index> Model for Ingest<D, J> {
    ghost use Rattle.ingest_desk.specs.Stored.{Stored};

    ghost Value = { Stored D };

    ghost use Rattle.std.specs.Option.{option_map};
    ghost use Rattle.ingest_desk.specs.Kept.{IsKept};

    ghost view = { λ i. record {
      manifest = i.manifest;
      index = i.publisher;
      failed = option_map (λ batch. batch.value) i.failed;
    } };

    ghost invariant = { λ i. IsKept D.disk D.left_since i.manifest i.publisher i.register
        (option_map (λ batch. batch.value) i.failed) };
}

impl<D: Disk, J: Index> Ingest<D, J> {
    /// How many batches are stored.
    pub fn batches(&self) -> u32
        ensures batches { result ≡ length (journal self.now) }
        ensures sound { IsSound (journal self.now) }
        ensures keeps { Keeps D.disk D.left_since (journal self.now) self.now.manifest
            self.now.failed }
        ensures list { IsPublishing self.now.index }
    {
        let _list = self.publisher.list();
        self.register.batches()
    }

    /// The publisher of the list.
    pub fn publisher(&self) -> &Publisher<J>
        ensures { result.now ≡ self.now.index }
    {
        &self.publisher
    }

    /// A note of the whole published journal. It takes no memory.
    pub fn tell(&mut self) -> Note<J>
        ensures note { result ≡ journal_of self.old.index.list }
        ensures same { self.new ≡ self.old }
    {
        self.publisher.tell()
    }

    /// Makes sure that a pass has seen nothing but what is stored. It takes no memory.
    pub fn confirm(&mut self, pass: &Pass<J>)
        ensures same { self.new ≡ self.old }
        ensures seen { IsPrefix pass.now.seen (journal self.old) }
    {
        self.publisher.confirm(pass);
    }

    /// Publishes the change that is held, if one is. It waits for the readers that are inside.
    pub fn catch_up<R: Wait>(&mut self, rt: &R) -> Result<Option<Note<J>>, AllocError>
        ensures retries { Retries self.old.index self.new.index self.old.index.held result }
        ensures manifest { self.new.manifest ≡ self.old.manifest }
        ensures failed { self.new.failed ≡ self.old.failed }
        ensures journal { journal self.new ≡ journal self.old }
        ensures none_held { OnOk result (self.new.index.held ≡ None) }
        ensures nothing { self.old.index.held ≡ None → IsOk result }
        ensures few { length self.new.index.list ≤ list_limit }
    {
        let answer = self.publisher.retry(rt);
        let _list = self.publisher.list();
        answer
    }

    /// A new drawer for one who stores, with one part of another's.
    pub fn another(&self, rest: &mut Drawer<J>) -> Drawer<J>
        requires { 1 < rest.old.parts }
        ensures drawer { result ≡ new_drawing }
        ensures left { rest.new.parts + 1 ≡ rest.old.parts }
        ensures drawn { rest.new.drawn ≡ rest.old.drawn }
    {
        self.publisher.another(rest)
    }

    /// Puts all that another drawer has to a drawer.
    pub fn take(&self, rest: &mut Drawer<J>, other: Drawer<J>)
        ensures { rest.new ≡ with_drawing other rest.old }
    {
        self.publisher.take(rest, other);
    }

    /// The drawer that has all other parts has drawn the place of each stored batch once, and no other.
    pub fn settle<R: Wait>(&mut self, rt: &R, all: &mut Drawer<J>)
        requires { HasAllParts all.old }
        ensures same { self.new ≡ self.old }
        ensures drawer { all.new ≡ all.old }
        ensures each { DrewEach (length (journal self.old)) all.old }
    {
        self.publisher.settle(rt, all);
    }

    /// Ends the publisher, and gives the disk back. It waits for the readers that are inside.
    pub fn into_disk<R: Wait>(self, rt: &R) -> D
        ensures { result ≡ self.manifest.disk }
    {
        let Ingest {
            manifest,
            publisher,
            register: _register,
            failed: _failed,
        } = self;
        publisher.close(rt);
        manifest.into_disk()
    }
}
