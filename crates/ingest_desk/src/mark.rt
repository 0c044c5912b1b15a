//! Marks of the answers of commits.
ghost use Rattle.std.specs.Prelude.{◌≡◌, None, Some};
ghost use Rattle.ingest_desk.specs.Marking.{counted};

use explorer_model::archive::Batch;
use published_index::Index;
use std::marker::{Model, PhantomData};
use std::snapshot::Snapshot;

/// Which answer of a commit a mark tells of.
#[derive(Clone, Copy, Debug, PartialEq, Eq)]
pub enum MarkKind {
    DiskFault,
    Closed,
}

/// That a commit on the desk of an index gave an answer of this kind, with these counts of the disk's
/// faults. A commit alone gives one. Contracts see the batch that failed too.
#[derive(Drop)]
pub struct Mark<J: Index> {
    kind: MarkKind,
    before: u64,
    after: u64,
    failed: Option<Snapshot<Batch>>,
    of: PhantomData<J>,
}

impl<J: Index> Model for Mark<J> {
    ghost use Rattle.ingest_desk.specs.Marked.{Marked};

    ghost Value = { Marked };

    ghost use Rattle.std.specs.Option.{option_map};

    ghost view = { λ mark. record {
      kind = mark.kind;
      before = mark.before;
      after = mark.after;
      failed = option_map (λ batch. batch.value) mark.failed;
    } };
}

impl<J: Index> Mark<J> {
    /// The mark of a disk fault, by which this batch failed.
    pub(crate) fn disk_fault(before: u64, after: u64, batch: &Batch) -> Mark<J>
        ensures { result ≡ record {
          kind = MarkKind.DiskFault;
          before = before;
          after = after;
          failed = Some batch.now;
        } }
    {
        Mark {
            kind: MarkKind::DiskFault,
            before,
            after,
            failed: Some(Snapshot::of(batch)),
            of: PhantomData,
        }
    }

    /// The mark of a closed store.
    pub(crate) fn closed_store(before: u64, after: u64) -> Mark<J>
        ensures { result ≡ record {
          kind = MarkKind.Closed;
          before = before;
          after = after;
          failed = None;
        } }
    {
        Mark {
            kind: MarkKind::Closed,
            before,
            after,
            failed: None,
            of: PhantomData,
        }
    }

    /// What the commit met.
    pub fn kind(&self) -> MarkKind
        ensures { result ≡ self.now.kind }
    {
        self.kind
    }

    /// The count of the disk's faults before the call that failed.
    pub fn before(&self) -> u64
        ensures { result ≡ self.now.before }
    {
        self.before
    }

    /// The same count behind it.
    pub fn after(&self) -> u64
        ensures { result ≡ self.now.after }
    {
        self.after
    }
}

/// How many marks of each kind were counted; `u64::MAX` stands for that number and every greater
/// one.
#[derive(Debug, Drop)]
pub struct Marks {
    disk_faults: u64,
    closed: u64,
}

impl Marks {
    /// No mark.
    pub fn new() -> Marks
        ensures { result ≡ record { disk_faults = 0; closed = 0 } }
    {
        Marks {
            disk_faults: 0,
            closed: 0,
        }
    }

    /// Counts a mark.
    pub fn add<J: Index>(&mut self, mark: &Mark<J>)
        ensures { self.new ≡ counted mark.now.kind self.old }
    {
        match mark.kind {
            MarkKind::DiskFault => self.disk_faults = self.disk_faults.saturating_add(1),
            MarkKind::Closed => self.closed = self.closed.saturating_add(1),
        }
    }

    /// How many commits met a disk fault.
    pub fn disk_faults(&self) -> u64
        ensures { result ≡ self.now.disk_faults }
    {
        self.disk_faults
    }

    /// How many commits met a closed store.
    pub fn closed_stores(&self) -> u64
        ensures { result ≡ self.now.closed }
    {
        self.closed
    }
}
