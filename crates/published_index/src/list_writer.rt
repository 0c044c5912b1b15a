//! The publisher's side, of an index whose name no type has.
ghost use Rattle.std.specs.Prelude.{◌≡◌, ◌≤◌, ◌<◌, [], None, Some, IfOk, IfErr, MatchBool, drop, length};
ghost use Rattle.left_right.specs.Sides.{view as view_of};
ghost use Rattle.explorer_model.specs.Timeline.{IsPrefix};
ghost use Rattle.published_index.specs.Cover.{IsList, journal_of};
ghost use Rattle.published_index.specs.Changes.{AddOf, MayMake, with_put};
ghost use Rattle.published_index.specs.States.{IsPublishing, journal_by, publishing, watching};
ghost use Rattle.published_index.specs.Operations.{change_made};
ghost use Rattle.published_index.specs.Held.{
  held_change,
  waiting,
  IsQueued,
  IsHeld,
  Waits,
  IsWritten,
  Flushes,
};

use crate::front::Front;
use crate::held::Held;
use crate::history::History;
use crate::list::{LIMIT, List};
use crate::published::{Operation, Published};
use crate::rule::{Sees, Takes, Tied, Twice};
use crate::seat::Seat;
use crate::snapshot::Snapshot;
use core::mem::replace_with;
use left_right::writer::Writer;
use segment_blocks::Segment;
use std::alloc::{AllocError, Global};
use std::marker::Model;
use std::sync::Wait;

/// The two copies of what is published.
pub type Sides = Writer<Published, Operation, Option<Front>, Tied>;

/// It is not `Drop`: end it by `close`.
pub struct ListWriter {
    pub(crate) writer: Sides,
    pub(crate) history: History,
    /// A change that does not wait at the writer yet.
    pub(crate) held: Option<Held>,
}

impl Model for ListWriter {
    ghost use Rattle.std.specs.Prelude.{drop};
    ghost use Rattle.left_right.specs.Sides.{view as view_of};
    ghost use Rattle.published_index.specs.Seated.{Written};
    ghost use Rattle.published_index.specs.Held.{waiting, IsWritten};

    ghost Value = { Written };

    ghost view = { λ list. record {
      book = list.history.book;
      publishing = record {
        list = list.writer.desk.shown.value.list;
        held = waiting list.held (drop list.writer.behind list.writer.log.items);
      };
    } };

    ghost invariant = { λ list. IsWritten list.writer.desk.shown.value.list
        list.writer.desk.shown.value.front (view_of list.writer.desk.place) list.history list.held
        (drop list.writer.behind list.writer.log.items) };
}

impl ListWriter {
    /// The writer of a list, with room for so many readers.
    pub fn open<R: Wait>(
        rt: &R,
        alloc: Global,
        list: &List,
        readers: usize,
    ) -> Result<ListWriter, AllocError>
        requires some { 1 ≤ readers }
        requires few { readers ≤ 64 }
        ensures { IfOk result (λ writer. writer.publishing ≡ publishing list.now) }
    {
        let history = History::of(list).ok_or(AllocError)?;
        let first = copy_of(alloc, list, &history)?;
        let second = copy_of(alloc, list, &history)?;
        let writer: Sides = Writer::new(alloc, first, second, readers)?;
        let (writer, seen) = writer.publish_as::<Sees, R>(rt);
        match seen {
            Ok(()) => Ok(ListWriter {
                writer,
                history,
                held: None,
            }),
            Err(refused) => {
                writer.take(rt);
                Err(refused)
            }
        }
    }

    /// The place of a reader that has seen what is published.
    pub fn seat(&mut self) -> Result<Seat, AllocError>
        ensures same { self.new ≡ self.old }
        ensures seat { IfOk result (λ seat. seat ≡ record {
          book = self.old.book;
          watching = watching (journal_of self.old.publishing.list);
        }) }
    {
        let mut reader = self.writer.factory().reader()?;
        let note = self.writer.tell::<Twice>();
        reader.learn::<Takes>(note);
        Ok(Seat {
            reader,
            front: self.writer.published().front.again(),
            entered: 0,
            unread: 0,
        })
    }

    /// Takes a change to publish.
    pub fn hold(&mut self, held: Held)
        requires none_held { self.old.publishing.held ≡ None }
        requires may { MayMake self.old.publishing.list (held_change held) }
        ensures { self.new ≡ record self.old {
          publishing = record self.old.publishing {
            held = Some (held_change held);
          };
        } }
    {
        self.held = Some(held);
    }

    /// Publishes the change that is held, and says whether one was.
    pub fn flush<R: Wait>(&mut self, rt: &R) -> Result<bool, AllocError>
        ensures book { self.new.book ≡ self.old.book }
        ensures answer { Flushes self.old.publishing self.new.publishing
            self.old.publishing.held result }
    {
        replace_with(self, rt, |list, rt| list.flush_whole(rt))
    }

    fn flush_whole<R: Wait>(self, rt: &R) -> (ListWriter, Result<bool, AllocError>)
        ensures book { result.0.book ≡ self.book }
        ensures answer { Flushes self.publishing result.0.publishing
            self.publishing.held result.1 }
    {
        let ListWriter {
            writer,
            history,
            held,
        } = self;
        match held {
            Some(held) => publish_held(rt, writer, history, held),
            None => {
                if writer.has_pending_operations() {
                    return publish_waiting(rt, writer, history);
                }
                let list = ListWriter {
                    writer,
                    history,
                    held: None,
                };
                (list, Ok(false))
            }
        }
    }

    /// The published list.
    pub fn list(&self) -> &List
        ensures list { result.now ≡ self.now.publishing.list }
        ensures sound { IsPublishing self.now.publishing }
    {
        let list = &self.writer.published().list;
        let _batches = list.batches();
        list
    }

    /// The history of what is published.
    pub fn front(&self) -> Front
        ensures book { result.book ≡ self.now.book }
        ensures log { result.log ≡ journal_of self.now.publishing.list }
    {
        self.writer.published().front.again()
    }

    /// Makes sure that a beginning of the history has no more than what is published, or waits to be.
    pub fn confirm(&mut self, front: &Front)
        requires { front.now.book ≡ self.old.book }
        ensures same { self.new ≡ self.old }
        ensures seen { IsPrefix front.now.log (journal_by self.old.publishing) }
    {
        self.history.confirm(front);
    }

    /// A snapshot of what is published.
    pub fn snapshot(&self, alloc: Global) -> Result<Snapshot, AllocError>
        ensures { IfOk result (λ snapshot. snapshot ≡ self.now.publishing.list) }
    {
        let room = Vec::with_capacity(alloc, LIMIT)?;
        Ok(Snapshot {
            list: self.list().copy_into(room)?,
        })
    }

    /// Waits for the readers, and ends.
    pub fn close<R: Wait>(self, rt: &R) {
        let ListWriter {
            writer,
            history: _history,
            held: _held,
        } = self;
        writer.take(rt);
    }
}

/// A list with its history, to be published first.
fn copy_of(alloc: Global, list: &List, history: &History) -> Result<Published, AllocError>
    ensures list { IfOk result (λ copy. copy.list ≡ list.now) }
    ensures front { IfOk result (λ copy. copy.front ≡ history.now) }
{
    let room = Vec::with_capacity(alloc, LIMIT)?;
    Ok(Published {
        list: list.copy_into(room)?,
        front: history.front(),
    })
}

/// Publishes a change that waits outside the writer.
fn publish_held<R: Wait>(
    rt: &R,
    mut writer: Sides,
    mut history: History,
    held: Held,
) -> (ListWriter, Result<bool, AllocError>)
    requires written { IsWritten writer.desk.shown.value.list writer.desk.shown.value.front
        (view_of writer.desk.place) history (Some held) (drop writer.behind writer.log.items) }
    ensures book { result.0.book ≡ history.book }
    ensures answer { Flushes (record {
      list = writer.desk.shown.value.list;
      held = Some (held_change held);
    }) result.0.publishing (Some (held_change held)) result.1 }
{
    let operation = match operation_of(&mut history, writer.published(), held) {
        Ok(operation) => operation,
        Err(held) => {
            let list = ListWriter {
                writer,
                history,
                held: Some(held),
            };
            return (list, Err(AllocError));
        }
    };
    match writer.append(operation) {
        Ok(()) => publish_waiting(rt, writer, history),
        Err(operation) => {
            let list = ListWriter {
                writer,
                history,
                held: Some(held_of(operation)),
            };
            (list, Err(AllocError))
        }
    }
}

/// Publishes the operation that waits at the writer.
fn publish_waiting<R: Wait>(
    rt: &R,
    writer: Sides,
    history: History,
) -> (ListWriter, Result<bool, AllocError>)
    requires written { IsWritten writer.desk.shown.value.list writer.desk.shown.value.front
        (view_of writer.desk.place) history None (drop writer.behind writer.log.items) }
    requires some { 0 < length (drop writer.behind writer.log.items) }
    ensures book { result.0.book ≡ history.book }
    ensures answer { Flushes (record {
      list = writer.desk.shown.value.list;
      held = waiting None (drop writer.behind writer.log.items);
    }) result.0.publishing (waiting None (drop writer.behind writer.log.items)) result.1 }
{
    let before = writer.published().list.segments().len();
    let (writer, answer) = writer.publish_as::<Sees, R>(rt);
    match answer {
        Ok(()) => {
            if writer.published().list.segments().len() < before {
                return (publish_again(rt, writer, history), Ok(true));
            }
            let list = ListWriter {
                writer,
                history,
                held: None,
            };
            (list, Ok(true))
        }
        Err(refused) => {
            let list = ListWriter {
                writer,
                history,
                held: None,
            };
            (list, Err(refused))
        }
    }
}

/// Publishes what is published once more, so that both copies have it, and neither keeps what a join
/// has replaced. Where that is refused, one copy keeps it until the next change.
fn publish_again<R: Wait>(rt: &R, writer: Sides, history: History) -> ListWriter
    requires written { IsWritten writer.desk.shown.value.list writer.desk.shown.value.front
        (view_of writer.desk.place) history None (drop writer.behind writer.log.items) }
    requires none_waits { drop writer.behind writer.log.items ≡ [] }
    ensures book { result.book ≡ history.book }
    ensures same { result.publishing ≡ publishing writer.desk.shown.value.list }
{
    let (writer, _refused) = writer.publish_as::<Sees, R>(rt);
    ListWriter {
        writer,
        history,
        held: None,
    }
}

/// The operation of a change, once the history has its batch.
fn operation_of(history: &mut History, published: &Published, held: Held) -> Result<Operation, Held>
    requires tied { published.now.front.log ≡ journal_of published.now.list }
    requires book { published.now.front.book ≡ history.old.book }
    requires held { IsHeld published.now.list history.old (held_change held) }
    ensures book { history.new.book ≡ history.old.book }
    ensures change { IfOk result (λ operation. change_made operation ≡ held_change held) }
    ensures queued { IfOk result (λ operation.
        IsQueued published.now.list published.now.front history.new operation) }
    ensures back { IfErr result (λ back. back ≡ held) }
    ensures same { IfErr result (λ back. history.new ≡ history.old) }
{
    match held {
        Held::Add(segment) => {
            if !enter_batch(history, published, &segment) {
                return Err(Held::Add(segment));
            }
            Ok(Operation::Add(segment, history.front()))
        }
        Held::Join(at, segment) => Ok(Operation::Join(at, segment)),
    }
}

/// Adds the batch of a segment to the history, if it is not there yet, and says whether it is there.
fn enter_batch(history: &mut History, published: &Published, segment: &Segment) -> bool
    requires { IsHeld published.now.list history.old (AddOf segment.now) }
    ensures book { history.new.book ≡ history.old.book }
    ensures log { MatchBool result
        (history.new.log ≡ with_put (journal_of published.now.list) (AddOf segment.now))
        (history.new ≡ history.old) }
{
    let _span = segment.span();
    if history.count() > published.list.batches() {
        return true;
    }
    history.add(segment, 0)
}

/// The change of an operation.
fn held_of(operation: Operation) -> Held
    ensures { held_change result ≡ change_made operation }
{
    match operation {
        Operation::Add(segment, _front) => Held::Add(segment),
        Operation::Join(at, segment) => Held::Join(at, segment),
    }
}
