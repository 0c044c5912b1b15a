//! An import in rounds: in each the groups that were read before are counted, while the calling thread
//! settles those that were counted in the round before, and reads on.
ghost use Rattle.std.specs.Prelude.{◌≡◌, ◌+◌, ◌<◌, ◌≤◌, [], Bool, Option, None, Some, false, IfOk, IfSome, OnErr, OnOk};
ghost use Rattle.std.specs.List.{All, AllZip};
ghost use Rattle.std.specs.Thread.{IsSync};
ghost use Rattle.outside.specs.Stream.{Stream};
ghost use Rattle.published_index.specs.Places.{Drawing};
ghost use Rattle.explorer_model.specs.Journal.{input_limit};
ghost use Rattle.ingest_desk.specs.Drawn.{DrawsFor, most_untold};
ghost use Rattle.ingest_desk.specs.Importers.{ending_of};
ghost use Rattle.import_run.specs.Apart.{CanTally, IsTalliedGroup};
ghost use Rattle.import_run.specs.Committing.{Known, Store, store_of};
ghost use Rattle.import_run.specs.EndingBeside.{ImportsBeside};
ghost use Rattle.import_run.specs.Draws.{most_untold_by};
ghost use Rattle.import_run.specs.Importing.{ByStop};
ghost use Rattle.import_run.specs.Taking.{Imports};
ghost use Rattle.import_run.specs.Underway.{CanSettle, IsOver, IsUnderway, LacksReading, StopsReading, Turns, work_left};

use crate::ahead::{Ahead, INPUT_LIMIT, ReadEnd};
use crate::apart::count_each;
use crate::committer::Committer;
use crate::open_import::{OpenImport, Stopped};
use crate::text_group::{TalliedGroup, TextGroup};
use explorer_model::fault::Stop;
use explorer_model::label::Label;
use ingest_desk::{End, Report};
use outside::{Gate, Source};
use published_index::Index;
use side_by_side::Workers;
use std::alloc::{AllocError, Global};
use std::mem;
use std::sync::Wait;
use std::sync::atomic::{AtomicBool, Ordering};
use std::thread::{Threads, join_mut};

/// How an import ends of which all that is whole is settled.
#[derive(Clone, Copy, Debug, PartialEq, Eq)]
pub enum Over {
    Whole,
    /// A read failed, with these counts of its faults.
    ReadFault { before: u64, after: u64 },
    /// It took all that an import takes.
    TooMuch,
}

/// An import on its way.
#[derive(Drop)]
pub struct Underway<J: Index> {
    /// What is settled; its group in hand is not used.
    pub import: OpenImport<J>,
    /// The groups that are counted, behind those that are settled.
    pub counted: Vec<TalliedGroup>,
    /// What is read behind them.
    pub ahead: Ahead,
}

impl<J: Index> Underway<J> {
    /// Nothing was read.
    pub(crate) fn new(alloc: Global, label: Label) -> Self
        ensures ready { CanSettle label result }
        ensures none { result.import.receipts.items ≡ [] }
        ensures starts { (now : Stream) (start : Option Store)
            → IsUnderway now now start result start }
    {
        let ahead = Ahead::new(alloc, label.copy());
        Underway {
            import: OpenImport::new(alloc, label),
            counted: Vec::new(alloc),
            ahead,
        }
    }

    /// How the import ends, if nothing is in hand, and nothing more is read.
    pub(crate) fn end<S: Source>(
        &mut self,
        alloc: Global,
        source: &mut S,
    ) -> Result<Option<Over>, AllocError>
        requires ready { CanSettle self.old.import.group.label self.old }
        ensures import { self.new.import ≡ self.old.import }
        ensures ready { OnOk result (CanSettle self.old.import.group.label self.new) }
        ensures less { OnOk result (work_left self.new ≤ work_left self.old) }
        ensures work { IfOk result (λ over. over ≡ None → self.new.counted.items ≡ []
            → self.new.ahead.whole.items ≡ []
            → (self.new.ahead.end ≡ None) × (self.new.ahead.taken + 1 < input_limit)) }
        ensures goes { IfOk result (λ over. over ≡ None → (before : Stream)
            (start told : Option Store)
            → IsUnderway before (S.source source.old) start self.old told
            → IsUnderway before (S.source source.new) start self.new told) }
        ensures over { IfOk result (λ over. IfSome over (λ over. (before : Stream)
            (start told : Option Store)
            → IsUnderway before (S.source source.old) start self.old told
            → IsOver over before (S.source source.new) start self.new told)) }
        ensures lacks { OnErr result ((before : Stream) (start told : Option Store)
            → IsUnderway before (S.source source.old) start self.old told
            → LacksReading before (S.source source.new) start self.new.import told) }
    {
        if !self.counted.is_empty() || !self.ahead.whole.is_empty() {
            return Ok(None);
        }
        if self.ahead.end.is_none() && self.ahead.taken == INPUT_LIMIT - 1 {
            return self.last_byte(alloc, source);
        }
        Ok(self.over())
    }

    /// The same where the last byte alone may come yet.
    fn last_byte<S: Source>(
        &mut self,
        alloc: Global,
        source: &mut S,
    ) -> Result<Option<Over>, AllocError>
        requires none { self.old.counted.items ≡ [] }
        requires none_whole { self.old.ahead.whole.items ≡ [] }
        requires reading { self.old.ahead.end ≡ None }
        requires last { self.old.ahead.taken + 1 ≡ input_limit }
        requires ready { CanSettle self.old.import.group.label self.old }
        ensures import { self.new.import ≡ self.old.import }
        ensures ready { OnOk result (CanSettle self.old.import.group.label self.new) }
        ensures less { OnOk result (work_left self.new ≤ work_left self.old) }
        ensures work { IfOk result (λ over. over ≡ None → self.new.ahead.whole.items ≡ []
            → (self.new.ahead.end ≡ None) × (self.new.ahead.taken + 1 < input_limit)) }
        ensures goes { IfOk result (λ over. over ≡ None → (before : Stream)
            (start told : Option Store)
            → IsUnderway before (S.source source.old) start self.old told
            → IsUnderway before (S.source source.new) start self.new told) }
        ensures over { IfOk result (λ over. IfSome over (λ over. (before : Stream)
            (start told : Option Store)
            → IsUnderway before (S.source source.old) start self.old told
            → IsOver over before (S.source source.new) start self.new told)) }
        ensures lacks { OnErr result ((before : Stream) (start told : Option Store)
            → IsUnderway before (S.source source.old) start self.old told
            → LacksReading before (S.source source.new) start self.new.import told) }
    {
        if self.ahead.read_last(alloc, source)? {
            return Ok(Some(Over::TooMuch));
        }
        Ok(self.over())
    }

    /// How the import ends, where nothing that was counted is in hand, if the stream has ended or a
    /// read failed.
    fn over(&self) -> Option<Over>
        ensures over { IfSome result (λ over. self.now.counted.items ≡ [] → (before now : Stream)
            (start told : Option Store) → IsUnderway before now start self.now told
            → IsOver over before now start self.now told) }
        ensures none { result ≡ None → self.now.ahead.whole.items ≡ []
            → self.now.ahead.end ≡ None }
    {
        if !self.ahead.whole.is_empty() {
            return None;
        }
        match self.ahead.end {
            Some(ReadEnd::Ended) => Some(Over::Whole),
            Some(ReadEnd::Failed { before, after }) => Some(Over::ReadFault { before, after }),
            None => None,
        }
    }

    /// The report of an import of which nothing is in hand any more. The group that is not whole is
    /// not settled.
    pub(crate) fn report(self, over: Over) -> Report<J>
        requires ready { CanSettle self.import.group.label self }
        ensures told { (before now : Stream) (start : Known) (told : Option Store)
            → IsOver over before now (Some (store_of start)) self told
            → Imports self.import.group.label start before now result told }
        ensures beside { (before now : Stream) (start told : Option Store)
            → IsOver over before now start self told
            → ImportsBeside self.import.group.label before now result }
        ensures drawn { (before after : Drawing)
            → DrawsFor 0 self.import.receipts.items before after
            → DrawsFor (most_untold (ending_of result.end)) result.receipts.items before after }
    {
        let Underway {
            import,
            counted: _counted,
            ahead,
        } = self;
        let Ahead { cutter, group, .. } = ahead;
        let mut import = import;
        import.group = group;
        match over {
            Over::Whole => import.report(End::Whole),
            Over::ReadFault { before, after } => {
                import.cut_off(cutter, End::ReadFault { before, after })
            }
            Over::TooMuch => {
                let bytes = INPUT_LIMIT;
                import.cut_off(cutter, End::TooMuch { bytes })
            }
        }
    }

    /// One round. What is in hand was read, counted or settled in turn.
    pub(crate) fn round<S: Source, C: Committer<J>, G: Gate, R: Wait + Threads + Sync>(
        &mut self,
        rt: &R,
        alloc: Global,
        source: &mut S,
        committer: &mut C,
        workers: Workers,
        gate: &G,
    ) -> Result<(), Stop<Stopped<J>>>
        requires ready { CanSettle self.old.import.group.label self.old }
        requires work { self.old.counted.items ≡ [] → self.old.ahead.whole.items ≡ []
            → (self.old.ahead.end ≡ None) × (self.old.ahead.taken + 1 < input_limit) }
        ensures label { self.new.import.group.label ≡ self.old.import.group.label }
        ensures ready { OnOk result (CanSettle self.old.import.group.label self.new) }
        ensures less { OnOk result (work_left self.new < work_left self.old) }
        ensures goes { (before : Stream) (start : Option Store)
            → IsUnderway before (S.source source.old) start self.old (C.told committer.old)
            → ByStop result
            (IsUnderway before (S.source source.new) start self.new (C.told committer.new))
            (λ stopped. StopsReading before (S.source source.new) start self.new.import stopped
            (C.told committer.new))
            (LacksReading before (S.source source.new) start self.new.import
            (C.told committer.new)) }
        ensures drawn { (before : Drawing)
            → DrawsFor 0 self.old.import.receipts.items before (C.drawing committer.old)
            → DrawsFor (most_untold_by result) self.new.import.receipts.items before
            (C.drawing committer.new) }
        ensures since { C.since committer.old committer.new }
    {
        let groups = self.ahead.take_whole(alloc);
        let (counted, turned) = both(rt, alloc, source, committer, self, groups, workers, gate);
        match turned {
            Ok(()) => {}
            Err(stop) => return Err(stop),
        }
        self.counted = counted?;
        Ok(())
    }

    /// Settles the groups that are counted, and reads on.
    fn turn<S: Source, C: Committer<J>, G: Gate, R: Wait + Threads + Sync>(
        &mut self,
        rt: &R,
        alloc: Global,
        source: &mut S,
        committer: &mut C,
        counting: bool,
        done: &AtomicBool,
        workers: Workers,
        gate: &G,
    ) -> Result<(), Stop<Stopped<J>>>
        requires ready { CanSettle self.old.import.group.label self.old }
        ensures turns { Turns counting result self.old self.new
            (S.source source.old) (S.source source.new)
            (C.told committer.old) (C.told committer.new) }
        ensures drawn { (before : Drawing)
            → DrawsFor 0 self.old.import.receipts.items before (C.drawing committer.old)
            → DrawsFor (most_untold_by result) self.new.import.receipts.items before
            (C.drawing committer.new) }
        ensures since { C.since committer.old committer.new }
    {
        let counted = mem::replace(&mut self.counted, Vec::new(alloc));
        match self
            .import
            .settle_each(rt, alloc, committer, counted, workers, gate)
        {
            Ok(()) => {}
            Err(stop) => return Err(stop),
        }
        self.ahead
            .read_on(alloc, source, counting, done, 2 * workers.count)?;
        Ok(())
    }
}

/// The two halves of a round: the groups are counted, and the calling thread takes its turn.
fn both<S: Source, C: Committer<J>, J: Index, G: Gate, R: Wait + Threads + Sync>(
    rt: &R,
    alloc: Global,
    source: &mut S,
    committer: &mut C,
    state: &mut Underway<J>,
    groups: Vec<TextGroup>,
    workers: Workers,
    gate: &G,
) -> (
    Result<Vec<TalliedGroup>, AllocError>,
    Result<(), Stop<Stopped<J>>>,
)
    requires ready { CanSettle state.old.import.group.label state.old }
    requires tallies { All CanTally groups.items }
    ensures counted { IfOk result.0 (λ tallied. AllZip IsTalliedGroup groups.items tallied.items) }
    ensures turns { (counting : Bool) × (groups.items ≡ [] → counting ≡ false)
        × Turns counting result.1 state.old state.new
        (S.source source.old) (S.source source.new) (C.told committer.old) (C.told committer.new) }
    ensures drawn { (before : Drawing)
        → DrawsFor 0 state.old.import.receipts.items before (C.drawing committer.old)
        → DrawsFor (most_untold_by result.1) state.new.import.receipts.items before
        (C.drawing committer.new) }
    ensures since { C.since committer.old committer.new }
{
    let counting = !groups.is_empty();
    if workers.count == 1 || !counting {
        let done = AtomicBool::new(true);
        let turned = state.turn(rt, alloc, source, committer, counting, &done, workers, gate);
        let counted = count_each(rt, alloc, groups, workers, gate);
        return (counted, turned);
    }
    let done = AtomicBool::new(false);
    let mut waiting = groups;
    join_mut(
        rt,
        &mut || -> Result<Vec<TalliedGroup>, AllocError>
            requires { IsSync R.row × All CanTally waiting.items }
            ensures { IfOk result (λ tallied.
                AllZip IsTalliedGroup waiting.entry.items tallied.items) }
        {
            let groups = mem::replace(&mut waiting, Vec::new(alloc));
            let counted = count_each(rt, alloc, groups, workers, gate);
            done.store(true, Ordering::SeqCst);
            counted
        },
        &mut || -> Result<(), Stop<Stopped<J>>>
            requires { IsSync R.row × CanSettle state.now.import.group.label state.now }
            ensures turns { Turns counting result state.entry.now state.exit.now
                (S.source source.entry.now) (S.source source.exit.now)
                (C.told committer.entry.now) (C.told committer.exit.now) }
            ensures drawn { (before : Drawing)
                → DrawsFor 0 state.entry.now.import.receipts.items before
                (C.drawing committer.entry.now)
                → DrawsFor (most_untold_by result) state.exit.now.import.receipts.items before
                (C.drawing committer.exit.now) }
            ensures since { C.since committer.entry.now committer.exit.now }
        { state.turn(rt, alloc, source, committer, counting, &done, workers, gate) },
    )
}
