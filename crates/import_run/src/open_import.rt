//! An import in its stream: cuts are taken into groups, and each group is settled once it is whole.
ghost use Rattle.std.specs.Prelude.{◌≡◌, ◌≤◌, ◌++◌, ◌∷◌, [], List, Option, length, OnOk, ◌+◌, ◌<◌, ◌^◌, ℕ, Some, IfSome};
ghost use Rattle.std.specs.List.{All, AllByRecursion, AllZip};
ghost use Rattle.explorer_model.specs.Cuts.{Cut as ACut, text_limit};
ghost use Rattle.explorer_model.specs.Imports.{group_limit};
ghost use Rattle.published_index.specs.Places.{Drawing};
ghost use Rattle.ingest_desk.specs.Drawn.{DrawsFor, most_untold};
ghost use Rattle.import_run.specs.Apart.{IsInHand};
ghost use Rattle.import_run.specs.Beside.{last_batches};
ghost use Rattle.import_run.specs.Committing.{Store, Known, store_of};
ghost use Rattle.import_run.specs.Draws.{most_untold_by};
ghost use Rattle.import_run.specs.Grouping.{Ascend, IsGroupOf, IsShort, IsTallied};
ghost use Rattle.import_run.specs.Importing.{ByStop, EndsEarly, IsEndOf};
ghost use Rattle.import_run.specs.Settled.{IsSettledSo};
ghost use Rattle.import_run.specs.Taking.{LacksAmong, LacksBehind, StopsAmong, StopsBehind, ComesQuietly, ComesQuietlyBeside, CutSoFar, IsReady, IsWholeBeside, IsWholeSettled, LacksAtEnd, LacksSoFar, LacksWithin, StopsAtEnd, StopsIn, StopsSoFar, StopsWithin, TakenAll, TakenSoFar};
ghost use Rattle.std.specs.Io.KnownBytes.{IsAtEnd};
ghost use Rattle.explorer_model.specs.Journal.{input_limit};
ghost use Rattle.pgn_cut.specs.Cut.{meaning, cuts_in};
ghost use Rattle.pgn_cut.specs.Cutter.{came, cuts_of_rest};
ghost use Rattle.ingest_desk.specs.Importers.{ending_of};

use crate::committer::Committer;
use crate::settle::{Done, settle};
use crate::text_group::{GROUP_LIMIT, TalliedGroup, TextGroup};
use explorer_model::fault::{Refusal, Stop};
use explorer_model::label::Label;
use ingest_desk::{CommitFault, End, Receipt, Report};
use outside::Gate;
use pgn_cut::cut::Cut;
use pgn_cut::cutter::Cutter;
use published_index::{Index, Note};
use side_by_side::Workers;
use std::alloc::Global;
use std::mem;
use std::sync::Wait;
use std::thread::Threads;

/// A commit ended an import.
#[derive(Drop)]
pub struct Stopped<J: Index> {
    pub end: End<J>,
    /// Why texts of the group in hand are refused.
    pub refused: Vec<Refusal>,
}

/// An import in its stream: the group in hand, whose label all its batches have, and what became of
/// the groups before it.
#[derive(Drop)]
pub struct OpenImport<J: Index> {
    pub group: TextGroup,
    pub receipts: Vec<Receipt<J>>,
    pub refused: Vec<Refusal>,
    pub clashes: Vec<Note<J>>,
}

impl<J: Index> OpenImport<J> {
    /// Nothing came, and nothing is in hand.
    pub fn new(alloc: Global, label: Label) -> Self
        ensures group { IsGroupOf [] result.group }
        ensures none { result.group.texts.items ≡ [] }
        ensures label { result.group.label ≡ label }
        ensures receipts { result.receipts.items ≡ [] }
        ensures refused { result.refused.items ≡ [] }
        ensures clashes { result.clashes.items ≡ [] }
    {
        OpenImport {
            group: TextGroup::new(alloc, label),
            receipts: Vec::new(alloc),
            refused: Vec::new(alloc),
            clashes: Vec::new(alloc),
        }
    }

    /// Cuts the next bytes of the stream, and takes the cuts that end in them.
    pub(crate) fn feed<C: Committer<J>, G: Gate, R: Wait + Threads + Sync>(
        &mut self,
        rt: &R,
        alloc: Global,
        committer: &mut C,
        cutter: &mut Cutter,
        bytes: &[u8],
        workers: Workers,
        gate: &G,
    ) -> Result<(), Stop<Stopped<J>>>
        requires room { came cutter.old + length bytes.now < 2 ^ 62 }
        requires ready { IsReady self.old }
        ensures came { OnOk result (came cutter.new ≡ came cutter.old + length bytes.now) }
        ensures ready { OnOk result (IsReady self.new) }
        ensures label { self.new.group.label ≡ self.old.group.label }
        ensures cut { (start : Option Store) (past : List ℕ)
            → CutSoFar start past (cuts_of_rest cutter.old) self.old (C.told committer.old)
            → ByStop result (CutSoFar start (past ++ bytes.now) (cuts_of_rest cutter.new) self.new
            (C.told committer.new))
            (λ stopped. StopsWithin start (past ++ bytes.now) self.new stopped
            (C.told committer.new))
            (LacksWithin start (past ++ bytes.now) self.new (C.told committer.new)) }
        ensures drawn { (before : Drawing)
            → DrawsFor 0 self.old.receipts.items before (C.drawing committer.old)
            → DrawsFor (most_untold_by result) self.new.receipts.items before
            (C.drawing committer.new) }
        ensures since { C.since committer.old committer.new }
    {
        let mut at = 0;
        'feeding: while at < bytes.len() {
            let fed = cutter.feed(alloc, &bytes[at..])?;
            match self.take(rt, alloc, committer, fed.cut, workers, gate) {
                Ok(()) => at += fed.taken,
                Err(stop) => return Err(stop),
            }
        }
        Ok(())
    }

    /// Takes the next cut of the stream, if there is one. The last text that a group may have
    /// closes it.
    fn take<C: Committer<J>, G: Gate, R: Wait + Threads + Sync>(
        &mut self,
        rt: &R,
        alloc: Global,
        committer: &mut C,
        cut: Option<Cut>,
        workers: Workers,
        gate: &G,
    ) -> Result<(), Stop<Stopped<J>>>
        requires short { IfSome cut (λ cut. IsShort (meaning cut)) }
        requires ready { IsReady self.old }
        ensures ready { OnOk result (IsReady self.new) }
        ensures label { self.new.group.label ≡ self.old.group.label }
        ensures taken { (start : Option Store) (taken : List ACut)
            → Ascend (taken ++ cuts_in cut)
            → TakenSoFar start taken self.old (C.told committer.old)
            → ByStop result
            (TakenSoFar start (taken ++ cuts_in cut) self.new (C.told committer.new))
            (λ stopped. StopsSoFar start (taken ++ cuts_in cut) self.new stopped
            (C.told committer.new))
            (LacksSoFar start (taken ++ cuts_in cut) self.new (C.told committer.new)) }
        ensures drawn { (before : Drawing)
            → DrawsFor 0 self.old.receipts.items before (C.drawing committer.old)
            → DrawsFor (most_untold_by result) self.new.receipts.items before
            (C.drawing committer.new) }
        ensures since { C.since committer.old committer.new }
    {
        match cut {
            Some(cut) => self.push(rt, alloc, committer, cut, workers, gate),
            None => Ok(()),
        }
    }

    fn push<C: Committer<J>, G: Gate, R: Wait + Threads + Sync>(
        &mut self,
        rt: &R,
        alloc: Global,
        committer: &mut C,
        cut: Cut,
        workers: Workers,
        gate: &G,
    ) -> Result<(), Stop<Stopped<J>>>
        requires short { IsShort (meaning cut) }
        requires ready { IsReady self.old }
        ensures ready { OnOk result (IsReady self.new) }
        ensures label { self.new.group.label ≡ self.old.group.label }
        ensures taken { (start : Option Store) (taken : List ACut)
            → Ascend (taken ++ meaning cut ∷ [])
            → TakenSoFar start taken self.old (C.told committer.old)
            → ByStop result
            (TakenSoFar start (taken ++ meaning cut ∷ []) self.new (C.told committer.new))
            (λ stopped. StopsSoFar start (taken ++ meaning cut ∷ []) self.new stopped
            (C.told committer.new))
            (LacksSoFar start (taken ++ meaning cut ∷ []) self.new (C.told committer.new)) }
        ensures drawn { (before : Drawing)
            → DrawsFor 0 self.old.receipts.items before (C.drawing committer.old)
            → DrawsFor (most_untold_by result) self.new.receipts.items before
            (C.drawing committer.new) }
        ensures since { C.since committer.old committer.new }
    {
        self.group.push(cut)?;
        if self.group.texts.len() < GROUP_LIMIT {
            return Ok(());
        }
        self.close(rt, alloc, committer, workers, gate)
    }

    /// Settles the group in hand: its new texts are stored, and all else of it is refused.
    pub fn close<C: Committer<J>, R: Wait + Threads + Sync, G: Gate>(
        &mut self,
        rt: &R,
        alloc: Global,
        committer: &mut C,
        workers: Workers,
        gate: &G,
    ) -> Result<(), Stop<Stopped<J>>>
        requires few { length self.old.group.texts.items ≤ group_limit }
        requires short { All (λ text. length text.bytes ≤ text_limit) self.old.group.texts.items }
        ensures label { self.new.group.label ≡ self.old.group.label }
        ensures group { OnOk result (IsGroupOf [] self.new.group) }
        ensures none { OnOk result (self.new.group.texts.items ≡ []) }
        ensures settles { (start : Option Store) (closed : List (List ACut)) (hand : List ACut)
            → Ascend hand → IsGroupOf hand self.old.group
            → IsSettledSo start closed self.old (C.told committer.old)
            → ByStop result
            (IsSettledSo start (closed ++ hand ∷ []) self.new (C.told committer.new))
            (λ stopped. StopsBehind start closed hand self.new stopped (C.told committer.new))
            (LacksBehind start closed (hand ∷ []) self.new (C.told committer.new)) }
        ensures drawn { (before : Drawing)
            → DrawsFor 0 self.old.receipts.items before (C.drawing committer.old)
            → DrawsFor (most_untold_by result) self.new.receipts.items before
            (C.drawing committer.new) }
        ensures since { C.since committer.old committer.new }
    {
        let next = TextGroup::new(alloc, self.group.label.copy());
        let group = mem::replace(&mut self.group, next);
        let tallied = group.tally(rt, alloc, workers, gate)?;
        self.settle_tallied(rt, alloc, committer, tallied, workers, gate)
    }

    /// Settles a group that is tallied, whatever is in hand.
    pub(crate) fn settle_tallied<C: Committer<J>, R: Wait + Threads + Sync, G: Gate>(
        &mut self,
        rt: &R,
        alloc: Global,
        committer: &mut C,
        tallied: TalliedGroup,
        workers: Workers,
        gate: &G,
    ) -> Result<(), Stop<Stopped<J>>>
        requires hand { IsInHand tallied }
        ensures group { self.new.group ≡ self.old.group }
        ensures settles { (start : Option Store) (closed : List (List ACut)) (next : List ACut)
            → Ascend next → IsTallied self.old.group.label next tallied
            → IsSettledSo start closed self.old (C.told committer.old)
            → ByStop result
            (IsSettledSo start (closed ++ next ∷ []) self.new (C.told committer.new))
            (λ stopped. StopsBehind start closed next self.new stopped (C.told committer.new))
            (LacksBehind start closed (next ∷ []) self.new (C.told committer.new)) }
        ensures drawn { (before : Drawing)
            → DrawsFor 0 self.old.receipts.items before (C.drawing committer.old)
            → DrawsFor (most_untold_by result) self.new.receipts.items before
            (C.drawing committer.new) }
        ensures since { C.since committer.old committer.new }
    {
        self.receipts.reserve(1)?;
        self.refused
            .reserve(tallied.places.len() + tallied.refused.len())?;
        let Done { answer, refused } = settle(
            rt,
            alloc,
            committer,
            tallied,
            &mut self.clashes,
            workers,
            gate,
        )?;
        let Some(answer) = answer else {
            self.refused.extend_from_slice(refused.as_slice())?;
            return Ok(());
        };
        let fault = match answer {
            Ok(receipt) => {
                // A receipt tells of the journal that its commit found: the numbers ascend.
                if receipt.batches() <= last_batches(self.receipts.as_slice()) {
                    return Err(Stop::OutOfMemory);
                }
                self.refused.extend_from_slice(refused.as_slice())?;
                self.receipts.push_reserved(receipt);
                return Ok(());
            }
            Err(fault) => fault,
        };
        Err(Stop::Fault(Stopped {
            end: end_of(fault),
            refused,
        }))
    }

    /// The report of a stream that ended: its last cut is taken, if there is one more, and the group
    /// in hand is closed.
    pub(crate) fn end<C: Committer<J>, G: Gate, R: Wait + Threads + Sync>(
        self,
        rt: &R,
        alloc: Global,
        committer: &mut C,
        cutter: Cutter,
        workers: Workers,
        gate: &G,
    ) -> Report<J>
        requires ready { IsReady self }
        ensures comes { (start : Known) (stream : List ℕ) (left : Option (List ℕ)) → IsAtEnd left
            → length stream < input_limit
            → CutSoFar (Some (store_of start)) stream (cuts_of_rest cutter) self
            (C.told committer.old)
            → ComesQuietly self.group.label start stream left result (C.told committer.new) }
        ensures beside { (start : Option Store) (stream : List ℕ) (left : Option (List ℕ))
            → IsAtEnd left → length stream < input_limit
            → CutSoFar start stream (cuts_of_rest cutter) self (C.told committer.old)
            → ComesQuietlyBeside self.group.label stream left result }
        ensures drawn { (before : Drawing)
            → DrawsFor 0 self.receipts.items before (C.drawing committer.old)
            → DrawsFor (most_untold (ending_of result.end)) result.receipts.items before
            (C.drawing committer.new) }
        ensures since { C.since committer.old committer.new }
    {
        let mut import = self;
        match import.finish(rt, alloc, committer, cutter.end(), workers, gate) {
            Ok(()) => import.report(End::Whole),
            Err(Stop::Fault(stopped)) => import.report_stop(stopped),
            Err(Stop::OutOfMemory) => import.report(End::OutOfMemory),
        }
    }

    /// Takes the last cut of the stream, if there is one more, and closes the group in hand.
    fn finish<C: Committer<J>, G: Gate, R: Wait + Threads + Sync>(
        &mut self,
        rt: &R,
        alloc: Global,
        committer: &mut C,
        cut: Option<Cut>,
        workers: Workers,
        gate: &G,
    ) -> Result<(), Stop<Stopped<J>>>
        requires short { IfSome cut (λ cut. IsShort (meaning cut)) }
        requires ready { IsReady self.old }
        ensures label { self.new.group.label ≡ self.old.group.label }
        ensures taken { (start : Option Store) (taken : List ACut)
            → Ascend (taken ++ cuts_in cut)
            → TakenSoFar start taken self.old (C.told committer.old)
            → ByStop result
            (TakenAll start (taken ++ cuts_in cut) self.new (C.told committer.new))
            (λ stopped. StopsAtEnd start (taken ++ cuts_in cut) self.new stopped
            (C.told committer.new))
            (LacksAtEnd start (taken ++ cuts_in cut) self.new (C.told committer.new)) }
        ensures drawn { (before : Drawing)
            → DrawsFor 0 self.old.receipts.items before (C.drawing committer.old)
            → DrawsFor (most_untold_by result) self.new.receipts.items before
            (C.drawing committer.new) }
        ensures since { C.since committer.old committer.new }
    {
        match self.take(rt, alloc, committer, cut, workers, gate) {
            Ok(()) => self.close(rt, alloc, committer, workers, gate),
            Err(stop) => Err(stop),
        }
    }

    /// Settles groups that are tallied, one after another.
    pub(crate) fn settle_each<C: Committer<J>, R: Wait + Threads + Sync, G: Gate>(
        &mut self,
        rt: &R,
        alloc: Global,
        committer: &mut C,
        counted: Vec<TalliedGroup>,
        workers: Workers,
        gate: &G,
    ) -> Result<(), Stop<Stopped<J>>>
        requires hand { All IsInHand counted.items }
        ensures group { self.new.group ≡ self.old.group }
        ensures settles { (start : Option Store) (closed groups : List (List ACut))
            → AllByRecursion Ascend groups
            → AllZip (IsTallied self.old.group.label) groups counted.items
            → IsSettledSo start closed self.old (C.told committer.old)
            → ByStop result (IsSettledSo start (closed ++ groups) self.new (C.told committer.new))
            (λ stopped. StopsAmong start closed groups self.new stopped (C.told committer.new))
            (LacksAmong start closed groups self.new (C.told committer.new)) }
        ensures drawn { (before : Drawing)
            → DrawsFor 0 self.old.receipts.items before (C.drawing committer.old)
            → DrawsFor (most_untold_by result) self.new.receipts.items before
            (C.drawing committer.new) }
        ensures since { C.since committer.old committer.new }
    {
        'settling: for tallied in counted {
            match self.settle_tallied(rt, alloc, committer, tallied, workers, gate) {
                Ok(()) => {}
                Err(stop) => return Err(stop),
            }
        }
        Ok(())
    }

    /// The report of a stream that is cut off, of which whole groups alone are settled.
    pub(crate) fn cut_off(self, cutter: Cutter, end: End<J>) -> Report<J>
        requires { IsReady self }
        ensures settled { (start : Known) (stream : List ℕ) (told : Option Store)
            → CutSoFar (Some (store_of start)) stream (cuts_of_rest cutter) self told
            → IsWholeSettled self.group.label start stream result.receipts.items
            result.refused.items told }
        ensures beside { (start : Option Store) (stream : List ℕ) (told : Option Store)
            → CutSoFar start stream (cuts_of_rest cutter) self told
            → IsWholeBeside self.group.label stream result }
        ensures receipts { result.receipts.items ≡ self.receipts.items }
        ensures end { result.end ≡ end }
    {
        // No more than one cut has begun and not ended.
        let _begun = cutter.end();
        self.report(end)
    }

    /// The report where a commit ended the import. What is refused of the group in hand stands last.
    pub(crate) fn report_stop(self, stopped: Stopped<J>) -> Report<J>
        ensures comes { (start : Known) (stream : List ℕ) (left : Option (List ℕ))
            (told : Option Store) → length stream < input_limit
            → StopsIn (Some (store_of start)) stream left self stopped told
            → ComesQuietly self.group.label start stream left result told }
        ensures beside { (start : Option Store) (stream : List ℕ) (left : Option (List ℕ))
            (told : Option Store) → length stream < input_limit
            → StopsIn start stream left self stopped told
            → ComesQuietlyBeside self.group.label stream left result }
        ensures early { EndsEarly stopped.end → EndsEarly result.end }
        ensures drawn { (before after : Drawing) → DrawsFor 0 self.receipts.items before after
            → DrawsFor (most_untold (ending_of result.end)) result.receipts.items before after }
    {
        let mut import = self;
        match import.refused.extend_from_slice(stopped.refused.as_slice()) {
            Ok(()) => import.report(stopped.end),
            Err(_) => import.report(End::OutOfMemory),
        }
    }

    /// What is stored and refused.
    pub(crate) fn report(self, end: End<J>) -> Report<J>
        ensures receipts { result.receipts.items ≡ self.receipts.items }
        ensures refused { result.refused.items ≡ self.refused.items }
        ensures clashes { result.clashes.items ≡ self.clashes.items }
        ensures end { result.end ≡ end }
    {
        Report {
            receipts: self.receipts,
            refused: self.refused,
            clashes: self.clashes,
            end,
        }
    }
}

/// How many batches the journal of the last receipt has; none where there is no receipt.
fn last_batches<J: Index>(receipts: &[Receipt<J>]) -> u32
    ensures { result ≡ last_batches 0 receipts.now }
{
    match receipts.last() {
        Some(receipt) => receipt.batches(),
        None => 0,
    }
}

/// The end of an import whose batch is not stored for this fault.
fn end_of<J: Index>(fault: CommitFault<J>) -> End<J>
    ensures { IsEndOf fault result }
{
    match fault {
        CommitFault::Closed {
            before,
            after,
            mark,
        } => End::Closed {
            before,
            after,
            mark,
        },
        CommitFault::DiskFault {
            before,
            after,
            mark,
        } => End::DiskFault {
            before,
            after,
            mark,
        },
        CommitFault::Full { games, bytes, note } => End::Full { games, bytes, note },
        CommitFault::Clash { .. } | CommitFault::OutOfMemory { .. } => End::OutOfMemory,
    }
}
