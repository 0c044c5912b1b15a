//! A stream that is read ahead of what is settled: its cuts are taken into groups.
ghost use Rattle.std.specs.Prelude.{◌≡◌, ◌+◌, ◌<◌, ◌≤◌, ◌^◌, ◌++◌, ◌∷◌, [], ℕ, List, None, Some, true, false, length, IfOk, IfSome, OnErr, OnOk};
ghost use Rattle.std.specs.List.{All, AllZip};
ghost use Rattle.explorer_model.specs.Cuts.{Cut as ACut};
ghost use Rattle.explorer_model.specs.Imports.{group_limit};
ghost use Rattle.explorer_model.specs.Journal.{input_limit};
ghost use Rattle.outside.specs.Stream.{Gives, Stream};
ghost use Rattle.pgn_cut.specs.Cut.{cuts_in, meaning};
ghost use Rattle.pgn_cut.specs.Cutter.{came, cuts_of_rest};
ghost use Rattle.import_run.specs.Ahead.{CanGoOn, CanTake, CutAhead, EndsAhead, HasTaken, HoldsAhead, IsUnder, StandsFor, left_of};
ghost use Rattle.import_run.specs.Grouping.{Ascend, IsGroupOf, IsShort};
ghost use Rattle.import_run.specs.declared.ahead.ReadEnd.TheVariants.{Ended};

use crate::text_group::{GROUP_LIMIT, TextGroup};
use explorer_model::label::Label;
use outside::Source;
use pgn_cut::cut::Cut;
use pgn_cut::cutter::Cutter;
use std::alloc::{AllocError, Global};
use std::mem;
use std::sync::atomic::{AtomicBool, Ordering};

/// How many bytes one import takes.
pub const INPUT_LIMIT: u64 = 1 << 40;

/// How many bytes one read asks for.
const BUFFER: usize = 4096;

/// From how many bytes on no more are read in a round, once a group is whole.
const ROUND_BYTES: u64 = 1 << 24;

/// How the reading of a stream ended.
#[derive(Clone, Copy, Debug, PartialEq, Eq)]
pub enum ReadEnd {
    /// The stream has ended, and its last group is among the whole ones.
    Ended,
    /// A read failed, with these counts of its faults.
    Failed { before: u64, after: u64 },
}

/// What was read of a stream and is not counted yet.
#[derive(Drop)]
pub struct Ahead {
    pub cutter: Cutter,
    /// How many bytes were taken.
    pub taken: u64,
    /// The cuts behind the whole groups.
    pub group: TextGroup,
    /// The whole groups.
    pub whole: Vec<TextGroup>,
    /// How reading ended, if it did.
    pub end: Option<ReadEnd>,
}

impl Ahead {
    /// Nothing was read.
    pub(crate) fn new(alloc: Global, label: Label) -> Self
        ensures reading { result.end ≡ None }
        ensures none { result.whole.items ≡ [] }
        ensures ready { CanGoOn label result }
        ensures holds { (now : Stream) → HoldsAhead now now [] result }
    {
        Ahead {
            cutter: Cutter::new(),
            taken: 0,
            group: TextGroup::new(alloc, label),
            whole: Vec::new(alloc),
            end: None,
        }
    }

    /// Takes the whole groups out.
    pub(crate) fn take_whole(&mut self, alloc: Global) -> Vec<TextGroup>
        ensures groups { result.items ≡ self.old.whole.items }
        ensures none { self.new.whole.items ≡ [] }
        ensures end { self.new.end ≡ self.old.end }
        ensures taken { self.new.taken ≡ self.old.taken }
        ensures ready { (label : List ℕ) → CanGoOn label self.old → CanGoOn label self.new }
        ensures under { (label : List ℕ) → CanGoOn label self.old
            → All (IsUnder label) result.items }
        ensures holds { (before now : Stream) (given : List (List ACut))
            → HoldsAhead before now given self.old
            → (whole : List (List ACut)) × AllZip IsGroupOf whole result.items
            × HoldsAhead before now (given ++ whole) self.new }
    {
        mem::replace(&mut self.whole, Vec::new(alloc))
    }

    /// Puts the group in hand behind the whole ones.
    fn close_group(&mut self, alloc: Global) -> Result<(), AllocError>
        ensures whole { OnOk result (self.new.whole.items
            ≡ self.old.whole.items ++ self.old.group ∷ []) }
        ensures group { IsGroupOf [] self.new.group }
        ensures none { self.new.group.texts.items ≡ [] }
        ensures label { self.new.group.label ≡ self.old.group.label }
        ensures cutter { self.new.cutter ≡ self.old.cutter }
        ensures taken { self.new.taken ≡ self.old.taken }
        ensures end { self.new.end ≡ self.old.end }
    {
        let next = TextGroup::new(alloc, self.group.label.copy());
        let group = mem::replace(&mut self.group, next);
        self.whole.push(group)?;
        Ok(())
    }

    /// Puts a cut behind the others. The last text that a group may have makes it whole.
    fn push(&mut self, alloc: Global, cut: Cut) -> Result<(), AllocError>
        requires short { IsShort (meaning cut) }
        requires ready { CanTake self.old.group }
        ensures ready { OnOk result (CanTake self.new.group) }
        ensures label { self.new.group.label ≡ self.old.group.label }
        ensures under { OnOk result (All (IsUnder self.old.group.label) self.old.whole.items
            → All (IsUnder self.old.group.label) self.new.whole.items) }
        ensures takes { OnOk result ((given : List (List ACut)) (taken : List ACut)
            → Ascend (taken ++ meaning cut ∷ [])
            → HasTaken taken given self.old.whole.items self.old.group
            → HasTaken (taken ++ meaning cut ∷ []) given self.new.whole.items self.new.group) }
        ensures few { OnOk result
            (length self.new.whole.items ≤ length self.old.whole.items + 1) }
        ensures cutter { self.new.cutter ≡ self.old.cutter }
        ensures taken { self.new.taken ≡ self.old.taken }
        ensures end { self.new.end ≡ self.old.end }
    {
        self.group.push(cut)?;
        if self.group.texts.len() < GROUP_LIMIT {
            return Ok(());
        }
        self.close_group(alloc)
    }

    /// Takes the next cut of the stream, if there is one.
    fn take(&mut self, alloc: Global, cut: Option<Cut>) -> Result<(), AllocError>
        requires short { IfSome cut (λ cut. IsShort (meaning cut)) }
        requires ready { CanTake self.old.group }
        ensures ready { OnOk result (CanTake self.new.group) }
        ensures label { self.new.group.label ≡ self.old.group.label }
        ensures under { OnOk result (All (IsUnder self.old.group.label) self.old.whole.items
            → All (IsUnder self.old.group.label) self.new.whole.items) }
        ensures takes { OnOk result ((given : List (List ACut)) (taken : List ACut)
            → Ascend (taken ++ cuts_in cut)
            → HasTaken taken given self.old.whole.items self.old.group
            → HasTaken (taken ++ cuts_in cut) given self.new.whole.items self.new.group) }
        ensures few { OnOk result
            (length self.new.whole.items ≤ length self.old.whole.items + 1) }
        ensures cutter { self.new.cutter ≡ self.old.cutter }
        ensures taken { self.new.taken ≡ self.old.taken }
        ensures end { self.new.end ≡ self.old.end }
    {
        match cut {
            Some(cut) => self.push(alloc, cut),
            None => Ok(()),
        }
    }

    /// Cuts the next bytes of the stream, and takes the cuts that end in them.
    fn feed(&mut self, alloc: Global, bytes: &[u8]) -> Result<(), AllocError>
        requires room { came self.old.cutter + length bytes.now < 2 ^ 62 }
        requires ready { CanTake self.old.group }
        ensures ready { OnOk result (CanTake self.new.group) }
        ensures label { self.new.group.label ≡ self.old.group.label }
        ensures under { OnOk result (All (IsUnder self.old.group.label) self.old.whole.items
            → All (IsUnder self.old.group.label) self.new.whole.items) }
        ensures came { OnOk result
            (came self.new.cutter ≡ came self.old.cutter + length bytes.now) }
        ensures cut { OnOk result ((given : List (List ACut)) (past : List ℕ)
            → CutAhead given past (cuts_of_rest self.old.cutter) self.old.whole.items self.old.group
            → CutAhead given (past ++ bytes.now) (cuts_of_rest self.new.cutter)
            self.new.whole.items self.new.group) }
        ensures few { OnOk result
            (length self.new.whole.items ≤ length self.old.whole.items + length bytes.now) }
        ensures taken { self.new.taken ≡ self.old.taken }
        ensures end { self.new.end ≡ self.old.end }
    {
        let mut at = 0;
        'feeding: while at < bytes.len() {
            let fed = self.cutter.feed(alloc, &bytes[at..])?;
            self.take(alloc, fed.cut)?;
            at += fed.taken;
        }
        Ok(())
    }

    /// The stream has ended: its last cut is taken, and the group in hand is the last one.
    fn finish(&mut self, alloc: Global) -> Result<(), AllocError>
        requires ready { CanTake self.old.group }
        ensures ready { OnOk result (CanTake self.new.group) }
        ensures label { OnOk result (self.new.group.label ≡ self.old.group.label) }
        ensures under { OnOk result (All (IsUnder self.old.group.label) self.old.whole.items
            → All (IsUnder self.old.group.label) self.new.whole.items) }
        ensures all { OnOk result ((given : List (List ACut)) (stream : List ℕ)
            → CutAhead given stream (cuts_of_rest self.old.cutter) self.old.whole.items
            self.old.group → EndsAhead given stream self.new.whole.items) }
        ensures few { OnOk result
            (length self.new.whole.items ≤ length self.old.whole.items + 2) }
        ensures taken { OnOk result (self.new.taken ≡ self.old.taken) }
        ensures end { OnOk result (self.new.end ≡ Some Ended) }
    {
        let cutter = mem::replace(&mut self.cutter, Cutter::new());
        self.take(alloc, cutter.end())?;
        self.close_group(alloc)?;
        self.end = Some(ReadEnd::Ended);
        Ok(())
    }

    /// Reads once. Where nothing more came, the stream has ended, or the read failed.
    fn read_chunk<S: Source>(
        &mut self,
        alloc: Global,
        source: &mut S,
        chunk: &mut [u8],
    ) -> Result<usize, AllocError>
        requires some { 0 < length chunk.old }
        requires reading { self.old.end ≡ None }
        requires ready { CanGoOn self.old.group.label self.old }
        ensures gives { IfOk result (λ count. 0 < count
            → Gives count chunk.new (S.source source.old) (S.source source.new)) }
        ensures still { IfOk result (λ count. 0 < count → self.new ≡ self.old) }
        ensures ready { IfOk result (λ count. CanGoOn self.old.group.label self.new) }
        ensures holds { IfOk result (λ count. count ≡ 0 → (before : Stream)
            (given : List (List ACut)) → HoldsAhead before (S.source source.old) given self.old
            → HoldsAhead before (S.source source.new) given self.new) }
        ensures less { IfOk result (λ count. count ≡ 0 → left_of self.new < left_of self.old) }
        ensures few { IfOk result (λ count. length self.new.whole.items + left_of self.new
            ≤ length self.old.whole.items + left_of self.old) }
        ensures lacks { OnErr result ((before : Stream) (given : List (List ACut))
            → HoldsAhead before (S.source source.old) given self.old
            → StandsFor before (S.source source.new) given) }
        ensures long { length chunk.new ≡ length chunk.old }
    {
        let before = source.read_faults();
        let Ok(count) = source.read(chunk) else {
            let after = source.read_faults();
            self.end = Some(ReadEnd::Failed { before, after });
            return Ok(0);
        };
        if count > 0 {
            return Ok(count);
        }
        self.finish(alloc)?;
        Ok(0)
    }

    /// Reads once, and takes the cuts that end in what came. The last byte that an import takes is not
    /// read.
    fn read_once<S: Source>(&mut self, alloc: Global, source: &mut S) -> Result<(), AllocError>
        requires reading { self.old.end ≡ None }
        requires before_last { self.old.taken + 1 < input_limit }
        requires ready { CanGoOn self.old.group.label self.old }
        ensures ready { OnOk result (CanGoOn self.old.group.label self.new) }
        ensures holds { OnOk result ((before : Stream) (given : List (List ACut))
            → HoldsAhead before (S.source source.old) given self.old
            → HoldsAhead before (S.source source.new) given self.new) }
        ensures less { OnOk result (left_of self.new < left_of self.old) }
        ensures few { OnOk result (length self.new.whole.items + left_of self.new
            ≤ length self.old.whole.items + left_of self.old) }
        ensures lacks { OnErr result ((before : Stream) (given : List (List ACut))
            → HoldsAhead before (S.source source.old) given self.old
            → StandsFor before (S.source source.new) given) }
    {
        let mut buffer = [0; BUFFER];
        let chunk = &mut buffer[..room_behind(self.taken)];
        let count = self.read_chunk(alloc, source, chunk)?;
        if count == 0 {
            return Ok(());
        }
        self.taken += count as u64;
        self.feed(alloc, &chunk[..count])?;
        Ok(())
    }

    /// Reads the last byte that an import takes, and says whether it came.
    pub(crate) fn read_last<S: Source>(
        &mut self,
        alloc: Global,
        source: &mut S,
    ) -> Result<bool, AllocError>
        requires reading { self.old.end ≡ None }
        requires last { self.old.taken + 1 ≡ input_limit }
        requires ready { CanGoOn self.old.group.label self.old }
        ensures ready { IfOk result (λ came. CanGoOn self.old.group.label self.new) }
        ensures gives { IfOk result (λ came. came ≡ true → (self.new ≡ self.old)
            × ((byte : List ℕ) × Gives 1 byte (S.source source.old) (S.source source.new))) }
        ensures holds { IfOk result (λ came. came ≡ false → (before : Stream)
            (given : List (List ACut)) → HoldsAhead before (S.source source.old) given self.old
            → HoldsAhead before (S.source source.new) given self.new) }
        ensures less { IfOk result (λ came. came ≡ false → left_of self.new < left_of self.old) }
        ensures few { IfOk result (λ came. length self.new.whole.items + left_of self.new
            ≤ length self.old.whole.items + left_of self.old) }
        ensures lacks { OnErr result ((before : Stream) (given : List (List ACut))
            → HoldsAhead before (S.source source.old) given self.old
            → StandsFor before (S.source source.new) given) }
    {
        let mut byte = [0; 1];
        let count = self.read_chunk(alloc, source, &mut byte)?;
        Ok(count > 0)
    }

    /// Reads on until enough is read for a round, the stream has ended, or one byte alone may come
    /// yet. Groups may be counted meanwhile.
    pub(crate) fn read_on<S: Source>(
        &mut self,
        alloc: Global,
        source: &mut S,
        counting: bool,
        done: &AtomicBool,
        most: usize,
    ) -> Result<(), AllocError>
        requires ready { CanGoOn self.old.group.label self.old }
        ensures ready { OnOk result (CanGoOn self.old.group.label self.new) }
        ensures holds { OnOk result ((before : Stream) (given : List (List ACut))
            → HoldsAhead before (S.source source.old) given self.old
            → HoldsAhead before (S.source source.new) given self.new) }
        ensures less { OnOk result (counting ≡ false → self.old.whole.items ≡ []
            → self.old.end ≡ None → self.old.taken + 1 < input_limit
            → left_of self.new < left_of self.old) }
        ensures few { OnOk result (length self.new.whole.items + left_of self.new
            ≤ length self.old.whole.items + left_of self.old) }
        ensures lacks { OnErr result ((before : Stream) (given : List (List ACut))
            → HoldsAhead before (S.source source.old) given self.old
            → StandsFor before (S.source source.new) given) }
    {
        let from = self.taken;
        'reading: while self.goes_on(from, counting, done, most) {
            self.read_once(alloc, source)?;
        }
        Ok(())
    }

    /// Whether there is more to be read in a round.
    fn goes_on(&self, from: u64, counting: bool, done: &AtomicBool, most: usize) -> bool
        ensures reading { result ≡ true → self.now.end ≡ None }
        ensures before_last { result ≡ true → self.now.taken + 1 < input_limit }
        ensures some { counting ≡ false → self.now.whole.items ≡ [] → self.now.end ≡ None
            → self.now.taken + 1 < input_limit → result ≡ true }
    {
        if self.end.is_some() || self.taken >= INPUT_LIMIT - 1 {
            return false;
        }
        !self.has_enough(from, counting, done, most)
    }

    /// Whether enough is read for a round: so many groups are whole, or fewer with many bytes. Once
    /// the others have counted all groups it is enough as it is, unless there is nothing else to do.
    fn has_enough(&self, from: u64, counting: bool, done: &AtomicBool, most: usize) -> bool
        ensures { counting ≡ false → self.now.whole.items ≡ [] → result ≡ false }
    {
        let groups = self.whole.len();
        if groups == 0 {
            return counting && done.load(Ordering::SeqCst);
        }
        groups >= most
            || self.taken.saturating_sub(from) >= ROUND_BYTES
            || done.load(Ordering::SeqCst)
    }
}

/// How many bytes are read next. The last byte that an import takes is read alone: whether it comes
/// is known before a group is settled that it may end.
fn room_behind(taken: u64) -> usize
    requires { taken + 1 < input_limit }
    ensures some { 0 < result }
    ensures few { result ≤ 4096 }
    ensures within { taken + result < input_limit }
{
    (INPUT_LIMIT - 1 - taken).min(BUFFER as u64) as usize
}
