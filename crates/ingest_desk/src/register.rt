//! What is known of a journal where batches are to be stored behind it.
ghost use Rattle.std.specs.Prelude.{◌≡◌, ◌≤◌, ◌++◌, ◌∷◌, [], ℕ, List, MatchBool, None, OnOk, length, sum_by};
ghost use Rattle.std.specs.List.{All};
ghost use Rattle.explorer_model.specs.declared.archive.Batch.{Batch as ABatch};
ghost use Rattle.explorer_model.specs.declared.archive.Game.{Game};
ghost use Rattle.explorer_model.specs.Cuts.{text_limit};
ghost use Rattle.explorer_model.specs.Imports.{group_limit};
ghost use Rattle.explorer_model.specs.Journal.{AreWithin};
ghost use Rattle.explorer_model.specs.Visits.{AreGamesOf};
ghost use Rattle.tally_rows.specs.Tally.{Counted, IsCounted};
ghost use Rattle.ingest_desk.specs.Causes.{Judges, cause_of_new, is_over as passes_limit};
ghost use Rattle.ingest_desk.specs.IdTable.{room_of};
ghost use Rattle.ingest_desk.specs.Registers.{CanEnter, IsRegisterOf, IsSame, IsSegmentOf};

use crate::batches::batch_of;
use crate::clashing::Clashing;
use crate::handed::Handed;
use crate::ids::Ids;
use arrayvec::ArrayVec;
use explorer_model::archive::Bytes;
use game_replay::laws::game_is_determined;
use segment_blocks::Segment;
use std::alloc::{AllocError, Global};

/// The most games of a journal.
const GAME_LIMIT: u64 = 262_144;

/// The most bytes of its texts.
const BYTE_LIMIT: u64 = 536_870_912;

/// The ids of a journal's games, and how much the journal has.
#[derive(Drop)]
pub(crate) struct Register {
    ids: Ids,
    batches: u32,
    games: u64,
    bytes: u64,
}

/// Whether a batch can be stored, and why not.
#[derive(Drop)]
pub(crate) enum Verdict {
    Clash(ArrayVec<Clashing, 512>),
    Full { games: u64, bytes: u64 },
    Fits,
}

impl Register {
    /// The register of no batch.
    pub(crate) fn new(alloc: Global) -> Register
        ensures { IsRegisterOf [] result }
    {
        Register {
            ids: Ids::new(alloc),
            batches: 0,
            games: 0,
            bytes: 0,
        }
    }

    /// How many batches there are.
    pub(crate) fn batches(&self) -> u32
        ensures { result ≡ self.now.batches }
    {
        self.batches
    }

    /// How many games there are.
    pub(crate) fn games(&self) -> u64
        ensures { result ≡ self.now.games }
    {
        self.games
    }

    /// Whether a batch can be stored behind the journal. It takes no memory.
    pub(crate) fn judge(&self, handed: &Handed) -> Verdict
        requires { AreWithin self.now.games self.now.bytes }
        ensures { (journal : List ABatch) (games : List Game) → IsRegisterOf journal self.now
            → AreGamesOf journal games
            → Judges result (cause_of_new games journal handed.now) }
    {
        game_is_determined();
        let batch = handed.batch();
        let classes = handed.classes();
        let pairs = self.ids.clashes(classes);
        if !pairs.is_empty() {
            return Verdict::Clash(pairs);
        }
        let games = self.games + classes.len() as u64;
        let bytes = self.bytes + bytes_of(batch.texts.as_slice());
        if is_over(games, bytes) {
            return Verdict::Full {
                games: self.games,
                bytes: self.bytes,
            };
        }
        Verdict::Fits
    }

    /// Whether the batch of a segment can be stored behind the journal. It takes no memory.
    pub(crate) fn takes(&self, segment: &Segment) -> bool
        requires within { AreWithin self.now.games self.now.bytes }
        requires counted { (tally : Counted) × IsCounted tally × IsSegmentOf tally segment.now }
        ensures { (tally : Counted) → IsCounted tally → IsSegmentOf tally segment.now
            → (journal : List ABatch) (games : List Game) → IsRegisterOf journal self.now
            → AreGamesOf journal games
            → MatchBool result (cause_of_new games journal tally ≡ None)
            (¬ (cause_of_new games journal tally ≡ None)) }
    {
        game_is_determined();
        if self.ids.has_any(segment) {
            return false;
        }
        let batch = batch_of(segment, 0);
        let games = self.games + u64::from(segment.games());
        let bytes = self.bytes + bytes_of(batch.texts.as_slice());
        !is_over(games, bytes)
    }

    /// Takes room for the ids of so many games.
    pub(crate) fn reserve(&mut self, games: usize) -> Result<(), AllocError>
        ensures same { IsSame self.old self.new }
        ensures room { OnOk result (games ≤ room_of self.new.ids) }
    {
        self.ids.reserve(games)
    }

    /// Puts in the batch of a segment, which can be stored and is.
    pub(crate) fn enter(&mut self, segment: &Segment)
        requires fits { CanEnter self.old segment.now }
        requires room { length segment.now.classes ≤ room_of self.old.ids }
        ensures { (journal : List ABatch) → IsRegisterOf journal self.old
            → IsRegisterOf (journal ++ segment.now.span.batches) self.new }
    {
        let batch = batch_of(segment, 0);
        self.ids.add_all(self.games as u32, segment);
        self.batches += 1;
        self.games += u64::from(segment.games());
        self.bytes += bytes_of(batch.texts.as_slice());
    }
}

/// Whether so many games or bytes pass a limit.
fn is_over(games: u64, bytes: u64) -> bool
    ensures { result ≡ passes_limit games bytes }
{
    games > GAME_LIMIT || bytes > BYTE_LIMIT
}

/// How many bytes the texts have together.
fn bytes_of(texts: &[Bytes]) -> u64
    requires few { length texts.now ≤ group_limit }
    requires short { All (λ text. length text ≤ text_limit) texts.now }
    ensures sum { result ≡ sum_by (λ text. length text) texts.now }
    ensures small { result ≤ 33554432 }
{
    let mut bytes = 0;
    for text in texts {
        bytes += text.len() as u64;
    }
    bytes
}
