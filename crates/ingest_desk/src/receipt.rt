//! What a commit gives for a stored batch.
ghost use Rattle.std.specs.Prelude.{◌≡◌, ◌<◌, ◌^◌};
ghost use Rattle.ingest_desk.specs.Reporting.{games_of};

use published_index::{Index, Note};

/// That a batch is stored and published. A commit alone gives one.
#[derive(Drop)]
pub struct Receipt<J: Index> {
    pub(crate) batches: u32,
    pub(crate) first: u32,
    pub(crate) games: u32,
    pub(crate) note: Note<J>,
}

impl<J: Index> Receipt<J> {
    /// How many batches the journal has with this one.
    pub fn batches(&self) -> u32
        ensures { result ≡ self.now.batches }
    {
        self.batches
    }

    /// The number of its first game.
    pub fn first(&self) -> u32
        ensures { result ≡ self.now.first }
    {
        self.first
    }

    /// How many games it has.
    pub fn games(&self) -> u32
        ensures { result ≡ self.now.games }
    {
        self.games
    }

    /// The note of the journal with this batch.
    pub fn into_note(self) -> Note<J>
        ensures { result ≡ self.note }
    {
        self.note
    }
}

/// How many games the receipts have together.
pub fn count_games<J: Index>(receipts: &[Receipt<J>]) -> u32
    requires { games_of receipts.now < 2 ^ 32 }
    ensures { result ≡ games_of receipts.now }
{
    let mut games = 0;
    for receipt in receipts {
        games += receipt.games();
    }
    games
}
