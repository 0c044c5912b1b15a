//! Readers of connections.
ghost use Rattle.std.specs.Prelude.{◌≡◌, Some, unwrap_or};

use crate::kept_answers::Answers;
use player_index::PlayerIndex;
use published_index::Index;
use std::alloc::Global;
use std::mem::replace;

/// What a reader of connections has beside its pass.
#[derive(Drop)]
pub struct Reader<'a, J: Index> {
    /// The answers that it keeps, which are named by their book.
    pub kept: Answers<'a, J>,
    /// The games of players, where these are offered.
    pub players: Option<PlayerIndex>,
}

impl<'a, J: Index> Reader<'a, J> {
    /// One that offers all games alone.
    pub fn new(kept: Answers<'a, J>) -> Self
        ensures kept { result.kept ≡ kept.entry }
        ensures players { result.players ≡ None }
    {
        Reader {
            kept,
            players: None,
        }
    }

    /// One that offers a player's games too, by an index that it borrows: one of no game stands for
    /// that until it is given back.
    pub fn with_players(alloc: Global, kept: Answers<'a, J>, players: &mut PlayerIndex) -> Self
        ensures kept { result.kept ≡ kept.entry }
        ensures players { result.players ≡ Some players.old }
    {
        let lent = replace(players, PlayerIndex::new(alloc));
        Reader {
            kept,
            players: Some(lent),
        }
    }

    /// Gives back the index that it borrowed.
    pub fn give_back(self, players: &mut PlayerIndex)
        ensures { players.new ≡ unwrap_or self.entry.players players.old }
    {
        let Reader { players: lent, .. } = self;
        if let Some(lent) = lent {
            *players = lent;
        }
    }
}
