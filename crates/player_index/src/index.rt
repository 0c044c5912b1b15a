//! The index of players' games.
ghost use Rattle.std.specs.Prelude.{◌≡◌, ℕ, ◌+◌, ◌*◌, ◌≤◌, ◌<◌, ◌^◌, [], List, length, map, OnErr, OnOk};
ghost use Rattle.std.specs.List.{All};
ghost use Rattle.explorer_model.specs.Players.{plays_as};
ghost use Rattle.explorer_model.specs.Timeline.{IsPrefix};
ghost use Rattle.explorer_model.specs.declared.archive.Classes.{Classes as SomeClasses};
ghost use Rattle.published_index.specs.Cover.{journal_of};
ghost use Rattle.player_index.specs.Entries.{numbers_where};
ghost use Rattle.player_index.specs.Index.{AreClassesOf, IsIndexed};

use crate::entry::Entry;
use crate::extending::{merge_entries, sorted_entries};
use crate::order::Place;
use crate::search::ends_of;
use explorer_model::chess::Color;
use explorer_model::text::Name;
use game_replay::laws::game_is_determined;
use published_index::Snapshot;
use row_sums::count_games;
use segment_blocks::Steps;
use std::alloc::{AllocError, Global};
use std::marker::{Brand, Model};
use std::snapshot::Snapshot as Glimpse;
use std::sync::ledger::{Blank, Ledger};

/// The games of each player, by name without regard to the case of ASCII letters, by colour, and by
/// number. It covers the batches of a published list; names are read through a snapshot of it, so
/// that no segment is held.
#[derive(Drop)]
pub struct PlayerIndex {
    entries: Vec<Entry>,
    batches: u32,
    games: u32,
    /// The list that was covered last, which contracts alone see. It takes no bytes.
    covered: Option<Glimpse<Snapshot>>,
}

impl Model for PlayerIndex {
    ghost use Rattle.std.specs.Prelude.{option_map};
    ghost use Rattle.published_index.specs.Cover.{journal_of};
    ghost use Rattle.player_index.specs.Index.{Indexed, IsIndex, indexed, list_of};

    ghost Value = { Indexed };

    ghost view = { λ index. indexed (option_map (λ s. s.value) index.covered) index.entries.items };

    ghost invariant = { λ index.
        IsIndex (journal_of (list_of (option_map (λ s. s.value) index.covered)))
        index.entries.items index.batches index.games };
}

impl PlayerIndex {
    /// An index of no game.
    pub fn new(alloc: Global) -> PlayerIndex
        ensures { result.batches ≡ [] }
    {
        PlayerIndex {
            entries: Vec::new(alloc),
            batches: 0,
            games: 0,
            covered: None,
        }
    }

    /// How many batches it covers.
    pub fn covered(&self) -> u32
        ensures batches { result ≡ length self.now.batches }
        ensures index { IsIndexed self.now }
    {
        self.batches
    }

    /// Covers the batches of the snapshot, which begin with those that it covers. After a refusal
    /// it is as before.
    pub fn extend(&mut self, alloc: Global, snapshot: &Snapshot) -> Result<(), AllocError>
        requires { IsPrefix self.old.batches (journal_of snapshot.now) }
        ensures ok { OnOk result (self.new.batches ≡ journal_of snapshot.now) }
        ensures err { OnErr result (self.new ≡ self.old) }
    {
        self.extend_uncounted::<Brand>(alloc, snapshot, Blank::new(1))
    }

    /// The same, where no steps are counted.
    fn extend_uncounted<L: Ledger>(
        &mut self,
        alloc: Global,
        snapshot: &Snapshot,
        blank: Blank,
    ) -> Result<(), AllocError>
        requires prefix { IsPrefix self.old.batches (journal_of snapshot.now) }
        requires name { blank.name ≡ L.name }
        requires parts { blank.parts ≡ L.parts }
        requires some { 0 < L.parts }
        ensures ok { OnOk result (self.new.batches ≡ journal_of snapshot.now) }
        ensures err { OnErr result (self.new ≡ self.old) }
    {
        // law: a text has one game
        game_is_determined();
        if snapshot.batches() == self.batches {
            return Ok(());
        }
        let mut steps = Steps::<L>::new(blank);
        let segments = snapshot.segments();
        let games = count_games(segments);
        let more = sorted_entries(alloc, segments, self.games, games)?;
        let entries = merge_entries(
            alloc,
            segments,
            self.entries.as_slice(),
            more.as_slice(),
            &mut steps,
        )?;
        *self = PlayerIndex {
            entries,
            batches: snapshot.batches(),
            games,
            covered: Some(Glimpse::of(snapshot)),
        };
        Ok(())
    }

    /// The entries of the games in which the player has the colour, in the order of their numbers.
    /// A step is an entry that is compared.
    pub fn range<L: Ledger>(
        &self,
        snapshot: &Snapshot,
        player: &Name,
        color: Color,
        steps: &mut Steps<L>,
    ) -> &[Entry]
        requires { self.now.batches ≡ journal_of snapshot.now }
        ensures numbers { (classes : List SomeClasses)
            → AreClassesOf (journal_of snapshot.now) classes
            → map (λ entry. entry.number) result.now
            ≡ numbers_where (plays_as player.now color) 0 classes }
        ensures colors { All (λ entry. entry.color ≡ color) result.now }
        ensures cost { (digits : ℕ) → length self.now.entries < 2 ^ digits
            → steps.new ≤ steps.old + 2 * digits }
    {
        // law: a text has one game
        game_is_determined();
        let segments = snapshot.segments();
        // What is known of segments is told as their games are counted.
        let _games = count_games(segments);
        let end = Place {
            name: player.as_str().as_bytes(),
            color,
            number: self.games,
        };
        let entries = self.entries.as_slice();
        let (from, to) = ends_of(segments, entries, &end, steps);
        &entries[from..to]
    }
}
