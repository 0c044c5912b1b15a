//! A game whose root and moves are let go as soon as its positions are counted.
ghost use Rattle.std.specs.Prelude.{◌≡◌};

use explorer_model::archive::{Classes, Game, Moves};
use explorer_model::chess::Position;
use std::marker::Model;
use std::snapshot::Snapshot;

/// A game that contracts see whole, while the code has no more than its classes: so the leaf that
/// replayed the game gives its moves back, and not the thread that collects what leaves read.
#[derive(Drop)]
pub struct KeptGame {
    classes: Classes,
    root: Snapshot<Position>,
    moves: Snapshot<Moves>,
}

impl Model for KeptGame {
    ghost use Rattle.explorer_model.specs.declared.archive.Game.{Game};

    ghost Value = { Game };

    ghost view = { λ kept. record {
      classes = kept.classes;
      root = kept.root.value;
      moves = kept.moves.value;
    } };
}

impl KeptGame {
    /// Lets the root and the moves of the game go.
    pub fn of(game: Game) -> KeptGame
        ensures { result ≡ game }
    {
        let Game {
            classes,
            root: begun,
            moves: played,
        } = game;
        let root = Snapshot::of(&begun);
        let moves = Snapshot::of(&played);
        KeptGame {
            classes,
            root,
            moves,
        }
    }

    /// What the game's tags say.
    pub fn classes(&self) -> &Classes
        ensures { result.now ≡ self.now.classes }
    {
        &self.classes
    }

    /// What the game's tags say, taken out.
    pub fn into_classes(self) -> Classes
        ensures { result ≡ self.classes }
    {
        self.classes
    }
}
