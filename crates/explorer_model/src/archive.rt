//! Games of an archive, and what is counted of them.
ghost use Rattle.std.specs.Prelude.{◌≡◌};
ghost use Rattle.std.proofs.Common.{rules};
ghost use Rattle.std.specs.Cmp.{partial_order_from_own_ties};
ghost use Rattle.std.specs.Cmp.Rules.{comparing};
ghost use Rattle.std.specs.Ordering.{on, nat_cmp, as_partial_cmp};

use crate::chess::{Move, Position};
use crate::label::Label;
use crate::list::Items;
use crate::text::Name;
use std::cmp::Ordering;

/// Any bytes, as those of a PGN text or of a tag's value.
pub type Bytes = Items<u8>;

/// Moves in the order in which they are played.
pub type Moves = Items<Move>;

/// How a game ended on the board's record.
#[derive(Clone, Copy, Debug, PartialEq, Eq)]
pub enum Outcome {
    White,
    Draw,
    Black,
}

/// A game termination marker (PGN 8.2.6).
#[derive(Clone, Copy, Debug, PartialEq, Eq)]
pub enum Ending {
    /// `1-0`
    WhiteWins,
    /// `0-1`
    BlackWins,
    /// `1/2-1/2`
    Drawn,
    /// `*`
    Unknown,
}

/// Whether a game counted for ratings.
#[derive(Clone, Copy, Debug, PartialEq, Eq)]
pub enum Mode {
    Rated,
    Casual,
}

/// How much time a game gives, from the least to the most.
#[derive(Clone, Copy, Debug, PartialEq, Eq)]
pub enum Speed {
    UltraBullet,
    Bullet,
    Blitz,
    Rapid,
    Classical,
    Correspondence,
}

impl Speed {
    ghost use Rattle.explorer_model.specs.Order.{speed_index};

    /// The place among the speeds, 0 to 5.
    pub fn index(self) -> u8
        ensures { result ≡ speed_index self }
    {
        match self {
            Speed::UltraBullet => 0,
            Speed::Bullet => 1,
            Speed::Blitz => 2,
            Speed::Rapid => 3,
            Speed::Classical => 4,
            Speed::Correspondence => 5,
        }
    }
}

impl Ord for Speed {
    ghost use Rattle.explorer_model.specs.Order.{speed_index};

    ghost cmp = { on speed_index nat_cmp };

    ghost total = { Prim.search (comparing, rules) };

    ghost matches_partial_cmp = { Prim.search (comparing, rules) };

    ghost matches_eq = { Prim.search (comparing, rules) };

    fn cmp(&self, other: &Speed) -> Ordering {
        self.index().cmp(&other.index())
    }
}

impl PartialOrd for Speed {
    ghost use Rattle.explorer_model.specs.Order.{speed_index};

    ghost partial_cmp = { as_partial_cmp (on speed_index nat_cmp) };

    ghost laws = { partial_order_from_own_ties (Prim.search (comparing, rules))
        (Prim.search (comparing, rules)) };

    fn partial_cmp(&self, other: &Speed) -> Option<Ordering> {
        Some(self.cmp(other))
    }
}

/// A rating group by its least rating: 0, 1000, 1200, 1400, 1600, 1800, 2000, 2200 or 2500.
#[derive(Clone, Copy, Debug, PartialEq, Eq, PartialOrd, Ord)]
pub struct Group {
    pub value: u16,
}

/// A calendar month; `month` is 1 to 12.
#[derive(Clone, Copy, Debug, PartialEq, Eq, PartialOrd, Ord)]
pub struct Month {
    pub year: u16,
    pub month: u8,
}

/// The eight letters or digits that name a game.
#[derive(Clone, Copy, Debug, PartialEq, Eq)]
pub struct GameId {
    pub bytes: [u8; 8],
}

/// One side of a game; the rating is 0 to 4000.
#[derive(Clone, Debug, Drop)]
pub struct Player {
    pub name: Name,
    pub rating: u16,
}

/// What a game's tags say of it.
#[derive(Clone, Debug, Drop)]
pub struct Classes {
    pub id: GameId,
    pub white: Player,
    pub black: Player,
    pub outcome: Outcome,
    pub mode: Mode,
    pub speed: Speed,
    pub group: Group,
    pub month: Month,
}

/// A game that was replayed: its classes, the position that it begins in, and its moves from there.
#[derive(Debug, Drop)]
pub struct Game {
    pub classes: Classes,
    pub root: Position,
    pub moves: Moves,
}

/// A tag pair (PGN 8.1): `value` is the string with its escapes undone.
#[derive(Debug, Drop)]
pub struct Tag {
    pub name: Bytes,
    pub value: Bytes,
}

/// Tag pairs in the order of the text.
pub type Tags = Items<Tag>;

/// A symbol of the movetext that stands for a move, and the offset of its first byte in the text.
#[derive(Debug, Drop)]
pub struct Token {
    pub place: u32,
    pub text: Bytes,
}

/// Move tokens in the order of the text.
pub type Tokens = Items<Token>;

/// What a game's text consists of, without its comments and variations.
#[derive(Debug, Drop)]
pub struct Parts {
    pub tags: Tags,
    pub tokens: Tokens,
    pub termination: Option<Ending>,
}

/// A text with its place, the offset of its first byte in the stream.
#[derive(Debug, Drop)]
pub struct Placed {
    pub place: u64,
    pub bytes: Bytes,
}

/// The texts of games.
pub type Texts = Items<Bytes>;

/// Texts that are stored together under a label: 1 to 512, each with a game.
#[derive(Debug, Drop, PartialEq, Eq)]
pub struct Batch {
    pub label: Label,
    pub texts: Texts,
}
