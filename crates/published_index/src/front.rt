//! Beginnings of a history.
ghost use Rattle.std.specs.Prelude.{◌≡◌, ◌↔◌, IsTrue, length};
ghost use Rattle.explorer_model.specs.Timeline.{IsPrefix, longer};

use crate::book::BookSeen;
use std::marker::Model;

/// A beginning of a history that was seen, and how long it is.
#[derive(Drop)]
pub struct Front {
    pub(crate) count: u32,
    pub(crate) seen: BookSeen,
}

impl Model for Front {
    ghost use Rattle.std.specs.Prelude.{◌≡◌, length};
    ghost use Rattle.published_index.specs.History.{Reached};

    ghost Value = { Reached };

    ghost view = { λ front. record { book = front.seen.book; log = front.seen.log } };

    ghost invariant = { λ front. front.count ≡ length front.seen.log };
}

impl Front {
    /// How many batches there are.
    pub fn count(&self) -> u32
        ensures { result ≡ length self.now.log }
    {
        self.count
    }

    /// A copy.
    pub fn again(&self) -> Front
        ensures { result ≡ self.now }
    {
        Front {
            count: self.count,
            seen: self.seen.again(),
        }
    }

    /// Takes the longer of two beginnings of one history. The shorter is a prefix of it.
    pub fn learn(&mut self, other: Front)
        requires { other.book ≡ self.old.book }
        ensures book { self.new.book ≡ self.old.book }
        ensures longer { self.new.log ≡ longer self.old.log other.log }
        ensures own { IsPrefix self.old.log self.new.log }
        ensures told { IsPrefix other.log self.new.log }
    {
        let mut both = self.seen.again();
        both.learn(&other.seen);
        if self.count < other.count {
            *self = other;
        }
    }

    /// Whether the other is as long, which it is exactly where it is the same.
    pub fn is_same(&self, other: &Front) -> bool
        requires { other.now.book ≡ self.now.book }
        ensures { IsTrue result ↔ (other.now.log ≡ self.now.log) }
    {
        let mut both = self.seen.again();
        both.learn(&other.seen);
        self.count == other.count
    }

    /// Whether the other begins with this one, which it does exactly where it is no shorter.
    pub fn begins(&self, other: &Front) -> bool
        requires { other.now.book ≡ self.now.book }
        ensures { IsTrue result ↔ IsPrefix self.now.log other.now.log }
    {
        let mut both = self.seen.again();
        both.learn(&other.seen);
        self.count <= other.count
    }
}
