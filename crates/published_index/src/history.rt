//! The history of an index: the batches that were put, one behind another.
ghost use Rattle.std.specs.Prelude.{◌≡◌, ◌+◌, ◌<◌, ◌^◌, ◌++◌, [], ◌∷◌, length, MatchBool, IfSome};
ghost use Rattle.std.specs.Bool.{OnTrue};
ghost use Rattle.explorer_model.specs.Timeline.{IsPrefix};
ghost use Rattle.published_index.specs.Cover.{journal_of};
ghost use Rattle.published_index.specs.History.{batch_at};

use crate::book::{BookSeen, BookWord, add_batch, add_cell, see_all};
use crate::front::Front;
use crate::list::List;
use logbook::{Pen, Seen, Start};
use segment_blocks::Segment;
use std::marker::Model;

/// The whole history, with its word and with the pen that alone can add to it. Contracts see its
/// batches.
#[derive(Drop)]
pub struct History {
    word: BookWord,
    front: Front,
    pen: Pen,
}

impl Model for History {
    ghost use Rattle.std.specs.Prelude.{◌≡◌};
    ghost use Rattle.published_index.specs.History.{Reached, next_nib, word_of};

    ghost Value = { Reached };

    ghost view = { λ history. history.front };

    ghost invariant = { λ history. (history.word ≡ word_of history.front.book)
        × (history.pen.book ≡ history.front.book)
        × (history.pen.nib ≡ next_nib history.front.log) };
}

impl History {
    /// A history without a batch. There is none where another has the word too.
    pub fn new() -> Option<History>
        ensures { IfSome result (λ history. history.log ≡ []) }
    {
        let (mut seen, mut first, _second): (BookSeen, Pen, Pen) = Seen::open(Start::alone(), 0, 0);
        let word = BookWord::tracked(0, &mut first);
        let pen = add_cell(&word, &mut seen, 0)?;
        Some(History {
            word,
            front: Front { count: 0, seen },
            pen,
        })
    }

    /// The whole of it.
    pub fn front(&self) -> Front
        ensures { result ≡ self.now }
    {
        self.front.again()
    }

    /// How many batches the history has.
    pub fn count(&self) -> u32
        ensures { result ≡ length self.now.log }
    {
        self.front.count()
    }

    /// Adds the batch of a segment, and says whether it did. It is as before where it did not, which
    /// happens where another has the word too.
    pub fn add(&mut self, segment: &Segment, place: u32) -> bool
        requires { length self.old.log + 1 < 2 ^ 32 }
        ensures book { self.new.book ≡ self.old.book }
        ensures log { MatchBool result
            (self.new.log ≡ self.old.log ++ (batch_at segment.now place ∷ []))
            (self.new ≡ self.old) }
    {
        let mut seen = self.front.seen.again();
        let Some(next) = add_cell(&self.word, &mut seen, 1) else {
            return false;
        };
        if !add_batch(&self.word, &mut seen, &mut self.pen, segment, place) {
            return false;
        }
        self.front = Front {
            count: self.front.count + 1,
            seen,
        };
        self.pen = next;
        true
    }

    /// Makes sure that a beginning of the history that was seen has no more than this has.
    pub fn confirm(&mut self, front: &Front)
        requires { front.now.book ≡ self.old.book }
        ensures same { self.new ≡ self.old }
        ensures seen { IsPrefix front.now.log self.old.log }
    {
        let mut seen = self.front.seen.again();
        seen.learn(&front.seen);
        see_all(&self.word, &mut seen, &mut self.pen);
    }

    /// The history of a list: its batches, one behind another.
    pub fn of(list: &List) -> Option<History>
        ensures { IfSome result (λ history. history.log ≡ journal_of list.now) }
    {
        let mut history = History::new()?;
        let _batches = list.batches();
        for segment in list.segments() {
            if !history.add_all(segment) {
                return None;
            }
        }
        Some(history)
    }

    /// Adds the batches of a segment, and says whether it did.
    fn add_all(&mut self, segment: &Segment) -> bool
        requires { length self.old.log + length segment.now.span.batches < 2 ^ 32 }
        ensures { OnTrue result (self.new.log ≡ self.old.log ++ segment.now.span.batches) }
    {
        for place in 0..segment.span().count {
            if !self.add(segment, place) {
                return false;
            }
        }
        true
    }
}
