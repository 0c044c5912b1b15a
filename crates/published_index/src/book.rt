//! The book of a history, and the steps of its word.
ghost use Rattle.std.specs.Prelude.{◌≡◌, ◌+◌, ◌<◌, ◌≤◌, ◌^◌, ◌++◌, [], ◌∷◌, length, MatchBool, IfSome};
ghost use mathlib.Core.List.{IsPrefix};
ghost use Rattle.logbook.specs.Pages.{nib, may_write};
ghost use Rattle.published_index.specs.History.{batch_at, key_behind, word_of};

use explorer_model::archive::Batch;
use logbook::{Gain, Offer, Pen, Plain, Play, Rule, Seen, Word};
use segment_blocks::Segment;

/// The rule of the book.
pub struct Law;

impl Rule<Batch, u64> for Law {
    ghost use Rattle.std.specs.Prelude.{[]};
    ghost use base.Fml.{ftrue};
    ghost use Rattle.published_index.specs.History.{IsKept};

    ghost holds = { λ cells log. IsKept cells log };

    ghost first = { [] };

    ghost hinted = { λ n log. Unit {0} };

    ghost shows = { λ log. [] };

    ghost keeps = { λ names log. ftrue };

    ghost moves = { λ ask before after answer. Unit {0} };
}

/// The one that adds trades nothing.
pub struct Nothing;

impl Gain<Batch, u64> for Nothing {
    ghost use base.Fml.{ftrue};

    ghost after = { λ names about answer. ftrue };
}

/// The word that stands for a history of batches.
pub type BookWord = Word<Batch, u64, Law>;

/// A prefix of that history that was seen.
pub type BookSeen = Seen<Batch, u64, Law>;

type BookOffer = Offer<Batch, u64, Law, Nothing>;

/// A batch of a segment, by its place there.
#[derive(Clone, Copy)]
pub struct Entry<'a> {
    pub segment: &'a Segment,
    pub place: u32,
}

/// A step that adds a batch.
pub struct AddBatch;

impl Play<Batch, u64> for AddBatch {
    ghost use Rattle.published_index.specs.History.{AddsBatch};

    ghost then = { AddsBatch };
}

impl<'a> Plain<Entry<'a>, Batch, u64> for AddBatch {
    ghost use Rattle.std.specs.Prelude.{None};
    ghost use Rattle.published_index.specs.History.{batch_at};

    ghost ask = { λ entry. batch_at entry.segment.now entry.place };

    ghost state = { λ entry. None };
}

/// A step that adds a cell.
pub struct AddCell;

impl Play<Batch, u64> for AddCell {
    ghost use Rattle.published_index.specs.History.{AddsCell};

    ghost then = { AddsCell };
}

/// A step that sees the whole history.
pub struct SeeAll;

impl Play<Batch, u64> for SeeAll {
    ghost use Rattle.published_index.specs.History.{SeesAll};

    ghost then = { SeesAll };
}

/// Steps that ask for no batch.
pub struct NoEntry;

impl Plain<NoEntry, Batch, u64> for NoEntry {
    ghost use Rattle.std.specs.Prelude.{None, []};

    ghost ask = { λ entry. record { label = []; texts = [] } };

    ghost state = { λ entry. None };
}

/// Adds a cell behind so many that are away, and gives its pen. It does not where another number of
/// them is away.
pub fn add_cell(word: &BookWord, seen: &mut BookSeen, away: u64) -> Option<Pen>
    requires word { word.now ≡ word_of seen.old.book }
    requires few { away < 2 }
    ensures book { seen.new.book ≡ seen.old.book }
    ensures log { IsPrefix seen.old.log seen.new.log }
    ensures first { IfSome result (λ pen. away ≡ 0 → seen.new.log ≡ []) }
    ensures pen_book { IfSome result (λ pen. pen.book ≡ seen.old.book) }
    ensures pen { IfSome result (λ pen. pen.nib ≡ nib may_write (key_behind seen.new.log + away) 0) }
{
    let mut offer: BookOffer = seen.plain::<Nothing, NoEntry, NoEntry>(&NoEntry);
    let mut pen = seen.no_pen();
    let found = word.compare_exchange::<AddCell, Nothing>(
        away,
        away + 1,
        seen,
        &mut offer,
        &mut pen,
    );
    if found != away {
        return None;
    }
    let _cell = BookWord::tracked(0, &mut pen);
    Some(pen)
}

/// Adds a batch of a segment by the pen of the first of two cells that are away, and says whether it
/// did. It does not where another number of them is away.
pub fn add_batch(
    word: &BookWord,
    seen: &mut BookSeen,
    pen: &mut Pen,
    segment: &Segment,
    place: u32,
) -> bool
    requires word { word.now ≡ word_of seen.old.book }
    requires pen_book { pen.old.book ≡ seen.old.book }
    requires pen { pen.old.nib ≡ nib may_write pen.old.nib.key 0 }
    requires seen { pen.old.nib.key ≤ key_behind seen.old.log }
    ensures book { seen.new.book ≡ seen.old.book }
    ensures same_book { pen.new.book ≡ pen.old.book }
    ensures log { MatchBool result
        ((seen.new.log ≡ seen.old.log ++ (batch_at segment.now place ∷ []))
        × (pen.old.nib.key ≡ key_behind seen.old.log))
        (pen.new.nib ≡ pen.old.nib) }
{
    let entry = Entry { segment, place };
    let mut offer: BookOffer = seen.plain::<Nothing, Entry<'_>, AddBatch>(&entry);
    word.compare_exchange::<AddBatch, Nothing>(2, 1, seen, &mut offer, pen) == 2
}

/// Sees the whole history, by the pen of the first cell that is away.
pub fn see_all(word: &BookWord, seen: &mut BookSeen, pen: &mut Pen)
    requires word { word.now ≡ word_of seen.old.book }
    requires pen_book { pen.old.book ≡ seen.old.book }
    requires pen { pen.old.nib ≡ nib may_write pen.old.nib.key 0 }
    requires seen { pen.old.nib.key ≤ key_behind seen.old.log }
    ensures log { IsPrefix seen.old.log seen.new.log }
    ensures whole { pen.old.nib.key ≡ key_behind seen.new.log }
    ensures same_book { pen.new.book ≡ pen.old.book }
    ensures same { pen.new.nib ≡ pen.old.nib }
{
    let mut offer: BookOffer = seen.plain::<Nothing, NoEntry, NoEntry>(&NoEntry);
    word.compare_exchange::<SeeAll, Nothing>(1, 1, seen, &mut offer, pen);
}
