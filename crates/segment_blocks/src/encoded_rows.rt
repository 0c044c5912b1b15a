//! Rows in few bytes.
ghost use Rattle.std.specs.Prelude.{◌≡◌, ◌≢◌, ◌≤◌, ◌<◌, ◌-◌, ◌*◌, ◌/◌, ◌^◌, ◌++◌, [], ℕ, List, false, is_none, Some, IfOk, IfSome, OnOk, OnErr, length, take, drop};
ghost use Rattle.explorer_model.specs.declared.archive.Outcome.{Outcome};
ghost use Rattle.segment_blocks.specs.Encoded.{IsMarkOf, IsAppended, IsRenumbered, rows_of, single_of};
ghost use Rattle.segment_blocks.specs.Prefix.{common_len, TellShared};
ghost use Rattle.tally_rows.specs.declared.row.Row.{Row};
ghost use Rattle.tally_rows.specs.Row.{row_of};
ghost use Rattle.segment_blocks.specs.HeldRow.{row_in};

use crate::block_cursor::{BlockCursor, Place};
use crate::held_row::HeldRow;
use crate::key_room::KeyRoom;
use crate::mark::Mark;
use explorer_model::archive::{Group, Month, Speed};
use std::alloc::{AllocError, Global};
use std::marker::Model;
use std::mem::replace;
use tally_rows::{PositionKey, Row, Single, word_at};

/// How many marks a block has at most.
const MARKS: usize = 128;

/// How many bytes of keys most blocks have at most.
const TAILS: usize = 2048;

/// Rows that stand one after another. A row of one game is a mark and the end of its key, from the
/// first byte on in which it differs from the key before it. Each other row stands whole.
#[derive(Drop)]
pub struct EncodedRows {
    marks: Vec<Mark>,
    tails: Vec<u8>,
    whole: Vec<Row>,
}

impl Model for EncodedRows {
    ghost use Rattle.segment_blocks.specs.Encoded.{Encoded, IsFilled};

    ghost Value = { Encoded };

    ghost view = { λ e. record {
      marks = e.marks.items;
      tails = e.tails.items;
      whole = e.whole.items;
    } };

    ghost invariant = { λ e. IsFilled e.marks.items e.tails.items e.whole.items };
}

impl EncodedRows {
    /// No row, with room for those of a block.
    pub fn new(alloc: Global) -> Result<EncodedRows, AllocError>
        ensures { IfOk result (λ rows. rows.marks ≡ []) }
    {
        let marks = Vec::with_capacity(alloc, MARKS)?;
        let tails = Vec::with_capacity(alloc, TAILS)?;
        Ok(EncodedRows {
            marks,
            tails,
            whole: Vec::new(alloc),
        })
    }

    /// How many rows there are.
    pub fn len(&self) -> usize
        ensures { (first : List ℕ) → result ≡ length (rows_of self.now first) }
    {
        self.marks.len()
    }

    /// Puts the row of one game behind the others, the last of which has the key `before`. After a
    /// refusal they are as before.
    pub fn push_one(&mut self, before: &PositionKey, game: &Single) -> Result<(), AllocError>
        ensures ok { OnOk result (IsAppended before.now (row_of game.now) self.old self.new) }
        ensures err { OnErr result (self.new ≡ self.old) }
    {
        let key = &game.row_key.key;
        let shared = shared_len(before, key, 0);
        let Some(mark) = mark_of_game(game, shared) else {
            return self.push(before, &HeldRow::Game(*game));
        };
        self.marks.reserve(1)?;
        push_end(&mut self.tails, &KeyRoom::of(key), shared)?;
        self.marks.push_reserved(mark);
        Ok(())
    }

    /// Puts a row behind the others, the last of which has the key `before`. After a refusal they
    /// are as before.
    pub fn push(&mut self, before: &PositionKey, held: &HeldRow<'_>) -> Result<(), AllocError>
        ensures ok { OnOk result (IsAppended before.now (row_in held.now) self.old self.new) }
        ensures err { OnErr result (self.new ≡ self.old) }
    {
        self.marks.reserve(1)?;
        let key = held.key();
        let shared = shared_len(before, key, 0);
        if let Some(mark) = mark_of(held, shared) {
            self.tails.extend_from_slice(&key[usize::from(shared)..])?;
            self.marks.push_reserved(mark);
        } else {
            self.whole.push(held.to_row())?;
            self.marks.push_reserved(whole_mark(shared));
        }
        Ok(())
    }

    /// Puts a row that stands whole behind the others, the last of which has the key `before`. After
    /// a refusal they are as before.
    pub fn push_whole(&mut self, before: &PositionKey, row: Row) -> Result<(), AllocError>
        ensures ok { OnOk result (IsAppended before.now row self.old self.new) }
        ensures err { OnErr result (self.new ≡ self.old) }
    {
        let shared = shared_len(before, &row.key, 0);
        self.push_row(row, shared)
    }

    /// Puts a row that stands whole behind the others, whose key has so many bytes in common with
    /// the last one. After a refusal they are as before.
    pub fn push_row(&mut self, row: Row, shared: u8) -> Result<(), AllocError>
        requires { shared ≤ 34 }
        ensures ok { OnOk result ((before : List ℕ) → shared ≡ common_len before row.key
            → IsAppended before row self.old self.new) }
        ensures err { OnErr result (self.new ≡ self.old) }
    {
        self.marks.reserve(1)?;
        self.whole.push(row)?;
        self.marks.push_reserved(whole_mark(shared));
        Ok(())
    }

    /// Puts a row of one game behind the others, by the mark of the same game with another number,
    /// and by its key, which has so many bytes in common with the last one. After a refusal they
    /// are as before.
    #[inline(always)]
    pub fn push_game(
        &mut self,
        mark: &Mark,
        number: u32,
        shared: u8,
        key: &KeyRoom,
    ) -> Result<(), AllocError>
        requires game { is_none mark.now.outcome ≡ false }
        requires shared { shared ≤ 34 }
        ensures ok { OnOk result ((before : List ℕ) (row : Row) (outcome : Outcome)
            → row.key ≡ key.now → shared ≡ common_len before key.now
            → mark.now.outcome ≡ Some outcome → IsRenumbered key.now mark.now outcome number row
            → IsAppended before row self.old self.new) }
        ensures err { OnErr result (self.new ≡ self.old) }
    {
        self.marks.reserve(1)?;
        push_end(&mut self.tails, key, shared)?;
        // Changed where it stands: a mark made of its parts would take far more time.
        self.marks.push_reserved(*mark);
        let at = self.marks.len() - 1;
        renumber(&mut self.marks[at], number, shared);
        Ok(())
    }

    /// Keeps the rows in exactly the room that they take, and gives the room that they had to no row,
    /// for the rows behind them. After a refusal they are as before.
    pub fn pass_room_on(&mut self, alloc: Global) -> Result<EncodedRows, AllocError>
        ensures same { self.new ≡ self.old }
        ensures none { IfOk result (λ rows. rows.marks ≡ []) }
    {
        self.whole.shrink_to_fit();
        let exact_marks = Vec::from_slice(alloc, self.marks.as_slice())?;
        let exact_tails = Vec::from_slice(alloc, self.tails.as_slice())?;
        let mut marks = replace(&mut self.marks, exact_marks);
        let mut tails = replace(&mut self.tails, exact_tails);
        marks.clear();
        tails.clear();
        Ok(EncodedRows {
            marks,
            tails,
            whole: Vec::new(alloc),
        })
    }

    /// Gives back the room that the rows do not take.
    pub fn shrink_to_fit(&mut self)
        ensures { self.new ≡ self.old }
    {
        self.marks.shrink_to_fit();
        self.tails.shrink_to_fit();
        self.whole.shrink_to_fit();
    }

    /// The place before the first row, which stands behind the key `before`.
    pub fn cursor(&self, before: PositionKey) -> BlockCursor<'_>
        requires { TellShared before self.now.marks (rows_of self.now before) }
        ensures { result ≡ rows_of self.now before }
    {
        BlockCursor {
            place: Place {
                before: KeyRoom::of(&before),
                is_own: false,
                marks: self.marks.as_slice(),
                tails: self.tails.as_slice(),
                whole: self.whole.as_slice(),
            },
        }
    }
}

/// Puts the bytes of a key from the one of this number on behind others. They are copied as 34 bytes,
/// and then cut.
#[inline(always)]
fn push_end(tails: &mut Vec<u8>, key: &KeyRoom, from: u8) -> Result<(), AllocError>
    requires { from ≤ 34 }
    ensures items { OnOk result (tails.new.items ≡ tails.old.items ++ drop from key.now) }
    ensures long { OnOk result (length key.now ≡ 34) }
    ensures err { OnErr result (tails.new.items ≡ tails.old.items) }
{
    let own = 34 - usize::from(from);
    let len = tails.len();
    tails.extend_from_slice(key.end(from))?;
    tails.truncate(len + own);
    Ok(())
}

/// How many bytes both keys begin with alike, where it is known of so many. Machine words tell it far
/// faster than bytes do.
pub fn shared_len(a: &PositionKey, b: &PositionKey, known: u8) -> u8
    requires { take known a.now ≡ take known b.now }
    ensures within { result ≤ 34 }
    ensures is { result ≡ common_len a.now b.now }
    ensures long { length b.now ≡ 34 }
{
    for word in known / 8..4 {
        let at = 8 * word;
        let first = word_at(a, usize::from(at));
        let second = word_at(b, usize::from(at));
        if first != second {
            return at + shared_bytes(first, second);
        }
    }
    shared_end(a, b)
}

/// How many of their eight bytes two words begin with alike that differ.
fn shared_bytes(first: u64, second: u64) -> u8
    requires { first ≢ second }
    ensures within { result < 8 }
    ensures same { first / 2 ^ (64 - 8 * result) ≡ second / 2 ^ (64 - 8 * result) }
    ensures whole { first / 2 ^ (56 - 8 * result) ≢ second / 2 ^ (56 - 8 * result) }
{
    (first ^ second).leading_zeros() as u8 / 8
}

/// How many bytes two keys begin with alike that have their first 32 bytes in common.
fn shared_end(a: &PositionKey, b: &PositionKey) -> u8
    requires { take 32 a.now ≡ take 32 b.now }
    ensures { result ≡ common_len a.now b.now }
{
    if a[32] != b[32] {
        return 32;
    }
    if a[33] != b[33] {
        return 33;
    }
    34
}

/// Gives a mark another number, behind a key that has more or fewer bytes in common with its own.
#[inline(always)]
fn renumber(mark: &mut Mark, number: u32, shared: u8)
    requires { shared ≤ 34 }
    ensures outcome { mark.new.outcome ≡ mark.old.outcome }
    ensures shared { mark.new.shared ≡ shared }
    ensures single { (key : List ℕ) (outcome : Outcome) → single_of key mark.new outcome
        ≡ record (single_of key mark.old outcome) { number = number } }
{
    mark.number = number;
    mark.shared = shared;
}

/// The mark of a row of one game, or None where the row has to stand whole.
fn mark_of(held: &HeldRow<'_>, shared: u8) -> Option<Mark>
    requires { shared ≤ 34 }
    ensures { IfSome result (λ mark. IsMarkOf (row_in held.now) shared mark) }
{
    let single = held.game()?;
    mark_of_game(&single, shared)
}

/// The mark of the row of one game, or None where the sum of its ratings has no room in a mark.
fn mark_of_game(single: &Single, shared: u8) -> Option<Mark>
    requires { shared ≤ 34 }
    ensures { IfSome result (λ mark. IsMarkOf (row_of single.now) shared mark) }
{
    let Ok(sum) = u16::try_from(single.sum) else {
        return None;
    };
    Some(Mark {
        number: single.number,
        rating: single.rating,
        sum,
        month: single.row_key.month,
        group: single.row_key.group,
        next: single.row_key.next,
        speed: single.row_key.speed,
        outcome: Some(single.outcome),
        shared,
    })
}

/// The mark of a row that stands whole.
fn whole_mark(shared: u8) -> Mark
    requires { shared ≤ 34 }
    ensures outcome { result.outcome ≡ None }
    ensures shared { result.shared ≡ shared }
{
    Mark {
        number: 0,
        rating: 0,
        sum: 0,
        month: Month { year: 0, month: 0 },
        group: Group { value: 0 },
        next: None,
        speed: Speed::Bullet,
        outcome: None,
        shared,
    }
}
