//! The text in hand of a stream.
ghost use Rattle.std.specs.Prelude.{◌≡◌, ℕ, List, ◌+◌, ◌-◌, ◌<◌, ◌≤◌, ◌^◌, ◌∷◌, [], ◌++◌, length, take, IfOk, OnErr, IsSome, IsNone, is_ok, if◌then◌else◌};
ghost use Rattle.pgn_cut.specs.Cut.{meaning, cuts_in};
ghost use Rattle.pgn_cut.specs.Text.{at_start, cut_with, cuts_of_text, kept_limit};

use crate::cut::{Cut, Fed};
use crate::scan::{LINE_START, find_start};
use explorer_model::archive::Placed;
use explorer_model::list::Items;
use std::alloc::{AllocError, Global};
use std::marker::Model;
use std::mem;

/// The most bytes of a text that is read.
const TEXT_LIMIT: usize = 65_536;

/// The most bytes of a text that are kept: one that is read, and the start of the next behind it.
const KEPT_LIMIT: usize = TEXT_LIMIT + 7;

/// The text in hand.
#[derive(Drop)]
pub struct Text {
    /// The place of its first byte in the stream.
    place: u64,

    /// How many bytes of it came, those of a start that is open included.
    count: u64,

    /// How many bytes of `LINE_START` came last.
    matched: usize,

    /// The first of its bytes.
    kept: Vec<u8>,
}

impl Model for Text {
    ghost use Rattle.pgn_cut.specs.Text.{TextState, IsText};

    ghost Value = { TextState };

    ghost view = { λ t.
        record { place = t.place; count = t.count; matched = t.matched; kept = t.kept.items } };

    ghost invariant = { λ t. IsText
        (record { place = t.place; count = t.count; matched = t.matched; kept = t.kept.items }) };
}

impl Text {
    /// The text whose first seven bytes came last.
    pub fn begin(alloc: Global, place: u64) -> Result<Self, AllocError>
        ensures { IfOk result (λ text. text ≡ at_start place) }
    {
        Ok(Text {
            place,
            count: 7,
            matched: 0,
            kept: Vec::from_slice(alloc, &LINE_START[1..])?,
        })
    }

    /// Goes on in the text, up to the end of the next start or of the piece.
    pub fn feed(&mut self, alloc: Global, piece: &[u8]) -> Result<Fed, AllocError>
        requires room { self.old.place + self.old.count + length piece.now < 2 ^ 63 }

        ensures cuts { IfOk result (λ fed. (rest : List ℕ) →
            cuts_in fed.cut ++ cuts_of_text self.new rest
            ≡ cuts_of_text self.old (take fed.taken piece.now ++ rest)) }
        ensures taken { IfOk result (λ fed. fed.taken ≤ length piece.now) }
        ensures some { IfOk result (λ fed. 0 < length piece.now → 0 < fed.taken) }
        ensures whole { IfOk result (λ fed. IsNone fed.cut → fed.taken ≡ length piece.now) }
        ensures stops { IfOk result (λ fed. IsSome fed.cut → self.new ≡ at_start self.new.place) }
        ensures came { IfOk result (λ fed. self.new.place + self.new.count
            ≡ self.old.place + self.old.count + fed.taken) }
        ensures small { IfOk result (λ _. length self.new.kept ≤ kept_limit) }
        ensures unchanged { OnErr result (self.new ≡ self.old) }
    {
        let scan = find_start(self.matched, piece);
        if scan.matched < LINE_START.len() {
            keep(&mut self.kept, piece)?;
            self.count += piece.len() as u64;
            self.matched = scan.matched;
            return Ok(Fed {
                taken: scan.taken,
                cut: None,
            });
        }
        let next = Vec::from_slice(alloc, &LINE_START[1..])?;
        keep(&mut self.kept, &piece[..scan.taken])?;
        let length = self.count + scan.taken as u64 - 7;
        let cut = cut_of(self.place, length, mem::replace(&mut self.kept, next));
        self.place += length;
        self.count = 7;
        self.matched = 0;
        Ok(Fed {
            taken: scan.taken,
            cut: Some(cut),
        })
    }

    /// The cut of the text where the stream ends.
    pub fn end(self) -> Cut
        ensures { meaning result ∷ [] ≡ cuts_of_text self [] }
    {
        cut_of(self.place, self.count, self.kept)
    }
}

/// The cut of a text of this length, whose first bytes are kept.
fn cut_of(place: u64, length: u64, kept: Vec<u8>) -> Cut
    ensures { meaning result ≡ cut_with place length (take length kept.items) [] }
{
    if length > TEXT_LIMIT as u64 {
        return Cut::TooLong { place, length };
    }
    let mut kept = kept;
    kept.truncate(length as usize);
    Cut::Text(Placed {
        place,
        bytes: Items::from_vec(kept),
    })
}

/// Adds the bytes to those that are kept, as far as the limit allows.
fn keep(kept: &mut Vec<u8>, bytes: &[u8]) -> Result<(), AllocError>
    requires { length kept.old.items ≤ kept_limit }
    ensures { kept.new.items
        ≡ (if is_ok result then kept.old.items
        ++ take (kept_limit - length kept.old.items) bytes.now else kept.old.items) }
{
    let room = KEPT_LIMIT - kept.len();
    kept.extend_from_slice(&bytes[..room.min(bytes.len())])
}
