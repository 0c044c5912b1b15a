//! A stream of games, cut into their texts piece by piece.
ghost use Rattle.std.specs.Prelude.{◌≡◌, ◌↔◌, ℕ, List, ◌+◌, ◌-◌, ◌<◌, ◌≤◌, ◌^◌, [], ◌++◌, length, take, IfOk, OnErr, IsSome, IsNone};
ghost use Rattle.explorer_model.specs.Cuts.{cuts, text_limit};
ghost use Rattle.pgn_cut.specs.Blank.{IsBlank};
ghost use Rattle.pgn_cut.specs.Cut.{cuts_in};
ghost use Rattle.pgn_cut.specs.Cutter.{Gives, cuts_of_rest, came, held, IsAtStart, FeedsFront};
ghost use Rattle.pgn_cut.specs.Runs.{IsNew};

use crate::cut::{Cut, Fed};
use crate::front::{Front, Onward};
use crate::mark::{MarkPrefix, Marked};
use crate::text::Text;
use std::alloc::{AllocError, Global};

/// Cuts a stream into the texts of its games. It holds the text in hand alone, and of one that is too long to be read
/// no more than its front.
#[derive(Drop)]
pub struct Cutter {
    stage: Stage,
}

/// What of the stream came.
#[derive(Drop)]
enum Stage {
    /// Nothing, or a part of a byte order mark.
    Mark(MarkPrefix),
    /// No start.
    Before(Front),
    /// A start; its text is in hand.
    Within(Text),
}

impl Cutter {
    /// A cutter before a stream.
    pub fn new() -> Self
        ensures cuts { IsNew result }
        ensures came { came result ≡ 0 }

        // No cut comes exactly of a stream of white space, alone or behind a byte order mark.
        ensures blank { (stream : List ℕ) → (cuts_of_rest result stream ≡ []) ↔ IsBlank stream }
    {
        Cutter {
            stage: Stage::Mark(MarkPrefix { count: 0 }),
        }
    }

    /// Takes the next bytes of the stream: the whole piece, or up to the end of the start that ends a cut, which is the
    /// seventh byte of `[Event `. What is left of the piece is to be fed next.
    pub fn feed(&mut self, alloc: Global, piece: &[u8]) -> Result<Fed, AllocError>
        requires some { 0 < length piece.now }
        requires room { came self.old + length piece.now < 2 ^ 63 }

        ensures cuts { IfOk result
            (λ fed. Gives self.old (take fed.taken piece.now) fed.cut self.new) }

        ensures some { IfOk result (λ fed. 0 < fed.taken) }
        ensures taken { IfOk result (λ fed. fed.taken ≤ length piece.now) }
        ensures whole { IfOk result (λ fed. IsNone fed.cut → fed.taken ≡ length piece.now) }
        ensures stops { IfOk result (λ fed. IsSome fed.cut → IsAtStart self.new) }
        ensures came { IfOk result (λ fed. came self.new ≡ came self.old + fed.taken) }

        // No more is held than a text that can be read, and the start of the next behind it.
        ensures held { IfOk result (λ _. held self.new ≤ text_limit + 7) }
        ensures unchanged { OnErr result (self.new ≡ self.old) }
    {
        match &mut self.stage {
            Stage::Mark(prefix) => match prefix.feed(piece) {
                Marked::Prefix(prefix) => {
                    self.stage = Stage::Mark(prefix);
                    Ok(Fed {
                        taken: piece.len(),
                        cut: None,
                    })
                }
                Marked::Past { front, taken } => {
                    let (stage, fed) = feed_front(alloc, front, &piece[taken..])?;
                    self.stage = stage;
                    Ok(Fed {
                        taken: taken + fed.taken,
                        cut: fed.cut,
                    })
                }
            },
            Stage::Before(front) => {
                let (stage, fed) = feed_front(alloc, *front, piece)?;
                self.stage = stage;
                Ok(fed)
            }
            Stage::Within(text) => text.feed(alloc, piece),
        }
    }

    /// The last cut, where the stream ends.
    pub fn end(self) -> Option<Cut>
        ensures { cuts_in result ≡ cuts_of_rest self [] }
    {
        match self.stage {
            Stage::Mark(prefix) => prefix.end().map(|place| Cut::Preamble { place }),
            Stage::Before(front) => front.end().map(|place| Cut::Preamble { place }),
            Stage::Within(text) => Some(text.end()),
        }
    }
}

/// Goes on before the first text, and in it where it begins in the piece.
fn feed_front(alloc: Global, front: Front, piece: &[u8]) -> Result<(Stage, Fed), AllocError>
    requires room { front.came + length piece.now < 2 ^ 63 }
    ensures { IfOk result (FeedsFront front piece.now) }
{
    match front.feed(piece) {
        Onward::Before(front) => Ok((
            Stage::Before(front),
            Fed {
                taken: piece.len(),
                cut: None,
            },
        )),
        Onward::Start { taken, preamble } => {
            let place = front.came + taken as u64 - 7;
            let mut text = Text::begin(alloc, place)?;
            if let Some(place) = preamble {
                let cut = Some(Cut::Preamble { place });
                return Ok((Stage::Within(text), Fed { taken, cut }));
            }
            let fed = text.feed(alloc, &piece[taken..])?;
            Ok((
                Stage::Within(text),
                Fed {
                    taken: taken + fed.taken,
                    cut: fed.cut,
                },
            ))
        }
    }
}
