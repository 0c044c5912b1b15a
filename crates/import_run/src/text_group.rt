//! Groups of cuts: what is held until a group is whole, and what becomes of it.
ghost use Rattle.std.specs.Prelude.{◌≡◌, ◌+◌, ◌≤◌, List, [], ◌∷◌, ◌++◌, length, option_map, IfOk, IfSome, OnOk};
ghost use Rattle.std.specs.List.{All};
ghost use Rattle.explorer_model.specs.Cuts.{Cut as ACut, text_limit};
ghost use Rattle.explorer_model.specs.Imports.{group_limit};
ghost use Rattle.pgn_cut.specs.Cut.{meaning};
ghost use Rattle.import_run.specs.Apart.{CanTally, IsTalliedGroup};
ghost use Rattle.import_run.specs.Grouping.{Ascend, IsGroupOf, IsShort, IsTallied, merged};
ghost use Rattle.import_run.specs.Hand.{InHand};
ghost use Rattle.import_run.specs.Labelling.{under};

use batch_tally::tally;
use explorer_model::archive::Placed;
use explorer_model::fault::{Refusal, Why};
use explorer_model::label::Label;
use ingest_desk::Handed;
use outside::{FreeGate, Gate};
use pgn_cut::cut::Cut;
use side_by_side::Workers;
use std::alloc::{AllocError, Global};
use std::thread::Threads;
use tally_rows::Tally;

/// How many texts a whole group has.
pub const GROUP_LIMIT: usize = 512;

/// The cuts of a group so far: its texts, and why each other cut is refused. What is accepted becomes
/// one batch under the label.
#[derive(Debug, Drop)]
pub struct TextGroup {
    pub label: Label,
    pub texts: Vec<Placed>,
    pub unread: Vec<Refusal>,
}

/// A group of which each text was replayed.
#[derive(Drop)]
pub struct TalliedGroup {
    /// The texts that are accepted, under the label of the group; none where no text is.
    pub tally: Option<Handed>,
    /// The place of each accepted text, in order.
    pub places: Vec<u64>,
    /// Why each other cut is refused, in the order of the stream.
    pub refused: Vec<Refusal>,
}

impl TextGroup {
    /// A group without cuts.
    pub fn new(alloc: Global, label: Label) -> Self
        ensures group { IsGroupOf [] result }
        ensures none { result.texts.items ≡ [] }
        ensures label { result.label ≡ label }
    {
        TextGroup {
            label,
            texts: Vec::new(alloc),
            unread: Vec::new(alloc),
        }
    }

    /// Puts a cut behind the others.
    pub fn push(&mut self, cut: Cut) -> Result<(), AllocError>
        requires short { IsShort (meaning cut) }
        ensures group { OnOk result ((cuts : List ACut)
            → IsGroupOf cuts self.old → IsGroupOf (cuts ++ meaning cut ∷ []) self.new) }
        ensures label { self.new.label ≡ self.old.label }
        ensures more { OnOk result (length self.new.texts.items ≤ length self.old.texts.items + 1) }
        ensures short { All (λ text. length text.bytes ≤ text_limit) self.old.texts.items
            → OnOk result (All (λ text. length text.bytes ≤ text_limit) self.new.texts.items) }
    {
        match cut {
            Cut::Text(text) => self.texts.push(text)?,
            Cut::TooLong { place, length } => self.unread.push(Refusal {
                place,
                why: Why::TooLong { length },
            })?,
            Cut::Preamble { place } => self.unread.push(Refusal {
                place,
                why: Why::Preamble,
            })?,
        }
        Ok(())
    }

    /// Replays and tallies the texts. On how many workers do that, nothing depends.
    pub fn tally<R: Threads + Sync, G: Gate>(
        self,
        rt: &R,
        alloc: Global,
        workers: Workers,
        gate: &G,
    ) -> Result<TalliedGroup, AllocError>
        requires few { length self.texts.items ≤ group_limit }
        requires short { All (λ text. length text.bytes ≤ text_limit) self.texts.items }
        ensures tallied { IfOk result (λ tallied. (cuts : List ACut)
            → Ascend cuts → IsGroupOf cuts self → IsTallied self.label cuts tallied) }
        ensures hand { IfOk result (λ tallied. IfSome tallied.tally (λ counted.
            InHand counted tallied.places.items)) }
    {
        let TextGroup {
            label,
            texts,
            unread,
        } = self;
        let tallying = tally(rt, alloc, texts, workers.count, gate)?;
        let refused = merge(alloc, tallying.refused.as_slice(), unread.as_slice())?;
        Ok(TalliedGroup {
            tally: with_label(tallying.tally, label),
            places: tallying.places,
            refused,
        })
    }

    /// The same by the calling thread alone, and the batch is packed.
    pub(crate) fn pack<R: Threads + Sync>(
        self,
        rt: &R,
        alloc: Global,
    ) -> Result<TalliedGroup, AllocError>
        requires { CanTally self }
        ensures { IfOk result (IsTalliedGroup self) }
    {
        self.tally(rt, alloc, Workers { count: 1 }, &FreeGate)?
            .pack(alloc)
    }
}

impl TalliedGroup {
    /// The same with its batch packed, which contracts don't see.
    fn pack(self, alloc: Global) -> Result<TalliedGroup, AllocError>
        ensures { IfOk result (λ same. same ≡ self) }
    {
        let TalliedGroup {
            tally,
            places,
            refused,
        } = self;
        let tally = match tally {
            Some(handed) => Some(Handed::of_ready(handed.into_ready(alloc)?)),
            None => None,
        };
        Ok(TalliedGroup {
            tally,
            places,
            refused,
        })
    }
}

/// The tally under the label, to be handed to a commit.
pub fn with_label(tally: Option<Tally>, label: Label) -> Option<Handed>
    ensures { result ≡ option_map (under label) tally }
{
    Some(Handed::of_tally(tally?.labelled(label)))
}

/// Two lists of refusals in one, where each has them by their places.
pub fn merge(
    alloc: Global,
    texts: &[Refusal],
    unread: &[Refusal],
) -> Result<Vec<Refusal>, AllocError>
    ensures { IfOk result (λ all. all.items ≡ merged texts.now unread.now) }
{
    let mut all = Vec::new(alloc);
    let mut at = 0;
    let mut next = 0;
    'merging: while at < texts.len() && next < unread.len() {
        if texts[at].place < unread[next].place {
            all.push(texts[at])?;
            at += 1;
        } else {
            all.push(unread[next])?;
            next += 1;
        }
    }
    all.extend_from_slice(&texts[at..])?;
    all.extend_from_slice(&unread[next..])?;
    Ok(all)
}
