//! Texts tallied: what is accepted and counted, and what is refused.
ghost use Rattle.std.specs.Prelude.{◌≡◌, ◌≤◌, length, map, IfOk};
ghost use Rattle.std.specs.List.{All};
ghost use Rattle.explorer_model.specs.Cuts.{text_limit};
ghost use Rattle.explorer_model.specs.Imports.{group_limit};
ghost use Rattle.batch_tally.specs.Accepting.{candidate_as, AreCandidates, IsCounted};
ghost use Rattle.batch_tally.specs.Tallying.{IsTallying, IsTallyMade};

use crate::accepting::{Accepted, accept};
use crate::ranges::row_parts;
use crate::reading::read_all;
use explorer_model::archive::{Batch, Bytes, Classes, Placed, Texts};
use explorer_model::fault::Refusal;
use explorer_model::label::Label;
use explorer_model::list::Items;
use outside::Gate;
use side_by_side::Workers;
use std::alloc::{AllocError, Global};
use std::thread::Threads;
use tally_rows::Tally;

/// What becomes of a list of texts.
#[derive(Debug, Drop)]
pub struct Tallying {
    /// The accepted texts, counted; none where no text is accepted.
    pub tally: Option<Tally>,
    /// The place of each accepted text, in order.
    pub places: Vec<u64>,
    /// Each refusal, in the order of the texts.
    pub refused: Vec<Refusal>,
}

/// Replays, accepts and counts up to 512 texts of at most 65,536 bytes each. As many leaves as
/// there are workers replay them side by side: each goes through the gate, and then takes the next
/// texts as long as some are left.
pub fn tally<R: Threads + Sync, G: Gate>(
    rt: &R,
    alloc: Global,
    texts: Vec<Placed>,
    workers: usize,
    gate: &G,
) -> Result<Tallying, AllocError>
    requires some_workers { 1 ≤ workers }
    requires few_workers { workers ≤ 16 }
    requires few { length texts.items ≤ group_limit }
    requires short { All (λ text. length text.bytes ≤ text_limit) texts.items }
    ensures { IfOk result (λ tallying. IsTallying texts.items tallying) }
{
    let workers = Workers { count: workers };
    let readings = read_all(rt, alloc, texts, workers, gate)?;
    let group = accept(alloc, readings)?;
    let places = places_of(alloc, group.accepted.as_slice())?;
    let tally = tally_of(rt, alloc, group.accepted, workers)?;
    Ok(Tallying {
        tally,
        places,
        refused: group.refused,
    })
}

/// The places of accepted texts.
fn places_of(alloc: Global, accepted: &[Accepted]) -> Result<Vec<u64>, AllocError>
    ensures { IfOk result (λ places. places.items
        ≡ map (λ candidate. candidate.place) (map candidate_as accepted.now)) }
{
    let mut places = Vec::with_capacity(alloc, accepted.len())?;
    for text in accepted {
        places.push(text.place)?;
    }
    Ok(places)
}

/// The tally of accepted texts.
fn tally_of<R: Threads + Sync>(
    rt: &R,
    alloc: Global,
    accepted: Vec<Accepted>,
    workers: Workers,
) -> Result<Option<Tally>, AllocError>
    requires candidates { AreCandidates accepted.items }
    requires counted { All IsCounted accepted.items }
    ensures { IfOk result (λ tally. IsTallyMade (map candidate_as accepted.items) tally) }
{
    if accepted.is_empty() {
        return Ok(None);
    }
    let parts = row_parts(rt, alloc, accepted.as_slice(), workers)?;
    let (texts, classes) = texts_and_classes(alloc, accepted)?;
    Ok(Some(Tally::new(
        Batch {
            label: Label::none(),
            texts: Texts::from_vec(texts),
        },
        Items::from_vec(classes),
        parts,
    )))
}

/// Accepted texts, and what their tags say, apart.
fn texts_and_classes(
    alloc: Global,
    accepted: Vec<Accepted>,
) -> Result<(Vec<Bytes>, Vec<Classes>), AllocError>
    ensures texts { IfOk result (λ parts. parts.0.items ≡ map (λ a. a.text) accepted.items) }
    ensures classes { IfOk result (λ parts. parts.1.items
        ≡ map (λ a. a.game.classes) accepted.items) }
{
    let mut texts = Vec::with_capacity(alloc, accepted.len())?;
    let mut classes = Vec::with_capacity(alloc, accepted.len())?;
    for Accepted { text, game, .. } in accepted {
        texts.push(text)?;
        classes.push(game.into_classes())?;
    }
    Ok((texts, classes))
}
