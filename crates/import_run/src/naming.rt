//! The texts of a batch, where some of their ids are stored.
ghost use Rattle.std.specs.Prelude.{◌≡◌, ◌≤◌, ◌<◌, List, IfOk, IfSome, drop, map, length};
ghost use Rattle.explorer_model.specs.Imports.{Candidate, Numbering, group_limit};
ghost use Rattle.ingest_desk.specs.Clashes.{clashes_from};
ghost use Rattle.import_run.specs.Settling.{id_of, left_by, named_by, named_first, placed};

use explorer_model::archive::{Placed, Texts};
use explorer_model::fault::{Refusal, Why};
use ingest_desk::Clashing;
use std::alloc::{AllocError, Global};

/// The texts of a batch: those that are refused, and the others.
#[derive(Debug, Drop)]
pub struct Named {
    pub refused: Vec<Refusal>,
    pub rest: Vec<Placed>,
}

/// Refuses the named texts of a batch, which have these places.
pub fn name(
    alloc: Global,
    texts: Texts,
    places: &[u64],
    pairs: &[Clashing],
) -> Result<Named, AllocError>
    requires few { length texts ≤ group_limit }
    requires long { length texts ≤ length places.now }
    ensures { IfOk result (λ named. (candidates : List Candidate) (number : Numbering)
        → texts ≡ map (λ c. c.text) candidates
        → places.now ≡ map (λ c. c.place) candidates
        → pairs.now ≡ clashes_from 0 number (map id_of candidates)
        → (named.refused.items ≡ named_by number candidates)
        × (named.rest.items ≡ map placed (left_by number candidates))) }
{
    let mut refused = Vec::new(alloc);
    let mut rest = Vec::new(alloc);
    let mut at = 0;
    let mut next = 0;
    let texts = texts.into_vec();
    'naming: for bytes in texts {
        let place = places[at];
        match named_at(pairs, next, at) {
            Some(number) => {
                refused.push(Refusal {
                    place,
                    why: Why::Repeated { number },
                })?;
                next += 1;
                drop(bytes);
            }
            None => rest.push(Placed { place, bytes })?,
        }
        at += 1;
    }
    Ok(Named { refused, rest })
}

/// The number of the next pair, where it is that of the text at this place of the batch.
fn named_at(pairs: &[Clashing], next: usize, at: usize) -> Option<u32>
    requires { at < group_limit }
    ensures number { result ≡ named_first at (drop next pairs.now) }
    ensures within { IfSome result (λ _. next < length pairs.now) }
{
    if next < pairs.len() && pairs[next].place as usize == at {
        return Some(pairs[next].number);
    }
    None
}
