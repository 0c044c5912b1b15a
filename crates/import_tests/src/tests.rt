//! Imports of worked streams, and connections.
mod connections;
mod desks;
mod doors;
mod imports;
mod kept;
mod labels;
mod players;
mod rounds;

ghost use Rattle.std.specs.Prelude.{◌≡◌, IfOk};
ghost use Rattle.published_index.specs.Places.{HasAllParts};

use disk_model::MemDisk;
use explorer_model::fault::Refusal;
use import_run::ending_of;
use ingest_desk::{ImportEnding, Named, Report, Unnamed, fresh};
use manifest::create;
use published_index::Index;
use std::alloc::{AllocError, Global};
use std::sync::Wait;
use std::test::Fail;

/// What a report says, without notes and marks.
#[derive(Debug, Drop)]
struct Told {
    ending: ImportEnding,
    batches: Vec<(u32, u32, u32)>,
    refused: Vec<Refusal>,
}

fn summary_of<J: Index>(alloc: Global, report: Report<J>) -> Result<Told, AllocError> {
    let mut batches = Vec::new(alloc);
    for receipt in report.receipts.as_slice() {
        batches.push((receipt.batches(), receipt.first(), receipt.games()))?;
    }
    Ok(Told {
        ending: ending_of(&report.end),
        batches,
        refused: report.refused,
    })
}

/// Games without a move, each with an id by its number. Each text has 194 bytes.
fn games(alloc: Global, first: usize, count: usize) -> Result<Vec<u8>, AllocError> {
    let mut bytes = Vec::new(alloc);
    for n in first..first.saturating_add(count) {
        let text = format!(in alloc;
            "[Event \"Rated blitz game\"]\n[Site \"https://lichess.org/{n:08}\"]\n\
             [White \"Ann\"]\n[Black \"Bob\"]\n[Result \"1-0\"]\n[UTCDate \"2020.01.15\"]\n\
             [WhiteElo \"1500\"]\n[BlackElo \"1400\"]\n[TimeControl \"300+0\"]\n\n1-0\n"
        )?;
        bytes.extend_from_slice(text.as_bytes())?;
    }
    Ok(bytes)
}

/// A new store on a disk, of whose calls these fail, with two passes.
fn new_store<R: Wait>(rt: &R, alloc: Global, failing: Vec<u64>) -> Result<Unnamed<MemDisk>, Fail> {
    let Ok(manifest) = create(MemDisk::new(alloc, 1_000_000, failing)?) else {
        return Err(Fail::from("not created"));
    };
    match fresh(rt, alloc, manifest, 2) {
        Ok(unnamed) => Ok(unnamed),
        Err(_) => Err(Fail::from("no room")),
    }
}

/// The ingest, its passes and the drawer that has all other parts.
fn name_ingest<J: Index, R: Wait>(
    rt: &R,
    alloc: Global,
    unnamed: Unnamed<MemDisk>,
) -> Result<Named<MemDisk, J>, Fail>
    requires { unnamed.index.name ≡ J.name }
    ensures { IfOk result (λ named. HasAllParts named.2) }
{
    match unnamed.named::<J>(alloc) {
        Ok(named) => Ok(named),
        Err(unnamed) => {
            let _disk = unnamed.into_disk(rt);
            Err(Fail::from("no room for the passes"))
        }
    }
}
