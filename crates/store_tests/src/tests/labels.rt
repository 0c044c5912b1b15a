//! Batches under labels, which outlive a merge and an opening.
ghost use Rattle.std.specs.Prelude.{◌≡◌, ◌<◌};

use super::stores::{games, join_twice, name_ingest, new_store, open_ingest};
use disk_model::MemDisk;
use explorer_model::label::Label;
use ingest_desk::{Ingest, Unnamed};
use published_index::{Drawer, Index, SharedSegment};
use segment_blocks::{Segment, Steps};
use std::alloc::Global;
use std::marker::Brand;
use std::process::Abort;
use std::sync::Wait;
use std::sync::ledger::{Blank, Ledger};
use std::test::Fail;
use std::thread::Threads;

/// The labels of the batches that are stored, in their order.
const LABELS: [&str; 3] = ["", "lichess 2013-01", "é"];

/// Whether the batches of the segment have the labels of this place and those behind it.
fn has_labels<L: Ledger>(segment: &Segment, first: usize, steps: &mut Steps<L>) -> bool {
    for n in 0..segment.span().count {
        let label = segment.batch(n, steps).label.as_str();
        if LABELS.get(first.saturating_add(n as usize)) != Some(&label) {
            return false;
        }
    }
    true
}

/// Whether the batches of a list have the labels.
fn have_labels<L: Ledger>(list: &[SharedSegment], blank: Blank) -> bool
    requires name { blank.name ≡ L.name }
    requires parts { blank.parts ≡ L.parts }
    requires some { 0 < L.parts }
{
    let mut steps = Steps::<L>::new(blank);
    let mut first = 0usize;
    for segment in list {
        if !has_labels(segment, first, &mut steps) {
            return false;
        }
        first = first.saturating_add(segment.span().count as usize);
    }
    first == LABELS.len()
}

/// Whether a list of so many segments is published, whose batches have the labels.
fn is_labelled<J: Index>(ingest: &Ingest<MemDisk, J>, segments: usize) -> bool {
    let list = ingest.publisher().list().segments();
    list.len() == segments && have_labels::<Brand>(list, Blank::new(1))
}

/// Stores a game under each label.
fn store_labelled<J: Index, R: Threads + Wait + Sync>(
    rt: &R,
    alloc: Global,
    ingest: &mut Ingest<MemDisk, J>,
    drawer: &mut Drawer<J>,
) -> Result<(), Fail> {
    let mut number = 0u32;
    for label in LABELS {
        let label = Label::of(label.as_bytes()).ok_or("a label")?;
        let tally = games(rt, alloc, number, 1)?.labelled(label);
        if ingest.commit(rt, alloc, tally, drawer).is_err() {
            return Err(Fail::from("not stored"));
        }
        number = number.saturating_add(1);
    }
    Ok(())
}

/// Stores the batches, and has the last two become one segment.
fn stores_and_joins<J: Index, R: Threads + Wait + Abort + Sync>(
    rt: &R,
    alloc: Global,
    unnamed: Unnamed<MemDisk>,
) -> Result<MemDisk, Fail>
    requires { unnamed.index.name ≡ J.name }
{
    let (mut ingest, _passes, mut drawer) = name_ingest::<J, _, R>(rt, alloc, unnamed)?;
    let outcome = joins_labelled(rt, alloc, &mut ingest, &mut drawer);
    let disk = ingest.into_disk(rt);
    outcome?;
    Ok(disk)
}

fn joins_labelled<J: Index, R: Threads + Wait + Abort + Sync>(
    rt: &R,
    alloc: Global,
    ingest: &mut Ingest<MemDisk, J>,
    drawer: &mut Drawer<J>,
) -> Result<(), Fail> {
    store_labelled(rt, alloc, ingest, drawer)?;
    assert!(rt; is_labelled(ingest, 3));
    let _spans = join_twice(rt, alloc, ingest)?;
    assert!(rt; is_labelled(ingest, 2));
    Ok(())
}

/// Whether the labels stand in a store that was opened.
fn are_read<J: Index, R: Wait>(
    rt: &R,
    alloc: Global,
    unnamed: Unnamed<MemDisk>,
) -> Result<bool, Fail>
    requires { unnamed.index.name ≡ J.name }
{
    let (ingest, _passes, _drawer) = name_ingest::<J, _, R>(rt, alloc, unnamed)?;
    let count = ingest.publisher().list().segments().len();
    let are_read = is_labelled(&ingest, count);
    let _disk = ingest.into_disk(rt);
    Ok(are_read)
}

#[test]
fn labels_outlive_merging_and_opening(rt: HostRuntime) -> Result<(), Fail> {
    let alloc: Global = rt.alloc();
    let unnamed = new_store(&rt, alloc, Vec::new(alloc))?;
    let disk = stores_and_joins::<Brand, _>(&rt, alloc, unnamed)?;
    let unnamed = open_ingest(&rt, alloc, disk, 2)?;
    assert!(rt; are_read::<Brand, _>(&rt, alloc, unnamed)?);
    Ok(())
}
