//! Batches of segments, where no steps are counted.
ghost use Rattle.std.specs.Prelude.{◌≡◌, ◌<◌, length, slice_get, Some};

use explorer_model::archive::Batch;
use segment_blocks::{Segment, Steps};
use std::marker::Brand;
use std::sync::ledger::{Blank, Ledger};

/// Batch `n` of a segment.
pub(crate) fn batch_of(segment: &Segment, n: u32) -> &Batch
    requires { n < length segment.now.span.batches }
    ensures { slice_get segment.now.span.batches n ≡ Some result.now }
{
    batch_counted::<Brand>(segment, n, Blank::new(1))
}

fn batch_counted<'a, L: Ledger>(segment: &'a Segment, n: u32, blank: Blank) -> &'a Batch
    requires inside { n < length segment.now.span.batches }
    requires name { blank.name ≡ L.name }
    requires parts { blank.parts ≡ L.parts }
    requires some { 0 < L.parts }
    ensures { slice_get segment.now.span.batches n ≡ Some result.now }
{
    let mut steps = Steps::<L>::new(blank);
    segment.batch(n, &mut steps)
}
