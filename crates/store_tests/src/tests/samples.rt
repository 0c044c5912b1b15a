//! Batches of sample games.
ghost use Rattle.std.specs.Prelude.{◌≤◌};

use super::merges::assert_equal_merges;
use super::segments::{is_walked, rows_in};
use super::{BATCH, segment_of, tally_of};
use explorer_model::archive::Placed;
use rand_pcg::Lcg64Xsh32;
use sample_games::sample;
use std::alloc::Global;
use std::test::Fail;
use std::thread::Threads;
use tally_rows::Tally;

/// The tally of a batch of sample games, numbered from this number on.
fn samples<R: Threads + Sync>(
    rt: &R,
    alloc: Global,
    first: u32,
    draws: &mut Lcg64Xsh32,
) -> Result<Tally, Fail>
    requires { first ≤ 512 }
{
    let mut texts = Vec::new(alloc);
    for place in 0..BATCH {
        texts.push(Placed {
            place: u64::from(place),
            bytes: sample(alloc, first + place, draws)?,
        })?;
    }
    tally_of(rt, alloc, texts)
}

#[test]
fn samples_give_at_each_key_what_a_plain_filter_gives(rt: HostRuntime) -> Result<(), Fail> {
    let tally = samples(&rt, rt.alloc(), 0, &mut Lcg64Xsh32::new(7, 1))?;
    let again = samples(&rt, rt.alloc(), 0, &mut Lcg64Xsh32::new(7, 1))?;
    let segment = segment_of(rt.alloc(), 0, again)?;
    assert_eq!(rt; segment.games(), BATCH);
    let all = rows_in(rt.alloc(), &tally)?;
    let mut before = [0; 34];
    for rows in all.as_slice().chunk_by(|row, next| row.key == next.key) {
        let key = rows.first().ok_or("no run is empty")?.key;
        // The keys rise, so a filter by this one takes these rows.
        assert!(rt; before < key, "{key:?}");
        assert!(rt; is_walked(&segment, rows, &key), "at {key:?}");
        before = key;
    }
    Ok(())
}

#[test]
fn merges_of_samples_are_equal_for_every_number_of_workers(rt: HostRuntime) -> Result<(), Fail> {
    let mut draws = Lcg64Xsh32::new(7, 1);
    let left = segment_of(rt.alloc(), 0, samples(&rt, rt.alloc(), 0, &mut draws)?)?;
    let right = segment_of(rt.alloc(), 1, samples(&rt, rt.alloc(), BATCH, &mut draws)?)?;
    assert_equal_merges(&rt, rt.alloc(), &left, &right)
}
