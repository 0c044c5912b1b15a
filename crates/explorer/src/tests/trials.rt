//! Trials. The games, their totals and the last position were worked out from the format by another
//! program, with its own generator and moves.
use super::{FAULTLESS, run_on};
use std::alloc::AllocError;
use std::sync::Wait;
use std::test::Fail;
use std::thread::Threads;

const OF_2000: &str = "games 2000\nbatches 4\nsegments 2\nwhite 687\ndraws 659\nblack 654\n\
    last r4b2/p1p1kQr1/Ppn3P1/8/2pnP3/8/P2B2BP/RN2K1Nb b - - 0 1\n";

const OF_5000: &str = "games 5000\nbatches 10\nsegments 2\nwhite 1719\ndraws 1646\nblack 1635\n\
    last 2r1k1n1/pp3q2/r7/Pbp1Bp1p/1R3PP1/N1PPp2P/n3P2K/5BNR b - - 0 1\n";

/// Whether trials of so many games by one worker and by eight print this alone.
fn prints_alike<R: AllocGlobal + Wait + Threads + Sync>(
    rt: &R,
    games: &str,
    printed: &str,
) -> Result<bool, AllocError> {
    let by_one = run_on(
        rt,
        &["trial", games, "7", "--workers", "1"],
        "",
        1,
        FAULTLESS,
    )?;
    let by_eight = run_on(
        rt,
        &["trial", games, "7", "--workers", "8"],
        "",
        1,
        FAULTLESS,
    )?;
    Ok(by_one.is(0, printed, "") && by_eight.is(0, printed, ""))
}

#[test]
fn four_batches_and_ten_make_two_segments(rt: HostRuntime) -> Result<(), Fail> {
    for (games, printed) in [("2000", OF_2000), ("5000", OF_5000)] {
        assert!(rt; prints_alike(&rt, games, printed)?, "{games}");
    }
    Ok(())
}
