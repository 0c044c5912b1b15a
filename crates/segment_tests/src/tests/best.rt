//! The best games of a few.
use best_lists::{Best4, ByMonth, ByRating, Entry, Ranking};
use std::test::Fail;

/// The best four of five games of one rank, whose numbers are 0 to 4.
fn of_five_equal<O: Ranking>() -> Best4<O> {
    let mut best = Best4::empty();
    for number in 0..5 {
        best = best.join(&Best4::one(4800, number));
    }
    best
}

fn entry(number: u32) -> Entry {
    Entry { rank: 4800, number }
}

#[test]
fn equal_ranks_by_rating_are_least_number_first(rt: HostRuntime) -> Result<(), Fail> {
    let best = of_five_equal::<ByRating>();
    assert_eq!(rt;
        best.entries(),
        [entry(0), entry(1), entry(2), entry(3)].as_slice()
    );
    Ok(())
}

#[test]
fn equal_ranks_by_month_are_greatest_number_first(rt: HostRuntime) -> Result<(), Fail> {
    let best = of_five_equal::<ByMonth>();
    assert_eq!(rt;
        best.entries(),
        [entry(4), entry(3), entry(2), entry(1)].as_slice()
    );
    Ok(())
}

#[test]
fn the_greater_rank_is_before(rt: HostRuntime) -> Result<(), Fail> {
    let (better, worse) = (
        Entry {
            rank: 4801,
            number: 7,
        },
        Entry {
            rank: 4800,
            number: 7,
        },
    );
    assert!(rt; ByRating::is_before(&better, &worse) && ByMonth::is_before(&better, &worse));
    assert!(rt; !ByRating::is_before(&worse, &better) && !ByMonth::is_before(&worse, &better));
    Ok(())
}

#[test]
fn shifted_moves_the_number(rt: HostRuntime) -> Result<(), Fail> {
    let shifted = Best4::<ByRating>::one(4800, 7).shifted(131_072);
    assert_eq!(rt; shifted.entries(), [entry(131_079)].as_slice());
    Ok(())
}
