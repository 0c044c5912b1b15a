//! Calls side by side.
use side_by_side::{map_each, map_taken};
use std::sync::atomic::{AtomicUsize, Ordering};
use std::test::Fail;

fn tenfold(number: usize) -> usize {
    number.wrapping_mul(10)
}

#[test]
fn takes_each_index_once_in_order(rt: HostRuntime) -> Result<(), Fail> {
    let table: [(usize, usize, &[usize]); 6] = [
        (1, 0, &[]),
        (1, 3, &[0, 10, 20]),
        (2, 1, &[0]),
        (4, 2, &[0, 10]),
        (3, 9, &[0, 10, 20, 30, 40, 50, 60, 70, 80]),
        (
            16,
            16,
            &[
                0, 10, 20, 30, 40, 50, 60, 70, 80, 90, 100, 110, 120, 130, 140, 150,
            ],
        ),
    ];
    for (workers, count, wanted) in table {
        let entered = AtomicUsize::new(0);
        let called = AtomicUsize::new(0);
        let enter = |_leaf: usize| {
            entered.fetch_add(1, Ordering::SeqCst);
        };
        let give = |index: usize| {
            called.fetch_add(1, Ordering::SeqCst);
            tenfold(index)
        };
        let made = map_taken(&rt, rt.alloc(), workers, count, &enter, &give)?;
        assert!(rt; made.as_slice() == wanted);
        assert_eq!(rt; entered.load(Ordering::SeqCst), workers);
        assert_eq!(rt; called.load(Ordering::SeqCst), count);
    }
    Ok(())
}

#[test]
fn takes_each_job_once_in_order(rt: HostRuntime) -> Result<(), Fail> {
    let table: [(usize, &[usize], &[usize]); 6] = [
        (0, &[7, 3], &[70, 30]),
        (1, &[], &[]),
        (1, &[5, 4, 6], &[50, 40, 60]),
        (2, &[9], &[90]),
        (4, &[2, 1], &[20, 10]),
        (3, &[8, 6, 7, 5, 3, 0, 9], &[80, 60, 70, 50, 30, 0, 90]),
    ];
    for (workers, jobs, wanted) in table {
        let entered = AtomicUsize::new(0);
        let called = AtomicUsize::new(0);
        let enter = |_leaf: usize| {
            entered.fetch_add(1, Ordering::SeqCst);
        };
        let give = |job: usize| {
            called.fetch_add(1, Ordering::SeqCst);
            tenfold(job)
        };
        let given = Vec::from_slice(rt.alloc(), jobs)?;
        let made = map_each(&rt, rt.alloc(), workers, given, &enter, &give)?;
        assert!(rt; made.as_slice() == wanted);
        assert_eq!(rt; entered.load(Ordering::SeqCst), workers);
        assert_eq!(rt; called.load(Ordering::SeqCst), jobs.len());
    }
    Ok(())
}
