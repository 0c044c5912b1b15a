//! The time of the system, for waits that are bounded.
use libc::types::timespec;
use std::time::Duration;

/// The time since some start, by a clock that is never set. None where it can't be read.
pub(crate) fn monotonic() -> Option<Duration> {
    let mut time = timespec {
        tv_sec: 0,
        tv_nsec: 0,
    };
    if libc::clock_gettime(libc::CLOCK_MONOTONIC, &mut time) != 0 {
        return None;
    }
    let seconds = Duration::from_secs(time.tv_sec.unsigned_abs());
    Some(seconds.saturating_add(Duration::from_nanos(time.tv_nsec.unsigned_abs())))
}

/// Waits for so long, or less where a signal comes.
pub(crate) fn pause(length: Duration) {
    let asked = timespec {
        tv_sec: i64::try_from(length.as_secs()).unwrap_or(i64::MAX),
        tv_nsec: i64::from(length.subsec_nanos()),
    };
    let mut left = asked;
    let _ = libc::nanosleep(&asked, &mut left);
}
