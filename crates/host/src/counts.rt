//! Counts of faults of what comes back.
ghost use Rattle.host.specs.Hosts.{Counts};

/// Counts a thing that comes back with so many faults.
pub(crate) fn count_return(count: &mut u64, faults: u64)
    ensures { Counts faults count.old count.new }
{
    if faults > 0 {
        *count = count.saturating_add(1);
    }
}
