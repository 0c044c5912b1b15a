//! Tests of `outside`, `disk_model`, `record_log`, `manifest` and `side_by_side`: streams of bytes,
//! doors, disks, logs, stored batches, and calls in threads.
#![tactic(auto)]

#[cfg(test)]
mod tests;
