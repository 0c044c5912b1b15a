//! Tests of `packed_keys`, `best_lists`, `tally_rows`, `batch_tally`, `segment_blocks`,
//! `segment_merge`, `published_index` and `spill_blobs`: keys, rows and their best games, tallies,
//! packed rows, merged segments, the list that readers enter, and rows in a scratch file.
#![tactic(auto)]

#[cfg(test)]
mod tests;
