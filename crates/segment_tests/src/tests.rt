//! Keys, rows, tallies, packed rows, merged segments, published lists and spilled rows.
mod best;
mod blocks;
mod keys;
mod lists;
mod merges;
mod rows;
mod spilled;
mod tallies;
