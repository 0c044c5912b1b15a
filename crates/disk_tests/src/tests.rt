//! Streams, doors, disks, logs, stored batches and calls side by side.
mod calls;
mod disks;
mod doors;
mod first;
mod labels;
mod logs;
mod stores;
mod streams;
