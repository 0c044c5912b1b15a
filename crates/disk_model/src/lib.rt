//! Disks that a crash may cut short at any moment: what their calls promise, and their forms.
#![tactic(auto)]

mod call;
mod disk;
mod file;
pub mod laws;
mod memory;
mod unkept;

pub use call::DiskCall;
pub use disk::Disk;
pub use file::FileDisk;
pub use memory::MemDisk;
pub use unkept::Unkept;
