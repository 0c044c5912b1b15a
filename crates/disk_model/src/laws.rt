//! Laws of disks. Each is the contract of a function that has nothing to do.
ghost use Rattle.std.specs.Prelude.{◌≡◌, ℕ, List, length, Some};
ghost use Rattle.disk_model.specs.Disk.{DiskState, Stays, Reads, Writes, MayLeave, IsDurable};
ghost use Rattle.disk_model.specs.Memory.{IsImage, left_by};
ghost use Rattle.disk_model.specs.declared.call.DiskCall.{DiskCall};

use crate::disk::Disk;

/// A call that was done leaves one disk, but for its moment, and where the content is told a read
/// of so many bytes gives the same ones.
pub fn calls_are_determined()
    ensures reads { (at : ℕ) (file buffer other : List ℕ) (old new after : DiskState)
        → old.content ≡ Some file → length buffer ≡ length other
        → Reads at buffer old new → Reads at other old after → (buffer ≡ other) × Stays after new }
    ensures writes { (at : ℕ) (piece : List ℕ) (old new after : DiskState)
        → Writes at piece old new → Writes at piece old after → Stays after new }
    ensures rests { (old new after : DiskState)
        → Stays old new → Stays old after → Stays after new }
{}

/// Behind a sync a crash leaves one file.
pub fn synced_files_are_determined<D: Disk>()
    ensures { (disk : D) (image other : List ℕ) → IsDurable D.disk D.left_since disk
        → MayLeave D.disk D.left_since disk image → MayLeave D.disk D.left_since disk other
        → image ≡ other }
{}

/// What a crash of a disk in memory leaves by its number is one of the images.
pub fn each_number_leaves_an_image()
    ensures { (number : ℕ) (calls : List DiskCall) → IsImage calls (left_by number calls) }
{}
