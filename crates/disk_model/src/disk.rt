//! What a disk is: its calls, and what a crash may leave of it.
ghost use Rattle.std.specs.Prelude.{◌≡◌, ◌≤◌, ◌+◌, ◌^◌, ℕ, List, length, Some, IfOk, OnOk, OnErr};
ghost use Rattle.disk_model.specs.Disk.{DiskState, Stays, Fails, Reads, Writes, FailsToWrite, Torn, Same, MayLeave, Elapses, IsDurable};

use outside::Failed;

/// A file that is read and written in place, and that a crash may leave in more than one way. A
/// disk that does not tell its content tells the rest all the same: its size, and how many of its
/// calls have failed. Of what a crash leaves it says nothing.
pub trait Disk {
    // What the disk has come to.
    ghost disk: { Self → DiskState };

    // What a crash at some moment from the given one on may have left, during a call or between
    // two. It stands beside the state, since a set of images is no field of a record of data.
    ghost left_since: { Self → ℕ → List ℕ → Type 0 };

    /// The size in bytes.
    fn size(&mut self) -> Result<u64, Failed>
        ensures told { IfOk result (λ size. size ≡ (disk self.old).size) }
        ensures done { OnOk result (Stays (disk self.old) (disk self.new)) }
        ensures fails { OnErr result (Fails (disk self.old) (disk self.new)) }
        ensures crash { Elapses disk left_since Same self.old self.new };

    /// Fills `into` with the bytes from the place `at` on.
    fn read_at(&mut self, at: u64, into: &mut [u8]) -> Result<(), Failed>
        requires inside { at + length into.old ≤ (disk self.old).size }
        ensures done { OnOk result (Reads at into.new (disk self.old) (disk self.new)) }
        ensures fails { OnErr result (Fails (disk self.old) (disk self.new)) }
        ensures crash { Elapses disk left_since Same self.old self.new };

    /// Writes the piece over what is there, and past the end. Until a sync a crash may leave any
    /// bytes in the range and past the old end, and what is elsewhere stays.
    fn write_at(&mut self, at: u64, piece: &[u8]) -> Result<(), Failed>
        requires no_gap { at ≤ (disk self.old).size }
        requires low { at + length piece.now ≤ 2 ^ 40 }
        ensures done { OnOk result (Writes at piece.now (disk self.old) (disk self.new)) }
        ensures fails { OnErr result
            (FailsToWrite at (length piece.now) (disk self.old) (disk self.new)) }
        ensures crash { Elapses disk left_since (Torn at (length piece.now)) self.old self.new };

    /// Brings all that was written to the device. From then on a crash leaves what reads give.
    fn sync(&mut self) -> Result<(), Failed>
        ensures done { OnOk result (Stays (disk self.old) (disk self.new)) }
        ensures durable { OnOk result (IsDurable disk left_since self.new) }
        ensures fails { OnErr result (Fails (disk self.old) (disk self.new)) }
        ensures crash { Elapses disk left_since Same self.old self.new };

    /// How many calls have failed; `u64::MAX` stands for that number and every greater one.
    fn faults(&self) -> u64
        ensures { result ≡ (disk self.now).faults };

    // The content has the size that is told.
    ghost told_size: { (it : Self) (file : List ℕ) → (disk it).content ≡ Some file
        → length file ≡ (disk it).size };

    // What reads give is one of the images that a crash may leave.
    ghost told_left: { (it : Self) (file : List ℕ) → (disk it).content ≡ Some file
        → MayLeave disk left_since it file };

    // What a crash may leave now is left since each earlier moment.
    ghost counts_now: { (it : Self) (t : ℕ) (image : List ℕ) → t ≤ (disk it).moment
        → MayLeave disk left_since it image → left_since it t image };
}
