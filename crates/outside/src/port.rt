//! Scratch files.
ghost use Rattle.std.specs.Prelude.{◌≡◌, ◌≤◌, ◌+◌, ℕ, List, length, Some, OnOk, OnErr};
ghost use Rattle.outside.specs.Ports.{Scratch, AppendsPiece, FailsToAppend, GivesBack, FailsToGiveBack};

use crate::stream::Failed;

/// A scratch file: bytes that are appended and read back. One that does not tell its bytes tells
/// the rest all the same: how many they are, and how many of its calls have failed.
pub trait Port {
    // What the file has come to.
    ghost port: { Self → Scratch };

    /// Puts the whole piece behind the bytes before. An append that fails has put some front of it
    /// there.
    fn append(&mut self, piece: &[u8]) -> Result<(), Failed>
        ensures done { OnOk result (AppendsPiece piece.now (port self.old) (port self.new)) }
        ensures fails { OnErr result (FailsToAppend piece.now (port self.old) (port self.new)) };

    /// Fills `into` with the bytes from the place `at` on.
    fn read_at(&mut self, at: u64, into: &mut [u8]) -> Result<(), Failed>
        requires inside { at + length into.old ≤ (port self.old).size }
        ensures done { OnOk result (GivesBack at into.new (port self.old) (port self.new)) }
        ensures fails { OnErr result (FailsToGiveBack (port self.old) (port self.new)) };

    /// How many calls have failed; `u64::MAX` stands for that number and every greater one.
    fn faults(&self) -> u64
        ensures { result ≡ (port self.now).faults };

    // The bytes that are told are as many as are counted.
    ghost told_size: { (it : Self) (bytes : List ℕ) → (port it).appended ≡ Some bytes
        → length bytes ≡ (port it).size };
}
