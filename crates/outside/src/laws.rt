//! Laws of streams, doors and scratch files. Each is the contract of a function that has nothing to
//! do.
ghost use Rattle.std.specs.Prelude.{◌≡◌, ℕ, List, Some, take, length};
ghost use Rattle.outside.specs.Stream.{Stream, Gives, Takes};
ghost use Rattle.outside.specs.Doors.{Connections, Accepts, TakesBack};
ghost use Rattle.outside.specs.Ports.{Scratch, AppendsPiece, GivesBack};

/// Where the bytes are told, a read of so many bytes gives the same ones and leaves the same
/// stream, and so does a write of a chunk.
pub fn streams_are_determined()
    ensures gives { (n : ℕ) (bytes buffer other : List ℕ) (old new after : Stream)
        → old.left ≡ Some bytes → Gives n buffer old new → Gives n other old after
        → (take n buffer ≡ take n other) × (new ≡ after) }
    ensures takes { (bytes chunk : List ℕ) (old new after : Stream)
        → old.written ≡ Some bytes → Takes chunk old new → Takes chunk old after → new ≡ after }
{}

/// Where the links are told, an accept gives one link and leaves one door, and so does a link that
/// is taken back.
pub fn doors_are_determined()
    ensures accepts { (links : List Stream) (link other : Stream) (old new after : Connections)
        → old.to_come ≡ Some links → Accepts link old new → Accepts other old after
        → (link ≡ other) × (new ≡ after) }
    ensures takes_back { (link : Stream) (old new after : Connections)
        → TakesBack link old new → TakesBack link old after → new ≡ after }
{}

/// An append that was done leaves one scratch file, and where the bytes are told a read of so many
/// bytes gives the same ones.
pub fn ports_are_determined()
    ensures appends { (piece : List ℕ) (old new after : Scratch)
        → AppendsPiece piece old new → AppendsPiece piece old after → new ≡ after }
    ensures gives { (at : ℕ) (told buffer other : List ℕ) (old new after : Scratch)
        → old.appended ≡ Some told → length buffer ≡ length other
        → GivesBack at buffer old new → GivesBack at other old after
        → (buffer ≡ other) × (new ≡ after) }
{}
