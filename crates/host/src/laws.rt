//! Laws of hosts. Each is the contract of a function that has nothing to do.
ghost use Rattle.std.specs.Prelude.{◌≡◌, ◌<◌, ℕ, List, slice_get};
ghost use Rattle.disk_model.specs.Disk.{DiskState};
ghost use Rattle.outside.specs.Stream.{Stream};
ghost use Rattle.outside.specs.Doors.{Connections};
ghost use Rattle.outside.specs.Ports.{Scratch};
ghost use Rattle.host.specs.Hosts.{ADisk, ADoor, AFile, APort, HostState, IsOut, HandsDisk, HandsDoors, HandsFile, HandsPort, TakesDisk, TakesDoor, TakesFile, TakesPort};

/// A host hands out one disk under a name, with one content, one file, and one scratch file, and
/// comes to one state by that.
pub fn what_is_handed_out_is_determined()
    ensures disk { (name : List ℕ) (disk other : DiskState) (before after later : HostState)
        → HandsDisk name disk before after → HandsDisk name other before later
        → (disk.content ≡ other.content) × (after ≡ later) }
    ensures file { (name : List ℕ) (file other : Stream) (before after later : HostState)
        → HandsFile name file before after → HandsFile name other before later
        → (file ≡ other) × (after ≡ later) }
    ensures doors { (address : List ℕ) (readers connections k : ℕ) (doors others : List Connections)
        (before after later : HostState)
        → HandsDoors address readers connections doors before after
        → HandsDoors address readers connections others before later
        → (k < readers → slice_get doors k ≡ slice_get others k) × (after ≡ later) }
    ensures port { (name : List ℕ) (port other : Scratch) (before after later : HostState)
        → HandsPort name port before after → HandsPort name other before later
        → (port ≡ other) × (after ≡ later) }
{}

/// A host to which a thing comes back without a fault comes to one state.
pub fn what_comes_back_is_determined()
    ensures disk { (name : List ℕ) (disk : DiskState) (before after later : HostState)
        → disk.faults ≡ 0 → TakesDisk name disk before after → TakesDisk name disk before later
        → after ≡ later }
    ensures file { (name : List ℕ) (file : Stream) (before after later : HostState)
        → file.read_faults ≡ 0 → TakesFile name file before after
        → TakesFile name file before later → after ≡ later }
    ensures door { (door : Connections) (before after later : HostState)
        → door.faults ≡ 0 → TakesDoor door before after → TakesDoor door before later
        → after ≡ later }
    ensures port { (name : List ℕ) (port : Scratch) (before after later : HostState)
        → port.faults ≡ 0 → TakesPort name port before after → TakesPort name port before later
        → after ≡ later }
{}

/// What was handed out is out, and what is out stays out over the call of another thing.
pub fn what_is_handed_out_is_out()
    ensures disk { (name : List ℕ) (disk : DiskState) (before after : HostState)
        → HandsDisk name disk before after → IsOut (ADisk name) after }
    ensures file { (name : List ℕ) (file : Stream) (before after : HostState)
        → HandsFile name file before after → IsOut (AFile name) after }
    ensures doors { (address : List ℕ) (readers connections : ℕ) (doors : List Connections)
        (before after : HostState) → 0 < readers
        → HandsDoors address readers connections doors before after → IsOut ADoor after }
    ensures port { (name : List ℕ) (port : Scratch) (before after : HostState)
        → HandsPort name port before after → IsOut (APort name) after }
{}
