//! What a host is: what a run asks for by name.
ghost use Rattle.std.specs.Prelude.{◌≡◌, map, IfOk, IfErr, OnErr};
ghost use Rattle.host.specs.Hosts.{HostState, ADisk, AFile, ADoor, APort, HandsDisk, HandsDoors, HandsFile, HandsPort, IsOut, NotMade, RefusesDisk, RefusesFile, RefusesPort, TakesDisk, TakesDoor, TakesFile, TakesPort};

use disk_model::Disk;
use explorer_model::fault::Stop;
use outside::{Door, Failed, Port, Source};

/// What a run asks for by name, and gives back. A thing is handed out with a count of 0. Generic
/// code can let none go, since it may not be `Drop`: each goes back.
pub trait Host {
    type Disk: Disk + Send;

    type File: Source + Send;

    type Door: Door + Send;

    type Port: Port + Send;

    // What the host has come to.
    ghost host: { Self → HostState };

    /// Opens a file for reading and writing. An empty one is made where it is missing.
    fn disk(&mut self, name: &str) -> Result<Self::Disk, Failed>
        ensures hands { IfOk result (λ disk.
            HandsDisk name.now (Self.Disk.disk disk) (host self.old) (host self.new)) }
        ensures refuses { OnErr result (RefusesDisk name.now (host self.old) (host self.new)) };

    /// Takes a disk back, which stands under the name again.
    fn close(&mut self, name: &str, disk: Self::Disk)
        requires { IsOut (ADisk name.now) (host self.old) }
        ensures { TakesDisk name.now (Self.Disk.disk disk) (host self.old) (host self.new) };

    /// Opens a file for reading.
    fn file(&mut self, name: &str) -> Result<Self::File, Failed>
        ensures hands { IfOk result (λ file.
            HandsFile name.now (Self.File.source file) (host self.old) (host self.new)) }
        ensures refuses { OnErr result (RefusesFile name.now (host self.old) (host self.new)) };

    /// Takes a file back.
    fn close_file(&mut self, name: &str, file: Self::File)
        requires { IsOut (AFile name.now) (host self.old) }
        ensures { TakesFile name.now (Self.File.source file) (host self.old) (host self.new) };

    /// Makes so many doors, all on one address, each for so many connections.
    fn doors(
        &mut self,
        address: &str,
        readers: usize,
        connections: u32,
    ) -> Result<Vec<Self::Door>, Stop<Failed>>
        ensures hands { IfOk result (λ doors. HandsDoors address.now readers connections
            (map Self.Door.door doors.items) (host self.old) (host self.new)) }
        ensures fails { IfErr result (λ stop.
            NotMade address.now readers connections stop (host self.old) (host self.new)) };

    /// Takes a door back.
    fn close_door(&mut self, door: Self::Door)
        requires { IsOut ADoor (host self.old) }
        ensures { TakesDoor (Self.Door.door door) (host self.old) (host self.new) };

    /// Opens a scratch file, which is emptied. It is made where it is missing.
    fn port(&mut self, name: &str) -> Result<Self::Port, Failed>
        ensures hands { IfOk result (λ port.
            HandsPort name.now (Self.Port.port port) (host self.old) (host self.new)) }
        ensures refuses { OnErr result (RefusesPort name.now (host self.old) (host self.new)) };

    /// Takes a scratch file back, which stays under the name with what was appended.
    fn close_port(&mut self, name: &str, port: Self::Port)
        requires { IsOut (APort name.now) (host self.old) }
        ensures { TakesPort name.now (Self.Port.port port) (host self.old) (host self.new) };
}
