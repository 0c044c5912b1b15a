//! The system as a host.
ghost use Rattle.std.specs.Prelude.{◌≡◌, None, IfOk, IfErr};
ghost use Rattle.outside.specs.Stream.{source_alone};
ghost use Rattle.host.specs.Hosts.{AreFresh};
ghost use Rattle.host.specs.Real.{untold};

use crate::counts::count_return;
use crate::host::Host;
use disk_model::{Disk, FileDisk};
use explorer_model::fault::Stop;
use outside::{Failed, FilePort, Port, Source, StdSource, TcpDoor, raise};
use std::alloc::Global;
use std::fs::{File, Files, OpenOptions, canonicalize};
use std::io;
use std::marker::Model;
use std::net::{Net, TcpListener, TcpStream};
use std::os::fd::AsRawFd;

/// The system as a host: names are paths, addresses those of TCP. A disk and a scratch file are
/// locked while they are out. It tells nothing of what stands there, and counts each error of the
/// system as a refusal.
#[derive(Drop)]
pub struct RealHost<
    'a,
    R: AllocGlobal + Files<File = File> + Net<Stream = TcpStream, Listener = TcpListener>,
> {
    rt: &'a R,
    own_faults: u64,
    disk_faults: u64,
    file_faults: u64,
    door_faults: u64,
    port_faults: u64,
}

impl<
    'a,
    R: AllocGlobal + Files<File = File> + Net<Stream = TcpStream, Listener = TcpListener>,
> Model for RealHost<'a, R> {
    ghost use Rattle.host.specs.Real.{FaultCounts};

    ghost Value = { FaultCounts };

    ghost view = { λ h. record {
      own = h.own_faults;
      disks = h.disk_faults;
      files = h.file_faults;
      doors = h.door_faults;
      ports = h.port_faults;
    } };
}

impl<
    'a,
    R: AllocGlobal + Files<File = File> + Net<Stream = TcpStream, Listener = TcpListener>,
> RealHost<'a, R> {
    /// The host of the process, which has handed out nothing.
    pub fn new(rt: &'a R) -> Self
        ensures { result ≡ record { own = 0; disks = 0; files = 0; doors = 0; ports = 0 } }
    {
        RealHost {
            rt,
            own_faults: 0,
            disk_faults: 0,
            file_faults: 0,
            door_faults: 0,
            port_faults: 0,
        }
    }
}

impl<'a, R: AllocGlobal + Files<File = File> + Net<Stream = TcpStream, Listener = TcpListener>> Host
    for RealHost<'a, R> {
    type Disk = FileDisk;

    type File = StdSource<File>;

    type Door = TcpDoor;

    type Port = FilePort;

    ghost host = { untold };

    fn disk(&mut self, name: &str) -> Result<FileDisk, Failed> {
        match open_disk(self.rt, name) {
            Ok(disk) => Ok(disk),
            Err(_) => Err(raise(&mut self.own_faults)),
        }
    }

    fn close(&mut self, _name: &str, disk: FileDisk) {
        count_return(&mut self.disk_faults, disk.faults());
    }

    fn file(&mut self, name: &str) -> Result<StdSource<File>, Failed> {
        match open_file(self.rt, name) {
            Ok(file) => Ok(file),
            Err(_) => Err(raise(&mut self.own_faults)),
        }
    }

    fn close_file(&mut self, _name: &str, file: StdSource<File>) {
        count_return(&mut self.file_faults, file.read_faults());
    }

    /// The doors share one listening socket.
    fn doors(
        &mut self,
        address: &str,
        readers: usize,
        connections: u32,
    ) -> Result<Vec<TcpDoor>, Stop<Failed>> {
        match listen(self.rt, address, readers, connections) {
            Ok(doors) => Ok(doors),
            Err(Stop::Fault(Failed)) => Err(Stop::Fault(raise(&mut self.own_faults))),
            Err(Stop::OutOfMemory) => Err(Stop::OutOfMemory),
        }
    }

    fn close_door(&mut self, door: TcpDoor) {
        count_return(&mut self.door_faults, door.faults());
    }

    fn port(&mut self, name: &str) -> Result<FilePort, Failed> {
        match open_port(self.rt, name) {
            Ok(port) => Ok(port),
            Err(_) => Err(raise(&mut self.own_faults)),
        }
    }

    fn close_port(&mut self, _name: &str, port: FilePort) {
        count_return(&mut self.port_faults, port.faults());
    }
}

/// A disk over the file at a path.
fn open_disk<R: AllocGlobal + Files<File = File>>(rt: &R, path: &str) -> io::Result<FileDisk>
    ensures content { IfOk result (λ disk. disk.content ≡ None) }
    ensures faults { IfOk result (λ disk. disk.faults ≡ 0) }
{
    let (file, size) = open_alone(rt, path)?;
    if size == 0 {
        sync_folder(rt, path)?;
    }
    FileDisk::new(file)
}

/// A scratch file over the file at a path, which is emptied once it is locked: so what is out as a
/// disk is left as it is, whatever links lead to it.
fn open_port<R: Files<File = File>>(rt: &R, path: &str) -> io::Result<FilePort>
    ensures { IfOk result (λ port. port ≡ record { appended = None; size = 0; faults = 0 }) }
{
    let (file, _size) = open_alone(rt, path)?;
    file.set_len(0)?;
    Ok(FilePort::new(file))
}

/// The file at a path, and no directory, pipe or device, with its size. It is made where there is
/// none, and is locked until it is let go: one that is out, here or from another program, is
/// refused.
fn open_alone<R: Files<File = File>>(rt: &R, path: &str) -> io::Result<(File, u64)> {
    let file = open_to_write(rt, path)?;
    file.try_lock()?;
    let found = file.metadata()?;
    if !found.is_file() {
        return Err(io::Error::from(io::ErrorKind::Unsupported));
    }
    let size = found.len();
    Ok((file, size))
}

/// Opens a file for reading and writing, and makes it where there is none.
fn open_to_write<R: Files<File = File>>(rt: &R, path: &str) -> io::Result<File> {
    let file = OpenOptions::new()
        .read(true)
        .write(true)
        .create(true)
        .open(rt, path)?;
    // What is meant for a standard stream that was closed must not land in a store.
    if file.as_raw_fd() <= 2 {
        return file.try_clone();
    }
    Ok(file)
}

/// Brings a new file's name to the device. An empty file may have been made by a run that was cut
/// off before it did so.
fn sync_folder<R: AllocGlobal + Files<File = File>>(rt: &R, path: &str) -> io::Result<()> {
    let mut folder = canonicalize(rt, path)?;
    folder.pop();
    File::open(rt, folder.as_str())?.sync_all()
}

/// Opens a file that is no directory.
fn open_file<R: Files<File = File>>(rt: &R, path: &str) -> io::Result<StdSource<File>>
    ensures { IfOk result (λ file. file ≡ source_alone None 0 0) }
{
    let file = File::open(rt, path)?;
    if file.metadata()?.is_dir() {
        return Err(io::Error::from(io::ErrorKind::IsADirectory));
    }
    Ok(StdSource::new(file))
}

/// Doors to a socket that listens at the address.
fn listen<R: AllocGlobal + Net<Stream = TcpStream, Listener = TcpListener>>(
    rt: &R,
    address: &str,
    readers: usize,
    connections: u32,
) -> Result<Vec<TcpDoor>, Stop<Failed>>
    ensures { IfOk result (λ doors. AreFresh readers connections (λ _. None) doors.items) }
{
    let Ok(listener) = TcpListener::bind(rt, address) else {
        return Err(Stop::Fault(Failed));
    };
    let mut doors = Vec::with_capacity(rt.alloc(), readers)?;
    for _ in 0..readers {
        let Ok(handle) = listener.try_clone() else {
            return Err(Stop::Fault(Failed));
        };
        doors.push_reserved(TcpDoor::new(handle, connections));
    }
    Ok(doors)
}
