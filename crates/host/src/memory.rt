//! A host in memory.
ghost use Rattle.std.specs.Prelude.{◌≡◌, ◌≤◌, ◌<◌, ◌+◌, ◌∷◌, ◌++◌, [], List, ℕ, None, Some, length, map, vec_len, vec_capacity, string_bytes, IfOk, IfSome, OnOk, MatchOption, MatchResult, drop, slice_get};
ghost use Rattle.std.specs.Bool.{OnTrue};
ghost use Rattle.std.specs.Vec.Iter.{into_iter_items};
ghost use Rattle.disk_model.specs.Memory.{state_of};
ghost use Rattle.outside.specs.Memory.{stream_of};
ghost use Rattle.outside.specs.Ports.{scratch_of};
ghost use Rattle.outside.specs.Stream.{Rises, source_alone};
ghost use Rattle.host.specs.Hosts.{ADisk, AFile, ADoor, APort, AreFresh, HandsDisk, HandsDoors, HandsFile, HandsPort, HostCall, HostState, DiskRefused, DoorsRefused, FileRefused, PortRefused};
ghost use Rattle.host.specs.Memory.{IsRefusalOf, NotesOrNot, each_links, host_of, links_of, place_in};

use crate::counts::count_return;
use crate::host::Host;
use disk_model::{Disk, MemDisk};
use explorer_model::fault::Stop;
use outside::{Failed, MemDoor, MemLink, MemPort, MemSource, Port, Source, raise};
use std::alloc::{AllocError, Global};
use std::marker::Model;
use std::vec::IntoIter;

/// The most bytes that one read of a file gives.
const READ_LIMIT: usize = 4096;

/// What stands under a name.
#[derive(Drop)]
pub struct Named<T> {
    name: String,
    it: T,
}

impl<T> Named<T> {
    /// A thing under its name.
    pub fn new(name: String, it: T) -> Self
        ensures { result ≡ record { name = name; it = it } }
    {
        Named { name, it }
    }
}

/// A file in memory. The reads whose numbers are in `failing` fail, counted from 0.
#[derive(Drop)]
pub struct MemFile {
    pub bytes: Vec<u8>,
    pub failing: Vec<u64>,
}

/// The links that come to one door. The accepts whose numbers are in `failing` fail, counted from
/// 0.
#[derive(Drop)]
pub struct MemLinks {
    pub links: Vec<MemLink>,
    pub failing: Vec<u64>,
}

/// The links that come to an address, by its doors.
#[derive(Drop)]
pub struct MemAddress {
    pub doors: Vec<MemLinks>,
}

/// A call that a host in memory remembers. What has a place stands there in the host's list.
#[derive(Drop)]
pub enum MemCall {
    DiskOut {
        place: usize,
    },
    DiskRefused {
        name: String,
    },
    DiskBack {
        place: usize,
    },
    FileOut {
        place: usize,
    },
    FileRefused {
        name: String,
    },
    FileBack {
        place: usize,
        file: MemSource,
    },
    DoorsOut {
        place: usize,
        readers: usize,
        connections: u32,
    },
    DoorsRefused {
        name: String,
        readers: usize,
        connections: u32,
    },
    DoorBack {
        door: MemDoor,
    },
    PortOut {
        place: usize,
    },
    PortRefused {
        name: String,
    },
    PortBack {
        place: usize,
    },
}

/// A host over named disks, files, links and scratch files in memory. It refuses a name that it
/// doesn't know, a disk or a scratch file that is out or came back with faults, links that have
/// come, and what it finds no memory for. When it hands a thing out it takes the room for noting its
/// return.
#[derive(Drop)]
pub struct MemHost {
    alloc: Global,
    disks: Vec<Named<Option<MemDisk>>>,
    files: Vec<Named<MemFile>>,
    addresses: Vec<Named<Option<MemAddress>>>,
    ports: Vec<Named<Option<MemPort>>>,
    calls: Vec<MemCall>,
    out: usize,
    own_faults: u64,
    disk_faults: u64,
    file_faults: u64,
    door_faults: u64,
    port_faults: u64,
}

impl Model for MemHost {
    ghost use Rattle.std.specs.Prelude.{vec_len, vec_capacity};
    ghost use Rattle.host.specs.Memory.{MemoryHost, IsKept, calls_of, stock};

    ghost Value = { MemoryHost };

    ghost view = { λ h. record {
      stock = stock h.disks.items h.files.items h.addresses.items h.ports.items;
      calls = h.calls.items;
      counts = record {
        own = h.own_faults;
        disks = h.disk_faults;
        files = h.file_faults;
        doors = h.door_faults;
        ports = h.port_faults;
      };
    } };

    ghost invariant = { λ h.
        let it = stock h.disks.items h.files.items h.addresses.items h.ports.items in
        IsKept it (calls_of it h.calls.items) h.out (vec_len h.calls) (vec_capacity h.calls) };
}

impl MemHost {
    /// A host with nothing under any name.
    pub fn new(alloc: Global) -> Self
        ensures { result ≡ record {
          stock = record { disks = []; files = []; addresses = []; ports = [] };
          calls = [];
          counts = record { own = 0; disks = 0; files = 0; doors = 0; ports = 0 };
        } }
    {
        MemHost {
            alloc,
            disks: Vec::new(alloc),
            files: Vec::new(alloc),
            addresses: Vec::new(alloc),
            ports: Vec::new(alloc),
            calls: Vec::new(alloc),
            out: 0,
            own_faults: 0,
            disk_faults: 0,
            file_faults: 0,
            door_faults: 0,
            port_faults: 0,
        }
    }

    /// Puts a disk under a name that has none.
    pub fn add_disk(&mut self, name: &str, disk: MemDisk) -> Result<(), AllocError>
        requires { self.old.calls ≡ [] }
        ensures calls { self.new.calls ≡ [] }
        ensures added { OnOk result ((slot : _) × (string_bytes slot.name ≡ name.now)
            × (slot.it ≡ Some disk) × (self.new.stock ≡ record self.old.stock {
              disks = self.old.stock.disks ++ slot ∷ [];
            })) }
    {
        let name = String::from_str(self.alloc, name)?;
        self.disks.push(Named::new(name, Some(disk)))?;
        Ok(())
    }

    /// Puts a file under a name that has none.
    pub fn add_file(&mut self, name: &str, file: MemFile) -> Result<(), AllocError>
        requires { self.old.calls ≡ [] }
        ensures calls { self.new.calls ≡ [] }
        ensures added { OnOk result ((slot : _) × (string_bytes slot.name ≡ name.now)
            × (slot.it ≡ file) × (self.new.stock ≡ record self.old.stock {
              files = self.old.stock.files ++ slot ∷ [];
            })) }
    {
        let name = String::from_str(self.alloc, name)?;
        self.files.push(Named::new(name, file))?;
        Ok(())
    }

    /// Puts the links to each door under an address that has none.
    pub fn add_links(&mut self, address: &str, links: Vec<MemLinks>) -> Result<(), AllocError>
        requires { self.old.calls ≡ [] }
        ensures calls { self.new.calls ≡ [] }
        ensures added { OnOk result ((slot : _) × (string_bytes slot.name ≡ address.now)
            × (slot.it ≡ Some (record { doors = links }))
            × (self.new.stock ≡ record self.old.stock {
              addresses = self.old.stock.addresses ++ slot ∷ [];
            })) }
    {
        let name = String::from_str(self.alloc, address)?;
        let doors = MemAddress { doors: links };
        self.addresses.push(Named::new(name, Some(doors)))?;
        Ok(())
    }

    /// Puts a scratch file under a name that has none.
    pub fn add_port(&mut self, name: &str, port: MemPort) -> Result<(), AllocError>
        requires { self.old.calls ≡ [] }
        ensures calls { self.new.calls ≡ [] }
        ensures added { OnOk result ((slot : _) × (string_bytes slot.name ≡ name.now)
            × (slot.it ≡ Some port) × (self.new.stock ≡ record self.old.stock {
              ports = self.old.stock.ports ++ slot ∷ [];
            })) }
    {
        let name = String::from_str(self.alloc, name)?;
        self.ports.push(Named::new(name, Some(port)))?;
        Ok(())
    }

    /// The calls so far, the oldest first.
    pub fn calls(&self) -> &[MemCall]
        ensures { result.now ≡ self.now.calls }
    {
        self.calls.as_slice()
    }

    fn lend_disk(&mut self, name: &str) -> Option<MemDisk>
        ensures { MatchOption result (self.new ≡ self.old) (λ disk.
            HandsDisk name.now (state_of disk) (host_of self.old) (host_of self.new)) }
    {
        let place = place_of(&self.disks, name)?;
        if !make_room(&mut self.calls, self.out, 2) {
            return None;
        }
        let disk = take_ready(&mut self.disks[place].it)?;
        self.calls.push_reserved(MemCall::DiskOut { place });
        self.out += 1;
        Some(disk)
    }

    fn lend_file(&mut self, name: &str) -> Option<MemSource>
        ensures { MatchOption result (self.new ≡ self.old) (λ file.
            HandsFile name.now file.stream (host_of self.old) (host_of self.new)) }
    {
        let place = place_of(&self.files, name)?;
        if !make_room(&mut self.calls, self.out, 2) {
            return None;
        }
        let file = source_of(self.alloc, &self.files[place].it)?;
        self.calls.push_reserved(MemCall::FileOut { place });
        self.out += 1;
        Some(file)
    }

    /// Nothing where the address is unknown or its links have come.
    fn lend_doors(
        &mut self,
        address: &str,
        readers: usize,
        connections: u32,
    ) -> Result<Option<Vec<MemDoor>>, AllocError>
        ensures { MatchResult result
            (λ made. MatchOption made (self.new ≡ self.old) (λ doors.
            HandsDoors address.now readers connections (map (λ door. door.connections) doors.items)
            (host_of self.old) (host_of self.new)))
            (λ _. host_of self.new ≡ record (host_of self.old)
            { links = (host_of self.new).links }) }
    {
        let Some(place) = place_of(&self.addresses, address) else {
            return Ok(None);
        };
        let Some(extra) = readers.checked_add(1) else {
            return Err(AllocError);
        };
        if !make_room(&mut self.calls, self.out, extra) {
            return Err(AllocError);
        }
        let Some(address) = self.addresses[place].it.take() else {
            return Ok(None);
        };
        let Ok(doors) = doors_of(self.alloc, address, readers, connections) else {
            return Err(AllocError);
        };
        self.calls.push_reserved(MemCall::DoorsOut {
            place,
            readers,
            connections,
        });
        self.out += readers;
        Ok(Some(doors))
    }

    fn lend_port(&mut self, name: &str) -> Option<MemPort>
        ensures { MatchOption result (self.new ≡ self.old) (λ port.
            HandsPort name.now (scratch_of port) (host_of self.old) (host_of self.new)) }
    {
        let place = place_of(&self.ports, name)?;
        if !make_room(&mut self.calls, self.out, 2) {
            return None;
        }
        let mut port = take_ready_port(&mut self.ports[place].it)?;
        port.clear();
        self.calls.push_reserved(MemCall::PortOut { place });
        self.out += 1;
        Some(port)
    }

    /// Counts a call that is refused, and notes it, where there is memory for that.
    fn refuse(&mut self, call: Option<MemCall>) -> Failed
        requires { (is : HostCall) × IfSome call (IsRefusalOf is) }
        ensures rises { Rises self.old.counts.own self.new.counts.own }
        ensures calls { NotesOrNot call self.old.calls self.new.calls }
        ensures rest { self.new ≡ record self.old {
          calls = self.new.calls;
          counts = record self.old.counts { own = self.new.counts.own };
        } }
    {
        note_if_room(&mut self.calls, self.out, call);
        raise(&mut self.own_faults)
    }
}

impl Host for MemHost {
    type Disk = MemDisk;

    type File = MemSource;

    type Door = MemDoor;

    type Port = MemPort;

    ghost host = { host_of };

    fn disk(&mut self, name: &str) -> Result<MemDisk, Failed> {
        match self.lend_disk(name) {
            Some(disk) => Ok(disk),
            None => Err(self.refuse(disk_refused(self.alloc, name))),
        }
    }

    fn close(&mut self, name: &str, disk: MemDisk) {
        count_return(&mut self.disk_faults, disk.faults());
        let Some(place) = place_of(&self.disks, name) else {
            unreachable!();
        };
        self.disks[place].it = Some(disk);
        self.calls.push_reserved(MemCall::DiskBack { place });
        self.out -= 1;
    }

    fn file(&mut self, name: &str) -> Result<MemSource, Failed> {
        match self.lend_file(name) {
            Some(file) => Ok(file),
            None => Err(self.refuse(file_refused(self.alloc, name))),
        }
    }

    fn close_file(&mut self, name: &str, file: MemSource) {
        count_return(&mut self.file_faults, file.read_faults());
        let Some(place) = place_of(&self.files, name) else {
            unreachable!();
        };
        self.calls.push_reserved(MemCall::FileBack { place, file });
        self.out -= 1;
    }

    fn doors(
        &mut self,
        address: &str,
        readers: usize,
        connections: u32,
    ) -> Result<Vec<MemDoor>, Stop<Failed>> {
        match self.lend_doors(address, readers, connections) {
            Ok(Some(doors)) => Ok(doors),
            Ok(None) => {
                let call = doors_refused(self.alloc, address, readers, connections);
                Err(Stop::Fault(self.refuse(call)))
            }
            Err(AllocError) => Err(Stop::OutOfMemory),
        }
    }

    fn close_door(&mut self, door: MemDoor) {
        count_return(&mut self.door_faults, door.faults());
        self.calls.push_reserved(MemCall::DoorBack { door });
        self.out -= 1;
    }

    fn port(&mut self, name: &str) -> Result<MemPort, Failed> {
        match self.lend_port(name) {
            Some(port) => Ok(port),
            None => Err(self.refuse(port_refused(self.alloc, name))),
        }
    }

    fn close_port(&mut self, name: &str, port: MemPort) {
        count_return(&mut self.port_faults, port.faults());
        let Some(place) = place_of(&self.ports, name) else {
            unreachable!();
        };
        self.ports[place].it = Some(port);
        self.calls.push_reserved(MemCall::PortBack { place });
        self.out -= 1;
    }
}

/// The place at which something stands under the name.
fn place_of<T>(slots: &[Named<T>], name: &str) -> Option<usize>
    ensures { result ≡ place_in name.now slots.now }
{
    slots.iter().position(|slot| slot.name.as_str() == name)
}

/// Makes room for so many more notes than things are out, if there is memory.
fn make_room(calls: &mut Vec<MemCall>, out: usize, extra: usize) -> bool
    ensures items { calls.new.items ≡ calls.old.items }
    ensures size { vec_len calls.new ≡ vec_len calls.old }
    ensures kept { vec_capacity calls.old ≤ vec_capacity calls.new }
    ensures room { OnTrue result (vec_len calls.new + out + extra ≤ vec_capacity calls.new) }
{
    match out.checked_add(extra) {
        Some(room) => calls.reserve(room).is_ok(),
        None => false,
    }
}

/// Notes a call, if there is one and room besides that for the things that are out.
fn note_if_room(calls: &mut Vec<MemCall>, out: usize, call: Option<MemCall>)
    requires { vec_len calls.old + out ≤ vec_capacity calls.old }
    ensures calls { NotesOrNot call calls.old.items calls.new.items }
    ensures room { vec_len calls.new + out ≤ vec_capacity calls.new }
{
    let Some(call) = call else {
        return;
    };
    if make_room(calls, out, 1) {
        calls.push_reserved(call);
    }
}

fn disk_refused(alloc: Global, name: &str) -> Option<MemCall>
    ensures { IfSome result (IsRefusalOf (DiskRefused name.now)) }
{
    let name = String::from_str(alloc, name).ok()?;
    Some(MemCall::DiskRefused { name })
}

fn file_refused(alloc: Global, name: &str) -> Option<MemCall>
    ensures { IfSome result (IsRefusalOf (FileRefused name.now)) }
{
    let name = String::from_str(alloc, name).ok()?;
    Some(MemCall::FileRefused { name })
}

fn doors_refused(alloc: Global, address: &str, readers: usize, connections: u32) -> Option<MemCall>
    ensures { IfSome result (IsRefusalOf (DoorsRefused address.now readers connections)) }
{
    let name = String::from_str(alloc, address).ok()?;
    Some(MemCall::DoorsRefused {
        name,
        readers,
        connections,
    })
}

fn port_refused(alloc: Global, name: &str) -> Option<MemCall>
    ensures { IfSome result (IsRefusalOf (PortRefused name.now)) }
{
    let name = String::from_str(alloc, name).ok()?;
    Some(MemCall::PortRefused { name })
}

/// Takes a disk that is not out and has no faults.
fn take_ready(disk: &mut Option<MemDisk>) -> Option<MemDisk>
    ensures { MatchOption result (disk.new ≡ disk.old)
        (λ taken. (disk.old ≡ Some taken) × (taken.faults ≡ 0) × (disk.new ≡ None)) }
{
    let taken = disk.take()?;
    if taken.faults() > 0 {
        *disk = Some(taken);
        return None;
    }
    Some(taken)
}

/// Takes a scratch file that is not out and has no faults.
fn take_ready_port(port: &mut Option<MemPort>) -> Option<MemPort>
    ensures { MatchOption result (port.new ≡ port.old)
        (λ taken. (port.old ≡ Some taken) × (taken.faults ≡ 0) × (port.new ≡ None)) }
{
    let taken = port.take()?;
    if taken.faults() > 0 {
        *port = Some(taken);
        return None;
    }
    Some(taken)
}

fn source_of(alloc: Global, file: &MemFile) -> Option<MemSource>
    ensures { IfSome result (λ source.
        source.stream ≡ source_alone (Some file.now.bytes.items) 0 0) }
{
    let bytes = file.bytes.to_vec(alloc).ok()?;
    let failing = file.failing.to_vec(alloc).ok()?;
    Some(MemSource::new(bytes, READ_LIMIT, failing))
}

/// One door for each reader. No link comes to one for which none are there.
fn doors_of(
    alloc: Global,
    address: MemAddress,
    readers: usize,
    connections: u32,
) -> Result<Vec<MemDoor>, AllocError>
    ensures { IfOk result (λ doors. AreFresh readers connections (each_links (Some address))
        (map (λ door. door.connections) doors.items)) }
{
    let mut doors = Vec::with_capacity(alloc, readers)?;
    let mut rest = address.doors.into_iter();
    for _ in 0..readers {
        let MemLinks { links, failing } = next_links(alloc, &mut rest);
        doors.push_reserved(MemDoor::new(alloc, links, connections, failing)?);
    }
    Ok(doors)
}

/// The links to the next door.
fn next_links(alloc: Global, rest: &mut IntoIter<MemLinks>) -> MemLinks
    ensures links { links_of (slice_get (into_iter_items rest.old) 0)
        ≡ Some (map stream_of result.links.items) }
    ensures rest { into_iter_items rest.new ≡ drop 1 (into_iter_items rest.old) }
{
    match rest.next() {
        Some(links) => links,
        None => MemLinks {
            links: Vec::new(alloc),
            failing: Vec::new(alloc),
        },
    }
}
