//! What stands under the names of a host.
use disk_model::{Disk, MemDisk};
use host::{Host, MemFile, MemHost, RealHost, laws};
use outside::{Failed, MemPort, Port, Source};
use std::alloc::Global;
use std::fs;
use std::os::unix::fs::symlink;
use std::test::Fail;

/// Writes a byte behind what stands on a disk of the host, and gives its size then.
fn append_byte<H: Host>(host: &mut H, name: &str) -> Result<u64, Failed> {
    // law: a disk that was handed out is to be given back
    laws::what_is_handed_out_is_out();
    let mut disk = host.disk(name)?;
    let size = append_to(&mut disk);
    host.close(name, disk);
    size
}

fn append_to<D: Disk>(disk: &mut D) -> Result<u64, Failed> {
    let size = disk.size()?;
    if size > 8 {
        return Err(Failed);
    }
    disk.write_at(size, b"x")?;
    disk.size()
}

/// Reads up to eight bytes of a file of the host.
fn read_some<H: Host>(host: &mut H, name: &str, into: &mut [u8; 8]) -> Result<usize, Failed> {
    // law: a file that was handed out is to be given back
    laws::what_is_handed_out_is_out();
    let mut file = host.file(name)?;
    let read = file.read(into);
    host.close_file(name, file);
    read
}

/// A host with a disk `a` and a file `b`.
fn host_with_both(alloc: Global) -> Result<MemHost, Fail> {
    let mut host = MemHost::new(alloc);
    host.add_disk("a", MemDisk::new(alloc, 8, Vec::new(alloc))?)?;
    let bytes = Vec::from_slice(alloc, b"abc")?;
    let failing = Vec::new(alloc);
    host.add_file("b", MemFile { bytes, failing })?;
    Ok(host)
}

#[test]
fn host_in_memory_keeps_what_stands_under_names(rt: HostRuntime) -> Result<(), Fail> {
    let mut host = host_with_both(rt.alloc())?;
    let sizes = [
        append_byte(&mut host, "a"),
        append_byte(&mut host, "a"),
        append_byte(&mut host, "b"),
    ];
    assert_eq!(rt; sizes, [Ok(1), Ok(2), Err(Failed)]);
    let mut into = [0; 8];
    let reads = [
        read_some(&mut host, "b", &mut into),
        read_some(&mut host, "a", &mut into),
    ];
    assert_eq!(rt; reads, [Ok(3), Err(Failed)]);
    assert_eq!(rt; &into[..3], b"abc".as_slice());
    assert_eq!(rt; host.calls().len(), 8);
    Ok(())
}

/// What appending a byte to a disk by one host answers while another host has it out, and then.
fn append_beside<H: Host>(
    out: &mut H,
    host: &mut H,
    name: &str,
) -> Result<[Result<u64, Failed>; 2], Failed> {
    // law: a disk that was handed out is to be given back
    laws::what_is_handed_out_is_out();
    let disk = out.disk(name)?;
    let beside = append_byte(host, name);
    out.close(name, disk);
    Ok([beside, append_byte(host, name)])
}

#[test]
fn host_of_the_system_hands_a_file_to_one_at_a_time(rt: HostRuntime) -> Result<(), Fail> {
    let path = "host_of_the_system";
    let _ = fs::remove_file(&rt, path);
    let (mut out, mut host) = (RealHost::new(&rt), RealHost::new(&rt));
    let appended = append_beside(&mut out, &mut host, path);
    assert_eq!(rt; appended, Ok([Err(Failed), Ok(1)]));
    fs::remove_file(&rt, path)?;
    Ok(())
}

#[test]
fn host_of_the_system_has_no_disk_over_a_folder(rt: HostRuntime) -> Result<(), Fail> {
    let path = "folder_of_the_system";
    fs::create_dir(&rt, path)?;
    let appended = append_byte(&mut RealHost::new(&rt), path);
    fs::remove_dir(&rt, path)?;
    assert_eq!(rt; appended, Err(Failed));
    Ok(())
}

/// Appends two bytes to a scratch file of the host, and reads back the first two that it has then.
fn append_and_read<H: Host>(host: &mut H, name: &str) -> Result<[u8; 2], Failed> {
    // law: a scratch file that was handed out is to be given back
    laws::what_is_handed_out_is_out();
    let mut port = host.port(name)?;
    let read = append_then_read(&mut port);
    host.close_port(name, port);
    read
}

fn append_then_read<P: Port>(port: &mut P) -> Result<[u8; 2], Failed> {
    port.append(b"xy")?;
    let mut into = [0; 2];
    port.read_at(0, &mut into)?;
    Ok(into)
}

/// A host with disks `a` and `b`, and with scratch files: `a` has room for three bytes, `c` keeps
/// none, and of `d` the second call fails.
fn host_with_ports(alloc: Global) -> Result<MemHost, Fail> {
    let mut host = MemHost::new(alloc);
    host.add_disk("a", MemDisk::new(alloc, 8, Vec::new(alloc))?)?;
    host.add_disk("b", MemDisk::new(alloc, 8, Vec::new(alloc))?)?;
    host.add_port("a", MemPort::new(alloc, 3, Vec::new(alloc))?)?;
    host.add_port("c", MemPort::blank(alloc, Vec::new(alloc)))?;
    let second = Vec::from_slice(alloc, &[1])?;
    host.add_port("d", MemPort::new(alloc, 3, second)?)?;
    Ok(host)
}

#[test]
fn scratch_files_in_memory_are_emptied_and_stand_apart(rt: HostRuntime) -> Result<(), Fail> {
    let mut host = host_with_ports(rt.alloc())?;
    let rows = [
        // emptied each time: there is no room for four bytes
        ("a", Ok(*b"xy")),
        ("a", Ok(*b"xy")),
        ("b", Err(Failed)),
        ("c", Ok([0, 0])),
        // the read fails, and what came back with a fault is refused
        ("d", Err(Failed)),
        ("d", Err(Failed)),
        ("e", Err(Failed)),
    ];
    for (name, read) in rows {
        assert_eq!(rt; append_and_read(&mut host, name), read);
    }
    assert_eq!(rt; append_byte(&mut host, "a"), Ok(1));
    assert_eq!(rt; append_byte(&mut host, "c"), Err(Failed));
    assert_eq!(rt; host.calls().len(), 14);
    Ok(())
}

#[test]
fn scratch_file_in_memory_is_handed_out_once(rt: HostRuntime) -> Result<(), Fail> {
    let mut host = host_with_ports(rt.alloc())?;
    assert!(rt; host.port("c").is_ok());
    assert!(rt; host.port("c").is_err());
    Ok(())
}

/// What two scratch files by one host give while another host has a disk out.
fn append_beside_disk<H: Host>(
    out: &mut H,
    host: &mut H,
    disk_name: &str,
    names: [&str; 2],
) -> Result<[Result<[u8; 2], Failed>; 2], Failed> {
    // law: a disk that was handed out is to be given back
    laws::what_is_handed_out_is_out();
    let disk = out.disk(disk_name)?;
    let read = [
        append_and_read(host, names[0]),
        append_and_read(host, names[1]),
    ];
    out.close(disk_name, disk);
    Ok(read)
}

#[test]
fn scratch_file_of_the_system_is_no_store(rt: HostRuntime) -> Result<(), Fail> {
    let (store, link) = ("store_of_the_system", "link_to_the_store");
    let _ = fs::remove_file(&rt, link);
    fs::write(&rt, store, b"games".as_slice())?;
    symlink(&rt, store, link)?;
    let (mut out, mut host) = (RealHost::new(&rt), RealHost::new(&rt));
    let read = append_beside_disk(&mut out, &mut host, store, [store, link]);
    assert_eq!(rt; read, Ok([Err(Failed), Err(Failed)]));
    assert_eq!(rt; fs::read(&rt, store)?.as_slice(), b"games".as_slice());
    fs::remove_file(&rt, link)?;
    fs::remove_file(&rt, store)?;
    Ok(())
}

/// What a scratch file by one host gives while another host has the name out.
fn append_beside_port<H: Host>(
    out: &mut H,
    host: &mut H,
    name: &str,
) -> Result<Result<[u8; 2], Failed>, Failed> {
    // law: a scratch file that was handed out is to be given back
    laws::what_is_handed_out_is_out();
    let port = out.port(name)?;
    let read = append_and_read(host, name);
    out.close_port(name, port);
    Ok(read)
}

#[test]
fn scratch_file_of_the_system_is_emptied_and_stays(rt: HostRuntime) -> Result<(), Fail> {
    let path = "scratch_of_the_system";
    fs::write(&rt, path, b"before".as_slice())?;
    let (mut out, mut host) = (RealHost::new(&rt), RealHost::new(&rt));
    let beside = append_beside_port(&mut out, &mut host, path);
    assert_eq!(rt; beside, Ok(Err(Failed)));
    assert_eq!(rt; append_and_read(&mut host, path), Ok(*b"xy"));
    assert_eq!(rt; fs::read(&rt, path)?.as_slice(), b"xy".as_slice());
    fs::remove_file(&rt, path)?;
    Ok(())
}

#[test]
fn host_of_the_system_has_no_scratch_file_over_a_folder(rt: HostRuntime) -> Result<(), Fail> {
    let path = "scratch_folder_of_the_system";
    fs::create_dir(&rt, path)?;
    let read = append_and_read(&mut RealHost::new(&rt), path);
    fs::remove_dir(&rt, path)?;
    assert_eq!(rt; read, Err(Failed));
    Ok(())
}
