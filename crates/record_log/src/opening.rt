//! Opening a log.
ghost use Rattle.std.specs.Prelude.{◌≡◌, ◌<◌, [], Err, IfSome, IfOk, IfErr, OnOk};
ghost use Rattle.disk_model.specs.Disk.{IsQuiet};
ghost use Rattle.record_log.specs.Log.{EachImage, reading_of, HasPayloads, IsOpened, IsNotOpened};
ghost use Rattle.record_log.specs.Reading.{IsStop, IsUpTo, BeginsWith, EndsWith};

use crate::fault::{Back, OpenFault};
use crate::format::Format;
use crate::log::RecordLog;
use crate::reading::{read_header, read_record};
use crate::stop::ReadStop;
use disk_model::Disk;
use explorer_model::archive::Bytes;
use std::alloc::Global;

/// A log and the payloads that it holds.
#[derive(Drop)]
pub struct Opened<D: Disk> {
    pub log: RecordLog<D>,
    pub payloads: Vec<Bytes>,
}

/// Opens the log on a disk. It begins with a sync and writes nothing, so that a crash leaves what
/// one could have left before.
pub fn open<D: Disk>(
    alloc: Global,
    disk: D,
    format: Format,
) -> Result<Opened<D>, Back<D, OpenFault>>
    ensures opened { IfOk result (λ opened. IsOpened D.disk D.left_since format
        opened.payloads.items disk opened.log) }
    ensures refused { IfErr result (λ back. IsNotOpened D.disk format back.fault disk back.disk) }
    ensures quiet { IfOk result (λ opened. IsQuiet D.disk D.left_since disk opened.log.disk) }
    ensures no_fault { IfOk result
        (λ opened. (D.disk opened.log.disk).faults ≡ (D.disk disk).faults) }
    ensures quiet_refused { IfErr result (λ back. IsQuiet D.disk D.left_since disk back.disk) }
{
    let mut disk = disk;
    let before = disk.faults();
    let fault = match read_log(alloc, &mut disk, format) {
        Ok(Records { gate, payloads }) => {
            let log = RecordLog {
                disk,
                format,
                gate,
                fault: None,
            };
            return Ok(Opened { log, payloads });
        }
        Err(ReadStop::Log(fault)) => OpenFault::Log(fault),
        Err(ReadStop::Memory) => OpenFault::OutOfMemory,
        Err(ReadStop::Disk) => OpenFault::DiskFault {
            before,
            after: disk.faults(),
        },
    };
    Err(Back { disk, fault })
}

/// The payloads of a log, and the gate behind them.
#[derive(Drop)]
struct Records {
    gate: u64,
    payloads: Vec<Bytes>,
}

/// Reads the whole log once all of it is with the device.
fn read_log<D: Disk>(alloc: Global, disk: &mut D, format: Format) -> Result<Records, ReadStop>
    ensures quiet { IsQuiet D.disk D.left_since disk.old disk.new }
    ensures no_fault { OnOk result ((D.disk disk.new).faults ≡ (D.disk disk.old).faults) }
    ensures records { IfOk result (λ r.
        IsUpTo format (D.disk disk.new).size r.gate r.payloads.items) }
    ensures read { IfOk result (λ r. IfSome (D.disk disk.old).content
        (EndsWith format r.payloads.items)) }
    ensures images { IfOk result (λ r. EachImage D.disk D.left_since disk.new
        (EndsWith format r.payloads.items)) }
    ensures stops { IfErr result (λ stop. IsStop
        (λ fault file. reading_of format file ≡ Err fault)
        stop (D.disk disk.old) (D.disk disk.new)) }
{
    disk.sync()?;
    let size = disk.size()?;
    read_header(disk, size, format)?;
    read_records(alloc, disk, size, format)
}

/// Reads the records behind the header.
fn read_records<D: Disk>(
    alloc: Global,
    disk: &mut D,
    size: u64,
    format: Format,
) -> Result<Records, ReadStop>
    requires size { size ≡ (D.disk disk.old).size }
    requires long { 12 < size }
    requires header { IfSome (D.disk disk.old).content (BeginsWith format [] 12) }
    ensures quiet { IsQuiet D.disk D.left_since disk.old disk.new }
    ensures no_fault { OnOk result ((D.disk disk.new).faults ≡ (D.disk disk.old).faults) }
    ensures records { IfOk result (λ r. IsUpTo format size r.gate r.payloads.items) }
    ensures read { IfOk result (λ r. IfSome (D.disk disk.old).content
        (EndsWith format r.payloads.items)) }
    ensures stops { IfErr result (λ stop. IsStop
        (λ fault file. reading_of format file ≡ Err fault)
        stop (D.disk disk.old) (D.disk disk.new)) }
{
    let mut gate = 12;
    let mut payloads = Vec::new(alloc);
    while let Some(payload) = read_record(alloc, disk, size, gate, format.most)? {
        gate += 5 + payload.len() as u64;
        payloads.push(payload)?;
    }
    Ok(Records { gate, payloads })
}
