//! A log of payloads on a disk.
ghost use Rattle.std.specs.Prelude.{◌≡◌};

use crate::format::Format;
use disk_model::Disk;
use std::marker::Model;

/// Payloads in the order in which they were added, on a disk. Each that is acknowledged outlives a
/// crash.
#[derive(Drop)]
pub struct RecordLog<D: Disk> {
    pub(crate) disk: D,
    pub(crate) format: Format,
    pub(crate) gate: u64,
    pub(crate) fault: Option<(u64, u64)>,
}

impl<D: Disk> Model for RecordLog<D> {
    ghost use Rattle.std.specs.Prelude.{◌<◌};
    ghost use Rattle.record_log.specs.Log.{Log};

    ghost Value = { Log D };

    ghost view = { λ l. record {
      disk = l.disk;
      format = l.format;
      gate = l.gate;
      fault = l.fault;
    } };

    ghost invariant = { λ l. l.gate < (D.disk l.disk).size };
}

impl<D: Disk> RecordLog<D> {
    /// The place of the closed gate, behind which the next payload goes. It is 12 in a new log.
    pub fn gate(&self) -> u64
        ensures { result ≡ self.now.gate }
    {
        self.gate
    }

    /// The format of the log's file.
    pub fn format(&self) -> Format
        ensures { result ≡ self.now.format }
    {
        self.format
    }

    /// The disk's counts of faults before and after the append that closed the log, if one did.
    pub fn fault(&self) -> Option<(u64, u64)>
        ensures { result ≡ self.now.fault }
    {
        self.fault
    }

    /// The disk, taken out.
    pub fn into_disk(self) -> D
        ensures { result ≡ self.disk }
    {
        let RecordLog {
            disk,
            format: _,
            gate: _,
            fault: _,
        } = self;
        disk
    }
}
