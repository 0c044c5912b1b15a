//! A disk over a file of the system.
ghost use Rattle.std.specs.Prelude.{◌≡◌, None, IfOk};
ghost use Rattle.disk_model.specs.Disk.{DiskState};

use crate::disk::Disk;
use outside::{Failed, raise};
use std::fs::File;
use std::io;
use std::marker::Model;
use std::os::fd::AsRawFd;
use std::os::unix::fs::FileExt;

/// A disk over a file of the system. It tells no content, and counts each error of the system as a
/// fault. It goes by the size that the file had when it was taken over and by its own writes: a file
/// that has become shorter meanwhile fails each write and sync. What stood there before is to be read
/// behind a sync.
#[derive(Drop)]
pub struct FileDisk {
    file: File,
    size: u64,
    is_settled: bool,
    faults: u64,
}

impl Model for FileDisk {
    ghost use Rattle.std.specs.Prelude.{None};
    ghost use Rattle.disk_model.specs.Disk.{DiskState};

    ghost Value = { DiskState };

    ghost view = { λ d. record { content = None; size = d.size; moment = 0; faults = d.faults } };
}

impl FileDisk {
    /// A disk over a file that is open for reading and writing.
    pub fn new(file: File) -> io::Result<Self>
        ensures { IfOk result (λ disk. disk ≡ record {
          content = None;
          size = disk.size;
          moment = 0;
          faults = 0;
        }) }
    {
        let size = file.metadata()?.len();
        Ok(FileDisk {
            file,
            size,
            is_settled: false,
            faults: 0,
        })
    }
}

impl Disk for FileDisk {
    ghost use Rattle.std.proofs.Common.{rules};

    ghost disk = { λ state. record state { content = None } };

    ghost left_since = { λ _ _ _. ⊥ };

    fn size(&mut self) -> Result<u64, Failed> {
        Ok(self.size)
    }

    fn read_at(&mut self, at: u64, into: &mut [u8]) -> Result<(), Failed> {
        if self.file.read_exact_at(into, at).is_err() {
            return Err(raise(&mut self.faults));
        }
        Ok(())
    }

    fn write_at(&mut self, at: u64, piece: &[u8]) -> Result<(), Failed> {
        if write_within(&self.file, self.size, at, piece).is_err() {
            return Err(raise(&mut self.faults));
        }
        self.size = self.size.max(at + piece.len() as u64);
        Ok(())
    }

    /// Waits until the file's bytes and size are with the device. From the first sync on, reads give
    /// what the device has.
    fn sync(&mut self) -> Result<(), Failed> {
        if bring_to_device(&self.file, self.size, self.is_settled).is_err() {
            return Err(raise(&mut self.faults));
        }
        self.is_settled = true;
        Ok(())
    }

    fn faults(&self) -> u64 {
        self.faults
    }

    ghost told_size = { λ it file told. Prim.search rules };

    ghost told_left = { λ it file told. Prim.search rules };

    ghost counts_now = { λ it t image earlier left. left };
}

/// Fails where the file is shorter than it was: a write past its end would leave a hole of zeros,
/// which reads as the end of what was stored.
fn check_size(file: &File, size: u64) -> io::Result<()> {
    if file.metadata()?.len() < size {
        return Err(io::Error::from(io::ErrorKind::UnexpectedEof));
    }
    Ok(())
}

/// Writes the piece to a file that still has its size.
fn write_within(file: &File, size: u64, at: u64, piece: &[u8]) -> io::Result<()> {
    check_size(file, size)?;
    file.write_all_at(piece, at)
}

/// Syncs a file that still has its size. The first time it also lets go of the pages that the system
/// holds of it: those that an earlier process failed to sync count as written, and the device
/// doesn't have them.
fn bring_to_device(file: &File, size: u64, is_settled: bool) -> io::Result<()> {
    check_size(file, size)?;
    file.sync_all()?;
    if is_settled {
        return Ok(());
    }
    match libc::posix_fadvise(file.as_raw_fd(), 0, 0, libc::POSIX_FADV_DONTNEED) {
        0 => Ok(()),
        error => Err(io::Error::from_raw_os_error(error)),
    }
}
