//! The scratch file of the system.
ghost use Rattle.std.specs.Prelude.{◌≡◌, None};

use crate::faults::Faults;
use crate::port::Port;
use crate::stream::Failed;
use std::fs::File;
use std::marker::Model;
use std::os::unix::fs::FileExt;

/// A scratch file over a file of the system, which is empty when it is taken over. It tells no
/// bytes, and counts each error of the system as a fault. What an append that failed has left, the
/// next one writes over.
#[derive(Drop)]
pub struct FilePort {
    file: File,
    size: u64,
    faults: Faults,
}

impl Model for FilePort {
    ghost use Rattle.std.specs.Prelude.{None};
    ghost use Rattle.outside.specs.Ports.{Scratch};

    ghost Value = { Scratch };

    ghost view = { λ p. record { appended = None; size = p.size; faults = p.faults } };
}

impl FilePort {
    /// Over a file that is open for reading and writing.
    pub fn new(file: File) -> Self
        ensures { result ≡ record { appended = None; size = 0; faults = 0 } }
    {
        FilePort {
            file,
            size: 0,
            faults: Faults::new(),
        }
    }

    /// Gives the file back, with all that was appended.
    pub fn into_file(self) -> File {
        self.file
    }
}

impl Port for FilePort {
    ghost use Rattle.std.proofs.Common.{rules};

    ghost port = { λ scratch. record scratch { appended = None } };

    fn append(&mut self, piece: &[u8]) -> Result<(), Failed> {
        // An end that could not be counted any more is not reached.
        let Some(end) = self.size.checked_add(piece.len() as u64) else {
            return Err(self.faults.raise());
        };
        if self.file.write_all_at(piece, self.size).is_err() {
            return Err(self.faults.raise());
        }
        self.size = end;
        Ok(())
    }

    fn read_at(&mut self, at: u64, into: &mut [u8]) -> Result<(), Failed> {
        if self.file.read_exact_at(into, at).is_err() {
            return Err(self.faults.raise());
        }
        Ok(())
    }

    fn faults(&self) -> u64 {
        self.faults.count()
    }

    ghost told_size = { λ it bytes told. Prim.search rules };
}
