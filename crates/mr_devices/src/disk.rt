//! Device files of the system.

ghost use Rattle.std.specs.Prelude.{◌≡◌, None};

use crate::counts::one_more;
use crate::devices::Devices;
use mr_io::{Failed, FilesError};
use std::alloc::Global;
use std::fs::{File, OpenOptions};
use std::marker::Model;
use std::os::unix::fs::FileExt;
use std::rt;

/// The device files of the system, by their paths. They tell nothing. A file that can't be opened, and a write
/// that fails, is a fault.
#[derive(Drop)]
pub struct DiskDevices<R: rt::Files<File = File> + Drop> {
    system: R,
    opened: Vec<File>,
    faults: u64,
}

impl<R: rt::Files<File = File> + Drop> Model for DiskDevices<R> {
    ghost use Rattle.std.specs.Prelude.{ℕ};

    // The faults.
    ghost Value = { ℕ };

    ghost view = { λ devices. devices.faults };
}

impl<R: rt::Files<File = File> + Drop> DiskDevices<R> {
    /// The device files of this system, with none open and no faults.
    pub fn new(alloc: Global, system: R) -> DiskDevices<R>
        ensures { result ≡ 0 }
    {
        DiskDevices {
            system,
            opened: Vec::new(alloc),
            faults: 0,
        }
    }

    /// How many calls failed.
    pub fn faults(&self) -> u64
        ensures { result ≡ self.now }
    {
        self.faults
    }
}

impl<R: rt::Files<File = File> + Drop> Devices for DiskDevices<R> {
    ghost told = { λ _. None };

    ghost faults = { λ faults. faults };

    fn open(&mut self, name: &str) -> Result<(), FilesError> {
        let mut options = OpenOptions::new();
        options.write(true).create(true);
        match options.open(&self.system, name) {
            Ok(file) => {
                self.opened.push(file)?;
                Ok(())
            }
            Err(_) => {
                self.faults = one_more(self.faults);
                Err(FilesError::Failed)
            }
        }
    }

    fn write_at(&mut self, number: usize, at: u64, bytes: &[u8]) -> Result<(), Failed> {
        if let Some(file) = self.opened.get(number) {
            if file.write_all_at(bytes, at).is_ok() {
                return Ok(());
            }
        }
        self.faults = one_more(self.faults);
        Err(Failed)
    }
}
