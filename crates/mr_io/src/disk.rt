//! Files of the system.

ghost use Rattle.std.specs.Prelude.{◌≡◌, None};
ghost use Rattle.mr_io.specs.Counts.{counted};
ghost use Rattle.mr_io.specs.TotalsBy.{total_of};

use crate::counts::add_count;
use crate::duty::Duty;
use crate::errors::{Failed, FilesError};
use crate::eyes::{Eye, Files};
use crate::totals::Totals;
use std::fs::File;
use std::marker::Model;
use std::os::unix::fs::FileExt;
use std::rt;

/// An eye on a file of the system. It tells nothing of its bytes.
pub struct DiskEye {
    file: File,
    duty: Duty,
    taken: u64,
    faults: u64,
}

impl Model for DiskEye {
    ghost use Rattle.std.specs.Prelude.{None};
    ghost use Rattle.mr_io.specs.DiskStates.{DiskEyeState};

    ghost Value = { DiskEyeState };

    ghost view = { λ eye. record {
      sight = record { bytes = None; duty = eye.duty; taken = eye.taken };
      faults = eye.faults;
    } };
}

impl DiskEye {
    // Counts a call that failed.
    fn fail(&mut self) -> Failed
        ensures same { self.new ≡ record self.old { faults = counted self.old.faults 1 } }
    {
        self.faults = add_count(self.faults, 1);
        Failed
    }
}

impl Eye for DiskEye {
    ghost sight = { λ eye. eye.sight };

    ghost faults = { λ eye. eye.faults };

    fn len(&mut self) -> Result<u64, Failed> {
        match self.file.metadata() {
            Ok(metadata) => Ok(metadata.len()),
            Err(_) => Err(self.fail()),
        }
    }

    fn read_at(&mut self, at: u64, buf: &mut [u8]) -> Result<(), Failed> {
        if !fill(&self.file, at, buf) {
            return Err(self.fail());
        }
        self.taken = add_count(self.taken, buf.len() as u64);
        Ok(())
    }
}

// Fills `buf` from `at` on, and says whether the file has these bytes.
fn fill(file: &File, at: u64, buf: &mut [u8]) -> bool {
    if buf.is_empty() {
        return match file.metadata() {
            Ok(metadata) => at <= metadata.len(),
            Err(_) => false,
        };
    }
    file.read_exact_at(buf, at).is_ok()
}

/// The files of the system, by their paths. They tell nothing. A file that can't be opened is a fault.
#[derive(Drop)]
pub struct DiskFiles<R: rt::Files<File = File> + Drop> {
    system: R,
    totals: Totals,
    faults: u64,
}

impl<R: rt::Files<File = File> + Drop> Model for DiskFiles<R> {
    ghost use Rattle.mr_io.specs.DiskStates.{DiskState};

    ghost Value = { DiskState };

    ghost view = { λ files. record { totals = files.totals; faults = files.faults } };
}

impl<R: rt::Files<File = File> + Drop> DiskFiles<R> {
    /// The files of this system, with no faults and nothing taken.
    pub fn new(system: R) -> DiskFiles<R>
        ensures { result ≡ record { totals = Totals.NONE; faults = 0 } }
    {
        DiskFiles {
            system,
            totals: Totals::NONE,
            faults: 0,
        }
    }

    /// The bytes taken by the eyes of this duty that were retired.
    pub fn total(&self, duty: Duty) -> u64
        ensures { result ≡ total_of self.now.totals duty }
    {
        self.totals.of(duty)
    }

    /// How many calls failed, of the files and of the eyes that were retired.
    pub fn faults(&self) -> u64
        ensures { result ≡ self.now.faults }
    {
        self.faults
    }
}

impl<R: rt::Files<File = File> + Drop> Files for DiskFiles<R> {
    type E = DiskEye;

    ghost told = { λ _. None };

    ghost totals = { λ files. files.totals };

    ghost faults = { λ files. files.faults };

    fn eye(&mut self, name: &str, duty: Duty) -> Result<DiskEye, FilesError> {
        match File::open(&self.system, name) {
            Ok(file) => Ok(DiskEye {
                file,
                duty,
                taken: 0,
                faults: 0,
            }),
            Err(_) => {
                self.faults = add_count(self.faults, 1);
                Err(FilesError::Failed)
            }
        }
    }

    fn retire(&mut self, eye: DiskEye) {
        let DiskEye {
            file: _,
            duty,
            taken,
            faults,
        } = eye;
        self.totals = self.totals.with(duty, taken);
        self.faults = add_count(self.faults, faults);
    }
}
