//! Trials: cases whose parts may be made while a test runs.

use crate::cases::{BARE, Case, ON_RDP_3};
use crate::given::Given;
use crate::images::REBUILD;
use crate::misses::{Miss, Part};
use crate::outside::{Gives, Schedule};
use crate::runs::run_by;
use mr_bits::NoMemory;
use mr_io::{OpenGate, Text};
use std::alloc::Global;
use std::thread::Threads;

/// A case whose parts may be made while a test runs.
#[derive(Drop)]
pub struct Trial {
    /// The words of the command line.
    pub words: Vec<String>,
    /// The files, by their names.
    pub files: Vec<(Text, Vec<u8>)>,
    /// What the script gives.
    pub script: Vec<u8>,
    /// Which calls of the outside fail.
    pub schedule: Schedule,
    /// The status.
    pub status: u8,
    /// What `out` takes.
    pub out: Vec<u8>,
    /// What the report takes.
    pub report: Vec<u8>,
    /// The faults of the files, of the script, of `out` and of the report.
    pub faults: [u64; 4],
    /// The bytes taken of texts, of heads, to mend, for replies and of survivors.
    pub taken: [u64; 5],
    /// The bytes that are left in the script.
    pub left: usize,
}

/// The cases that trials begin with, as statics: a constant would be written out where it is lent.
static BARE_RUN: Case = BARE;

static MATRIX_RUN: Case = ON_RDP_3;

static REBUILD_RUN: Case = REBUILD;

impl Trial {
    /// A run without files.
    pub fn bare(alloc: Global) -> Result<Trial, NoMemory> {
        Trial::of(alloc, &BARE_RUN)
    }

    /// A run over the matrix of row-diagonal parity for the prime 3 as the file `m`.
    pub fn on_rdp_3(alloc: Global) -> Result<Trial, NoMemory> {
        Trial::of(alloc, &MATRIX_RUN)
    }

    /// The rebuild of the image `i` of one stripe, whose device 0 is lost.
    pub fn rebuild(alloc: Global) -> Result<Trial, NoMemory> {
        Trial::of(alloc, &REBUILD_RUN)
    }

    /// The parts of a case.
    pub fn of(alloc: Global, case: &Case) -> Result<Trial, NoMemory> {
        let mut files = Vec::new(alloc);
        for (name, bytes) in case.files {
            files.push((Text::copy_of(alloc, name)?, bytes.listed(alloc)?))?;
        }
        Ok(Trial {
            words: words_of(alloc, case.words)?,
            files,
            script: case.script.listed(alloc)?,
            schedule: case.schedule,
            status: case.status,
            out: case.out.listed(alloc)?,
            report: Vec::from_slice(alloc, case.report.as_bytes())?,
            faults: case.faults,
            taken: case.taken,
            left: case.left,
        })
    }

    /// The same by the words of a line, with a space between each two.
    pub fn by(self, alloc: Global, line: &str) -> Result<Trial, NoMemory> {
        Ok(Trial {
            words: words_in(alloc, line)?,
            ..self
        })
    }

    /// The same over one more file.
    pub fn over(self, alloc: Global, name: &str, bytes: &[u8]) -> Result<Trial, NoMemory> {
        let mut trial = self;
        let name = Text::copy_of(alloc, name)?;
        trial.files.push((name, Vec::from_slice(alloc, bytes)?))?;
        Ok(trial)
    }

    /// The same with this script.
    pub fn asks(self, alloc: Global, script: &[u8]) -> Result<Trial, NoMemory> {
        Ok(Trial {
            script: Vec::from_slice(alloc, script)?,
            ..self
        })
    }

    /// The same with this status, these bytes of `out` and this report.
    pub fn ends(
        self,
        alloc: Global,
        status: u8,
        out: &[u8],
        report: &[u8],
    ) -> Result<Trial, NoMemory> {
        Ok(Trial {
            status,
            out: Vec::from_slice(alloc, out)?,
            report: Vec::from_slice(alloc, report)?,
            ..self
        })
    }

    /// The same where these calls of eyes fail, with these faults of the files, of the script, of `out` and of the report.
    pub fn failing(self, eyes: &'static [(u64, u64)], faults: [u64; 4]) -> Trial {
        let schedule = Schedule {
            eyes,
            ..self.schedule
        };
        self.under(schedule, faults)
    }

    /// The same where the script gives its bytes so, with these faults.
    pub fn gives(self, most: usize, fails: &'static [u64], faults: [u64; 4]) -> Trial {
        let schedule = Schedule {
            script: Gives { most, fails },
            ..self.schedule
        };
        self.under(schedule, faults)
    }

    /// The same by this schedule, with these faults of the files, of the script, of `out` and of the report.
    pub fn under(self, schedule: Schedule, faults: [u64; 4]) -> Trial {
        Trial {
            schedule,
            faults,
            ..self
        }
    }

    /// The same, where these bytes are taken of texts, of heads, to mend, for replies and of survivors.
    pub fn takes(self, taken: [u64; 5]) -> Trial {
        Trial { taken, ..self }
    }
}

/// The words, as the top call takes them.
pub fn words_of(alloc: Global, words: &[&str]) -> Result<Vec<String>, NoMemory> {
    let mut list = Vec::new(alloc);
    for word in words {
        list.push(String::from_str(alloc, word)?)?;
    }
    Ok(list)
}

/// The words of a line, with a space between each two.
pub fn words_in(alloc: Global, line: &str) -> Result<Vec<String>, NoMemory> {
    let mut list = Vec::new(alloc);
    for word in line.split(' ') {
        list.push(String::from_str(alloc, word)?)?;
    }
    Ok(list)
}

/// Runs a trial: `Err` where it answers or leaves something else than it is to.
pub fn check_trial<T: Threads + Sync>(rt: &T, alloc: Global, trial: Trial) -> Result<(), Miss> {
    let words = trial.words;
    let given = Given {
        files: trial.files,
        script: trial.script,
        schedule: trial.schedule,
    };
    let ran = run_by(rt, alloc, &words, given, &OpenGate)?;
    let part = if ran.status != trial.status {
        Part::Status
    } else if ran.out != trial.out {
        Part::Out
    } else if ran.report != trial.report {
        Part::Report
    } else if ran.faults != trial.faults {
        Part::Faults
    } else if ran.taken != trial.taken {
        Part::Taken
    } else if ran.left != trial.left {
        Part::Left
    } else {
        return Ok(());
    };
    Err(Miss::Other { words, part, ran })
}
