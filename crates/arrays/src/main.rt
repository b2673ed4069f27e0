//! `arrays`: images from the device files of an array, and back to them.
//!
//! `gather` writes an image of some stripes to standard output, `scatter` reads one from standard input. The line of what
//! was done, or the lines of a refusal, go to standard error. The exit status is that of `mr_arrays::run`.
#![tactic(auto)]

use mr_arrays::{Lent, run};
use mr_devices::DiskDevices;
use mr_io::{DiskFiles, StdSink, StdSource};
use mr_steps::Fault;
use std::env;
use std::io::{Error, ErrorKind};
use std::process::ExitCode;

fn main(rt: HostRuntime) -> ExitCode {
    let mut out = StdSink::new(rt.stdout());
    let mut report = StdSink::new(rt.stderr());
    let status = match words(rt, env::args(&rt)) {
        Ok(words) => {
            let mut files = DiskFiles::new(rt);
            let mut source = StdSource::new(rt.stdin());
            let mut devices = DiskDevices::new(rt.alloc(), rt);
            let mut lent = Lent {
                files: &mut files,
                source: &mut source,
                devices: &mut devices,
            };
            run(rt.alloc(), &words, &mut lent, &mut out, &mut report)
        }
        Err(fault) => {
            let _ = fault.print(&mut report);
            fault.status()
        }
    };
    ExitCode::from(status)
}

/// The words, the program's name first. Words that are no text are not read.
fn words(rt: HostRuntime, args: Result<env::Args, Error>) -> Result<Vec<String>, Fault> {
    match args {
        Ok(args) => args.collect(rt.alloc()).map_err(|_| Fault::Memory),
        Err(error) if error.kind() == ErrorKind::OutOfMemory => Err(Fault::Memory),
        Err(_) => Err(Fault::Usage),
    }
}
