//! `leastplan`: proves the least plan of codes whose search is too large for `minread plan`.
//!
//! The plan goes to standard output and its line, or the line of a refusal, to standard error, where
//! progress is shown besides as long as it is a terminal. The exit status is that of `mr_least::run`.
#![tactic(auto)]

mod progress;

use crate::progress::Progress;
use mr_io::{DiskFiles, StdSink};
use mr_least::run;
use mr_steps::Fault;
use std::env;
use std::io::{Error, ErrorKind};
use std::process::ExitCode;

fn main(rt: HostRuntime) -> ExitCode {
    let mut out = StdSink::new(rt.stdout());
    let mut report = StdSink::new(rt.stderr());
    let status = match words(rt, env::args(&rt)) {
        Ok(words) => {
            let mut files = DiskFiles::new(rt);
            let gate = Progress::new(rt);
            run(
                &rt,
                rt.alloc(),
                &words,
                &mut files,
                &mut out,
                &mut report,
                &gate,
            )
        }
        Err(fault) => {
            let _ = fault.print(&mut report);
            fault.status()
        }
    };
    ExitCode::from(status)
}

/// The words, the program's name first. Words that are no text are not read.
fn words(rt: HostRuntime, args: Result<env::Args, Error>) -> Result<Vec<String>, Fault> {
    match args {
        Ok(args) => args.collect(rt.alloc()).map_err(|_| Fault::Memory),
        Err(error) if error.kind() == ErrorKind::OutOfMemory => Err(Fault::Memory),
        Err(_) => Err(Fault::Usage),
    }
}
