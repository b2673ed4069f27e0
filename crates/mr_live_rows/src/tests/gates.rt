//! Menders and a reader that are held at the gate until the others have come.

use mr_fixture::{Mark, RDP_3};
use mr_io::{Gate, Point};
use mr_runs::Bytes::{Image, Text};
use mr_runs::{Case, Given, ON_RDP_3, Trial, run_by};
use std::alloc::Global;
use std::process::Abort;
use std::test::Fail;
use std::thread::Threads;

/// How often a hold looks before it gives up.
const LOOKS: u64 = 1_000_000_000;

/// The head of an image of two stripes, with symbols of eight bytes.
const HEAD: &[u8] = b"MRIMAGE1\x04\0\0\0\x02\0\0\0\x08\0\0\0\x02\0\0\0\0\0\0\0\0\0\0\0";

/// The symbols of two codewords, where those of device 0 are overwritten.
const LOST: &[u8] = b"\xff\xff\x04\x08\x05\x0a\x0b\x06\xff\xff\x04\x08\x05\x0a\x0b\x06";

/// The symbols of both codewords.
const WHOLE: &[u8] = b"\x01\x02\x04\x08\x05\x0a\x0b\x06\x01\x02\x04\x08\x05\x0a\x0b\x06";

/// The rebuild of that image by two menders.
const MENDED: Case = Case {
    words: &["rebuild", "m", "i", "0", "--workers=2"],
    files: &[("m", Text(RDP_3)), ("i", Image(HEAD, LOST))],
    out: Image(HEAD, WHOLE),
    report: "plan 1 least
set 3 5 6
0 = 5 6
1 = 3 5
end
least cost 3 work 12
stripes 2
",
    taken: [55, 32, 48, 0, 96],
    ..ON_RDP_3
};

/// The same by one mender, beside a reader of a lost symbol.
const SERVED: Case = Case {
    words: &["rebuild", "m", "i", "0", "--live", "--workers=1"],
    script: Text("0 0\n"),
    report: "plan 1 least
set 3 5 6
0 = 5 6
1 = 3 5
end
least cost 3 work 12
stripes 2
reply 0 0 0101010101010101
",
    ..MENDED
};

static CASES: [Case; 2] = [SERVED, MENDED];

/// What has come of the points, and whether a hold gave up.
#[derive(Drop)]
struct Marks {
    first_drawn: Mark,
    second_drawn: Mark,
    first_done: Mark,
    begun: Mark,
    ended: Mark,
    gave_up: Mark,
}

impl Marks {
    fn new() -> Marks {
        Marks {
            first_drawn: Mark::new(0),
            second_drawn: Mark::new(0),
            first_done: Mark::new(0),
            begun: Mark::new(0),
            ended: Mark::new(0),
            gave_up: Mark::new(0),
        }
    }

    fn wait_for(&self, mark: &Mark) {
        for _ in 0..LOOKS {
            if mark.get() != 0 {
                return;
            }
        }
        self.gave_up.set(1);
    }
}

/// Stripe 0 is held when it is drawn until the read has begun, the read until stripe 0 is done, and stripe 1 when it is
/// drawn until the read has ended.
#[derive(Drop)]
struct Serving {
    marks: Marks,
}

impl Gate for Serving {
    fn pass(&self, point: Point) {
        let marks = &self.marks;
        match point {
            Point::Drawn { stripe: 0 } => {
                marks.first_drawn.set(1);
                marks.wait_for(&marks.begun);
            }
            Point::Done { stripe: 0 } => marks.first_done.set(1),
            Point::Drawn { .. } => {
                marks.second_drawn.set(1);
                marks.wait_for(&marks.ended);
            }
            Point::ReadBegin { .. } => {
                marks.begun.set(1);
                marks.wait_for(&marks.first_done);
            }
            Point::ReadEnd { .. } => marks.ended.set(1),
            _ => {}
        }
    }
}

/// Each stripe is held when it is drawn until the other is.
#[derive(Drop)]
struct Meeting {
    marks: Marks,
}

impl Gate for Meeting {
    fn pass(&self, point: Point) {
        let marks = &self.marks;
        match point {
            Point::Drawn { stripe: 0 } => {
                marks.first_drawn.set(1);
                marks.wait_for(&marks.second_drawn);
            }
            Point::Drawn { .. } => {
                marks.second_drawn.set(1);
                marks.wait_for(&marks.first_drawn);
            }
            _ => {}
        }
    }
}

/// Runs a case past a gate, which is to answer and to leave what the case says.
fn assert_ran<T: Abort + Threads + Sync, G: Gate + Sync>(
    rt: &T,
    alloc: Global,
    case: &Case,
    gate: &G,
) -> Result<(), Fail> {
    let trial = Trial::of(alloc, case)?;
    let given = Given {
        files: trial.files,
        script: trial.script,
        schedule: trial.schedule,
    };
    let ran = run_by(rt, alloc, &trial.words, given, gate)?;
    assert_eq!(rt; ran.status, 0);
    assert!(rt; ran.out == trial.out && ran.report == trial.report);
    assert_eq!(rt; ran.taken, trial.taken);
    Ok(())
}

/// A reader comes while the first stripe is mended, and takes its reply from the board before the second is.
#[test]
fn gate_live(rt: HostRuntime) -> Result<(), Fail> {
    let gate = Serving {
        marks: Marks::new(),
    };
    assert_ran(&rt, rt.alloc(), &CASES[0], &gate)?;
    let marks = &gate.marks;
    assert_eq!(&rt; marks.gave_up.get(), 0);
    assert!(&rt; marks.first_drawn.get() == 1 && marks.second_drawn.get() == 1);
    assert!(&rt; marks.first_done.get() == 1);
    assert!(&rt; marks.begun.get() == 1 && marks.ended.get() == 1);
    Ok(())
}

/// Two menders each hold a stripe at the same time.
#[test]
fn two_menders_meet(rt: HostRuntime) -> Result<(), Fail> {
    let gate = Meeting {
        marks: Marks::new(),
    };
    assert_ran(&rt, rt.alloc(), &CASES[1], &gate)?;
    let marks = &gate.marks;
    assert_eq!(&rt; marks.gave_up.get(), 0);
    assert!(&rt; marks.first_drawn.get() == 1 && marks.second_drawn.get() == 1);
    Ok(())
}
