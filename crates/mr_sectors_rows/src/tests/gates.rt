//! The plans that are made, as the gate counts them.

use crate::tests::rows::TWO;
use mr_fixture::Mark;
use mr_io::{Gate, Point};
use mr_runs::{Case, Given, Trial, run_by};
use std::test::Fail;

/// A gate that counts the plans that are made, and sees the stripe of the last.
#[derive(Drop)]
struct Planner {
    plans: Mark,
    stripe: Mark,
}

impl Gate for Planner {
    fn pass(&self, point: Point) {
        if let Point::Planned { stripe } = point {
            self.plans.set(self.plans.get().saturating_add(1));
            self.stripe.set(u64::from(stripe));
        }
    }
}

/// The repair of two stripes of one pattern, as a static.
static TWO_STRIPES: Case = TWO;

/// One plan serves both stripes, and is made at the first.
#[test]
fn gate_patterns(rt: HostRuntime) -> Result<(), Fail> {
    let gate = Planner {
        plans: Mark::new(0),
        stripe: Mark::new(7),
    };
    let trial = Trial::of(rt.alloc(), &TWO_STRIPES)?;
    let given = Given {
        files: trial.files,
        script: trial.script,
        schedule: trial.schedule,
    };
    let ran = run_by(&rt, rt.alloc(), &trial.words, given, &gate)?;
    assert_eq!(&rt; ran.status, 0);
    assert!(&rt; ran.out == trial.out && ran.report == trial.report);
    assert_eq!(&rt; ran.taken, trial.taken);
    assert_eq!(&rt; gate.plans.get(), 1);
    assert_eq!(&rt; gate.stripe.get(), 0);
    Ok(())
}
