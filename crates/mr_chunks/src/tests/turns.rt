//! Two workers that take turns at random, over codes that are drawn: they find what one thread finds.

use crate::tests::values::problem_of;
use mr_fixture::Mark;
use mr_front::search_one;
use mr_io::{Gate, Point};
use mr_search::search;
use std::alloc::Global;
use std::test::Fail;

/// The number from which all others are drawn.
const SEED: u64 = 20_261_201;

/// How many codes are drawn.
const CODES: u64 = 100;

/// How often a worker looks for the other one, at most.
const LOOKS: u64 = 2_000;

/// The next number that is drawn; its upper half is used.
fn next(state: u64) -> u64 {
    state
        .wrapping_mul(6_364_136_223_846_793_005)
        .wrapping_add(1_442_695_040_888_963_407)
}

/// At each point a worker waits until up to three more points have been passed, or it has looked often enough.
#[derive(Drop)]
struct Turns {
    state: Mark,
    passed: Mark,
}

impl Gate for Turns {
    fn pass(&self, _point: Point) {
        let drawn = next(self.state.get());
        self.state.set(drawn);
        let passed = self.passed.get().wrapping_add(1);
        self.passed.set(passed);
        let until = passed.wrapping_add((drawn >> 32) % 4);
        for _ in 0..LOOKS {
            if self.passed.get() >= until {
                return;
            }
        }
    }
}

/// The text of a code that is drawn, of six devices with two symbols each and five columns. Where `priced` is set its
/// prices are 1 to 8. It answers the state after the draw besides.
fn drawn_code(alloc: Global, priced: bool, start: u64) -> Result<(String, u64), Fail> {
    let mut state = start;
    let mut text = String::from_str(
        alloc,
        if priced {
            "matrix 2 6 2 5\nprice"
        } else {
            "matrix 1 6 2 5"
        },
    )?;
    if priced {
        for _ in 0..6 {
            state = next(state);
            let price = 1 + (state >> 32) % 8;
            text.push_str(&format!(in alloc; " {price}")?)?;
        }
    }
    for _ in 0..12 {
        text.push('\n')?;
        state = next(state);
        for column in [1, 2, 4, 8, 16] {
            text.push(if state >> 32 & column == 0 { '0' } else { '1' })?;
        }
    }
    text.push('\n')?;
    Ok((text, state))
}

/// The loss of the first device, or of the first two, and a budget that is enough or, for some codes, too little.
#[test]
fn two_workers_find_what_one_finds(rt: HostRuntime) -> Result<(), Fail> {
    let mut state = SEED;
    for number in 0..CODES {
        let (text, after) = drawn_code(rt.alloc(), number % 2 == 1, state)?;
        state = after;
        let lost = if number % 4 < 2 { 3 } else { 15 };
        let Some(problem) = problem_of(&rt, &text, lost) else {
            continue;
        };
        let budget = if number % 8 == 7 { 40 } else { 100_000 };
        let turns = Turns {
            state: Mark::new(state),
            passed: Mark::new(0),
        };
        let found = search(&rt, rt.alloc(), &problem, budget, 2, &turns)?;
        assert_eq!(&rt;
            found,
            search_one(rt.alloc(), &problem, budget)?,
            "of {text}"
        );
    }
    Ok(())
}
