//! A gate that many pass.

use mr_io::{Gate, OpenGate, Point};
use std::test::Fail;

// Passes a gate that other threads may pass too.
fn pass_all<G: Gate + Sync>(gate: &G, points: &[Point]) {
    for point in points {
        gate.pass(*point);
    }
}

/// An open gate lets each point pass.
#[test]
fn an_open_gate(_rt: HostRuntime) -> Result<(), Fail> {
    let points = [Point::Drawn { stripe: 3 }, Point::Done { stripe: 3 }];
    pass_all(&OpenGate, &points);
    Ok(())
}
