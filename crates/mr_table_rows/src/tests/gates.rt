//! Two workers that are held at the gate until the other jobs have come.

use mr_fixture::RDP_3;
use mr_form::read_matrix;
use mr_io::{Gate, Point};
use mr_table::table;
use std::sync::atomic::AtomicU64;
use std::sync::atomic::Ordering::SeqCst;
use std::test::Fail;

/// How often a hold looks before it gives up.
const LOOKS: u64 = 1_000_000_000;

/// Job 0 is held until the jobs 1 to 9 have come, and job 1 until job 0 has.
#[derive(Drop)]
struct Turns {
    first: AtomicU64,
    others: AtomicU64,
    given_up: AtomicU64,
}

impl Turns {
    fn wait_for(&self, number: &AtomicU64, least: u64) {
        for _ in 0..LOOKS {
            if number.load(SeqCst) >= least {
                return;
            }
        }
        self.given_up.store(1, SeqCst);
    }
}

impl Gate for Turns {
    fn pass(&self, point: Point) {
        match point {
            Point::Job { number: 0 } => {
                self.first.store(1, SeqCst);
                self.wait_for(&self.others, 9);
            }
            Point::Job { number } => {
                if number == 1 {
                    self.wait_for(&self.first, 1);
                }
                self.others.fetch_add(1, SeqCst);
            }
            _ => {}
        }
    }
}

/// While one worker holds the first job, the other takes all others.
#[test]
fn gate_table(rt: HostRuntime) -> Result<(), Fail> {
    let turns = Turns {
        first: AtomicU64::new(0),
        others: AtomicU64::new(0),
        given_up: AtomicU64::new(0),
    };
    let matrix = read_matrix(RDP_3.as_bytes()).expect(&rt, "the matrix is read");
    let rows = table(&rt, rt.alloc(), &matrix, 65_536, 2, &turns)?;
    assert_eq!(rt; turns.given_up.load(SeqCst), 0);
    assert!(rt; turns.first.load(SeqCst) == 1 && turns.others.load(SeqCst) == 9);
    assert_eq!(rt; rows.len(), 10);
    Ok(())
}
