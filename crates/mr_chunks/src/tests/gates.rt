//! Two workers that are held at the gate until the other has come.

use crate::tests::values::problem_of;
use mr_bits::Mask;
use mr_eq::Found;
use mr_fixture::{Mark, RDP_3};
use mr_io::{Gate, Point};
use mr_search::search;
use std::test::Fail;

/// How often a hold looks before it gives up.
const LOOKS: u64 = 1_000_000_000;

/// At the layer of this cost and level 1 the first mask is held until the second has come, and the second until the
/// first has come or, where `until_made` is set, has been made. The marks tell who came, and one more than how many
/// children were made.
#[derive(Drop)]
struct Hold {
    cost: u32,
    until_made: bool,
    first: Mark,
    second: Mark,
    first_made: Mark,
    second_made: Mark,
    given_up: Mark,
}

impl Hold {
    fn new(cost: u32, until_made: bool) -> Hold {
        Hold {
            cost,
            until_made,
            first: Mark::new(0),
            second: Mark::new(0),
            first_made: Mark::new(0),
            second_made: Mark::new(0),
            given_up: Mark::new(0),
        }
    }

    fn wait_for(&self, other: &Mark) {
        for _ in 0..LOOKS {
            if other.get() != 0 {
                return;
            }
        }
        self.given_up.set(1);
    }

    fn drawn(&self, number: u32) {
        match number {
            0 => {
                self.first.set(1);
                self.wait_for(&self.second);
            }
            1 => {
                self.second.set(1);
                if self.until_made {
                    self.wait_for(&self.first_made);
                } else {
                    self.wait_for(&self.first);
                }
            }
            _ => {}
        }
    }

    fn made(&self, number: u32, children: u32) {
        match number {
            0 => self.first_made.set(u64::from(children) + 1),
            1 => self.second_made.set(u64::from(children) + 1),
            _ => {}
        }
    }
}

impl Gate for Hold {
    fn pass(&self, point: Point) {
        match point {
            Point::Chunk {
                cost,
                level: 1,
                number,
            } => {
                if cost == self.cost {
                    self.drawn(number);
                }
            }
            Point::Made {
                cost,
                level: 1,
                number,
                children,
            } => {
                if cost == self.cost {
                    self.made(number, children);
                }
            }
            _ => {}
        }
    }
}

/// Two workers meet at the two masks of a layer.
#[test]
fn two_workers_meet(rt: HostRuntime) -> Result<(), Fail> {
    let problem = problem_of(&rt, RDP_3, 192).expect(&rt, "the loss is determined");
    let hold = Hold::new(3, false);
    let found = search(&rt, rt.alloc(), &problem, 20, 2, &hold)?;
    let set = Mask::of(15);
    assert_eq!(rt; found, Found::Least { set, work: 20 });
    assert_eq!(rt; hold.given_up.get(), 0);
    assert!(rt; hold.first.get() == 1 && hold.second.get() == 1);
    Ok(())
}

/// The worker of the first mask lowers the least cost known from 4 to 3, and the other drops what costs more: the first
/// has the children 60, 92 and 148, the second has 104 alone.
#[test]
fn one_worker_lowers_the_bound_of_another(rt: HostRuntime) -> Result<(), Fail> {
    let problem = problem_of(&rt, RDP_3, 3).expect(&rt, "the loss is determined");
    let hold = Hold::new(2, true);
    let found = search(&rt, rt.alloc(), &problem, 12, 2, &hold)?;
    let set = Mask::of(104);
    assert_eq!(rt; found, Found::Least { set, work: 12 });
    assert_eq!(rt; hold.given_up.get(), 0);
    assert!(rt; hold.first.get() == 1 && hold.second.get() == 1);
    assert_eq!(rt; hold.first_made.get(), 4);
    assert_eq!(rt; hold.second_made.get(), 2);
    Ok(())
}
