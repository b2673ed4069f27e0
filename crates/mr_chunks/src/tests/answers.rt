//! What workers find, whatever their number.

use crate::tests::values::problem_of;
use mr_bits::Mask;
use mr_eq::Found;
use mr_fixture::RDP_3;
use mr_io::OpenGate;
use mr_search::search;
use std::test::Fail;

/// Row-diagonal parity of the prime 3, where to read a symbol of device 1 costs 5.
const PRICED: &str =
    "matrix 2 4 2 4\nprice 1 5 1 1\n1000\n0100\n0010\n0001\n1010\n0101\n1101\n0110\n";

/// A matrix, its lost symbols, a budget, the set that is found, and the work where the budget is enough for it.
static ROWS: [(&str, u128, u32, u128, Option<u32>); 7] = [
    (RDP_3, 3, 12, 104, Some(12)),
    (RDP_3, 3, 11, 60, None),
    (RDP_3, 3, 3, 60, None),
    (RDP_3, 3, 0, 60, None),
    (RDP_3, 192, 20, 15, Some(20)),
    (RDP_3, 15, 4, 240, Some(4)),
    (PRICED, 3, 8, 240, Some(8)),
];

#[test]
fn rows(rt: HostRuntime) -> Result<(), Fail> {
    for (text, lost, budget, set, least) in &ROWS {
        let problem = problem_of(&rt, text, *lost).expect(&rt, "the loss is determined");
        let set = Mask::of(*set);
        for workers in [1, 2, 64] {
            let found = search(&rt, rt.alloc(), &problem, *budget, workers, &OpenGate)?;
            match least {
                Some(work) => assert_eq!(&rt; found, Found::Least { set, work: *work }),
                None => assert_eq!(&rt; found, Found::Spent { set }),
            }
        }
    }
    Ok(())
}
