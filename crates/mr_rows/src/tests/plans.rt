//! The command `plan`: which sets it chooses, and which losses it refuses.

use crate::tests::rows::{LEAST, M, PLAIN, Row, check_rows};
use mr_fixture::RDP_5;
use mr_runs::Bytes::Text;
use std::test::Fail;

/// The least set is found where its work, which is 12, is within the budget. There are two sets of its cost, and it is the
/// one of the lesser number. The number of workers changes nothing, nor does the place of an option. Where nothing is
/// lost, nothing is read, whatever the budget.
static BUDGETS: [Row; 24] = [
    (M, "plan m 0", 0, LEAST, "least cost 3 work 12\n"),
    (
        M,
        "plan m 0 --budget 12",
        0,
        LEAST,
        "least cost 3 work 12\n",
    ),
    (
        M,
        "plan m 0 --budget=12 --workers=1",
        0,
        LEAST,
        "least cost 3 work 12\n",
    ),
    (
        M,
        "plan m 0 --budget=12 --workers=2",
        0,
        LEAST,
        "least cost 3 work 12\n",
    ),
    (
        M,
        "plan m 0 --budget=12 --workers=64",
        0,
        LEAST,
        "least cost 3 work 12\n",
    ),
    (
        M,
        "plan m 0 --budget=33554432",
        0,
        LEAST,
        "least cost 3 work 12\n",
    ),
    (
        M,
        "plan m 0 --budget 11",
        0,
        PLAIN,
        "spent cost 4 budget 11\n",
    ),
    (
        M,
        "plan m 0 --budget=11 --workers=1",
        0,
        PLAIN,
        "spent cost 4 budget 11\n",
    ),
    (
        M,
        "plan m 0 --workers 2 --budget 11",
        0,
        PLAIN,
        "spent cost 4 budget 11\n",
    ),
    (
        M,
        "plan --workers=64 m --budget=11 0",
        0,
        PLAIN,
        "spent cost 4 budget 11\n",
    ),
    (
        M,
        "plan --budget=11 m 0",
        0,
        PLAIN,
        "spent cost 4 budget 11\n",
    ),
    (
        M,
        "plan --budget 11 m 0",
        0,
        PLAIN,
        "spent cost 4 budget 11\n",
    ),
    (
        M,
        "plan m --budget 11 0",
        0,
        PLAIN,
        "spent cost 4 budget 11\n",
    ),
    (
        M,
        "plan m --budget 11 -- 0",
        0,
        PLAIN,
        "spent cost 4 budget 11\n",
    ),
    (
        M,
        "plan --budget 11 -- m 0",
        0,
        PLAIN,
        "spent cost 4 budget 11\n",
    ),
    (
        M,
        "plan m 0 --budget=11 --",
        0,
        PLAIN,
        "spent cost 4 budget 11\n",
    ),
    (
        M,
        "plan m 0 --budget 3",
        0,
        PLAIN,
        "spent cost 4 budget 3\n",
    ),
    (
        M,
        "plan m 0 --budget 0",
        0,
        PLAIN,
        "spent cost 4 budget 0\n",
    ),
    (
        M,
        "plan m 0 --budget 0 --workers 1",
        0,
        PLAIN,
        "spent cost 4 budget 0\n",
    ),
    (
        M,
        "plan m 0 --budget 0 --workers 64",
        0,
        PLAIN,
        "spent cost 4 budget 0\n",
    ),
    (
        M,
        "plan m none",
        0,
        "plan 1 least\nset\nend\n",
        "least cost 0 work 0\n",
    ),
    (
        M,
        "plan m none --budget 0",
        0,
        "plan 1 least\nset\nend\n",
        "least cost 0 work 0\n",
    ),
    (
        M,
        "plan m none --workers 64",
        0,
        "plan 1 least\nset\nend\n",
        "least cost 0 work 0\n",
    ),
    (
        M,
        "plan m none --budget 33554432",
        0,
        "plan 1 least\nset\nend\n",
        "least cost 0 work 0\n",
    ),
];

/// Every other loss of one or two devices of that matrix, by the defaults, with the work of each.
static LOSSES: [Row; 9] = [
    (
        M,
        "plan m 1",
        0,
        "plan 1 least\nset 1 5 7\n2 = 1 7\n3 = 1 5\nend\n",
        "least cost 3 work 16\n",
    ),
    (
        M,
        "plan m 2",
        0,
        "plan 1 least\nset 0 2 6\n4 = 0 2\n5 = 0 6\nend\n",
        "least cost 3 work 16\n",
    ),
    (
        M,
        "plan m 3",
        0,
        "plan 1 least\nset 0 1 2 3\n6 = 0 1 3\n7 = 1 2\nend\n",
        "least cost 4 work 20\n",
    ),
    (
        M,
        "plan m 0,1",
        0,
        "plan 1 least\nset 4 5 6 7\n0 = 5 6\n1 = 4 5 6 7\n2 = 4 5 6\n3 = 4 6 7\nend\n",
        "least cost 4 work 4\n",
    ),
    (
        M,
        "plan m 0,2",
        0,
        "plan 1 least\nset 2 3 6 7\n0 = 2 3 6 7\n1 = 2 7\n4 = 3 6 7\n5 = 2 3 7\nend\n",
        "least cost 4 work 4\n",
    ),
    (
        M,
        "plan m 0,3",
        0,
        "plan 1 least\nset 2 3 4 5\n0 = 2 4\n1 = 3 5\n6 = 2 4 5\n7 = 2 3 5\nend\n",
        "least cost 4 work 4\n",
    ),
    (
        M,
        "plan m 1,2",
        0,
        "plan 1 least\nset 0 1 6 7\n2 = 1 7\n3 = 0 1 6\n4 = 0 1 7\n5 = 0 6\nend\n",
        "least cost 4 work 4\n",
    ),
    (
        M,
        "plan m 1,3",
        0,
        "plan 1 least\nset 0 1 4 5\n2 = 0 4\n3 = 1 5\n6 = 0 5\n7 = 0 1 4\nend\n",
        "least cost 4 work 4\n",
    ),
    (
        M,
        "plan m 2,3",
        0,
        "plan 1 least\nset 0 1 2 3\n4 = 0 2\n5 = 1 3\n6 = 0 1 3\n7 = 1 2\nend\n",
        "least cost 4 work 4\n",
    ),
];

/// A device that the matrix does not have: the first such, before the question whether the others determine the loss. A
/// loss that the survivors do not determine: the least symbol that they do not, whatever the budget.
static REFUSALS: [Row; 10] = [
    (M, "plan m 4", 4, "", "status 4 device 4\n"),
    (M, "plan m 0,4", 4, "", "status 4 device 4\n"),
    (M, "plan m 3,5,6", 4, "", "status 4 device 5\n"),
    (
        M,
        "plan m 0,1,2,999999999",
        4,
        "",
        "status 4 device 999999999\n",
    ),
    (M, "plan m 0,1,2", 7, "", "status 7 undetermined symbol 0\n"),
    (
        M,
        "plan m 0,1,2 --budget 0",
        7,
        "",
        "status 7 undetermined symbol 0\n",
    ),
    (
        M,
        "plan m 0,1,2,3",
        7,
        "",
        "status 7 undetermined symbol 0\n",
    ),
    (M, "plan m 1,2,3", 7, "", "status 7 undetermined symbol 2\n"),
    // The one survivor is the row of symbol 0, so symbol 1 is the first that is open.
    (
        Text("matrix 1 3 1 2\n10\n01\n10\n"),
        "plan m 0,1",
        7,
        "",
        "status 7 undetermined symbol 1\n",
    ),
    // Fewer devices are lost than rows are spare.
    (
        Text("matrix 1 4 1 2\n10\n10\n10\n01\n"),
        "plan m 3",
        7,
        "",
        "status 7 undetermined symbol 3\n",
    ),
];

/// A row of zeros is lost: the empty set is its equation. And rows that depend on each other, of which more devices can be
/// lost than the numbers of columns and devices tell. And a larger matrix, of which 12 symbols are read in place of 16.
static OTHER_MATRICES: [Row; 7] = [
    (
        Text("matrix 1 2 1 1\n1\n0\n"),
        "plan m 1",
        0,
        "plan 1 least\nset\n1 =\nend\n",
        "least cost 0 work 1\n",
    ),
    (
        Text("matrix 1 2 1 1\n1\n0\n"),
        "plan m 1 --budget 0",
        0,
        "plan 1 spent\nset\n1 =\nend\n",
        "spent cost 0 budget 0\n",
    ),
    (
        Text("matrix 1 3 1 2\n10\n10\n01\n"),
        "plan m 0",
        0,
        "plan 1 least\nset 1\n0 = 1\nend\n",
        "least cost 1 work 1\n",
    ),
    (
        Text("matrix 1 3 1 2\n11\n11\n11\n"),
        "plan m 0,1",
        0,
        "plan 1 least\nset 2\n0 = 2\n1 = 2\nend\n",
        "least cost 1 work 2\n",
    ),
    (
        Text("matrix 1 3 1 2\n11\n11\n11\n"),
        "plan m 0,1 --budget 0",
        0,
        "plan 1 spent\nset 2\n0 = 2\n1 = 2\nend\n",
        "spent cost 1 budget 0\n",
    ),
    (
        Text(RDP_5),
        "plan m 0",
        0,
        "plan 1 least\nset 4 6 7 10 11 14 15 17 18 19 20 21\n0 = 11 14 17 20\n1 = 4 15 18 21\n2 = 6 10 14 18\n3 = 7 11 15 19\nend\n",
        "least cost 12 work 976\n",
    ),
    (
        Text(RDP_5),
        "plan m 0 --budget 976",
        0,
        "plan 1 least\nset 4 6 7 10 11 14 15 17 18 19 20 21\n0 = 11 14 17 20\n1 = 4 15 18 21\n2 = 6 10 14 18\n3 = 7 11 15 19\nend\n",
        "least cost 12 work 976\n",
    ),
];

#[test]
fn plans(rt: HostRuntime) -> Result<(), Fail> {
    check_rows(&rt, rt.alloc(), &BUDGETS)?;
    check_rows(&rt, rt.alloc(), &LOSSES)?;
    check_rows(&rt, rt.alloc(), &REFUSALS)?;
    check_rows(&rt, rt.alloc(), &OTHER_MATRICES)
}
