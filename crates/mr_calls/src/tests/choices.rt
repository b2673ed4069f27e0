//! The search, beside a slow choice among all sets of survivors, on small codes that are drawn.

use crate::tests::values::{matrix_of, problem_of, try_problem};
use mr_bits::Mask;
use mr_eq::{Found, Undetermined};
use mr_front::search_one;
use std::alloc::Global;
use std::process::Abort;
use std::test::Fail;

/// The rows of a code of four devices with two symbols each, and four columns: bit c of a row is its column c.
type Rows = [u8; 8];

/// The prices of the four devices.
type Prices = [u32; 4];

/// Whether a set has a symbol.
fn has(set: u8, symbol: usize) -> bool {
    symbol < 8 && set >> symbol & 1 == 1
}

/// The XOR of the rows of a set.
fn sum_of(rows: &Rows, set: u8) -> u8 {
    let mut sum = 0;
    for symbol in 0..8 {
        if has(set, symbol) {
            sum ^= rows[symbol];
        }
    }
    sum
}

/// The cost of a set: the prices of its members' devices.
fn cost_of(prices: &Prices, set: u8) -> u32 {
    let mut cost: u32 = 0;
    for (price, device) in prices.iter().zip(&DEVICES) {
        cost = cost.saturating_add(price.saturating_mul((set & *device).count_ones()));
    }
    cost
}

/// Whether some of a set add up to a row.
fn spans(rows: &Rows, set: u8, row: u8) -> bool {
    (0..=255u8).any(|part| part & !set == 0 && sum_of(rows, part) == row)
}

/// The first lost symbol that can't be read from a set.
fn first_open(rows: &Rows, set: u8, lost: u8) -> Option<u8> {
    for symbol in 0..8u8 {
        let row = rows[usize::from(symbol)];
        if has(lost, usize::from(symbol)) && !spans(rows, set, row) {
            return Some(symbol);
        }
    }
    None
}

/// Of the sets of survivors from which each lost symbol can be read, the first of those of least cost.
fn slow_best(rows: &Rows, prices: &Prices, lost: u8) -> u8 {
    let mut best = !lost;
    for set in 0..=255u8 {
        if set & lost == 0
            && (cost_of(prices, set), set) < (cost_of(prices, best), best)
            && first_open(rows, set, lost).is_none()
        {
            best = set;
        }
    }
    best
}

/// The survivors whose row is no sum of survivors before.
fn slow_kept(rows: &Rows, lost: u8) -> u8 {
    let mut kept = 0;
    for symbol in 0..8 {
        if !has(lost, symbol) && !spans(rows, kept, rows[symbol]) {
            kept |= 1 << symbol;
        }
    }
    kept
}

/// The union of the equations of the lost symbols within the kept survivors.
fn slow_plain(rows: &Rows, lost: u8) -> u8 {
    let kept = slow_kept(rows, lost);
    let mut plain = 0;
    for symbol in 0..8 {
        for part in 0..=255u8 {
            if has(lost, symbol) && part & !kept == 0 && sum_of(rows, part) == rows[symbol] {
                plain |= part;
            }
        }
    }
    plain
}

/// The unions of sets of a level with the sets of survivors that add up to a row, and how many of the latter there are.
fn next_level(rows: &Rows, level: &[bool; 256], lost: u8, row: u8) -> ([bool; 256], usize) {
    let mut next = [false; 256];
    let mut equations: usize = 0;
    for equation in 0..=255u8 {
        if equation & lost == 0 && sum_of(rows, equation) == row {
            equations = equations.saturating_add(1);
            for set in 0..=255u8 {
                if level[usize::from(set)] {
                    next[usize::from(set | equation)] = true;
                }
            }
        }
    }
    (next, equations)
}

/// The work of a search whose best set has this cost: for each level its sets of at most that cost, times the equations of
/// its symbol.
fn slow_work(rows: &Rows, prices: &Prices, lost: u8, cost: u32) -> usize {
    let mut level = [false; 256];
    level[0] = true;
    let mut work: usize = 0;
    for symbol in 0..8 {
        if has(lost, symbol) {
            let sets = (0..=255u8)
                .filter(|set| level[usize::from(*set)] && cost_of(prices, *set) <= cost)
                .count();
            let (next, equations) = next_level(rows, &level, lost, rows[symbol]);
            work = work.saturating_add(sets.saturating_mul(equations));
            level = next;
        }
    }
    work
}

/// The text of the matrix. One with all prices 1 has no line of them.
fn text_of(alloc: Global, rows: &Rows, prices: &Prices) -> Result<String, Fail> {
    let [a, b, c, d] = *prices;
    let mut text = if a == 1 && b == 1 && c == 1 && d == 1 {
        String::from_str(alloc, "matrix 1 4 2 4\n")?
    } else {
        format!(in alloc; "matrix 2 4 2 4\nprice {a} {b} {c} {d}\n")?
    };
    for row in rows {
        for column in [1, 2, 4, 8] {
            text.push(if *row & column == 0 { '0' } else { '1' })?;
        }
        text.push('\n')?;
    }
    Ok(text)
}

/// A set of symbols as a mask.
fn mask(set: u8) -> Mask {
    Mask::of(u128::from(set))
}

/// Asserts that a search for a loss that is determined finds what the slow choice says, at the budget of its work and at one
/// less.
fn assert_choice(
    rt: &impl Abort,
    alloc: Global,
    code: &(Rows, Prices),
    text: &str,
    lost: u8,
) -> Result<(), Fail> {
    let (rows, prices) = code;
    let best = slow_best(rows, prices, lost);
    let work = u32::try_from(slow_work(rows, prices, lost, cost_of(prices, best)))?;
    let problem = problem_of(rt, &matrix_of(rt, text), mask(lost));
    let found = search_one(alloc, &problem, work)?;
    let set = mask(best);
    assert_eq!(rt;
        found,
        Found::Least { set, work },
        "the loss of {lost} of {text}"
    );
    if work > 0 {
        let found = search_one(alloc, &problem, work - 1)?;
        let set = mask(slow_plain(rows, lost));
        assert_eq!(rt; found, Found::Spent { set }, "the loss of {lost} of {text}");
    }
    Ok(())
}

/// Asserts what the search finds for a loss, or that the survivors do not determine it, and what is open then.
fn assert_loss(
    rt: &impl Abort,
    alloc: Global,
    code: &(Rows, Prices),
    lost: u8,
) -> Result<(), Fail> {
    let (rows, prices) = code;
    let text = text_of(alloc, rows, prices)?;
    match first_open(rows, !lost, lost) {
        None => assert_choice(rt, alloc, code, &text, lost)?,
        Some(symbol) => match try_problem(rt, &matrix_of(rt, &text), mask(lost)) {
            Ok(_) => assert!(rt; false, "the loss of {lost} of {text}"),
            Err(error) => assert_eq!(rt; error, Undetermined { symbol }, "of {text}"),
        },
    }
    Ok(())
}

/// The next number that is drawn.
fn next(state: u32) -> u32 {
    state.wrapping_mul(1_664_525).wrapping_add(1_013_904_223)
}

/// A code that is drawn, with prices from 1 to 5, and the number for the next draw.
fn drawn(start: u32) -> ((Rows, Prices), u32) {
    let mut state = start;
    let (mut rows, mut prices) = ([0; 8], [1; 4]);
    for symbol in 0..8 {
        state = next(state);
        rows[symbol] = state.to_be_bytes()[0] % 16;
        prices[symbol / 2] = 1 + state % 128 / 8 % 5;
    }
    ((rows, prices), state)
}

/// The symbols of a device.
static DEVICES: [u8; 4] = [0b11, 0b1100, 0b11_0000, 0b1100_0000];

/// The rows of row-diagonal parity for the prime 3.
const RDP_ROWS: Rows = [1, 2, 4, 8, 5, 10, 11, 6];

/// A loss of row-diagonal parity, the prices, the least set, the plain one and the work, where they are known.
static KNOWN: [(u8, Prices, u8, u8, usize); 3] = [
    (3, [1, 1, 1, 1], 104, 60, 12),
    (192, [1, 1, 1, 1], 15, 15, 20),
    (3, [1, 5, 1, 1], 240, 60, 8),
];

/// The slow choice itself.
#[test]
fn known(rt: HostRuntime) -> Result<(), Fail> {
    for (lost, prices, best, plain, work) in &KNOWN {
        assert_eq!(rt; slow_best(&RDP_ROWS, prices, *lost), *best);
        assert_eq!(rt; slow_plain(&RDP_ROWS, *lost), *plain);
        assert_eq!(rt;
            slow_work(&RDP_ROWS, prices, *lost, cost_of(prices, *best)),
            *work
        );
    }
    Ok(())
}

/// The losses of one device and of two, of row-diagonal parity and of codes that are drawn.
#[test]
fn losses(rt: HostRuntime) -> Result<(), Fail> {
    let (mut code, mut state) = ((RDP_ROWS, [1; 4]), 1);
    for _ in 0..9 {
        for first in &DEVICES {
            for second in &DEVICES {
                assert_loss(&rt, rt.alloc(), &code, *first | *second)?;
            }
        }
        (code, state) = drawn(state);
    }
    Ok(())
}
