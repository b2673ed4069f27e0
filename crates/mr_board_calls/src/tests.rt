//! Boards whose passes take turns, a stripe that is given up, and a worker that wants for memory.

ghost use Rattle.std.specs.Prelude.{◌≡◌, IfOk};
ghost use Rattle.mr_board.specs.Views.{first_view};
ghost use Rattle.mr_board.specs.Boards.{board_terms, pass_view, IsPassOf};
ghost use Rattle.mr_board_calls.specs.Menders.{IsSmall};

use crate::crews::{Crew, STRIPES};
use crate::images::{Blind, PLAN, datum};
use mr_bits::Shape;
use mr_board::{Board, Pass};
use mr_image::ImageHead;
use mr_mend::{Worker, WorkerRefused};
use mr_plan::{Plan, Plans};
use std::alloc::Global;
use std::process::Abort;
use std::test::Fail;

/// What the turns go by.
static SEEDS: [u64; 4] = [1, 7, 1_995, 2_026];

/// A board for an image of so many stripes with symbols of eight bytes, of which nothing is told, and its
/// first pass.
fn small_board(rt: &impl Abort, alloc: Global, stripes: u32) -> Result<(Board, Pass), Fail>
    ensures board { IfOk result (λ made. IsSmall made.0 stripes) }
    ensures pass { IfOk result (λ made. IsPassOf made.0 made.1) }
    ensures view { IfOk result (λ made. pass_view made.1 ≡ first_view (board_terms made.0)) }
{
    let shape = Shape::new(4, 2, 4).expect(rt, "the numbers are within the limits");
    let head = ImageHead::new(shape, 8, stripes).expect(rt, "the image is within the limits");
    assert!(rt; head.bytes() == 8);
    assert!(rt; head.stripes() == stripes);
    let plan = Plan::read(PLAN).expect(rt, "the text is a plan");
    let plans = Plans::new(vec![in alloc; plan]?);
    assert!(rt; plans.at(0).recipes().len() == 2);
    let eye = Blind { faults: 0 };
    Ok(Board::new(alloc, &eye, &head, &plans)?)
}

/// Whatever turns four passes take, each of twenty stripes is drawn once and done, and its lost symbols
/// are the data.
#[test]
fn turns(rt: HostRuntime) -> Result<(), Fail> {
    for seed in SEEDS {
        take_turns(&rt, rt.alloc(), seed)?;
    }
    Ok(())
}

/// The turns by one seed.
fn take_turns(rt: &impl Abort, alloc: Global, seed: u64) -> Result<(), Fail> {
    let (board, first) = small_board(rt, alloc, STRIPES)?;
    let (crew, drawn) = Crew::new(&board, first).play(&board, seed);
    let mut pass = crew.into_pass(&board);
    assert!(rt; drawn == [1; 20], "seed {seed}: a stripe is not drawn once");
    for stripe in 0..STRIPES {
        assert!(rt;
            board.look(&mut pass, stripe),
            "seed {seed}: stripe {stripe} is not done"
        );
        for level in 0..2 {
            let mut symbol = [0; 8];
            board.copy_out(&mut pass, stripe, level, &mut symbol);
            let word = u64::from_le_bytes(symbol);
            assert_eq!(rt; word, datum(stripe, u32::from(level)));
        }
    }
    Ok(())
}

/// Of two stripes one is mended and one given up: the one is done, and the other is not, then or later.
#[test]
fn given_up(rt: HostRuntime) -> Result<(), Fail> {
    let (board, mut first) = small_board(&rt, rt.alloc(), 2)?;
    let mut second = board.split(&mut first);
    let Some(claim) = board.draw(&mut first) else {
        panic!(&rt; "no stripe is left")
    };
    let Some(other) = board.draw(&mut second) else {
        panic!(&rt; "no second stripe is left")
    };
    let drawn = [claim.stripe(), other.stripe()];
    let before = board.look(&mut second, 0);
    board.store(&mut first, &claim, 0, 0x0101_0101_0101_0101);
    board.store(&mut first, &claim, 1, 0x0202_0202_0202_0202);
    board.publish(&mut first, claim);
    let after = board.look(&mut second, 0);
    board.give_up(&mut second, other);
    let undone = board.look(&mut first, 1);
    let more = board.draw(&mut first);
    let is_last = more.is_none();
    if let Some(claim) = more {
        board.give_up(&mut first, claim);
    }
    board.join(&mut first, second);
    let later = board.look(&mut first, 1);
    assert!(&rt; drawn == [0, 1] && !before && after && is_last && !undone && !later);
    Ok(())
}

/// A worker's pass and eye come back, also where the worker wanted for memory (by `rt try --test --fail-alloc N` the
/// allocation of number N is refused).
#[test]
fn handed_back(rt: HostRuntime) -> Result<(), Fail> {
    let shape = Shape::new(4, 2, 4).expect(&rt, "the numbers are within the limits");
    let head = ImageHead::new(shape, 8, 2).expect(&rt, "the image is within the limits");
    let plan = Plan::read(PLAN).expect(&rt, "the text is a plan");
    // (what the test takes may be refused as well)
    let alloc = rt.alloc();
    let Ok(list) = vec![in alloc; plan] else {
        return Ok(());
    };
    let plans = Plans::new(list);
    let Ok((board, pass)) = Board::new(alloc, &Blind { faults: 0 }, &head, &plans) else {
        return Ok(());
    };
    let handed = Worker::mender(alloc, pass, Blind { faults: 7 }, &head, &plans);
    let (mut pass, eye) = match handed {
        Ok(worker) => worker.into_parts(),
        Err(WorkerRefused { pass, eye }) => (pass, eye),
    };
    assert_eq!(&rt; eye.faults, 7);
    let Some(claim) = board.draw(&mut pass) else {
        panic!(&rt; "no stripe is left")
    };
    let stripe = claim.stripe();
    board.give_up(&mut pass, claim);
    assert_eq!(&rt; stripe, 0);
    Ok(())
}
