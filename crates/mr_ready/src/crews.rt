//! The workers of a rebuild, each with its eye, its pass of the board and its memory, before anything is read.

ghost use Rattle.std.specs.Prelude.{◌≡◌, ◌+◌, ◌^◌, ◌<◌, ◌≤◌, IfErr, IfOk, OnOk, length, vec_len};
ghost use Rattle.std.specs.Vec.Iter.{into_iter_len};
ghost use Rattle.mr_ready.specs.Crews.{HasWayBack, IsCrew, IsHiring, IsPlaced, eyes_of, eyes_with, hands_of};
ghost use Rattle.mr_ready.specs.Lent.{AreLent, told_by};
ghost use Rattle.mr_ready.specs.Orders.{parts_of_order};

use crate::gathering::{gather, put_back};
use crate::orders::Order;
use mr_board::{Board, Pass};
use mr_io::Eye;
use mr_mend::{Worker, WorkerRefused};
use std::alloc::Global;
use std::vec::IntoIter;

/// The workers of a rebuild, the board on which they meet, and the eyes that are not theirs.
pub(crate) struct Crew<E> {
    /// The board.
    pub board: Board,
    /// The pass from which those of the workers were split off.
    pub pass: Pass,
    /// The menders and, with `live`, as many readers, in the order of their eyes.
    pub workers: Vec<Worker<E>>,
    /// The eyes that no worker has, in their order.
    pub rest: IntoIter<E>,
    /// Room for all eyes, for their way back.
    pub back: Vec<E>,
}

/// Hires all workers of a rebuild, with eyes as they were lent. Where there is no memory, the eyes are handed back.
pub(crate) fn hire<E: Eye>(alloc: Global, order: &Order, eyes: Vec<E>) -> Result<Crew<E>, Vec<E>>
    requires workers { (0 < order.now.workers) × (order.now.workers ≤ 64) }
    requires few { length order.now.asks.items < 2 ^ 32 }
    requires eyes { AreLent E.sight E.faults (told_by E.sight eyes.items) order.now.workers
        order.now.live eyes.items }
    ensures crew { IfOk result (IsCrew E.sight (parts_of_order order.now)) }
    ensures eyes { IfOk result (λ crew. eyes_of crew ≡ eyes.items) }
    ensures refused { IfErr result (λ back. back.items ≡ eyes.items) }
{
    match open(alloc, order, eyes) {
        Ok(mut crew) => match fill(alloc, order, &mut crew) {
            Ok(()) => Ok(crew),
            Err(eye) => Err(dismiss(crew, eye)),
        },
        Err(eyes) => Err(eyes),
    }
}

/// A board and room for all workers, of whom none is hired. Where there is no memory, the eyes are handed back.
fn open<E: Eye>(alloc: Global, order: &Order, eyes: Vec<E>) -> Result<Crew<E>, Vec<E>>
    requires { 0 < vec_len eyes }
    ensures crew { IfOk result (IsHiring E.sight (parts_of_order order.now) 0) }
    ensures eyes { IfOk result (λ crew. eyes_of crew ≡ eyes.items) }
    ensures left { IfOk result (λ crew. into_iter_len crew.rest ≡ vec_len eyes) }
    ensures refused { IfErr result (λ back. back.items ≡ eyes.items) }
{
    let count = eyes.len();
    let Ok((board, pass)) = Board::new(alloc, &eyes[0], &order.head, &order.plans) else {
        return Err(eyes);
    };
    match Vec::with_capacity(alloc, count) {
        Ok(workers) => match Vec::with_capacity(alloc, count) {
            Ok(back) => Ok(Crew {
                board,
                pass,
                workers,
                rest: eyes.into_iter(),
                back,
            }),
            Err(_) => {
                workers.destroy_empty();
                Err(eyes)
            }
        },
        Err(_) => Err(eyes),
    }
}

/// Hires the worker of each place. Where there is no memory for one, its eye is handed back.
fn fill<E: Eye>(alloc: Global, order: &Order, crew: &mut Crew<E>) -> Result<(), E>
    requires workers { (0 < order.now.workers) × (order.now.workers ≤ 64) }
    requires few { length order.now.asks.items < 2 ^ 32 }
    requires crew { IsHiring E.sight (parts_of_order order.now) 0 crew.old }
    requires eyes { hands_of order.now.workers order.now.live < into_iter_len crew.old.rest }
    ensures crew { OnOk result (IsCrew E.sight (parts_of_order order.now) crew.new) }
    ensures eyes { OnOk result (eyes_of crew.new ≡ eyes_of crew.old) }
    ensures refused { IfErr result (λ eye. eyes_with eye crew.new ≡ eyes_of crew.old) }
    ensures room { IfErr result (λ _. HasWayBack 1 crew.new) }
{
    for place in 0..hands(order) {
        match hire_next(alloc, order, place, crew) {
            Ok(()) => {}
            Err(eye) => return Err(eye),
        }
    }
    Ok(())
}

/// How many workers there are.
fn hands(order: &Order) -> u32
    requires { order.now.workers ≤ 64 }
    ensures { result ≡ hands_of order.now.workers order.now.live }
{
    if order.live {
        2 * order.workers
    } else {
        order.workers
    }
}

/// Hires the worker of a place, with the next eye and a pass of its own. Where there is no memory for it, its eye is
/// handed back.
fn hire_next<E: Eye>(alloc: Global, order: &Order, place: u32, crew: &mut Crew<E>) -> Result<(), E>
    requires workers { (0 < order.now.workers) × (order.now.workers ≤ 64) }
    requires few { length order.now.asks.items < 2 ^ 32 }
    requires crew { IsHiring E.sight (parts_of_order order.now) place crew.old }
    requires place { place < hands_of order.now.workers order.now.live }
    requires eye { 0 < into_iter_len crew.old.rest }
    ensures crew { OnOk result (IsHiring E.sight (parts_of_order order.now) (place + 1) crew.new) }
    ensures eyes { OnOk result (eyes_of crew.new ≡ eyes_of crew.old) }
    ensures left { OnOk result
        (into_iter_len crew.new.rest + 1 ≡ into_iter_len crew.old.rest) }
    ensures refused { IfErr result (λ eye. eyes_with eye crew.new ≡ eyes_of crew.old) }
    ensures room { IfErr result (λ _. HasWayBack 1 crew.new) }
{
    let eye = crew.rest.next().unwrap();
    let pass = crew.board.split(&mut crew.pass);
    match worker_at(alloc, pass, eye, order, place) {
        Ok(worker) => {
            crew.workers.push_reserved(worker);
            Ok(())
        }
        Err(refused) => {
            let WorkerRefused { pass: _, eye } = refused;
            Err(eye)
        }
    }
}

/// The worker of a place: first come the menders, and then the readers, of whom the one of number `r` serves the asks of
/// the numbers `r`, `r + workers` and so on.
fn worker_at<E: Eye>(
    alloc: Global,
    pass: Pass,
    eye: E,
    order: &Order,
    place: u32,
) -> Result<Worker<E>, WorkerRefused<E>>
    requires some { 0 < order.now.workers }
    requires few { length order.now.asks.items < 2 ^ 32 }
    ensures pass { IfOk result (λ worker. worker.pass ≡ pass) }
    ensures eye { IfOk result (λ worker. worker.eye ≡ eye) }
    ensures role { IfOk result (λ worker. IsPlaced (parts_of_order order.now) place worker.role) }
    ensures refused { IfErr result (λ refused. (refused.pass ≡ pass) × (refused.eye ≡ eye)) }
{
    if place < order.workers {
        return Worker::mender(alloc, pass, eye, &order.head, &order.plans);
    }
    let number = place - order.workers;
    let asks = order.asks.len() as u32;
    Worker::reader(alloc, pass, eye, &order.head, asks, number, order.workers)
}

/// The eyes of a crew that is not whole, and the one of the worker that was to be hired next.
fn dismiss<E: Eye>(crew: Crew<E>, refused: E) -> Vec<E>
    requires { HasWayBack 1 crew }
    ensures { result.items ≡ eyes_with refused crew }
{
    let Crew {
        board,
        mut pass,
        workers,
        rest,
        back,
    } = crew;
    let mut eyes = gather(&board, &mut pass, workers, back);
    eyes.push_reserved(refused);
    put_back(rest, eyes)
}
