//! The workers of a rebuild, taken apart again: their passes are joined, and their eyes gathered.

ghost use Rattle.std.specs.Prelude.{◌≡◌, ◌+◌, ◌≤◌, ◌++◌, All, None, length, map, vec_capacity, vec_len};
ghost use Rattle.std.specs.Vec.Iter.{into_iter_items, into_iter_len};
ghost use Rattle.mr_board.specs.Boards.{IsPassOf, pass_view};
ghost use Rattle.mr_ready.specs.Joining.{HasJoined, IsWhole};

use mr_board::{Board, Pass};
use mr_io::Eye;
use mr_mend::Worker;
use std::vec::IntoIter;

/// The eyes of workers, in their order, put behind others. There is room for them, so no memory is taken. Their passes are
/// joined to the one that is handed in.
pub(crate) fn gather<E: Eye>(
    board: &Board,
    pass: &mut Pass,
    workers: Vec<Worker<E>>,
    back: Vec<E>,
) -> Vec<E>
    requires room { vec_len back + vec_len workers ≤ vec_capacity back }
    requires pass { IsPassOf board.now pass.old }
    requires idle { (pass_view pass.old).claimed ≡ None }
    requires whole { IsWhole (pass_view pass.old) }
    requires passes { All (λ worker. IsPassOf board.now worker.pass) workers.items }
    requires others_idle { All (λ worker. (pass_view worker.pass).claimed ≡ None) workers.items }
    ensures eyes { result.items ≡ back.items ++ map (λ worker. worker.eye) workers.items }
    ensures len { vec_len result ≡ vec_len back + vec_len workers }
    ensures capacity { vec_capacity result ≡ vec_capacity back }
    ensures pass { IsPassOf board.now pass.new }
    ensures whole { IsWhole (pass_view pass.new) }
    ensures joined { HasJoined (pass_view pass.old)
        (map (λ worker. pass_view worker.pass) workers.items) (pass_view pass.new) }
{
    let mut eyes = back;
    let mut rest = workers.into_iter();
    while let Some(worker) = rest.next() {
        let (other, eye) = worker.into_parts();
        board.join(pass, other);
        eyes.push_reserved(eye);
    }
    rest.destroy_empty();
    eyes
}

/// Eyes put behind others. There is room for them.
pub(crate) fn put_back<E>(rest: IntoIter<E>, eyes: Vec<E>) -> Vec<E>
    requires { vec_len eyes + into_iter_len rest ≤ vec_capacity eyes }
    ensures { result.items ≡ eyes.items ++ into_iter_items rest }
{
    let mut eyes = eyes;
    let mut rest = rest;
    while let Some(eye) = rest.next() {
        eyes.push_reserved(eye);
    }
    rest.destroy_empty();
    eyes
}
