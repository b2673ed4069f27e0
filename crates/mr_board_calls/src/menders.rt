//! Passes that take a step at each turn.

ghost use Rattle.std.specs.Prelude.{◌≡◌, ◌<◌, [], IfSome, None};
ghost use Rattle.mr_board.specs.Boards.{board_terms, pass_view, IsPassOf};
ghost use Rattle.mr_board_calls.specs.Menders.{IsSmall, CanStep, CanWork};

use crate::images::rebuilt;
use mr_board::{Board, Claim, Pass};

/// What a mender does: it has no stripe, or works on one of which so many words are stored, or was told that
/// none is left.
pub enum Work {
    Idle,
    Open(Claim, u32),
    Ended,
}

/// A pass, and what it does.
pub struct Mender {
    pub pass: Pass,
    pub work: Work,
}

impl Mender {
    /// One turn: a draw, a store of the next word, or the mark that the stripe is done. Says which stripe was
    /// drawn, if any.
    pub fn step(self, board: &Board, stripes: u32) -> (Mender, Option<u32>)
        requires board { IsSmall board.now stripes }
        requires can { CanStep board.now self }
        ensures can { CanStep board.now result.0 }
        ensures stripe { IfSome result.1 (λ t. t < stripes) }
    {
        let Mender { mut pass, work } = self;
        match work {
            Work::Idle => match board.draw(&mut pass) {
                Some(claim) => {
                    let stripe = claim.stripe();
                    let work = Work::Open(claim, 0);
                    (Mender { pass, work }, Some(stripe))
                }
                None => (
                    Mender {
                        pass,
                        work: Work::Ended,
                    },
                    None,
                ),
            },
            Work::Open(claim, next) => {
                let work = go_on(board, &mut pass, claim, next);
                (Mender { pass, work }, None)
            }
            Work::Ended => {
                let work = Work::Ended;
                (Mender { pass, work }, None)
            },
        }
    }

    /// The pass. A stripe that it works on is given up.
    pub fn into_pass(self, board: &Board) -> Pass
        requires { CanStep board.now self }
        ensures pass { IsPassOf board.now result }
        ensures idle { (pass_view result).claimed ≡ None }
    {
        let Mender { mut pass, work } = self;
        match work {
            Work::Open(claim, _) => board.give_up(&mut pass, claim),
            Work::Idle | Work::Ended => {}
        }
        pass
    }
}

/// Stores the next word of the open stripe, or marks it done.
fn go_on(board: &Board, pass: &mut Pass, claim: Claim, next: u32) -> Work
    requires pass { IsPassOf board.now pass.old }
    requires untold { (board_terms board.now).rights ≡ [] }
    requires can { CanWork (pass_view pass.old) (Work.Open claim next) }
    ensures pass { IsPassOf board.now pass.new }
    ensures can { CanWork (pass_view pass.new) result }
{
    if next < board.words() {
        let word = rebuilt(claim.stripe(), next);
        board.store(pass, &claim, next, word);
        return Work::Open(claim, next + 1);
    }
    board.publish(pass, claim);
    Work::Idle
}
