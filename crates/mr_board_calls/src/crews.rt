//! Four menders that take turns.

ghost use Rattle.std.specs.Prelude.{◌≡◌, ◌<◌, ℕ, IfSome, None};
ghost use Rattle.mr_board.specs.Views.{first_view};
ghost use Rattle.mr_board.specs.Boards.{board_terms, pass_view, IsPassOf};
ghost use Rattle.mr_board_calls.specs.Menders.{IsSmall, CanPlay};

use crate::menders::{Mender, Work};
use mr_board::{Board, Pass};

/// How many stripes the image has.
pub const STRIPES: u32 = 20;

/// How many turns are taken.
const TURNS: u32 = 500;

/// Four menders.
pub struct Crew {
    pub first: Mender,
    pub second: Mender,
    pub third: Mender,
    pub fourth: Mender,
}

impl Crew {
    /// A crew whose passes are the first pass of a board and three that are split off from it.
    pub fn new(board: &Board, mut pass: Pass) -> Crew
        requires pass { IsPassOf board.now pass }
        requires view { pass_view pass ≡ first_view (board_terms board.now) }
        ensures { CanPlay board.now result }
    {
        let second = board.split(&mut pass);
        let third = board.split(&mut pass);
        let fourth = board.split(&mut pass);
        Crew {
            first: idle(pass),
            second: idle(second),
            third: idle(third),
            fourth: idle(fourth),
        }
    }

    /// The turn of one mender, and the stripe that it drew, if any.
    pub fn turn(self, board: &Board, which: u64) -> (Crew, Option<u32>)
        requires board { IsSmall board.now STRIPES }
        requires can { CanPlay board.now self }
        ensures can { CanPlay board.now result.0 }
        ensures stripe { IfSome result.1 (λ t. t < STRIPES) }
    {
        let Crew {
            mut first,
            mut second,
            mut third,
            mut fourth,
        } = self;
        let drawn;
        match which {
            0 => (first, drawn) = first.step(board, STRIPES),
            1 => (second, drawn) = second.step(board, STRIPES),
            2 => (third, drawn) = third.step(board, STRIPES),
            _ => (fourth, drawn) = fourth.step(board, STRIPES),
        }
        let crew = Crew {
            first,
            second,
            third,
            fourth,
        };
        (crew, drawn)
    }

    /// Turns at random by this seed, and how often each stripe was drawn.
    pub fn play(self, board: &Board, seed: u64) -> (Crew, [u32; 20])
        requires board { IsSmall board.now STRIPES }
        requires can { CanPlay board.now self }
        ensures can { CanPlay board.now result.0 }
    {
        let mut crew = self;
        let mut drawn = [0u32; 20];
        let mut random = seed;
        for _turn in 0..TURNS {
            random = random
                .wrapping_mul(6_364_136_223_846_793_005)
                .wrapping_add(1_442_695_040_888_963_407);
            let stripe;
            (crew, stripe) = crew.turn(board, (random >> 33) % 4);
            if let Some(stripe) = stripe {
                let times = &mut drawn[stripe as usize];
                *times = times.saturating_add(1);
            }
        }
        (crew, drawn)
    }

    /// The passes, joined. A stripe that one works on is given up.
    pub fn into_pass(self, board: &Board) -> Pass
        requires { CanPlay board.now self }
        ensures { IsPassOf board.now result }
    {
        let Crew {
            first,
            second,
            third,
            fourth,
        } = self;
        let mut pass = first.into_pass(board);
        board.join(&mut pass, second.into_pass(board));
        board.join(&mut pass, third.into_pass(board));
        board.join(&mut pass, fourth.into_pass(board));
        pass
    }
}

/// A mender that has no stripe.
fn idle(pass: Pass) -> Mender
    ensures { result ≡ record { pass = pass; work = Work.Idle } }
{
    Mender {
        pass,
        work: Work::Idle,
    }
}
