//! A mender: it draws stripes, rebuilds them, and publishes them on the board.

ghost use Rattle.std.specs.Prelude.{◌≡◌, ℕ, ◌+◌, ◌*◌, ◌<◌, ◌≤◌, [], length, slice_index, None, OnErr, OnOk};
ghost use Rattle.mr_model.specs.Members.{members};
ghost use Rattle.mr_io.specs.Counts.{HasCause};
ghost use Rattle.mr_io.specs.Sights.{sight_with};
ghost use Rattle.mr_image.specs.Sights.{HasImage, IsSameFile};
ghost use Rattle.mr_plan.specs.PlanLists.{plan_at};
ghost use Rattle.mr_board.specs.Terms.{words_of};
ghost use Rattle.mr_board.specs.Rights.{IsRight};
ghost use Rattle.mr_board.specs.Views.{with_done, with_given_up};
ghost use Rattle.mr_board.specs.Boards.{board_terms, pass_view, claimed_stripe, IsBoardOf, IsPassOf, IsClaimOf};
ghost use Rattle.mr_mend.specs.Mending.{AreMendable};
ghost use Rattle.mr_mend.specs.Menders.{IsRoomOf, HasMended, drawn_bytes, filled_view, spelled_word};

use crate::rooms::Room;
use crate::stripes::mend_stripe;
use crate::tasks::Task;
use mr_board::{Board, Claim, Pass};
use mr_image::ImageHead;
use mr_io::{Eye, Failed, Gate, Point};
use mr_kern::XorKernel;
use mr_plan::Plans;

/// Rebuilds the stripe of a claim that was just drawn: it reads each symbol of the set of the stripe's plan once, upwards,
/// stores the words of the lost symbols, and marks the stripe done.
///
/// It takes no memory. A read that fails is answered at once: the stripe is given up, and is never done.
pub fn rebuild_one<E: Eye>(
    board: &Board,
    pass: &mut Pass,
    claim: Claim,
    eye: &mut E,
    head: &ImageHead,
    plans: &Plans,
    kernel: &XorKernel,
    room: &mut Room,
) -> Result<(), Failed>
    requires board { IsBoardOf board.now head.now plans.now (E.sight eye.old).bytes }
    requires pass { IsPassOf board.now pass.old }
    requires claim { IsClaimOf pass.old claim }
    requires eye { HasImage head.now (E.sight eye.old) }
    requires plans { AreMendable head.now plans.now }
    requires room { IsRoomOf head.now plans.now room.old }
    ensures pass { IsPassOf board.now pass.new }
    ensures room { IsRoomOf head.now plans.now room.new }
    ensures done { OnOk result
        (pass_view pass.new ≡ with_done (pass_view pass.old) (claimed_stripe claim)) }
    ensures gave { OnErr result
        (pass_view pass.new ≡ with_given_up (pass_view pass.old) (claimed_stripe claim)) }
    ensures taken { OnOk result (E.sight eye.new ≡ sight_with (E.sight eye.old)
        (length (members (plan_at plans.now (claimed_stripe claim)).set) * head.now.symbol_bytes)) }
    ensures file { IsSameFile (E.sight eye.old) (E.sight eye.new) }
    ensures cause { HasCause (E.faults eye.old) (E.faults eye.new) result }
{
    let stripe = claim.stripe();
    let plan = plans.at(stripe);
    let _within_the_limits = head.bytes();
    match mend_stripe(
        eye,
        head,
        plan,
        kernel,
        stripe,
        room.symbol.as_mut_slice(),
        room.lost.as_mut_slice(),
    ) {
        Ok(()) => {
            store_words(board, pass, &claim, room.lost.as_slice());
            board.publish(pass, claim);
            Ok(())
        }
        Err(failed) => {
            board.give_up(pass, claim);
            Err(failed)
        }
    }
}

/// Stores the words of the open stripe, of eight bytes each.
fn store_words(board: &Board, pass: &mut Pass, claim: &Claim, bytes: &[u8])
    requires pass { IsPassOf board.now pass.old }
    requires claim { IsClaimOf pass.old claim.now }
    requires bytes { length bytes.now ≡ 8 * words_of (board_terms board.now) }
    requires right { ((k : ℕ) → slice_index bytes.now k < 256) → (i : ℕ)
        → i < words_of (board_terms board.now)
        → IsRight (board_terms board.now) (claimed_stripe claim.now) i (spelled_word bytes.now i) }
    ensures pass { IsPassOf board.now pass.new }
    ensures filled { pass_view pass.new
        ≡ filled_view (pass_view pass.old) (words_of (board_terms board.now)) }
{
    for index in 0..board.words() {
        let word = word_at(bytes, index as usize);
        board.store(pass, claim, index, word);
    }
}

/// The word of this number: eight bytes, the lowest first.
fn word_at(bytes: &[u8], index: usize) -> u64
    requires { 8 * index + 8 ≤ length bytes.now }
    ensures { result ≡ spelled_word bytes.now index }
{
    let mut word = [0; 8];
    word.copy_from_slice(&bytes[8 * index..8 * index + 8]);
    u64::from_le_bytes(word)
}

/// Draws stripes and rebuilds each, until none is left or a read fails. It passes the gate at `Drawn` and at `Done` of each.
pub(crate) fn mend_drawn<E: Eye, G: Gate>(
    task: &Task<G>,
    pass: &mut Pass,
    eye: &mut E,
    room: &mut Room,
) -> Result<(), Failed>
    requires board { IsBoardOf task.now.board.now task.now.head.now task.now.plans.now
        (E.sight eye.old).bytes }
    requires plans { AreMendable task.now.head.now task.now.plans.now }
    requires pass { IsPassOf task.now.board.now pass.old }
    requires free { (pass_view pass.old).claimed ≡ None }
    requires fresh { (pass_view pass.old).draws ≡ [] }
    requires eye { HasImage task.now.head.now (E.sight eye.old) }
    requires room { IsRoomOf task.now.head.now task.now.plans.now room.old }
    ensures pass { IsPassOf task.now.board.now pass.new }
    ensures free { (pass_view pass.new).claimed ≡ None }
    ensures mended { OnOk result (HasMended (pass_view pass.old) (pass_view pass.new)) }
    ensures taken { OnOk result (E.sight eye.new ≡ sight_with (E.sight eye.old)
        (drawn_bytes task.now.head.now task.now.plans.now (pass_view pass.new).draws)) }
    ensures file { IsSameFile (E.sight eye.old) (E.sight eye.new) }
    ensures cause { HasCause (E.faults eye.old) (E.faults eye.new) result }
{
    while let Some(claim) = task.board.draw(pass) {
        let stripe = claim.stripe();
        task.gate.pass(Point::Drawn { stripe });
        rebuild_one(
            task.board,
            pass,
            claim,
            eye,
            task.head,
            task.plans,
            task.kernel,
            room,
        )?;
        task.gate.pass(Point::Done { stripe });
    }
    Ok(())
}
