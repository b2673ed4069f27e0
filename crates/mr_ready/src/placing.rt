//! The mended symbols, taken from the board to their places in the image.

ghost use Rattle.std.specs.Prelude.{◌≡◌, ℕ, ◌<◌, List, Some, length, take};
ghost use Rattle.mr_board.specs.Boards.{IsBoardOf, IsPassOf, board_terms, pass_view};
ghost use Rattle.mr_counts.specs.Numbers.{times};
ghost use Rattle.mr_image.specs.Heads.{file_bytes, head_bytes};
ghost use Rattle.mr_image.specs.Images.{image_of};
ghost use Rattle.mr_mend.specs.Mending.{AreMendable, HoldsMended};
ghost use Rattle.mr_plan.specs.PlanLists.{recipes_at};
ghost use Rattle.mr_ready.specs.Placing.{IsBoardFor, PutsMended};

use crate::orders::Order;
use mr_board::{Board, Pass};
use mr_image::HEAD_BYTES;
use mr_mend::print_head;

/// Makes the first bytes of `image` the head, and puts each symbol that has a recipe, mended, to its place. The pass saw
/// each stripe done. It takes no memory.
pub(crate) fn put_mended(board: &Board, pass: &mut Pass, order: &Order, image: &mut [u8])
    requires board { IsBoardFor board.now order.now.head order.now.plans }
    requires pass { IsPassOf board.now pass.old }
    requires seen { (t : ℕ) → t < order.now.head.stripes → 0 < times t (pass_view pass.old).seen }
    requires plans { AreMendable order.now.head order.now.plans }
    requires image { length image.old ≡ file_bytes order.now.head }
    ensures mended { (bytes : List ℕ)
        → IsBoardOf board.now order.now.head order.now.plans (Some bytes)
        → HoldsMended order.now.head (recipes_at order.now.plans) (image_of order.now.head bytes)
        image.new }
    ensures head { take HEAD_BYTES image.new ≡ head_bytes order.now.head }
{
    print_head(&order.head, image);
    for stripe in 0..order.head.stripes() {
        put_stripe(board, pass, order, stripe, image);
    }
}

/// Puts the symbols of one stripe that have a recipe to their places.
fn put_stripe(board: &Board, pass: &mut Pass, order: &Order, stripe: u32, image: &mut [u8])
    requires board { IsBoardFor board.now order.now.head order.now.plans }
    requires pass { IsPassOf board.now pass.old }
    requires seen { 0 < times stripe (pass_view pass.old).seen }
    requires plans { AreMendable order.now.head order.now.plans }
    requires stripe { stripe < order.now.head.stripes }
    requires image { length image.old ≡ file_bytes order.now.head }
    ensures pass { IsPassOf board.now pass.new }
    ensures same { pass_view pass.new ≡ pass_view pass.old }
    ensures put { PutsMended board.now order.now.head order.now.plans stripe image.old image.new }
{
    let size = order.head.bytes() as usize;
    for (level, recipe) in order.plans.at(stripe).recipes().iter().enumerate() {
        let at = order.head.place(stripe, recipe.symbol()) as usize;
        board.copy_out(pass, stripe, level as u8, &mut image[at..at + size]);
    }
}
