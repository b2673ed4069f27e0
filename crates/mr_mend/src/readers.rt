//! A reader: it serves asks from the image, from the board, or by the symbols of a single equation.

ghost use Rattle.std.specs.Prelude.{◌≡◌, ◌⊎◌, ◌<◌, ◌≤◌, length, is_some, slice_index, All, IfOk, IfSome, OnErr, OnOk};
ghost use Rattle.mr_model.specs.Plans.{Recipe as RecipeOf};
ghost use Rattle.mr_counts.specs.Numbers.{times};
ghost use Rattle.mr_io.specs.Counts.{HasCause, counted};
ghost use Rattle.mr_io.specs.Sights.{sight_with};
ghost use Rattle.mr_image.specs.Images.{image_of, mended};
ghost use Rattle.mr_image.specs.Sights.{HasImage, IsSameFile};
ghost use Rattle.mr_plan.specs.PlanLists.{recipes_at, symbols_of};
ghost use Rattle.mr_board.specs.Boards.{pass_view, IsBoardOf, IsPassOf};
ghost use Rattle.mr_mend.specs.declared.served.How.TheVariants.{Direct, Rebuilt, Degraded};
ghost use Rattle.mr_mend.specs.Mending.{AreMendable, has_recipe};
ghost use Rattle.mr_mend.specs.Scripts.{IsInRange};
ghost use Rattle.mr_mend.specs.Readers.{AreSinglesFor, HasLooked, HasRead, IsServed, IsServedBy, IsSlotFor, ask_at, bytes_by, least_bytes, most_bytes, reply_by};

use crate::asks::Ask;
use crate::degraded::near;
use crate::served::{How, Slot};
use crate::tasks::Task;
use mr_board::{Board, Pass};
use mr_eq::Singles;
use mr_image::ImageHead;
use mr_io::{Eye, Failed, Gate, Point};
use mr_kern::XorKernel;
use mr_plan::{Plans, Recipe};

/// Makes `buf` the reply to an ask, and says how.
///
/// A symbol that survives is read. For a lost one the board is looked at once: where its stripe is done, the reply is taken
/// from the board, and otherwise the symbols of its single equation are read, each once, into `tmp`. Both buffers have the
/// bytes of one symbol. The item at place `r` of the singles is that of rotation `r`. It takes no memory. A read that
/// fails is answered at once, and `buf` is then of no use.
pub fn serve<E: Eye>(
    board: &Board,
    pass: &mut Pass,
    eye: &mut E,
    head: &ImageHead,
    plans: &Plans,
    singles: &[Singles],
    kernel: &XorKernel,
    ask: Ask,
    buf: &mut [u8],
    tmp: &mut [u8],
) -> Result<How, Failed>
    requires board { IsBoardOf board.now head.now plans.now (E.sight eye.old).bytes }
    requires pass { IsPassOf board.now pass.old }
    requires eye { HasImage head.now (E.sight eye.old) }
    requires plans { AreMendable head.now plans.now }
    requires singles { AreSinglesFor head.now plans.now singles.now }
    requires ask { IsInRange head.now ask }
    requires buf { length buf.old ≡ head.now.symbol_bytes }
    requires tmp { length tmp.old ≡ head.now.symbol_bytes }
    ensures pass { IsPassOf board.now pass.new }
    ensures how { IfOk result
        (IsServedBy plans.now ask (pass_view pass.old) (pass_view pass.new)) }
    ensures failed { OnErr result
        (IsServedBy plans.now ask (pass_view pass.old) (pass_view pass.new) Direct
        ⊎ IsServedBy plans.now ask (pass_view pass.old) (pass_view pass.new) Degraded) }
    ensures reply { IfOk result (λ how. IfSome (E.sight eye.old).bytes (λ bytes.
        buf.new ≡ reply_by head.now plans.now singles.now (image_of head.now bytes) ask how)) }
    ensures taken { IfOk result (λ how. E.sight eye.new ≡ sight_with (E.sight eye.old)
        (bytes_by head.now singles.now ask how)) }
    ensures unused { IfOk result (λ how. how ≡ Rebuilt → eye.new ≡ eye.old) }
    ensures file { IsSameFile (E.sight eye.old) (E.sight eye.new) }
    ensures cause { HasCause (E.faults eye.old) (E.faults eye.new) result }
{
    let level = match level_of(plans.at(ask.stripe).recipes(), ask.symbol) {
        Some(level) => level,
        None => {
            eye.read_at(head.place(ask.stripe, ask.symbol), buf)?;
            return Ok(How::Direct);
        }
    };
    if board.look(pass, ask.stripe) {
        board.copy_out(pass, ask.stripe, level, buf);
        return Ok(How::Rebuilt);
    }
    let own = &singles[ask.stripe as usize % singles.len()];
    near(eye, head, own, kernel, ask, buf, tmp)?;
    Ok(How::Degraded)
}

/// The place of the recipe of a symbol, where there is one.
fn level_of(recipes: &[Recipe], symbol: u8) -> Option<u8>
    requires { length recipes.now ≤ 128 }
    ensures lost { is_some result ≡ has_recipe recipes.now symbol }
    ensures level { IfSome result (λ level. level < length recipes.now) }
    ensures symbol { IfSome result (λ level.
        slice_index (symbols_of recipes.now) level ≡ symbol) }
{
    for (level, recipe) in recipes.iter().enumerate() {
        if recipe.symbol() == symbol {
            return Some(level as u8);
        }
    }
    None
}

/// Serves the ask of a slot. It passes the gate at `ReadBegin` and at `ReadEnd` of that ask.
fn serve_slot<E: Eye, G: Gate>(
    task: &Task<G>,
    pass: &mut Pass,
    eye: &mut E,
    slot: &mut Slot,
    tmp: &mut [u8],
) -> Result<(), Failed>
    requires board { IsBoardOf task.now.board.now task.now.head.now task.now.plans.now
        (E.sight eye.old).bytes }
    requires pass { IsPassOf task.now.board.now pass.old }
    requires eye { HasImage task.now.head.now (E.sight eye.old) }
    requires plans { AreMendable task.now.head.now task.now.plans.now }
    requires singles { AreSinglesFor task.now.head.now task.now.plans.now task.now.singles.now }
    requires asks { All (IsInRange task.now.head.now) task.now.asks.now }
    requires slot { IsSlotFor task.now.head.now task.now.asks.now slot.old }
    requires tmp { length tmp.old ≡ task.now.head.now.symbol_bytes }
    ensures pass { IsPassOf task.now.board.now pass.new }
    ensures looked { HasLooked (pass_view pass.old) (pass_view pass.new) }
    ensures number { slot.new.number ≡ slot.old.number }
    ensures slot { IsSlotFor task.now.head.now task.now.asks.now slot.new }
    ensures served { OnOk result (IsServed task.now.head.now task.now.plans.now task.now.singles.now
        task.now.asks.now (E.sight eye.old).bytes slot.new) }
    ensures least { OnOk result (counted (E.sight eye.old).taken (least_bytes task.now.head.now
        task.now.plans.now (ask_at task.now.asks.now slot.old.number)) ≤ (E.sight eye.new).taken) }
    ensures most { OnOk result ((E.sight eye.new).taken ≤ counted (E.sight eye.old).taken
        (most_bytes task.now.head.now task.now.plans.now task.now.singles.now
        (ask_at task.now.asks.now slot.old.number))) }
    ensures file { IsSameFile (E.sight eye.old) (E.sight eye.new) }
    ensures cause { HasCause (E.faults eye.old) (E.faults eye.new) result }
{
    let number = slot.number;
    task.gate.pass(Point::ReadBegin { number });
    let ask = task.asks[number as usize];
    serve(
        task.board,
        pass,
        eye,
        task.head,
        task.plans,
        task.singles,
        task.kernel,
        ask,
        slot.bytes.as_mut_slice(),
        tmp,
    )?;
    task.gate.pass(Point::ReadEnd { number });
    Ok(())
}

/// Serves the asks of the slots in their order, until all are served or a read fails.
pub(crate) fn serve_slots<E: Eye, G: Gate>(
    task: &Task<G>,
    pass: &mut Pass,
    eye: &mut E,
    slots: &mut [Slot],
    tmp: &mut [u8],
) -> Result<(), Failed>
    requires board { IsBoardOf task.now.board.now task.now.head.now task.now.plans.now
        (E.sight eye.old).bytes }
    requires pass { IsPassOf task.now.board.now pass.old }
    requires eye { HasImage task.now.head.now (E.sight eye.old) }
    requires plans { AreMendable task.now.head.now task.now.plans.now }
    requires singles { AreSinglesFor task.now.head.now task.now.plans.now task.now.singles.now }
    requires asks { All (IsInRange task.now.head.now) task.now.asks.now }
    requires slots { All (IsSlotFor task.now.head.now task.now.asks.now) slots.old }
    requires tmp { length tmp.old ≡ task.now.head.now.symbol_bytes }
    ensures pass { IsPassOf task.now.board.now pass.new }
    ensures looked { HasLooked (pass_view pass.old) (pass_view pass.new) }
    ensures read { OnOk result (HasRead task.now.head.now task.now.plans.now task.now.singles.now
        task.now.asks.now (E.sight eye.old).bytes slots.old slots.new
        (E.sight eye.old).taken (E.sight eye.new).taken) }
    ensures file { IsSameFile (E.sight eye.old) (E.sight eye.new) }
    ensures cause { HasCause (E.faults eye.old) (E.faults eye.new) result }
{
    for slot in slots.iter_mut() {
        serve_slot(task, pass, eye, slot, tmp)?;
    }
    Ok(())
}
