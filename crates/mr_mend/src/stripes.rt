ghost use Rattle.std.specs.Prelude.{◌≡◌, ℕ, ◌*◌, ◌<◌, List, flat_map, length, IfSome, OnOk};
ghost use Rattle.mr_model.specs.Plans.{Recipe as RecipeOf};
ghost use Rattle.mr_model.specs.Members.{members};
ghost use Rattle.mr_io.specs.Counts.{HasCause};
ghost use Rattle.mr_io.specs.Sights.{sight_with};
ghost use Rattle.mr_image.specs.Images.{every_stripe, image_of};
ghost use Rattle.mr_image.specs.Sights.{HasImage, IsSameFile};
ghost use Rattle.mr_board.specs.Rights.{lost_bytes};
ghost use Rattle.mr_mend.specs.Mending.{IsMendable, with_symbol};

use mr_image::ImageHead;
use mr_io::{Eye, Failed};
use mr_kern::XorKernel;
use mr_plan::{Plan, Recipe};

/// Fills `lost` with the rebuilt symbols of one stripe, in the order of the recipes.
///
/// It reads each symbol of the plan's set once, upwards, into `buf`, which has the bytes of one symbol; `lost` has those
/// of one symbol for each recipe. It takes no memory. A read that fails is answered at once, and `lost` is then of no use.
pub fn mend_stripe<E: Eye>(
    eye: &mut E,
    head: &ImageHead,
    plan: &Plan,
    kernel: &XorKernel,
    stripe: u32,
    buf: &mut [u8],
    lost: &mut [u8],
) -> Result<(), Failed>
    requires eye { HasImage head.now (E.sight eye.old) }
    requires plan { IsMendable head.now plan.now }
    requires stripe { stripe < head.now.stripes }
    requires buf { length buf.old ≡ head.now.symbol_bytes }
    requires lost { length lost.old ≡ length plan.now.recipes * head.now.symbol_bytes }
    ensures mended { OnOk result (IfSome (E.sight eye.old).bytes (λ bytes.
        lost.new ≡ lost_bytes head.now (every_stripe plan.now.recipes)
        (image_of head.now bytes) stripe)) }
    ensures taken { OnOk result (E.sight eye.new ≡ sight_with (E.sight eye.old)
        (length (members plan.now.set) * head.now.symbol_bytes)) }
    ensures file { IsSameFile (E.sight eye.old) (E.sight eye.new) }
    ensures cause { HasCause (E.faults eye.old) (E.faults eye.new) result }
{
    lost.fill(0);
    for symbol in plan.set().symbols() {
        eye.read_at(head.place(stripe, symbol), buf)?;
        add_symbol(plan.recipes(), kernel, symbol, buf, lost);
    }
    Ok(())
}

/// XORs a symbol into the slot of each recipe that has it.
fn add_symbol(recipes: &[Recipe], kernel: &XorKernel, number: u8, symbol: &[u8], slots: &mut [u8])
    requires { length slots.old ≡ length recipes.now * length symbol.now }
    ensures { (held : RecipeOf → List ℕ) → ((r : RecipeOf) → length (held r) ≡ length symbol.now)
        → slots.old ≡ flat_map held recipes.now
        → slots.new ≡ flat_map (λ (r : RecipeOf). with_symbol number symbol.now r (held r))
        recipes.now }
{
    let size = symbol.len();
    for (k, recipe) in recipes.iter().enumerate() {
        if recipe.sources().contains(number) {
            let at = k * size;
            kernel.xor_into(&mut slots[at..at + size], symbol);
        }
    }
}
