ghost use Rattle.std.specs.Prelude.{◌≡◌, ◌-◌, ◌*◌, ◌^◌, ◌<◌, ◌≤◌, ◌==◌, length, IfSome, OnOk};
ghost use Rattle.std.specs.Int.{bit_at};
ghost use Rattle.std.specs.List.{list_any};
ghost use Rattle.mr_model.specs.Plans.{Recipe as RecipeOf};
ghost use Rattle.mr_model.specs.Members.{members};
ghost use Rattle.mr_io.specs.Counts.{HasCause};
ghost use Rattle.mr_io.specs.Sights.{sight_with};
ghost use Rattle.mr_image.specs.Images.{image_of, stripe_symbols};
ghost use Rattle.mr_image.specs.Heads.{file_bytes};
ghost use Rattle.mr_image.specs.Sights.{HasImage, IsSameFile};
ghost use Rattle.mr_plan.specs.PlanLists.{recipes_at};
ghost use Rattle.mr_mend.specs.Mending.{copied_set, HoldsCopies, KeepsMended, HoldsSymbols, KeepsOthers, HoldsRun, KeepsBesides, IsRunEnd};

use mr_bits::Mask;
use mr_image::ImageHead;
use mr_io::{Eye, Failed};
use mr_plan::{Plans, Recipe};

/// Reads each symbol that has no recipe to its place in `image`, which has the bytes of the whole file.
///
/// Each is read once, straight into its place, and the symbols with a recipe stay as they are. It takes no memory. A read
/// that fails is answered at once.
pub fn copy_survivors<E: Eye>(
    eye: &mut E,
    head: &ImageHead,
    plans: &Plans,
    image: &mut [u8],
) -> Result<(), Failed>
    requires eye { HasImage head.now (E.sight eye.old) }
    requires image { length image.old ≡ file_bytes head.now }
    ensures copied { OnOk result (IfSome (E.sight eye.old).bytes (λ bytes.
        HoldsCopies head.now (recipes_at plans.now) (image_of head.now bytes) image.new)) }
    ensures kept { KeepsMended head.now (recipes_at plans.now) image.old image.new }
    ensures taken { OnOk result (E.sight eye.new ≡ sight_with (E.sight eye.old)
        (head.now.stripes * (length (members (copied_set head.now (recipes_at plans.now 0)))
        * head.now.symbol_bytes))) }
    ensures file { IsSameFile (E.sight eye.old) (E.sight eye.new) }
    ensures cause { HasCause (E.faults eye.old) (E.faults eye.new) result }
{
    let copied = copied_symbols(head, plans.at(0).recipes());
    for stripe in 0..head.stripes() {
        copy_stripe(eye, head, copied, stripe, image)?;
    }
    Ok(())
}

/// Reads the symbols of a set to their places in one stripe of `image`, which has the bytes of the whole file.
///
/// Each run of neighbours is one read. It takes no memory. A read that fails is answered at once.
pub fn copy_stripe<E: Eye>(
    eye: &mut E,
    head: &ImageHead,
    set: Mask,
    stripe: u32,
    image: &mut [u8],
) -> Result<(), Failed>
    requires eye { HasImage head.now (E.sight eye.old) }
    requires set { set < 2 ^ stripe_symbols head.now }
    requires stripe { stripe < head.now.stripes }
    requires image { length image.old ≡ file_bytes head.now }
    ensures copied { OnOk result (IfSome (E.sight eye.old).bytes (λ bytes.
        HoldsSymbols head.now set stripe (image_of head.now bytes) image.new)) }
    ensures kept { KeepsOthers head.now set stripe image.old image.new }
    ensures taken { OnOk result (E.sight eye.new ≡ sight_with (E.sight eye.old)
        (length (members set) * head.now.symbol_bytes)) }
    ensures file { IsSameFile (E.sight eye.old) (E.sight eye.new) }
    ensures cause { HasCause (E.faults eye.old) (E.faults eye.new) result }
{
    let mut end = 0;
    for symbol in set.symbols() {
        if symbol < end {
            continue;
        }
        end = run_end(set, symbol);
        let run = Run { first: symbol, end };
        copy_run(eye, head, stripe, run, image)?;
    }
    Ok(())
}

/// Neighbours among the symbols of a stripe: those from `first` up to `end`, which is not one of them.
#[derive(Clone, Copy)]
struct Run {
    first: u8,
    end: u8,
}

/// Reads the symbols of a run to their places in one stripe, by one read.
fn copy_run<E: Eye>(
    eye: &mut E,
    head: &ImageHead,
    stripe: u32,
    run: Run,
    image: &mut [u8],
) -> Result<(), Failed>
    requires eye { HasImage head.now (E.sight eye.old) }
    requires stripe { stripe < head.now.stripes }
    requires first { run.first < run.end }
    requires end { run.end ≤ stripe_symbols head.now }
    requires image { length image.old ≡ file_bytes head.now }
    ensures copied { OnOk result (IfSome (E.sight eye.old).bytes (λ bytes.
        HoldsRun head.now stripe run.first run.end (image_of head.now bytes) image.new)) }
    ensures kept { KeepsBesides head.now stripe run.first run.end image.old image.new }
    ensures taken { OnOk result (E.sight eye.new ≡ sight_with (E.sight eye.old)
        ((run.end - run.first) * head.now.symbol_bytes)) }
    ensures file { IsSameFile (E.sight eye.old) (E.sight eye.new) }
    ensures cause { HasCause (E.faults eye.old) (E.faults eye.new) result }
{
    let place = head.place(stripe, run.first);
    let at = place as usize;
    let size = usize::from(run.end - run.first) * head.bytes() as usize;
    eye.read_at(place, &mut image[at..at + size])
}

/// Where the run of members ends that begins with `first`: the first number behind it that is no member.
fn run_end(set: Mask, first: u8) -> u8
    requires { bit_at set first ≡ 1 }
    ensures { IsRunEnd set first result }
{
    first + (set.number() >> first).trailing_ones() as u8
}

/// The symbols of a stripe that no recipe rebuilds.
fn copied_symbols(head: &ImageHead, recipes: &[Recipe]) -> Mask
    ensures { result ≡ copied_set head.now recipes.now }
{
    let mut copied = Mask::EMPTY;
    for symbol in 0..head.symbols() as u8 {
        if !is_rebuilt(recipes, symbol) {
            copied = copied.with(symbol);
        }
    }
    copied
}

/// Whether some recipe is one of this symbol.
pub(crate) fn is_rebuilt(recipes: &[Recipe], symbol: u8) -> bool
    ensures { result ≡ list_any (λ (r : RecipeOf). r.symbol == symbol) recipes.now }
{
    recipes.iter().any(|recipe| recipe.symbol() == symbol)
}
