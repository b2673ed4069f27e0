ghost use Rattle.std.specs.Prelude.{◌≡◌, ◌*◌, ◌<◌, length, map, take, All, IfSome, OnOk};
ghost use Rattle.mr_model.specs.Plans.{Recipe as RecipeOf};
ghost use Rattle.mr_io.specs.Counts.{HasCause};
ghost use Rattle.mr_io.specs.Sights.{sight_with};
ghost use Rattle.mr_image.specs.Images.{image_of, stripe_symbols};
ghost use Rattle.mr_image.specs.Heads.{file_bytes, head_bytes};
ghost use Rattle.mr_image.specs.Sights.{HasImage, IsSameFile};
ghost use Rattle.mr_plan.specs.PlanLists.{recipes_at};
ghost use Rattle.mr_mend.specs.Mending.{AreMendable, IsUpwards, HoldsMended, PutsSymbols, members_read};

use mr_image::{HEAD_BYTES, ImageHead};
use mr_plan::Recipe;

/// How many bytes the head has.
const HEAD: usize = HEAD_BYTES as usize;

/// Puts the symbols of the recipes, which stand in their order, to their places in one stripe of `image`, which has the
/// bytes of the whole file.
pub fn put_symbols(
    head: &ImageHead,
    recipes: &[Recipe],
    stripe: u32,
    symbols: &[u8],
    image: &mut [u8],
)
    requires stripe { stripe < head.now.stripes }
    requires in_range { All (λ (r : RecipeOf). r.symbol < stripe_symbols head.now) recipes.now }
    requires upwards { IsUpwards (map (λ (r : RecipeOf). r.symbol) recipes.now) }
    requires symbols { length symbols.now ≡ length recipes.now * head.now.symbol_bytes }
    requires image { length image.old ≡ file_bytes head.now }
    ensures { PutsSymbols head.now recipes.now stripe symbols.now image.old image.new }
{
    let size = head.bytes() as usize;
    for (k, recipe) in recipes.iter().enumerate() {
        let at = head.place(stripe, recipe.symbol()) as usize;
        let from = k * size;
        image[at..at + size].copy_from_slice(&symbols[from..from + size]);
    }
}

/// Makes the first bytes of `image`, which has the bytes of the whole file, the head.
pub fn print_head(head: &ImageHead, image: &mut [u8])
    requires { length image.old ≡ file_bytes head.now }
    ensures { take HEAD_BYTES image.new ≡ head_bytes head.now }
{
    let bytes = head.print();
    image[..HEAD].copy_from_slice(&bytes);
}
