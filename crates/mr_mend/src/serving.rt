ghost use Rattle.std.specs.Prelude.{◌≡◌, ◌*◌, [], ◌∷◌, length, All, IfSome, OnOk};
ghost use Rattle.mr_io.specs.Counts.{HasCause};
ghost use Rattle.mr_io.specs.Sights.{sight_with};
ghost use Rattle.mr_image.specs.Images.{image_of, mended};
ghost use Rattle.mr_image.specs.Heads.{file_bytes};
ghost use Rattle.mr_image.specs.Sights.{HasImage, IsSameFile};
ghost use Rattle.mr_plan.specs.PlanLists.{recipes_at};
ghost use Rattle.mr_mend.specs.Mending.{HoldsMended};
ghost use Rattle.mr_mend.specs.Scripts.{IsInRange};
ghost use Rattle.mr_mend.specs.Serving.{live_reads, reply_bytes};

use crate::asks::Ask;
use crate::copies::is_rebuilt;
use crate::rebuilds::Rebuild;
use mr_io::{Eye, Failed};

/// Fills `replies` with the bytes of each ask's symbol of the mended image, one after another, in the order of the asks.
///
/// A symbol that has a recipe is taken from `image`, which has the bytes of the whole file and each of these symbols
/// rebuilt at its place. Any other is read by the eye, once for each ask. `replies` has the bytes of one symbol for each
/// ask. It takes no memory. A read that fails is answered at once, and `replies` is then of no use.
pub fn serve_asks<E: Eye>(
    eye: &mut E,
    rebuild: &Rebuild,
    image: &[u8],
    replies: &mut [u8],
) -> Result<(), Failed>
    requires eye { HasImage rebuild.now.head.now (E.sight eye.old) }
    requires asks { All (IsInRange rebuild.now.head.now) rebuild.now.asks.now }
    requires image { length image.now ≡ file_bytes rebuild.now.head.now }
    requires replies { length replies.old
        ≡ length rebuild.now.asks.now * rebuild.now.head.now.symbol_bytes }
    ensures served { OnOk result (IfSome (E.sight eye.old).bytes (λ bytes.
        HoldsMended rebuild.now.head.now (recipes_at rebuild.now.plans.now)
        (image_of rebuild.now.head.now bytes) image.now
        → replies.new ≡ reply_bytes
        (mended rebuild.now.head.now (recipes_at rebuild.now.plans.now)
        (image_of rebuild.now.head.now bytes)) rebuild.now.asks.now)) }
    ensures taken { OnOk result (E.sight eye.new ≡ sight_with (E.sight eye.old)
        (live_reads rebuild.now.head.now (recipes_at rebuild.now.plans.now) rebuild.now.asks.now)) }
    ensures file { IsSameFile (E.sight eye.old) (E.sight eye.new) }
    ensures cause { HasCause (E.faults eye.old) (E.faults eye.new) result }
{
    let size = rebuild.head.bytes() as usize;
    for (k, ask) in rebuild.asks.iter().enumerate() {
        let at = k * size;
        let reply = &mut replies[at..at + size];
        serve_ask(eye, rebuild, *ask, image, reply)?;
    }
    Ok(())
}

/// Makes `reply`, which has the bytes of one symbol, the symbol of the mended image that is asked for.
fn serve_ask<E: Eye>(
    eye: &mut E,
    rebuild: &Rebuild,
    ask: Ask,
    image: &[u8],
    reply: &mut [u8],
) -> Result<(), Failed>
    requires eye { HasImage rebuild.now.head.now (E.sight eye.old) }
    requires ask { IsInRange rebuild.now.head.now ask }
    requires image { length image.now ≡ file_bytes rebuild.now.head.now }
    requires reply { length reply.old ≡ rebuild.now.head.now.symbol_bytes }
    ensures served { OnOk result (IfSome (E.sight eye.old).bytes (λ bytes.
        HoldsMended rebuild.now.head.now (recipes_at rebuild.now.plans.now)
        (image_of rebuild.now.head.now bytes) image.now
        → reply.new ≡ mended rebuild.now.head.now (recipes_at rebuild.now.plans.now)
        (image_of rebuild.now.head.now bytes) ask.stripe ask.symbol)) }
    ensures taken { OnOk result (E.sight eye.new ≡ sight_with (E.sight eye.old)
        (live_reads rebuild.now.head.now (recipes_at rebuild.now.plans.now) (ask ∷ []))) }
    ensures file { IsSameFile (E.sight eye.old) (E.sight eye.new) }
    ensures cause { HasCause (E.faults eye.old) (E.faults eye.new) result }
{
    let place = rebuild.head.place(ask.stripe, ask.symbol);
    if !is_rebuilt(rebuild.plans.at(ask.stripe).recipes(), ask.symbol) {
        return eye.read_at(place, reply);
    }
    let at = place as usize;
    reply.copy_from_slice(&image[at..at + reply.len()]);
    Ok(())
}
