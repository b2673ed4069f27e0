//! A whole image, put to a sink stripe by stripe.

ghost use Rattle.std.specs.Prelude.{◌≡◌, ℕ, List, ◌+◌, ◌*◌, ◌<◌, ◌≤◌, flat_map, length, IsErrOf, OnErr, OnOk};
ghost use Rattle.std.specs.List.{range_with_len};
ghost use Rattle.mr_model.specs.Sets.{count_below};
ghost use Rattle.mr_image.specs.Heads.{image_bytes};
ghost use Rattle.mr_image.specs.Images.{stripe_symbols};
ghost use Rattle.mr_io.specs.Counts.{Rose};
ghost use Rattle.mr_devices.specs.Places.{part_bytes};
ghost use Rattle.mr_gather.specs.Arrays.{gathered, is_read_of};
ghost use Rattle.mr_gather.specs.Slots.{AreLong, Fails, Holds, Keeps, Tells, Took};
ghost use Rattle.mr_steps.specs.Sinks.{TakesFront};
ghost use Rattle.mr_io.specs.Taking.{Takes};

use crate::errors::Broken;
use crate::stripes::{Gathering, gather_stripe};
use mr_io::{Eye, Sink, put_all};

/// Puts an image file: its head, and stripe after stripe the members of the set as they stand on the devices, and zero
/// bytes for each other symbol. Each eye is on the device of its number. No other byte of a device is read, and `stripe`
/// has room for one stripe, whatever it holds: no more is held of the image.
///
/// After `Read` and after `Write` the sink has a front of the image.
pub fn gather<E: Eye, K: Sink>(
    eyes: &mut [Option<E>],
    gathering: &Gathering,
    stripe: &mut [u8],
    out: &mut K,
) -> Result<(), Broken>
    requires devices { length eyes.old ≡ gathering.now.head.devices }
    requires present { Holds gathering.now.head gathering.now.set eyes.old }
    requires long { AreLong E.sight
        ((gathering.now.first + gathering.now.head.stripes) * part_bytes gathering.now.head) eyes.old }
    requires stripe { length stripe.old
        ≡ stripe_symbols gathering.now.head * gathering.now.head.symbol_bytes }
    ensures put { OnOk result ((devices : ℕ → List ℕ) → Tells E.sight devices eyes.old
        → Takes (K.held out.old) (K.held out.new) (image_bytes gathering.now.head
        (gathered gathering.now.head devices gathering.now.set gathering.now.first))) }
    ensures front { OnErr result ((devices : ℕ → List ℕ) → Tells E.sight devices eyes.old
        → TakesFront (K.held out.old) (K.held out.new) (image_bytes gathering.now.head
        (gathered gathering.now.head devices gathering.now.set gathering.now.first))) }
    ensures taken { OnOk result (Took E.sight E.faults (λ d. gathering.now.head.stripes
        * (count_below (stripe_symbols gathering.now.head)
        (is_read_of gathering.now.head gathering.now.set d) * gathering.now.head.symbol_bytes))
        eyes.old eyes.new) }
    ensures kept { Keeps E.sight E.faults eyes.old eyes.new }
    ensures read { IsErrOf result Broken.Read → Fails E.faults eyes.old eyes.new }
    ensures write { IsErrOf result Broken.Write → Rose (K.faults out.old) (K.faults out.new) }
    ensures later { K.faults out.old ≤ K.faults out.new }
    ensures quiet { OnOk result (K.faults out.new ≡ K.faults out.old) }
{
    if put_all(out, &gathering.head.print()).is_err() {
        return Err(Broken::Write);
    }
    for number in 0..gathering.head.stripes() {
        match put_stripe(eyes, gathering, number, stripe, out) {
            Ok(()) => {}
            Err(broken) => return Err(broken),
        }
    }
    Ok(())
}

/// Puts stripe `number`.
fn put_stripe<E: Eye, K: Sink>(
    eyes: &mut [Option<E>],
    gathering: &Gathering,
    number: u32,
    stripe: &mut [u8],
    out: &mut K,
) -> Result<(), Broken>
    requires number { number < gathering.now.head.stripes }
    requires devices { length eyes.old ≡ gathering.now.head.devices }
    requires present { Holds gathering.now.head gathering.now.set eyes.old }
    requires long { AreLong E.sight
        ((gathering.now.first + gathering.now.head.stripes) * part_bytes gathering.now.head) eyes.old }
    requires stripe { length stripe.old
        ≡ stripe_symbols gathering.now.head * gathering.now.head.symbol_bytes }
    ensures put { OnOk result ((devices : ℕ → List ℕ) → Tells E.sight devices eyes.old
        → Takes (K.held out.old) (K.held out.new) (flat_map
        (gathered gathering.now.head devices gathering.now.set gathering.now.first number)
        (range_with_len 0 (stripe_symbols gathering.now.head)))) }
    ensures front { OnErr result ((devices : ℕ → List ℕ) → Tells E.sight devices eyes.old
        → TakesFront (K.held out.old) (K.held out.new) (flat_map
        (gathered gathering.now.head devices gathering.now.set gathering.now.first number)
        (range_with_len 0 (stripe_symbols gathering.now.head)))) }
    ensures taken { OnOk result (Took E.sight E.faults (λ d. count_below
        (stripe_symbols gathering.now.head) (is_read_of gathering.now.head gathering.now.set d)
        * gathering.now.head.symbol_bytes) eyes.old eyes.new) }
    ensures kept { Keeps E.sight E.faults eyes.old eyes.new }
    ensures read { IsErrOf result Broken.Read → Fails E.faults eyes.old eyes.new }
    ensures write { IsErrOf result Broken.Write → Rose (K.faults out.old) (K.faults out.new) }
    ensures later { K.faults out.old ≤ K.faults out.new }
    ensures quiet { OnOk result (K.faults out.new ≡ K.faults out.old) }
{
    match gather_stripe(eyes, gathering, number, stripe) {
        Ok(()) => match put_all(out, stripe) {
            Ok(()) => Ok(()),
            Err(_) => Err(Broken::Write),
        },
        Err(_) => Err(Broken::Read),
    }
}
