//! All stripes of an image.

ghost use Rattle.std.specs.Prelude.{◌≡◌, ℕ, List, ◌+◌, ◌*◌, ◌<◌, ◌≤◌, ◌≢◌, [], Err, get_or, length, None, All, IfErr, IsErrOf, OnErr, OnOk};
ghost use Rattle.std.specs.Option.{ForSome};
ghost use Rattle.std.specs.Io.KnownBytes.{Consumes};
ghost use Rattle.mr_image.specs.Images.{body_bytes, stripe_symbols};
ghost use Rattle.mr_io.specs.Counts.{Rose};
ghost use Rattle.mr_devices.specs.Places.{part_bytes};
ghost use Rattle.mr_scatter.specs.declared.errors.ScatterFault.{ScatterFault};
ghost use Rattle.mr_scatter.specs.Parts.{HasOpen, Stores, StoresFront, device_text, part_in, whole_stripes};

use crate::errors::{ScatterFault, Stopped};
use crate::filling::fill;
use crate::stripes::{Scattering, scatter_stripe};
use mr_devices::Devices;
use mr_io::Source;

/// Reads the stripes of an image from a source, to its end, and writes of each stripe the part of each lost device to its
/// place in the file of that device, and nothing else. `stripe` has room for one stripe, whatever it holds: no more is held
/// of the image.
///
/// `Length` comes where the source ends before the last symbol, and where bytes follow it. What was written before a fault
/// stays: all parts of the stripes that the error counts, and after `Write` a front of the parts of the next one.
pub fn scatter<S: Source, D: Devices>(
    source: &mut S,
    devices: &mut D,
    scattering: &Scattering,
    stripe: &mut [u8],
) -> Result<(), Stopped>
    requires there { HasOpen (D.told devices.old) (length scattering.now.lost.now) }
    requires lost { All (λ d. d < scattering.now.head.devices) scattering.now.lost.now }
    requires stripe { length stripe.old
        ≡ stripe_symbols scattering.now.head * scattering.now.head.symbol_bytes }
    ensures stored { OnOk result (ForSome (S.left source.old) (λ body.
        (length body ≡ body_bytes scattering.now.head) × Stores (D.told devices.old) (D.told devices.new)
        (λ k. scattering.now.first * part_bytes scattering.now.head)
        (λ k. device_text scattering.now.head body (get_or scattering.now.lost.now k 0)
        scattering.now.head.stripes))) }
    ensures few { IfErr result (λ stopped. stopped.stripes ≤ scattering.now.head.stripes) }
    ensures kept { IfErr result (λ stopped. stopped.fault ≢ ScatterFault.Write
        → ForSome (S.left source.old) (λ body. Stores (D.told devices.old) (D.told devices.new)
        (λ k. scattering.now.first * part_bytes scattering.now.head)
        (λ k. device_text scattering.now.head body (get_or scattering.now.lost.now k 0)
        stopped.stripes))) }
    ensures front { IfErr result (λ stopped. stopped.fault ≡ ScatterFault.Write
        → ForSome (S.left source.old) (λ body.
        StoresFront (stopped.stripes * part_bytes scattering.now.head)
        (D.told devices.old) (D.told devices.new)
        (λ k. scattering.now.first * part_bytes scattering.now.head)
        (λ k. device_text scattering.now.head body (get_or scattering.now.lost.now k 0)
        (stopped.stripes + 1)))) }
    ensures read { IfErr result (λ stopped. stopped.fault ≡ ScatterFault.Read
        → Rose (S.faults source.old) (S.faults source.new)) }
    ensures write { IfErr result (λ stopped. stopped.fault ≡ ScatterFault.Write
        → Rose (D.faults devices.old) (D.faults devices.new)) }
    ensures wrong { IfErr result (λ stopped. stopped.fault ≡ ScatterFault.Length
        → ForSome (S.left source.old) (λ body. (length body ≢ body_bytes scattering.now.head)
        × (stopped.stripes ≡ whole_stripes scattering.now.head (length body)))) }
    ensures later { D.faults devices.old ≤ D.faults devices.new }
    ensures source_later { S.faults source.old ≤ S.faults source.new }
    ensures quiet { OnOk result (D.faults devices.new ≡ D.faults devices.old) }
    ensures source_quiet { OnOk result (S.faults source.new ≡ S.faults source.old) }
{
    for number in 0..scattering.head.stripes() {
        match scatter_next(source, devices, scattering, number, stripe) {
            Ok(()) => {}
            Err(fault) => {
                return Err(Stopped {
                    stripes: number,
                    fault,
                });
            }
        }
    }
    match end(source) {
        Ok(()) => Ok(()),
        Err(fault) => Err(Stopped {
            stripes: scattering.head.stripes(),
            fault,
        }),
    }
}

/// Reads stripe `number`, which is the next, and writes its parts.
fn scatter_next<S: Source, D: Devices>(
    source: &mut S,
    devices: &mut D,
    scattering: &Scattering,
    number: u32,
    stripe: &mut [u8],
) -> Result<(), ScatterFault>
    requires there { HasOpen (D.told devices.old) (length scattering.now.lost.now) }
    requires lost { All (λ d. d < scattering.now.head.devices) scattering.now.lost.now }
    requires stripe { length stripe.old
        ≡ stripe_symbols scattering.now.head * scattering.now.head.symbol_bytes }
    ensures next { OnOk result (Consumes (S.left source.old) (S.left source.new) stripe.new) }
    ensures stored { OnOk result (Stores (D.told devices.old) (D.told devices.new)
        (λ k. (scattering.now.first + number) * part_bytes scattering.now.head)
        (λ k. part_in scattering.now.head stripe.new 0 (get_or scattering.now.lost.now k 0))) }
    ensures kept { (fault : ScatterFault) → result ≡ Err fault → fault ≢ ScatterFault.Write
        → D.told devices.new ≡ D.told devices.old }
    ensures front { IsErrOf result ScatterFault.Write
        → Consumes (S.left source.old) (S.left source.new) stripe.new
        × StoresFront 0 (D.told devices.old) (D.told devices.new)
        (λ k. (scattering.now.first + number) * part_bytes scattering.now.head)
        (λ k. part_in scattering.now.head stripe.new 0 (get_or scattering.now.lost.now k 0)) }
    ensures untold { D.told devices.old ≡ None → D.told devices.new ≡ None }
    ensures read { IsErrOf result ScatterFault.Read → Rose (S.faults source.old) (S.faults source.new) }
    ensures write { IsErrOf result ScatterFault.Write
        → Rose (D.faults devices.old) (D.faults devices.new) }
    ensures wrong { IsErrOf result ScatterFault.Length
        → ForSome (S.left source.old) (λ left. length left < length stripe.old) }
    ensures later { D.faults devices.old ≤ D.faults devices.new }
    ensures source_later { S.faults source.old ≤ S.faults source.new }
    ensures quiet { OnOk result (D.faults devices.new ≡ D.faults devices.old) }
    ensures source_quiet { OnOk result (S.faults source.new ≡ S.faults source.old) }
{
    let Ok(count) = fill(source, stripe) else {
        return Err(ScatterFault::Read);
    };
    if count < stripe.len() {
        return Err(ScatterFault::Length);
    }
    match scatter_stripe(devices, scattering, number, stripe) {
        Ok(()) => Ok(()),
        Err(_) => Err(ScatterFault::Write),
    }
}

/// Refuses bytes that follow.
fn end<S: Source>(source: &mut S) -> Result<(), ScatterFault>
    ensures ended { OnOk result (ForSome (S.left source.old) (λ left. left ≡ [])) }
    ensures read { IsErrOf result ScatterFault.Read → Rose (S.faults source.old) (S.faults source.new) }
    ensures write { IsErrOf result ScatterFault.Write → ⊥ }
    ensures wrong { IsErrOf result ScatterFault.Length
        → ForSome (S.left source.old) (λ left. 0 < length left) }
    ensures later { S.faults source.old ≤ S.faults source.new }
    ensures quiet { OnOk result (S.faults source.new ≡ S.faults source.old) }
{
    let mut more = [0];
    match source.get(&mut more) {
        Ok(0) => Ok(()),
        Ok(_) => Err(ScatterFault::Length),
        Err(_) => Err(ScatterFault::Read),
    }
}
