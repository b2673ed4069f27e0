//! One stripe, of which the parts of the lost devices are written.

ghost use Rattle.std.specs.Prelude.{◌≡◌, ℕ, List, ◌+◌, ◌*◌, ◌^◌, ◌<◌, ◌≤◌, get_or, length, None, All, OnErr, OnOk};
ghost use Rattle.mr_image.specs.Images.{stripe_symbols};
ghost use Rattle.mr_io.specs.Counts.{HasCause};
ghost use Rattle.mr_devices.specs.Places.{part_bytes};
ghost use Rattle.mr_scatter.specs.Parts.{HasOpen, Stores, StoresFront, part_in};

use mr_devices::Devices;
use mr_image::ImageHead;
use mr_io::Failed;

/// What is scattered: an image of this head, whose first stripe is number `first` of the array, to the lost devices. The
/// file of the k-th lost device is the k-th that is open.
#[derive(Drop)]
pub struct Scattering<'a> {
    pub head: ImageHead,
    pub first: u32,
    pub lost: &'a [u8],
}

/// Writes of stripe `number`, whose bytes these are, the part of each lost device to its place, and nothing else. After
/// `Failed` each file has a front of its part.
pub(crate) fn scatter_stripe<D: Devices>(
    devices: &mut D,
    scattering: &Scattering,
    number: u32,
    stripe: &[u8],
) -> Result<(), Failed>
    requires there { HasOpen (D.told devices.old) (length scattering.now.lost.now) }
    requires lost { All (λ d. d < scattering.now.head.devices) scattering.now.lost.now }
    requires stripe { length stripe.now
        ≡ stripe_symbols scattering.now.head * scattering.now.head.symbol_bytes }
    ensures stored { OnOk result (Stores (D.told devices.old) (D.told devices.new)
        (λ k. (scattering.now.first + number) * part_bytes scattering.now.head)
        (λ k. part_in scattering.now.head stripe.now 0 (get_or scattering.now.lost.now k 0))) }
    ensures front { OnErr result (StoresFront 0 (D.told devices.old) (D.told devices.new)
        (λ k. (scattering.now.first + number) * part_bytes scattering.now.head)
        (λ k. part_in scattering.now.head stripe.now 0 (get_or scattering.now.lost.now k 0))) }
    ensures untold { D.told devices.old ≡ None → D.told devices.new ≡ None }
    ensures cause { HasCause (D.faults devices.old) (D.faults devices.new) result }
{
    let size = scattering.head.bytes() as usize;
    let part = scattering.head.w() as usize * size;
    let at = part_place(scattering.first, number, part as u64);
    for (k, device) in scattering.lost.iter().enumerate() {
        let from = usize::from(*device) * part;
        devices.write_at(k, at, &stripe[from..from + part])?;
    }
    Ok(())
}

/// Where a part of so many bytes begins on each device, in stripe `number` from stripe `first` on.
fn part_place(first: u32, number: u32, part: u64) -> u64
    requires { part ≤ 2 ^ 23 }
    ensures place { result ≡ (first + number) * part }
    ensures few { result ≤ 2 ^ 56 }
{
    (u64::from(first) + u64::from(number)) * part
}
