//! One stripe of an array: the symbols that are wanted are read from their devices.

ghost use Rattle.std.specs.Prelude.{◌≡◌, ℕ, List, ◌+◌, ◌*◌, ◌<◌, ◌≤◌, drop, flat_map, if◌then◌else◌, length, replicate, take, IfSome, OnErr, OnOk};
ghost use Rattle.std.specs.List.{range_with_len};
ghost use Rattle.mr_model.specs.Sets.{count_below};
ghost use Rattle.mr_image.specs.Images.{stripe_symbols};
ghost use Rattle.mr_devices.specs.Places.{device_place, part_bytes};
ghost use Rattle.mr_gather.specs.Arrays.{gathered, is_read_of};
ghost use Rattle.mr_gather.specs.Slots.{AreLong, Fails, FailsOf, Holds, Keeps, KeepsOf, Tells, Took, TookOf};

use mr_bits::Mask;
use mr_image::ImageHead;
use mr_io::{Eye, Failed};

/// What is gathered: an image of this head, of the stripes of an array from number `first` on. The symbols of the set are
/// read, and those of no other are.
#[derive(Clone, Copy, Debug)]
pub struct Gathering {
    pub head: ImageHead,
    pub set: Mask,
    pub first: u32,
}

/// Makes `stripe`, whatever it held, stripe `number` of the image: the members of the set as they stand on their
/// devices, and zero bytes for each other symbol. No other byte of a device is read.
pub(crate) fn gather_stripe<E: Eye>(
    eyes: &mut [Option<E>],
    gathering: &Gathering,
    number: u32,
    stripe: &mut [u8],
) -> Result<(), Failed>
    requires number { number < gathering.now.head.stripes }
    requires devices { length eyes.old ≡ gathering.now.head.devices }
    requires present { Holds gathering.now.head gathering.now.set eyes.old }
    requires long { AreLong E.sight
        ((gathering.now.first + gathering.now.head.stripes) * part_bytes gathering.now.head) eyes.old }
    requires stripe { length stripe.old
        ≡ stripe_symbols gathering.now.head * gathering.now.head.symbol_bytes }
    ensures made { OnOk result ((devices : ℕ → List ℕ) → Tells E.sight devices eyes.old
        → stripe.new ≡ flat_map
        (gathered gathering.now.head devices gathering.now.set gathering.now.first number)
        (range_with_len 0 (stripe_symbols gathering.now.head))) }
    ensures taken { OnOk result (Took E.sight E.faults (λ d. count_below
        (stripe_symbols gathering.now.head) (is_read_of gathering.now.head gathering.now.set d)
        * gathering.now.head.symbol_bytes) eyes.old eyes.new) }
    ensures kept { Keeps E.sight E.faults eyes.old eyes.new }
    ensures cause { OnErr result (Fails E.faults eyes.old eyes.new) }
{
    let size = gathering.head.bytes() as usize;
    for symbol in 0..gathering.head.symbols() as u8 {
        let at = usize::from(symbol) * size;
        gather_symbol(eyes, gathering, number, symbol, &mut stripe[at..at + size])?;
    }
    Ok(())
}

/// Makes `bytes` the symbol `symbol` of stripe `number`.
fn gather_symbol<E: Eye>(
    eyes: &mut [Option<E>],
    gathering: &Gathering,
    number: u32,
    symbol: u8,
    bytes: &mut [u8],
) -> Result<(), Failed>
    requires number { number < gathering.now.head.stripes }
    requires symbol { symbol < stripe_symbols gathering.now.head }
    requires devices { length eyes.old ≡ gathering.now.head.devices }
    requires present { Holds gathering.now.head gathering.now.set eyes.old }
    requires long { AreLong E.sight
        ((gathering.now.first + gathering.now.head.stripes) * part_bytes gathering.now.head) eyes.old }
    requires bytes { length bytes.old ≡ gathering.now.head.symbol_bytes }
    ensures made { OnOk result ((devices : ℕ → List ℕ) → Tells E.sight devices eyes.old
        → bytes.new ≡ gathered gathering.now.head devices gathering.now.set gathering.now.first
        number symbol) }
    ensures taken { OnOk result (Took E.sight E.faults
        (λ d. if is_read_of gathering.now.head gathering.now.set d symbol
        then gathering.now.head.symbol_bytes else 0) eyes.old eyes.new) }
    ensures kept { Keeps E.sight E.faults eyes.old eyes.new }
    ensures cause { OnErr result (Fails E.faults eyes.old eyes.new) }
{
    if !gathering.set.contains(symbol) {
        clear(bytes);
        return Ok(());
    }
    let _within_limits = gathering.head.symbols();
    let w = gathering.head.w();
    let at = place_on_device(gathering, number, symbol);
    read_slot(&mut eyes[(u32::from(symbol) / w) as usize], at, bytes)
}

/// Where symbol `symbol` of stripe `number` begins on its device.
fn place_on_device(gathering: &Gathering, number: u32, symbol: u8) -> u64
    requires symbol { symbol < stripe_symbols gathering.now.head }
    ensures { result ≡ device_place gathering.now.head (gathering.now.first + number) symbol }
{
    let size = u64::from(gathering.head.bytes());
    let w = gathering.head.w();
    let stripe = u64::from(gathering.first) + u64::from(number);
    (stripe * u64::from(w) + u64::from(u32::from(symbol) % w)) * size
}

/// Fills `bytes` from this place of the device on, or with zero bytes where there is none.
fn read_slot<E: Eye>(slot: &mut Option<E>, at: u64, bytes: &mut [u8]) -> Result<(), Failed>
    requires { IfSome slot.old (λ eye. IfSome (E.sight eye).bytes
        (λ file. at + length bytes.old ≤ length file)) }
    ensures read { OnOk result (IfSome slot.old (λ eye. IfSome (E.sight eye).bytes
        (λ file. bytes.new ≡ take (length bytes.old) (drop at file)))) }
    ensures taken { OnOk result
        (TookOf E.sight E.faults (length bytes.old) slot.old slot.new) }
    ensures kept { KeepsOf E.sight E.faults slot.old slot.new }
    ensures cause { OnErr result (FailsOf E.faults slot.old slot.new) }
{
    match slot {
        Some(eye) => eye.read_at(at, bytes),
        None => {
            clear(bytes);
            Ok(())
        }
    }
}

/// Makes each byte zero.
fn clear(bytes: &mut [u8])
    ensures { bytes.new ≡ replicate (length bytes.old) 0 }
{
    bytes.fill(0);
}
