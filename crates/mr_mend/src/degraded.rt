//! The degraded read: a lost symbol from the few symbols that are read for it alone.

ghost use Rattle.std.specs.Prelude.{◌≡◌, ◌*◌, ◌<◌, length, IfSome, OnOk};
ghost use Rattle.std.specs.Int.{bit_at};
ghost use Rattle.mr_model.specs.Members.{members};
ghost use Rattle.mr_model.specs.Code.{survivors};
ghost use Rattle.mr_io.specs.Counts.{HasCause};
ghost use Rattle.mr_io.specs.Sights.{sight_with};
ghost use Rattle.mr_image.specs.Images.{every_stripe, image_of, near as near_reply, singles_of, stripe_symbols};
ghost use Rattle.mr_image.specs.Sights.{HasImage, IsSameFile};

use crate::asks::Ask;
use mr_eq::Singles;
use mr_image::ImageHead;
use mr_io::{Eye, Failed};
use mr_kern::XorKernel;

/// Makes `buf` the lost symbol that is asked for, by the XOR of the symbols of its single equation.
///
/// It reads each of them once, upwards, into `tmp`; both buffers have the bytes of one symbol. The singles are of a code
/// with the symbols of the head's stripes. It takes no memory. A read that fails is answered at once, and `buf` is then
/// of no use.
pub fn near<E: Eye>(
    eye: &mut E,
    head: &ImageHead,
    singles: &Singles,
    kernel: &XorKernel,
    ask: Ask,
    buf: &mut [u8],
    tmp: &mut [u8],
) -> Result<(), Failed>
    requires eye { HasImage head.now (E.sight eye.old) }
    requires shape { length singles.now.code.rows ≡ stripe_symbols head.now }
    requires ask { ask.stripe < head.now.stripes }
    requires lost { bit_at singles.now.lost ask.symbol ≡ 1 }
    requires buf { length buf.old ≡ head.now.symbol_bytes }
    requires tmp { length tmp.old ≡ head.now.symbol_bytes }
    ensures near { let sets = singles_of (every_stripe singles.now.code)
        (every_stripe (survivors singles.now.code singles.now.lost)) singles.now.budget in
        OnOk result (IfSome (E.sight eye.old).bytes (λ bytes.
        buf.new ≡ near_reply head.now sets (image_of head.now bytes) ask.stripe ask.symbol)) }
    ensures taken { let sets = singles_of (every_stripe singles.now.code)
        (every_stripe (survivors singles.now.code singles.now.lost)) singles.now.budget in
        OnOk result (E.sight eye.new ≡ sight_with (E.sight eye.old)
        (length (members (sets ask.stripe ask.symbol)) * head.now.symbol_bytes)) }
    ensures file { IsSameFile (E.sight eye.old) (E.sight eye.new) }
    ensures cause { HasCause (E.faults eye.old) (E.faults eye.new) result }
{
    let set = singles.get(ask.symbol);
    buf.fill(0);
    for symbol in set.symbols() {
        eye.read_at(head.place(ask.stripe, symbol), tmp)?;
        kernel.xor_into(buf, tmp);
    }
    Ok(())
}
