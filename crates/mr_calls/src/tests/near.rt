//! Single equations of lost symbols, and the degraded read of one of them from an image of one stripe in memory, for
//! row-diagonal parity of the prime 3.

ghost use Rattle.std.specs.Prelude.{◌≡◌};
ghost use Rattle.std.specs.Int.{bit_at};

use crate::tests::values::{matrix_of, singles_of};
use mr_bits::Mask;
use mr_fixture::RDP_3;
use mr_image::ImageHead;
use mr_io::{Duty, Eye, Failed, Files, MemEye, MemFiles, Text};
use mr_kern::{XorKernel, block_plain};
use mr_mend::{Ask, near};
use std::alloc::Global;
use std::process::Abort;
use std::test::Fail;
use std::thread::Threads;

/// A loss, a budget, and a lost symbol with its single equation. Each symbol has four equations. Where the budget allows them,
/// it is the least by cost and then by number, and else the one within the kept survivors: those whose row is no sum of kept
/// ones before. Without device 0 these are 2 3 4 5, and without device 3 they are 0 1 2 3. There symbol 6 is the XOR of
/// 0 1 3, and that of 0 5 too, since 5 is that of 1 3.
static SINGLES: [(u128, u32, u8, u128); 8] = [
    (3, 4_194_304, 0, 20),
    (3, 4_194_304, 1, 40),
    (3, 3, 0, 20),
    (3, 3, 1, 40),
    (192, 4_194_304, 6, 33),
    (192, 4, 7, 6),
    (192, 3, 6, 11),
    (192, 0, 6, 11),
];

#[test]
fn singles(rt: HostRuntime) -> Result<(), Fail> {
    let matrix = matrix_of(&rt, RDP_3);
    for (lost, budget, symbol, equation) in &SINGLES {
        let lost = Mask::of(*lost);
        let singles = singles_of(&rt, rt.alloc(), &matrix, lost, *budget)?;
        assert!(&rt; lost.contains(*symbol));
        assert_eq!(&rt;
            singles.get(*symbol),
            Mask::of(*equation),
            "of {symbol} for {budget}"
        );
    }
    Ok(())
}

/// The image of one stripe with symbols of eight bytes, whose symbols 0 and 1 are overwritten.
const IMAGE: &[u8] = b"MRIMAGE1\x04\0\0\0\x02\0\0\0\x08\0\0\0\x01\0\0\0\0\0\0\0\0\0\0\0\
    lost....lost....\x04\x04\x04\x04\x04\x04\x04\x04\x08\x08\x08\x08\x08\x08\x08\x08\
    \x05\x05\x05\x05\x05\x05\x05\x05\x0a\x0a\x0a\x0a\x0a\x0a\x0a\x0a\
    \x0b\x0b\x0b\x0b\x0b\x0b\x0b\x0b\x06\x06\x06\x06\x06\x06\x06\x06";

/// The read of a lost symbol of the first stripe.
#[tactic(auto, unfolding(mr_model::specs::Sets::has))]
fn ask_of(rt: &impl Abort, lost: Mask, symbol: u8) -> Ask
    ensures stripe { result.stripe ≡ 0 }
    ensures lost { bit_at lost result.symbol ≡ 1 }
{
    assert!(rt; lost.contains(symbol));
    Ask { stripe: 0, symbol }
}

/// Reads a symbol of the only stripe by an eye, where the symbols of the set `lost` are lost.
fn read_near(
    rt: &(impl Abort + Threads + Sync),
    alloc: Global,
    eye: &mut MemEye,
    lost: Mask,
    symbol: u8,
) -> Result<Result<[u8; 8], Failed>, Fail> {
    let matrix = matrix_of(rt, RDP_3);
    let singles = singles_of(rt, alloc, &matrix, lost, 4_194_304)?;
    let head = ImageHead::new(matrix.shape(), 8, 1)?;
    let length = eye.len()?;
    assert!(rt; length == head.file_bytes());
    assert!(rt; head.symbols() == matrix.shape().symbols());
    assert!(rt; head.stripes() == 1 && head.bytes() == 8);
    let kernel = XorKernel::new(block_plain);
    let ask = ask_of(rt, lost, symbol);
    let mut reply = [0xee; 8];
    let mut tmp = [0; 8];
    let answer = near(eye, &head, &singles, &kernel, ask, &mut reply, &mut tmp);
    Ok(answer.map(|()| reply))
}

/// The image as the file `i`, where this call of its first eye fails. Call 1 is that for the length.
fn files_of(alloc: Global, call: u64) -> Result<MemFiles, Fail> {
    let mut list = Vec::new(alloc);
    list.push((Text::copy_of(alloc, "i")?, Vec::from_slice(alloc, IMAGE)?))?;
    let fails = Vec::from_slice(alloc, &[(1, call)])?;
    Ok(MemFiles::new(alloc, list, fails)?)
}

/// The symbol that is read, the call that fails, the bytes of the symbol where the read is answered, and the bytes taken.
/// Symbol 0 is the XOR of 2 and 4, and symbol 1 that of 3 and 5. What was read before a failed read is counted.
static READS: [(u8, u64, Option<[u8; 8]>, u64); 5] = [
    (0, 9, Some([0x01; 8]), 16),
    (1, 9, Some([0x02; 8]), 16),
    (0, 2, None, 0),
    (0, 3, None, 8),
    (0, 4, Some([0x01; 8]), 16),
];

#[test]
fn reads(rt: HostRuntime) -> Result<(), Fail> {
    for (symbol, call, reply, taken) in &READS {
        let mut files = files_of(rt.alloc(), *call)?;
        let mut eye = files.eye("i", Duty::Live)?;
        let answer = read_near(&rt, rt.alloc(), &mut eye, Mask::of(3), *symbol);
        files.retire(eye);
        assert_eq!(&rt; answer?.ok(), *reply, "the reply for {symbol} at {call}");
        assert_eq!(&rt;
            files.total(Duty::Live),
            *taken,
            "the bytes for {symbol} at {call}"
        );
    }
    Ok(())
}
