//! The generator of a drill and its digest, beside the same in Python.

use mr_drill::{Generator, digest, draw_asks};
use std::test::Fail;

#[test]
fn draws_words_and_reads(rt: HostRuntime) -> Result<(), Fail> {
    let mut generator = Generator::new(7);
    let mut bytes = [0; 16];
    generator.fill(&mut bytes);
    let words: [u64; 2] = [0x7e43_28bc_0f7d_fb8a, 0xf4a6_1a7f_8fa8_2e91];
    assert_eq!(rt; &bytes[..8], words[0].to_le_bytes().as_slice());
    assert_eq!(rt; &bytes[8..], words[1].to_le_bytes().as_slice());
    assert_eq!(rt; digest(&bytes), 0xd546_b980_27e8_dbd3);

    let mut generator = Generator::new(7);
    let asks = draw_asks(rt.alloc(), &mut generator, 4)
        .ok()
        .ok_or("memory")?;
    let read: [(u32, u8); 4] = [(60, 23), (34, 10), (18, 23), (16, 0)];
    assert_eq!(rt; asks.len(), read.len());
    for (ask, (stripe, symbol)) in asks.iter().zip(read) {
        assert_eq!(rt; ask.stripe, stripe);
        assert_eq!(rt; ask.symbol, symbol);
    }
    Ok(())
}
