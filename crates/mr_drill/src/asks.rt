//! The reads of a drill.

ghost use Rattle.std.specs.Prelude.{◌≡◌, ◌*◌, IfOk};
ghost use Rattle.mr_drill.specs.Asks.{ask_at, asks_drawn};
ghost use Rattle.mr_drill.specs.Words.{after_words};

use crate::words::Generator;
use mr_bits::NoMemory;
use mr_mend::Ask;
use std::alloc::Global;

/// The stripes of a drill's image.
pub const STRIPES: u64 = 64;

/// The symbols of each stripe.
pub const SYMBOLS: u64 = 24;

/// So many reads, each of two words: the first for its stripe, the second for its symbol.
///
/// It answers `NoMemory` for want of memory.
pub fn draw_asks(
    alloc: Global,
    generator: &mut Generator,
    count: usize,
) -> Result<Vec<Ask>, NoMemory>
    ensures asks { IfOk result (λ asks. asks.items ≡ asks_drawn generator.old count) }
    ensures last { IfOk result (λ asks. generator.new ≡ after_words generator.old (2 * count)) }
{
    let mut asks = Vec::with_capacity(alloc, count)?;
    for _ in 0..count {
        asks.push(draw_ask(generator))?;
    }
    Ok(asks)
}

/// One read, of the next two words.
fn draw_ask(generator: &mut Generator) -> Ask
    ensures ask { result ≡ ask_at generator.old 0 }
    ensures last { generator.new ≡ after_words generator.old 2 }
{
    let stripe = (generator.word() >> 32) % STRIPES;
    let symbol = (generator.word() >> 32) % SYMBOLS;
    Ask {
        stripe: stripe as u32,
        symbol: symbol as u8,
    }
}
