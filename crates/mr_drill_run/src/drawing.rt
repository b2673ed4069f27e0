//! What the generator of a drill draws.

ghost use Rattle.std.specs.Prelude.{◌≡◌, ◌<◌, ◌*◌, ◌^◌, IfOk, length};
ghost use Rattle.mr_drill.specs.Words.{after_words};
ghost use Rattle.mr_drill_run.specs.Drills.{bytes_from, reads_from};

use mr_bits::NoMemory;
use mr_drill::{Generator, draw_asks};
use mr_mend::Ask;
use std::alloc::Global;

/// The bytes of a word.
const WORD: usize = 8;

/// The data of a drill, and its reads.
#[derive(Drop)]
pub(crate) struct Drawn {
    /// The bytes of the data.
    pub payload: Vec<u8>,
    /// The reads.
    pub asks: Vec<Ask>,
}

/// The data of the next `words` words, and then so many reads.
///
/// It answers `NoMemory` for want of memory.
#[tactic(auto, unfolding(crate::specs::Drills::bytes_from, crate::specs::Drills::reads_from))]
pub(crate) fn draw(
    alloc: Global,
    generator: &mut Generator,
    words: usize,
    reads: usize,
) -> Result<Drawn, NoMemory>
    requires words { words < 2 ^ 32 }
    ensures payload { IfOk result (λ drawn. drawn.payload.items ≡ bytes_from generator.old words) }
    ensures asks { IfOk result (λ drawn. drawn.asks.items
        ≡ reads_from (after_words generator.old words) reads) }
{
    let mut payload = vec![in alloc; 0; words * WORD]?;
    generator.fill(&mut payload);
    let asks = draw_asks(alloc, generator, reads)?;
    Ok(Drawn { payload, asks })
}
