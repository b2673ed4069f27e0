//! The run of a drill.

ghost use Rattle.std.specs.Prelude.{◌≡◌, IfOk, length};
ghost use Rattle.mr_encode.specs.Data.{columns_of, data_bytes};
ghost use Rattle.mr_image.specs.Heads.{file_bytes, image_bytes};
ghost use Rattle.mr_image.specs.Images.{code_image, every_stripe, stripe_symbols};
ghost use Rattle.mr_drill_run.specs.Damage.{Clears};
ghost use Rattle.mr_drill_run.specs.Summaries.{summary_of};

use crate::choosing::choose;
use crate::codes::{code_of_drills, head_of_drills};
use crate::damaging::damage;
use crate::drawing::{Drawn, draw};
use crate::encoding::encoded_image;
use crate::mending::rebuilt;
use crate::summaries::Summary;
use crate::tools::{Tools, WORKERS};
use mr_bits::{Mask, Matrix, NoMemory};
use mr_choices::Choosing;
use mr_drill::{Generator, digest};
use mr_image::{HEAD_BYTES, ImageHead};
use mr_io::Gate;
use mr_kern::XorKernel;
use std::alloc::Global;
use std::thread::Threads;

/// How many devices the code has.
const DEVICES: u32 = 6;

/// How many words of data are drawn.
const DATA_WORDS: usize = 524_288;

/// How many reads are drawn after them.
pub(crate) const READS: usize = 64;

/// The most work of the search for the plan.
pub(crate) const BUDGET: u32 = 4_194_304;

/// How many bytes the head has.
const HEAD: usize = HEAD_BYTES as usize;

/// Runs the drill of this number: an image of 64 stripes, with symbols of 4,096 bytes, is made of the codewords of drawn
/// data under row-diagonal parity for the prime 5. Every byte of the device `number % 6` is lost. The image is rebuilt
/// with 4 menders, and 64 reads are served beside them by 4 readers. What is summed up is what was made then: the mended
/// image and the replies.
///
/// It answers `NoMemory` for want of memory, and no other error.
pub fn run_drill<T: Threads + Sync, G: Gate + Sync>(
    rt: &T,
    alloc: Global,
    gate: &G,
    kernel: &XorKernel,
    number: u32,
) -> Result<Summary, NoMemory>
    ensures { IfOk result (λ summary. summary ≡ summary_of number) }
{
    let tools = Tools {
        rt,
        alloc,
        gate,
        kernel,
    };
    let choosing = Choosing {
        rt,
        gate,
        alloc,
        budget: BUDGET,
        workers: WORKERS,
    };
    let code = code_of_drills();
    let head = head_of_drills(&code);
    let device = number % DEVICES;
    let lost = code.symbols_of_device(device);
    let mut generator = Generator::new(number);
    let drawn = draw(alloc, &mut generator, DATA_WORDS, READS)?;
    let Drawn { payload, asks } = drawn;
    let image = damaged_image(&tools, &code, &head, lost, payload)?;
    let choice = choose(&choosing, &head, &code, lost)?;
    let cost = choice.cost;
    let made = rebuilt(&tools, head, choice, asks, image)?;
    Ok(Summary {
        number,
        lost: device,
        cost,
        image: digest(&made.image[HEAD..]),
        replies: digest(&made.replies),
    })
}

/// The image of the codewords of these data, with every byte of each lost symbol zero.
fn damaged_image<T, G>(
    tools: &Tools<T, G>,
    code: &Matrix,
    head: &ImageHead,
    lost: Mask,
    payload: Vec<u8>,
) -> Result<Vec<u8>, NoMemory>
    requires devices { head.now.devices ≡ code.now.devices }
    requires symbols { head.now.symbols_per_device ≡ code.now.symbols_per_device }
    requires version { head.now.version ≡ 1 }
    requires payload { length payload.items ≡ data_bytes head.now code.now }
    ensures long { IfOk result (λ image. length image.items ≡ file_bytes head.now) }
    ensures lost { IfOk result (λ image. Clears head.now lost 0 head.now.stripes
        (stripe_symbols head.now)
        (image_bytes head.now (code_image head.now (every_stripe code.now)
        (columns_of head.now code.now.columns payload.items))) image.items) }
{
    let mut image = encoded_image(tools.alloc, code, head, tools.kernel, payload)?;
    damage(head, lost, &mut image);
    Ok(image)
}
