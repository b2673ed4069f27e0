//! All eyes and all memory of a rebuild, before anything is read.

ghost use Rattle.std.specs.Prelude.{◌≡◌, ◌^◌, ◌<◌, ◌≤◌, All, IfOk, IfSome, IsErrOf, None, OnErr, OnOk, chars, length, option_map, true};
ghost use Rattle.std.specs.Option.{ForSome};
ghost use Rattle.mr_image.specs.Heads.{file_bytes};
ghost use Rattle.mr_image.specs.Rotated.{rotations};
ghost use Rattle.mr_io.specs.Counts.{Rose};
ghost use Rattle.mr_io.specs.Telling.{AsksFront, told_lending};
ghost use Rattle.mr_mend.specs.Mending.{AreMendable};
ghost use Rattle.mr_mend.specs.Scripts.{IsInRange};
ghost use Rattle.mr_ready.specs.Carrying.{CanCarry, image_told};
ghost use Rattle.mr_ready.specs.Duties.{duties_of, eyes_on};
ghost use Rattle.mr_ready.specs.Lawful.{AreSinglesFor};

use crate::asking::{duties_for, lend_eyes};
use crate::buffers::{Buffers, make_buffers};
use crate::crews::{Crew, hire};
use crate::orders::Order;
use mr_eq::Singles;
use mr_image::ImageHead;
use mr_io::{Eye, Files, FilesError, retire_all};
use mr_mend::Ask;
use mr_plan::Plans;
use mr_steps::ChoiceLine;
use std::alloc::Global;

/// A rebuild that is ready: what is to be rebuilt, with all eyes and all memory that it takes. Its eyes can only be
/// carried to the end by `carry` or by `mend_image`, which hand them back.
pub struct Ready<E> {
    /// What is to be rebuilt.
    pub order: Order,
    pub(crate) crew: Crew<E>,
    pub(crate) buffers: Buffers,
}

impl<E: Eye + Send> Ready<E> {
    /// Makes all that a rebuild takes: the eyes of the menders, those of the readers or the one that serves the reads
    /// after them, and the one that copies the survivors, in this order; the board, the workers, and the buffers of the
    /// image, of the replies and of their lines. It reads nothing.
    ///
    /// After a refusal each eye that it got was given back. `Failed` comes only where the faults of the files rose.
    pub fn make<F: Files<E = E>>(
        alloc: Global,
        files: &mut F,
        image: &str,
        head: ImageHead,
        plans: Plans,
        lines: Vec<ChoiceLine>,
        singles: Vec<Singles>,
        asks: Vec<Ask>,
        workers: u32,
        live: bool,
    ) -> Result<Ready<E>, FilesError>
        requires plans { AreMendable head plans }
        requires lines { length lines.items ≡ rotations head }
        requires singles { live ≡ true → AreSinglesFor head plans singles.items }
        requires asks { All (IsInRange head) asks.items }
        requires few { length asks.items < 2 ^ 32 }
        requires workers { (0 < workers) × (workers ≤ 64) }
        requires fits { IfSome (F.told files.old)
            (λ told. length (told.contents (chars image.now)) ≡ file_bytes head) }
        ensures told { OnOk result (F.told files.new ≡ option_map
            (told_lending (eyes_on (chars image.now) (duties_of workers live))
            (length (duties_of workers live))) (F.told files.old)) }
        ensures refused { OnErr result (ForSome (F.told files.old) (λ told.
            AsksFront told (F.told files.new)
            (eyes_on (chars image.now) (duties_of workers live)))) }
        ensures untold { F.told files.old ≡ None → F.told files.new ≡ None }
        ensures totals { F.totals files.new ≡ F.totals files.old }
        ensures later { F.faults files.old ≤ F.faults files.new }
        ensures quiet { OnOk result (F.faults files.new ≡ F.faults files.old) }
        ensures failed { IsErrOf result FilesError.Failed
            → Rose (F.faults files.old) (F.faults files.new) }
        ensures ready { IfOk result (CanCarry E.sight E.faults) }
        ensures image { IfOk result (λ ready. image_told E.sight ready
            ≡ option_map (λ told. told.contents (chars image.now)) (F.told files.old)) }
        ensures order { IfOk result (λ ready. ready.order ≡ record {
          head = head;
          plans = plans;
          lines = lines;
          singles = singles;
          asks = asks;
          workers = workers;
          live = live;
        }) }
    {
        let order = Order {
            head,
            plans,
            lines,
            singles,
            asks,
            workers,
            live,
        };
        let Ok(buffers) = make_buffers(alloc, &order.head, &order.asks) else {
            return Err(FilesError::Memory);
        };
        let duties = duties_for(alloc, workers, live)?;
        match lend_eyes(alloc, files, image, &duties) {
            Ok(eyes) => match hire(alloc, &order, eyes) {
                Ok(crew) => Ok(Ready {
                    order,
                    crew,
                    buffers,
                }),
                Err(eyes) => {
                    retire_all(files, eyes);
                    Err(FilesError::Memory)
                }
            },
            Err(refused) => Err(refused),
        }
    }
}
