//! The reading of a rebuild: what is mended, replied and copied, by the eyes that were lent.

ghost use Rattle.std.specs.Prelude.{◌≡◌, ℕ, ◌+◌, ◌*◌, ◌^◌, ◌<◌, ◌≤◌, ◌∷◌, ◌++◌, [], All, Any, IfOk, IfSome, OnErr, OnOk, length, map, option_to_list, true, vec_capacity, vec_len, if◌then◌else◌};
ghost use Rattle.std.specs.Vec.Iter.{into_iter_items};
ghost use Rattle.mr_board.specs.Boards.{IsPassOf, pass_view};
ghost use Rattle.mr_counts.specs.Numbers.{times};
ghost use Rattle.mr_image.specs.Heads.{file_bytes};
ghost use Rattle.mr_io.specs.Counts.{Rose};
ghost use Rattle.mr_io.specs.Growth.{TakesWithin, taken_by};
ghost use Rattle.mr_mend.specs.Mending.{AreMendable, mended_file};
ghost use Rattle.mr_mend.specs.Scripts.{IsInRange};
ghost use Rattle.mr_plan.specs.PlanLists.{recipes_at};
ghost use Rattle.mr_ready.specs.Crews.{IsCrew, eyes_of, worker_eyes};
ghost use Rattle.mr_ready.specs.Desks.{KeepDuties};
ghost use Rattle.mr_ready.specs.Duties.{duties_of};
ghost use Rattle.mr_ready.specs.Lawful.{AreSinglesFor};
ghost use Rattle.mr_ready.specs.Lent.{AreLent, told_by};
ghost use Rattle.mr_ready.specs.Orders.{parts_of_order};
ghost use Rattle.mr_ready.specs.Reads.{least_beside, least_reads, most_beside, most_reads};
ghost use Rattle.mr_ready.specs.Replying.{AreLawful};
ghost use Rattle.mr_ready.specs.Written.{AreBuffers, HaveRoom};

use crate::buffers::Buffers;
use crate::clearing::mend_and_clear;
use crate::crews::Crew;
use crate::desks::{Desk, collect, finish, leave};
use crate::means::Means;
use crate::orders::Order;
use crate::replying::put_replies;
use mr_io::{Eye, Failed, Gate};
use std::thread::Threads;

/// The eyes, and what was made.
pub(crate) struct Read<E> {
    /// The eyes, in the order in which they were asked for.
    pub eyes: Vec<E>,
    /// What was made, where no eye failed.
    pub made: Result<Buffers, Failed>,
}

/// Mends the image, replies to the reads and copies the survivors. It takes no memory.
///
/// The menders mend beside each other. With `live` the readers serve the reads beside them; without, one eye serves them
/// when the menders have ended. Then one eye copies all survivors.
pub(crate) fn read_image<T: Threads + Sync, E: Eye + Send, G: Gate + Sync>(
    means: &Means<T, G>,
    order: &Order,
    crew: Crew<E>,
    buffers: Buffers,
) -> Read<E>
    requires plans { AreMendable order.now.head order.now.plans }
    requires singles { order.now.live ≡ true
        → AreSinglesFor order.now.head order.now.plans order.now.singles.items }
    requires asks { All (IsInRange order.now.head) order.now.asks.items }
    requires few { length order.now.asks.items < 2 ^ 32 }
    requires some { 0 < order.now.workers }
    requires fits { IfSome (told_by E.sight (eyes_of crew))
        (λ bytes. length bytes ≡ file_bytes order.now.head) }
    requires crew { IsCrew E.sight (parts_of_order order.now) crew }
    requires eyes { AreLent E.sight E.faults (told_by E.sight (eyes_of crew)) order.now.workers
        order.now.live (eyes_of crew) }
    requires buffers { HaveRoom order.now.head order.now.asks.items buffers }
    ensures duties { map (λ eye. (E.sight eye).duty) result.eyes.items
        ≡ duties_of order.now.workers order.now.live }
    ensures took { OnOk result.made (TakesWithin (taken_by (map E.sight result.eyes.items))
        (least_reads (parts_of_order order.now)) (most_reads (parts_of_order order.now))) }
    ensures image { IfOk result.made (λ made. IfSome (told_by E.sight (eyes_of crew)) (λ bytes.
        made.image.items ≡ mended_file order.now.head (recipes_at order.now.plans) bytes)) }
    ensures replies { IfOk result.made (λ made. AreLawful (parts_of_order order.now)
        (told_by E.sight (eyes_of crew)) made.replies.items) }
    ensures buffers { IfOk result.made (AreBuffers order.now.head order.now.asks.items) }
    ensures cause { OnErr result.made (Any (λ eye. Rose 0 (E.faults eye)) result.eyes.items) }
    ensures quiet { OnOk result.made (All (λ eye. E.faults eye ≡ 0) result.eyes.items) }
{
    let mut buffers = buffers;
    let (mut desk, mended) = mend_beside(
        means,
        order,
        crew,
        buffers.replies.as_mut_slice(),
        &mut buffers.image,
    );
    match mended {
        Ok(()) => match finish(order, means.kernel, &mut desk, &mut buffers) {
            Ok(()) => Read {
                eyes: collect(desk),
                made: Ok(buffers),
            },
            Err(failed) => Read {
                eyes: collect(desk),
                made: Err(failed),
            },
        },
        Err(failed) => Read {
            eyes: collect(desk),
            made: Err(failed),
        },
    }
}

/// The menders mend and, with `live`, the readers serve the reads beside them and their replies are put. `replies` has the
/// bytes of one symbol for each read; `image` has room for the bytes of the whole file, and has so many afterwards.
fn mend_beside<T: Threads + Sync, E: Eye + Send, G: Gate + Sync>(
    means: &Means<T, G>,
    order: &Order,
    crew: Crew<E>,
    replies: &mut [u8],
    image: &mut Vec<u8>,
) -> (Desk<E>, Result<(), Failed>)
    requires plans { AreMendable order.now.head order.now.plans }
    requires singles { order.now.live ≡ true
        → AreSinglesFor order.now.head order.now.plans order.now.singles.items }
    requires asks { All (IsInRange order.now.head) order.now.asks.items }
    requires few { length order.now.asks.items < 2 ^ 32 }
    requires some { 0 < order.now.workers }
    requires fits { IfSome (told_by E.sight (eyes_of crew))
        (λ bytes. length bytes ≡ file_bytes order.now.head) }
    requires crew { IsCrew E.sight (parts_of_order order.now) crew }
    requires eyes { AreLent E.sight E.faults (told_by E.sight (eyes_of crew)) order.now.workers
        order.now.live (eyes_of crew) }
    requires replies { length replies.old
        ≡ length order.now.asks.items * order.now.head.symbol_bytes }
    requires image { file_bytes order.now.head ≤ vec_capacity image.old }
    ensures board { result.0.board ≡ crew.board }
    ensures pass { IsPassOf result.0.board result.0.pass }
    ensures others { option_to_list result.0.server ++ result.0.copier ∷ []
        ≡ into_iter_items crew.rest }
    ensures server { length (option_to_list result.0.server)
        ≡ (if order.now.live then 0 else 1) }
    ensures room { vec_len result.0.eyes + length (option_to_list result.0.server) + 1
        ≤ vec_capacity result.0.eyes }
    ensures duties { KeepDuties E.sight (worker_eyes crew.workers.items) result.0.eyes.items }
    ensures took { OnOk result.1 (TakesWithin (taken_by (map E.sight result.0.eyes.items))
        (least_beside (parts_of_order order.now)) (most_beside (parts_of_order order.now))) }
    ensures seen { OnOk result.1 ((t : ℕ) → t < order.now.head.stripes
        → 0 < times t (pass_view result.0.pass).seen) }
    ensures replies { OnOk result.1 (order.now.live ≡ true → AreLawful (parts_of_order order.now)
        (told_by E.sight (eyes_of crew)) replies.new) }
    ensures image { length image.new.items ≡ file_bytes order.now.head }
    ensures quiet { OnOk result.1 (All (λ eye. E.faults eye ≡ 0) result.0.eyes.items) }
    ensures cause { OnErr result.1 (Any (λ eye. Rose 0 (E.faults eye)) result.0.eyes.items) }
{
    let mut crew = crew;
    let mended = mend_and_clear(
        means,
        order,
        &crew.board,
        crew.workers.as_mut_slice(),
        image,
    );
    match mended {
        Ok(()) => {
            put_replies(order, crew.workers.as_slice(), replies);
            (leave(crew, order.live), Ok(()))
        }
        Err(failed) => (leave(crew, order.live), Err(failed)),
    }
}
