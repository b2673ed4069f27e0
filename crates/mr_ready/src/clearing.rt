//! The first touch of the image's memory, beside the menders.

ghost use Rattle.std.specs.Prelude.{◌≡◌, ℕ, ◌*◌, ◌<◌, ◌≤◌, length, slice_index_or, vec_capacity, vec_len, All, OnErr, OnOk};
ghost use Rattle.std.specs.Thread.{IsSend, IsSync};
ghost use Rattle.mr_image.specs.Heads.{file_bytes};
ghost use Rattle.mr_io.specs.Counts.{Rose};
ghost use Rattle.mr_mend.specs.Mending.{AreMendable};
ghost use Rattle.mr_mend.specs.Scripts.{IsInRange};
ghost use Rattle.mr_mend.specs.Workers.{CanWork, HasFinished, HasWorked};

use crate::means::Means;
use crate::orders::Order;
use mr_board::Board;
use mr_io::{Eye, Failed, Gate};
use mr_mend::{Worker, mend};
use std::thread::{Threads, join_mut};

/// The workers work, and beside them `image` is filled with zero bytes up to the bytes of the whole file, for which it has
/// room: the first touch of so much memory takes as long as the mending. It takes no memory.
pub(crate) fn mend_and_clear<T: Threads + Sync, E: Eye + Send, G: Gate + Sync>(
    means: &Means<T, G>,
    order: &Order,
    board: &Board,
    workers: &mut [Worker<E>],
    image: &mut Vec<u8>,
) -> Result<(), Failed>
    requires plans { AreMendable order.now.head order.now.plans }
    requires asks { All (IsInRange order.now.head) order.now.asks.items }
    requires workers { All (CanWork order.now.head order.now.plans order.now.singles.items
        order.now.asks.items E.sight board.now) workers.old }
    requires room { file_bytes order.now.head ≤ vec_capacity image.old }
    ensures count { length workers.new ≡ length workers.old }
    ensures worked { (k : ℕ) (d : Worker E) → k < length workers.old
        → HasWorked E.sight E.faults board.now
        (slice_index_or workers.old k d) (slice_index_or workers.new k d) }
    ensures finished { OnOk result ((k : ℕ) (d : Worker E) → k < length workers.old
        → HasFinished E.sight E.faults order.now.head order.now.plans order.now.singles.items
        order.now.asks.items (slice_index_or workers.old k d) (slice_index_or workers.new k d)) }
    ensures failed { OnErr result ((k : ℕ) × (k < length workers.old) × ((d : Worker E)
        → Rose (E.faults (slice_index_or workers.old k d).eye)
        (E.faults (slice_index_or workers.new k d).eye))) }
    ensures image { length image.new.items ≡ file_bytes order.now.head }
{
    let size = order.head.file_bytes() as usize;
    let mut clear = ||
        requires { size ≤ vec_capacity image.now }
        ensures { vec_len image.exit.now ≡ size }
    { image.resize(size, 0).unwrap() };
    let mut work = || -> Result<(), Failed>
        requires { IsSync T.row × IsSync G.row × IsSend E.row
            × AreMendable order.now.head order.now.plans
            × All (IsInRange order.now.head) order.now.asks.items
            × All (CanWork order.now.head order.now.plans order.now.singles.items
            order.now.asks.items E.sight board.now) workers.now }
        ensures count { length workers.exit.now ≡ length workers.entry.now }
        ensures worked { (k : ℕ) (d : Worker E) → k < length workers.entry.now
            → HasWorked E.sight E.faults board.entry.now
            (slice_index_or workers.entry.now k d) (slice_index_or workers.exit.now k d) }
        ensures finished { OnOk result ((k : ℕ) (d : Worker E) → k < length workers.entry.now
            → HasFinished E.sight E.faults order.entry.now.head order.entry.now.plans
            order.entry.now.singles.items order.entry.now.asks.items
            (slice_index_or workers.entry.now k d) (slice_index_or workers.exit.now k d)) }
        ensures failed { OnErr result ((k : ℕ) × (k < length workers.entry.now)
            × ((d : Worker E)
            → Rose (E.faults (slice_index_or workers.entry.now k d).eye)
            (E.faults (slice_index_or workers.exit.now k d).eye))) }
    {
        mend(
            means.rt,
            workers,
            board,
            &order.head,
            &order.plans,
            order.singles.as_slice(),
            order.asks.as_slice(),
            means.kernel,
            means.gate,
        )
    };
    let ((), mended) = join_mut(means.rt, &mut clear, &mut work);
    mended
}
