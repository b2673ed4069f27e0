//! The replies of the readers, in the order of the reads.

ghost use Rattle.std.specs.Prelude.{◌≡◌, ℕ, ◌+◌, ◌*◌, ◌^◌, ◌<◌, Option, List, true, length, slice_index_or};
ghost use Rattle.mr_ready.specs.Orders.{parts_of_order};
ghost use Rattle.mr_ready.specs.Replying.{AreAnswered, AreLawful, HaveSlots};

use crate::orders::Order;
use mr_io::Eye;
use mr_mend::Worker;

/// With `live`, puts the replies of the readers, who stand behind the menders, one after another in the order of the
/// reads. It takes no memory.
pub(crate) fn put_replies<E: Eye>(order: &Order, workers: &[Worker<E>], replies: &mut [u8])
    requires some { 0 < order.now.workers }
    requires few { length order.now.asks.items < 2 ^ 32 }
    requires readers { order.now.live ≡ true → HaveSlots (parts_of_order order.now) workers.now }
    requires replies { length replies.old
        ≡ length order.now.asks.items * order.now.head.symbol_bytes }
    ensures { (told : Option (List ℕ)) → order.now.live ≡ true
        → AreAnswered (parts_of_order order.now) told workers.now
        → AreLawful (parts_of_order order.now) told replies.new }
{
    if !order.live {
        return;
    }
    let size = order.head.bytes() as usize;
    for number in 0..order.asks.len() {
        let ask = number as u32;
        let reader = order.workers as usize + (ask % order.workers) as usize;
        let reply = workers[reader].reply(ask);
        replies[number * size..number * size + size].copy_from_slice(reply);
    }
}
