//! The report of a rebuild.

ghost use Rattle.std.specs.List.{range_with_len};
ghost use Rattle.std.specs.Prelude.{◌≡◌, ◌*◌, ◌<◌, ◌≤◌, flat_map, length};
ghost use Rattle.mr_image.specs.Rotated.{rotations};
ghost use Rattle.mr_io.specs.Counts.{HasCause};
ghost use Rattle.mr_io.specs.Taking.{Puts};
ghost use Rattle.mr_mend.specs.Replies.{line_room, replies_in};
ghost use Rattle.mr_ready.specs.Reports.{choice_text, rebuild_report, rotation_text, stripes_text};

use crate::orders::Order;
use itoa::Buffer;
use mr_image::ImageHead;
use mr_io::{Failed, Sink, put_all, put_pieces};
use mr_mend::print_replies;

/// The plans, the stripes, and the line of each reply; the replies stand one after another in the order of the reads.
/// `line` has room for one line at least. Takes no memory.
pub(crate) fn print_report<K: Sink>(
    order: &Order,
    replies: &[u8],
    line: &mut [u8],
    report: &mut K,
) -> Result<(), Failed>
    requires lines { length order.now.lines.items ≡ rotations order.now.head }
    requires replies { length replies.now
        ≡ length order.now.asks.items * order.now.head.symbol_bytes }
    requires line { line_room order.now.head ≤ length line.old }
    ensures puts { Puts (K.held report.old) (K.held report.new) result
        (rebuild_report order.now.head order.now.plans order.now.lines.items
        (replies_in order.now.head.symbol_bytes order.now.asks.items replies.now)) }
    ensures cause { HasCause (K.faults report.old) (K.faults report.new) result }
{
    print_plans(order, report)?;
    print_stripes(order.head.stripes(), report)?;
    print_replies(report, &order.asks, replies, &order.head, line)
}

/// The plan of each rotation in use, upwards.
fn print_plans<K: Sink>(order: &Order, report: &mut K) -> Result<(), Failed>
    requires lines { length order.now.lines.items ≡ rotations order.now.head }
    ensures puts { Puts (K.held report.old) (K.held report.new) result
        (flat_map (choice_text order.now.head order.now.plans order.now.lines.items)
        (range_with_len 0 (rotations order.now.head))) }
    ensures cause { HasCause (K.faults report.old) (K.faults report.new) result }
{
    for rotation in 0..order.head.rotations() {
        print_plan(order, rotation, report)?;
    }
    Ok(())
}

/// The plan of one rotation, with its number in version 2.
fn print_plan<K: Sink>(order: &Order, rotation: u32, report: &mut K) -> Result<(), Failed>
    requires line { rotation < length order.now.lines.items }
    ensures puts { Puts (K.held report.old) (K.held report.new) result
        (choice_text order.now.head order.now.plans order.now.lines.items rotation) }
    ensures cause { HasCause (K.faults report.old) (K.faults report.new) result }
{
    print_rotation(&order.head, rotation, report)?;
    order.plans.at(rotation).print(report)?;
    order.lines[rotation as usize].print(report)
}

fn print_rotation<K: Sink>(head: &ImageHead, rotation: u32, report: &mut K) -> Result<(), Failed>
    ensures puts { Puts (K.held report.old) (K.held report.new) result
        (rotation_text head.now rotation) }
    ensures cause { HasCause (K.faults report.old) (K.faults report.new) result }
{
    if head.version() != 2 {
        return put_all(report, b"");
    }
    let mut digits = Buffer::new();
    put_pieces(
        report,
        &[b"rotation ", digits.format(rotation).as_bytes(), b"\n"],
    )
}

fn print_stripes<K: Sink>(stripes: u32, report: &mut K) -> Result<(), Failed>
    ensures puts { Puts (K.held report.old) (K.held report.new) result (stripes_text stripes) }
    ensures cause { HasCause (K.faults report.old) (K.faults report.new) result }
{
    let mut digits = Buffer::new();
    put_pieces(
        report,
        &[b"stripes ", digits.format(stripes).as_bytes(), b"\n"],
    )
}
