//! The lines of a scrub, put to a sink.

ghost use Rattle.std.specs.Prelude.{◌≡◌, flat_map};
ghost use Rattle.mr_io.specs.Counts.{HasCause};
ghost use Rattle.mr_io.specs.Taking.{Puts};
ghost use Rattle.mr_scrub.specs.Scrubs.{broken_line, last_line, scrub_text};

use crate::broken::Broken;
use itoa::Buffer;
use mr_io::{Failed, Sink, put_all};
use mr_plan::lines::{Line, append, append_members};

/// Puts a line for each of these broken stripes, `stripe`, its number, `check`, and the numbers of the symbols of its
/// check, and last the line `stripes`, how many stripes there are, `bad`, and how many of them are broken.
///
/// After `Failed` the sink took a front of the lines that is not all. It takes no memory.
pub fn print_scrub<K: Sink>(out: &mut K, stripes: u32, broken: &[Broken]) -> Result<(), Failed>
    ensures puts { Puts (K.held out.old) (K.held out.new) result (scrub_text stripes broken.now) }
    ensures cause { HasCause (K.faults out.old) (K.faults out.new) result }
{
    put_broken(out, broken)?;
    put_all(out, &last_line(stripes, broken.len()))
}

/// Puts the lines of the broken stripes.
fn put_broken<K: Sink>(out: &mut K, broken: &[Broken]) -> Result<(), Failed>
    ensures puts { Puts (K.held out.old) (K.held out.new) result
        (flat_map broken_line broken.now) }
    ensures cause { HasCause (K.faults out.old) (K.faults out.new) result }
{
    for stripe in broken {
        put_all(out, &broken_line(*stripe))?;
    }
    Ok(())
}

/// The line of a broken stripe.
#[tactic(auto, unfolding(crate::specs::Scrubs::broken_line))]
fn broken_line(broken: Broken) -> Line
    ensures { result.items ≡ broken_line broken }
{
    let mut line = Line::new();
    let mut digits = Buffer::new();
    append(&mut line, b"stripe ");
    append(&mut line, digits.format(broken.stripe).as_bytes());
    append(&mut line, b" check");
    append_members(&mut line, broken.check);
    line.push(b'\n');
    line
}

/// The last line.
#[tactic(auto, unfolding(crate::specs::Scrubs::last_line))]
fn last_line(stripes: u32, bad: usize) -> Line
    ensures { result.items ≡ last_line stripes bad }
{
    let mut line = Line::new();
    let mut digits = Buffer::new();
    append(&mut line, b"stripes ");
    append(&mut line, digits.format(stripes).as_bytes());
    append(&mut line, b" bad ");
    append(&mut line, digits.format(bad).as_bytes());
    line.push(b'\n');
    line
}
