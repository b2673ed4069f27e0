//! The image and the report of an account, put to a sink.

ghost use Rattle.std.specs.Prelude.{◌≡◌, ◌*◌, [], if◌then◌else◌, length, nat_lt};
ghost use Rattle.mr_kept.specs.Kept.{stripe_bytes};
ghost use Rattle.mr_io.specs.Counts.{HasCause};
ghost use Rattle.mr_io.specs.Taking.{Puts};
ghost use Rattle.mr_history.specs.Histories.{names_of};
ghost use Rattle.mr_account.specs.Lines.{asks_text, histories_text, history_text, image_of, report_of};

use crate::endings::Ending;
use crate::lines::{put_ask, put_history};
use mr_history::{Entry, KeptStripe, Terms};
use mr_image::ImageHead;
use mr_io::{Failed, Sink, put_all};

impl Ending {
    ghost use Rattle.mr_account.specs.Endings.{CanPrint, account_of};

    /// Puts the bytes of all stripes, upwards: what stands behind the head in the file of an image.
    ///
    /// After `Failed` the sink took a front of them that is not all. It takes no memory.
    pub fn print_image<K: Sink>(&self, terms: &Terms, out: &mut K) -> Result<(), Failed>
        requires { CanPrint (names_of terms.now) self.now }
        ensures puts { Puts (K.held out.old) (K.held out.new) result
            (image_of (names_of terms.now) (account_of self.now)) }
        ensures cause { HasCause (K.faults out.old) (K.faults out.new) result }
    {
        for stripe in 0..terms.head.stripes() {
            put_stripe(out, &terms.head, &self.stripes[stripe as usize])?;
        }
        Ok(())
    }

    /// Puts a line for each ask, in their order: `read`, the stripe, the symbol, `place`, the place, and the bytes of the
    /// reply as two lower-case hexadecimal digits each; or `write`, the stripe, `place` and the place. Then, upwards, a line
    /// for each stripe that an ask names: `history`, the stripe, and for each entry of its history a space and the number
    /// of the ask, or a space and `mend`.
    ///
    /// `digits` has two bytes for each byte of a symbol. After `Failed` the sink took a front of the lines that is not all.
    /// It takes no memory.
    pub fn print_report<K: Sink>(
        &self,
        terms: &Terms,
        digits: &mut [u8],
        out: &mut K,
    ) -> Result<(), Failed>
        requires can { CanPrint (names_of terms.now) self.now }
        requires digits { length digits.old ≡ 2 * terms.now.head.symbol_bytes }
        ensures puts { Puts (K.held out.old) (K.held out.new) result
            (report_of (names_of terms.now) (account_of self.now)) }
        ensures cause { HasCause (K.faults out.old) (K.faults out.new) result }
    {
        self.print_asks(terms, digits, out)?;
        self.print_histories(terms, out)
    }

    /// Puts the lines of the asks.
    fn print_asks<K: Sink>(
        &self,
        terms: &Terms,
        digits: &mut [u8],
        out: &mut K,
    ) -> Result<(), Failed>
        requires can { CanPrint (names_of terms.now) self.now }
        requires digits { length digits.old ≡ 2 * terms.now.head.symbol_bytes }
        ensures puts { Puts (K.held out.old) (K.held out.new) result
            (asks_text (names_of terms.now) (account_of self.now)) }
        ensures cause { HasCause (K.faults out.old) (K.faults out.new) result }
    {
        for number in 0..terms.ops.len() {
            put_ask(out, &terms.ops[number], self.slot(number), digits)?;
        }
        Ok(())
    }

    /// Puts the lines of the stripes.
    fn print_histories<K: Sink>(&self, terms: &Terms, out: &mut K) -> Result<(), Failed>
        requires { CanPrint (names_of terms.now) self.now }
        ensures puts { Puts (K.held out.old) (K.held out.new) result
            (histories_text (names_of terms.now) (account_of self.now)) }
        ensures cause { HasCause (K.faults out.old) (K.faults out.new) result }
    {
        for stripe in 0..terms.head.stripes() {
            put_named(out, stripe, self.stripes[stripe as usize].history())?;
        }
        Ok(())
    }
}

/// Puts the line of a stripe, where its history has more than one entry: besides its mend it has the asks that name it.
fn put_named<K: Sink>(out: &mut K, stripe: u32, history: &[Entry]) -> Result<(), Failed>
    ensures puts { Puts (K.held out.old) (K.held out.new) result
        (if nat_lt 1 (length history.now) then history_text stripe history.now else []) }
    ensures cause { HasCause (K.faults out.old) (K.faults out.new) result }
{
    if history.len() > 1 {
        put_history(out, stripe, history)
    } else {
        Ok(())
    }
}

/// Puts the bytes of a stripe.
fn put_stripe<K: Sink>(out: &mut K, head: &ImageHead, kept: &KeptStripe) -> Result<(), Failed>
    requires { length kept.now.bytes.items ≡ stripe_bytes head.now }
    ensures puts { Puts (K.held out.old) (K.held out.new) result kept.now.bytes.items }
    ensures cause { HasCause (K.faults out.old) (K.faults out.new) result }
{
    for symbol in 0..head.symbols() {
        put_all(out, kept.symbol(head, symbol as u8))?;
    }
    Ok(())
}
