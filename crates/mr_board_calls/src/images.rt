//! An image of row-diagonal parity of the prime 3, whose device 0 is lost.

use mr_io::{Eye, Failed};

/// The plan for the loss of device 0.
pub const PLAN: &[u8] = b"plan 1 least\nset 3 5 6\n0 = 5 6\n1 = 3 5\nend\n";

/// An eye that tells nothing, and whose calls fail.
#[derive(Drop)]
pub struct Blind {
    /// How many calls failed.
    pub faults: u64,
}

impl Eye for Blind {
    ghost use Rattle.std.specs.Prelude.{None};
    ghost use Rattle.mr_io.specs.declared.duty.Duty.TheVariants.{Mend};

    ghost sight = { λ _. record { bytes = None; duty = Mend; taken = 0 } };

    ghost faults = { λ eye. eye.faults };

    fn len(&mut self) -> Result<u64, Failed> {
        self.faults = self.faults.saturating_add(1);
        Err(Failed)
    }

    fn read_at(&mut self, _at: u64, _buf: &mut [u8]) -> Result<(), Failed> {
        self.faults = self.faults.saturating_add(1);
        Err(Failed)
    }
}

/// The word of a column of the data: eight equal bytes.
pub fn datum(stripe: u32, column: u32) -> u64 {
    let number = 4 * u64::from(stripe) + u64::from(column) + 1;
    let byte = (number % 256) as u8;
    u64::from_le_bytes([byte; 8])
}

/// The word of a surviving symbol: the XOR of the data at the ones of its row.
fn survivor(stripe: u32, symbol: u32) -> u64 {
    let a = datum(stripe, 0);
    let b = datum(stripe, 1);
    let c = datum(stripe, 2);
    let d = datum(stripe, 3);
    match symbol {
        2 => c,
        3 => d,
        4 => a ^ c,
        5 => b ^ d,
        6 => a ^ b ^ d,
        _ => b ^ c,
    }
}

/// The rebuilt word of a level: the XOR of the survivors of its recipe.
pub fn rebuilt(stripe: u32, level: u32) -> u64 {
    let other = if level == 0 { 6 } else { 3 };
    survivor(stripe, 5) ^ survivor(stripe, other)
}
