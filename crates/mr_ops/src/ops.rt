//! What is asked of a stripe.

use crate::payloads::Payload;

/// One ask: to read a symbol of a stripe, or to write a payload to a stripe.
#[derive(Drop)]
pub enum Op {
    /// Read a symbol.
    Read {
        /// The number of the stripe.
        stripe: u32,
        /// The number of the symbol in its stripe.
        symbol: u8,
    },
    /// Write a payload.
    Write {
        /// The number of the stripe.
        stripe: u32,
        /// The bytes of its symbols of data.
        payload: Payload,
    },
}

impl Op {
    ghost use Rattle.std.specs.Prelude.{◌≡◌};
    ghost use Rattle.mr_ops.specs.Ops.{is_read, op_stripe};

    /// The number of the stripe.
    pub fn stripe(&self) -> u32
        ensures { result ≡ op_stripe self.now }
    {
        match self {
            Op::Read { stripe, symbol: _ } => *stripe,
            Op::Write { stripe, payload: _ } => *stripe,
        }
    }

    /// Whether it reads.
    pub fn is_read(&self) -> bool
        ensures { result ≡ is_read self.now }
    {
        match self {
            Op::Read {
                stripe: _,
                symbol: _,
            } => true,
            Op::Write {
                stripe: _,
                payload: _,
            } => false,
        }
    }
}
