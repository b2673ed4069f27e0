//! Payloads, and the digits that spell them.

ghost use Rattle.std.specs.Prelude.{◌≡◌, ◌≢◌, ℕ, List, IfOk, IsErrOf};
ghost use Rattle.std.specs.List.{list_all};
ghost use Rattle.hex.specs.Hex.{IsBytes, encode_lower};
ghost use Rattle.mr_ops.specs.Ops.{is_lower_digit};

use crate::unread::Unread;
use std::alloc::Global;
use std::marker::Model;

/// What is written to a stripe: the bytes of its symbols of data, one symbol after another. Contracts see it as the list of
/// its bytes.
#[derive(Drop)]
pub struct Payload {
    bytes: Vec<u8>,
}

impl Model for Payload {
    ghost use Rattle.std.specs.Prelude.{ℕ, List};

    ghost Value = { List ℕ };

    ghost view = { λ p. p.bytes.items };
}

impl Payload {
    /// The payload of these bytes. Takes no memory.
    pub fn of(bytes: Vec<u8>) -> Payload
        ensures { result ≡ bytes.items }
    {
        Payload { bytes }
    }

    /// Its bytes. Takes no memory.
    pub fn bytes(&self) -> &[u8]
        ensures { result.now ≡ self.now }
    {
        &self.bytes
    }
}

/// The payload that a text of lower-case hexadecimal digits spells, two for each byte. `Line` exactly where it spells none.
pub(crate) fn read_payload(alloc: Global, text: &[u8]) -> Result<Payload, Unread>
    ensures text { IfOk result (λ payload. text.now ≡ encode_lower payload) }
    ensures bytes { IfOk result (λ payload. IsBytes payload) }
    ensures none { IsErrOf result Unread.Line
        → (payload : List ℕ) → IsBytes payload → text.now ≢ encode_lower payload }
{
    if !are_lower_digits(text) {
        return Err(Unread::Line);
    }
    let mut bytes = vec![in alloc; 0; text.len() / 2]?;
    match hex::decode_to_slice(text, &mut bytes) {
        Ok(()) => Ok(Payload { bytes }),
        Err(_fault) => Err(Unread::Line),
    }
}

/// Whether a text has lower-case hexadecimal digits alone.
fn are_lower_digits(text: &[u8]) -> bool
    ensures { result ≡ list_all is_lower_digit text.now }
{
    text.iter().all(|byte| is_digit(*byte))
}

fn is_digit(byte: u8) -> bool
    ensures { result ≡ is_lower_digit byte }
{
    byte >= b'0' && byte <= b'9' || byte >= b'a' && byte <= b'f'
}
