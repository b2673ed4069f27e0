//! Bytes given from memory.

ghost use Rattle.std.specs.Prelude.{◌≡◌, length, min, take};

/// Copies the first of `bytes` to the front of `buf`, as many as fit and at most `most`, and says how many.
pub(crate) fn give_front(bytes: &[u8], most: usize, buf: &mut [u8]) -> usize
    ensures count { result ≡ min (length buf.old) (min most (length bytes.now)) }
    ensures front { take result buf.new ≡ take result bytes.now }
{
    let count = buf.len().min(most.min(bytes.len()));
    buf[..count].copy_from_slice(&bytes[..count]);
    count
}
