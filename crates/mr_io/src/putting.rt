//! Whole texts put to a sink.

ghost use Rattle.std.specs.Prelude.{flat_map};
ghost use Rattle.mr_io.specs.Counts.{HasCause};
ghost use Rattle.mr_io.specs.Taking.{Puts};

use crate::errors::Failed;
use crate::sinks::Sink;

/// Puts all the bytes. After `Failed` the sink took a front of them that is not all. Takes no memory.
pub fn put_all<K: Sink>(sink: &mut K, bytes: &[u8]) -> Result<(), Failed>
    ensures puts { Puts (K.held sink.old) (K.held sink.new) result bytes.now }
    ensures cause { HasCause (K.faults sink.old) (K.faults sink.new) result }
{
    let mut done = 0;
    while done < bytes.len() {
        done += sink.put(&bytes[done..])?;
    }
    Ok(())
}

/// Puts all the pieces, one after the other. After `Failed` the sink took a front of their bytes that is
/// not all. Takes no memory.
pub fn put_pieces<K: Sink>(sink: &mut K, pieces: &[&[u8]]) -> Result<(), Failed>
    ensures puts { Puts (K.held sink.old) (K.held sink.new) result
        (flat_map (λ piece. piece.now) pieces.now) }
    ensures cause { HasCause (K.faults sink.old) (K.faults sink.new) result }
{
    for piece in pieces {
        put_all(sink, piece)?;
    }
    Ok(())
}
