//! A buffer that is filled from a source.

ghost use Rattle.std.specs.Prelude.{◌≡◌, ℕ, ◌<◌, ◌≤◌, length, take, IfOk};
ghost use Rattle.std.specs.Io.KnownBytes.{Consumes, IsAtEnd};
ghost use Rattle.mr_io.specs.Counts.{HasCause};

use mr_io::{Failed, Source};

/// Fills `buf` from the front with the next bytes of a source, and says how many there are: fewer than `buf` has room for
/// only at the end.
pub fn fill<S: Source>(source: &mut S, buf: &mut [u8]) -> Result<usize, Failed>
    ensures within { IfOk result (λ n. n ≤ length buf.new) }
    ensures read { IfOk result (λ n. Consumes (S.left source.old) (S.left source.new) (take n buf.new)) }
    ensures ended { IfOk result (λ n. n < length buf.new → IsAtEnd (S.left source.new)) }
    ensures cause { HasCause (S.faults source.old) (S.faults source.new) result }
{
    let end = buf.len();
    let mut done = 0;
    while done < end {
        let count = source.get(&mut buf[done..end])?;
        if count == 0 {
            return Ok(done);
        }
        done += count;
    }
    Ok(done)
}
