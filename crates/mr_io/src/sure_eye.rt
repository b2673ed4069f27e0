//! An eye on bytes in memory that never fails.

ghost use Rattle.std.specs.Prelude.{◌≡◌, ◌+◌, ◌≤◌, Some, drop, length, take, IfOk, IfSome, IsOk, OnErr, OnOk};
ghost use Rattle.std.specs.Arc.{arc_value};
ghost use Rattle.mr_io.specs.Counts.{HasCause};
ghost use Rattle.mr_io.specs.Sights.{fresh_sight, sight_with};

use crate::counts::add_count;
use crate::duty::Duty;
use crate::errors::Failed;
use crate::eyes::Eye;
use std::marker::Model;
use std::sync::Arc;

/// An eye on bytes in memory, which the eyes of one name share. It never fails.
pub struct SureEye {
    bytes: Arc<Vec<u8>>,
    duty: Duty,
    taken: u64,
}

impl Model for SureEye {
    ghost use Rattle.std.specs.Prelude.{Some};
    ghost use Rattle.std.specs.Arc.{arc_value};
    ghost use Rattle.mr_io.specs.Sights.{Sight};

    ghost Value = { Sight };

    ghost view = { λ eye. record {
      bytes = Some (arc_value eye.bytes).items;
      duty = eye.duty;
      taken = eye.taken;
    } };
}

impl SureEye {
    /// The eye as it is lent.
    pub(crate) fn new(bytes: Arc<Vec<u8>>, duty: Duty) -> SureEye
        ensures { result ≡ fresh_sight (Some (arc_value bytes).items) duty }
    {
        SureEye {
            bytes,
            duty,
            taken: 0,
        }
    }

    /// The eye's duty and the bytes that it took. It is used up.
    pub(crate) fn into_counts(self) -> (Duty, u64)
        ensures duty { result.0 ≡ self.duty }
        ensures taken { result.1 ≡ self.taken }
    {
        let SureEye {
            bytes: _,
            duty,
            taken,
        } = self;
        (duty, taken)
    }
}

impl Eye for SureEye {
    ghost sight = { λ sight. sight };

    ghost faults = { λ _. 0 };

    fn len(&mut self) -> Result<u64, Failed>
        ensures number { IfOk result (λ n. IfSome self.old.bytes (λ bytes. n ≡ length bytes)) }
        ensures same { self.new ≡ self.old }
        ensures cause { HasCause 0 0 result }
        ensures sure { IsOk result }
    {
        Ok(self.bytes.len() as u64)
    }

    fn read_at(&mut self, at: u64, buf: &mut [u8]) -> Result<(), Failed>
        requires { IfSome self.old.bytes (λ bytes. at + length buf.old ≤ length bytes) }
        ensures read { OnOk result (IfSome self.old.bytes (λ bytes.
            buf.new ≡ take (length buf.old) (drop at bytes))) }
        ensures ok { OnOk result (self.new ≡ sight_with self.old (length buf.old)) }
        ensures err { OnErr result (self.new ≡ self.old) }
        ensures cause { HasCause 0 0 result }
        ensures sure { IsOk result }
    {
        let start = at as usize;
        buf.copy_from_slice(&self.bytes[start..start + buf.len()]);
        self.taken = add_count(self.taken, buf.len() as u64);
        Ok(())
    }
}
