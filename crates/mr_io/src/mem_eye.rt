//! An eye on bytes in memory.

ghost use Rattle.std.specs.Prelude.{◌≡◌, ◌+◌, ◌≤◌, Some, drop, is_err, length, take, IfOk, IfSome, OnErr, OnOk};
ghost use Rattle.std.specs.Arc.{arc_value};
ghost use Rattle.mr_io.specs.Counts.{HasCause};
ghost use Rattle.mr_io.specs.Sights.{sight_with};
ghost use Rattle.mr_io.specs.EyeStates.{eye_called, eye_fails, eye_reading, is_failing};

use crate::counts::add_count;
use crate::duty::Duty;
use crate::errors::Failed;
use crate::eyes::Eye;
use std::marker::Model;
use std::sync::Arc;

/// An eye on bytes in memory, which the eyes of one name share. It fails where it is told to.
pub struct MemEye {
    bytes: Arc<Vec<u8>>,
    duty: Duty,
    taken: u64,
    number: u64,
    calls: u64,
    fails: Arc<Vec<(u64, u64)>>,
    faults: u64,
}

impl Model for MemEye {
    ghost use Rattle.std.specs.Prelude.{Some};
    ghost use Rattle.std.specs.Arc.{arc_value};
    ghost use Rattle.mr_io.specs.EyeStates.{EyeState};

    ghost Value = { EyeState };

    ghost view = { λ eye. record {
      sight = record {
        bytes = Some (arc_value eye.bytes).items;
        duty = eye.duty;
        taken = eye.taken;
      };
      number = eye.number;
      calls = eye.calls;
      fails = (arc_value eye.fails).items;
      faults = eye.faults;
    } };
}

/// Whether `call` of the eye `number` is listed.
pub(crate) fn is_listed(fails: &[(u64, u64)], number: u64, call: u64) -> bool
    ensures { result ≡ is_failing fails.now number call }
{
    fails.iter().any(|pair| pair.0 == number && pair.1 == call)
}

impl MemEye {
    /// The eye of this number, as it is lent.
    pub(crate) fn new(
        bytes: Arc<Vec<u8>>,
        duty: Duty,
        number: u64,
        fails: Arc<Vec<(u64, u64)>>,
    ) -> MemEye
        ensures { result ≡ record {
          sight = record { bytes = Some (arc_value bytes).items; duty = duty; taken = 0 };
          number = number;
          calls = 0;
          fails = (arc_value fails).items;
          faults = 0;
        } }
    {
        MemEye {
            bytes,
            duty,
            taken: 0,
            number,
            calls: 0,
            fails,
            faults: 0,
        }
    }

    /// The eye's duty, the bytes that it took and its faults. It is used up.
    pub(crate) fn into_counts(self) -> (Duty, u64, u64)
        ensures duty { result.0 ≡ self.sight.duty }
        ensures taken { result.1 ≡ self.sight.taken }
        ensures faults { result.2 ≡ self.faults }
    {
        let MemEye {
            bytes: _,
            duty,
            taken,
            number: _,
            calls: _,
            fails: _,
            faults,
        } = self;
        (duty, taken, faults)
    }

    // Counts a call, which fails where it is listed.
    fn begin_call(&mut self) -> Result<(), Failed>
        ensures fails { is_err result ≡ eye_fails self.old }
        ensures state { self.new ≡ eye_called self.old }
    {
        self.calls = add_count(self.calls, 1);
        if is_listed(&self.fails, self.number, self.calls) {
            self.faults = add_count(self.faults, 1);
            return Err(Failed);
        }
        Ok(())
    }
}

impl Eye for MemEye {
    ghost sight = { λ eye. eye.sight };

    ghost faults = { λ eye. eye.faults };

    fn len(&mut self) -> Result<u64, Failed>
        ensures number { IfOk result (λ n. IfSome self.old.sight.bytes (λ bytes.
            n ≡ length bytes)) }
        ensures same { self.new.sight ≡ self.old.sight }
        ensures cause { HasCause self.old.faults self.new.faults result }
        ensures fails { is_err result ≡ eye_fails self.old }
        ensures state { self.new ≡ eye_called self.old }
    {
        self.begin_call()?;
        Ok(self.bytes.len() as u64)
    }

    fn read_at(&mut self, at: u64, buf: &mut [u8]) -> Result<(), Failed>
        requires { IfSome self.old.sight.bytes (λ bytes. at + length buf.old ≤ length bytes) }
        ensures read { OnOk result (IfSome self.old.sight.bytes (λ bytes.
            buf.new ≡ take (length buf.old) (drop at bytes))) }
        ensures ok { OnOk result (self.new.sight ≡ sight_with self.old.sight (length buf.old)) }
        ensures err { OnErr result (self.new.sight ≡ self.old.sight) }
        ensures cause { HasCause self.old.faults self.new.faults result }
        ensures fails { is_err result ≡ eye_fails self.old }
        ensures state { self.new ≡ eye_reading self.old (length buf.old) }
    {
        self.begin_call()?;
        let start = at as usize;
        buf.copy_from_slice(&self.bytes[start..start + buf.len()]);
        self.taken = add_count(self.taken, buf.len() as u64);
        Ok(())
    }
}
