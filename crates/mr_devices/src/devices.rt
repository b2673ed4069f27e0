//! Device files that are opened to be written.

ghost use Rattle.std.specs.Prelude.{◌≡◌, ◌+◌, ◌<◌, ◌≤◌, ◌^◌, ℕ, None, Option, chars, length, option_map, IfSome, IsErrOf, OnErr, OnOk};
ghost use Rattle.mr_io.specs.Counts.{HasCause, Rose};
ghost use Rattle.mr_devices.specs.Writing.{Shelf, Writes, WritesPart, opening};

use mr_io::{Failed, FilesError};

/// Device files that are opened one after another and written at places. A file that is not there is made, with
/// no bytes. Each name is to be opened once.
pub trait Devices {
    /// What each name holds at first, and what each open file holds now, in the order of opening, where told.
    ghost told: { Self → Option Shelf };

    /// How many calls failed. It never falls, and stops at 2^64 - 1.
    ghost faults: { Self → ℕ };

    /// Opens the file of this name behind those that are open. A file is left as it is.
    fn open(&mut self, name: &str) -> Result<(), FilesError>
        ensures opened { OnOk result (told self.new ≡ option_map (opening (chars name.now)) (told self.old)) }
        ensures same { OnErr result (told self.new ≡ told self.old) }
        ensures untold { told self.old ≡ None → told self.new ≡ None }
        ensures later { faults self.old ≤ faults self.new }
        ensures quiet { OnOk result (faults self.new ≡ faults self.old) }
        ensures cause { IsErrOf result FilesError.Failed → Rose (faults self.old) (faults self.new) };

    /// Writes the bytes at this place of the open file of this number, which is counted from 0. A file that ends
    /// before the place has zero bytes up to it. No other byte of any file changes.
    ///
    /// After `Failed` a front of the bytes was written that is not all.
    fn write_at(&mut self, number: usize, at: u64, bytes: &[u8]) -> Result<(), Failed>
        requires there { IfSome (told self.old) (λ shelf. number < length shelf.opened) }
        requires some { 0 < length bytes.now }
        requires end { at + length bytes.now < 2 ^ 63 }
        ensures written { OnOk result (Writes (told self.old) (told self.new) number at bytes.now) }
        ensures untold { told self.old ≡ None → told self.new ≡ None }
        ensures part { OnErr result (WritesPart (told self.old) (told self.new) number at bytes.now) }
        ensures cause { HasCause (faults self.old) (faults self.new) result };
}
