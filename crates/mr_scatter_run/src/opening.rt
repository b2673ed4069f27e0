//! The device files, opened one after another.

ghost use Rattle.std.specs.Prelude.{◌≡◌, ℕ, ◌<◌, ◌≤◌, ◌⊎◌, Err, None, IsErrOf, OnErr, OnOk, length, option_map, take};
ghost use Rattle.mr_io.specs.Counts.{Rose};
ghost use Rattle.mr_steps.specs.declared.fault.Fault.TheVariants.{Memory, WriteFault};
ghost use Rattle.mr_scatter_run.specs.Tasks.{opening_all};

use mr_devices::Devices;
use mr_io::{FilesError, Text};
use mr_steps::Fault;

/// Opens the files of these names, in their order.
pub(crate) fn open_all<D: Devices>(names: &[Text], devices: &mut D) -> Result<(), Fault>
    ensures opened { OnOk result
        (D.told devices.new ≡ option_map (opening_all names.now) (D.told devices.old)) }
    ensures some { OnErr result ((count : ℕ) × (count < length names.now)
        × (D.told devices.new ≡ option_map (opening_all (take count names.now)) (D.told devices.old))) }
    ensures faults { OnErr result ((result ≡ Err WriteFault) ⊎ (result ≡ Err Memory)) }
    ensures later { D.faults devices.old ≤ D.faults devices.new }
    ensures quiet { OnOk result (D.faults devices.new ≡ D.faults devices.old) }
    ensures cause { IsErrOf result WriteFault → Rose (D.faults devices.old) (D.faults devices.new) }
{
    for name in names {
        match devices.open(name.as_str()) {
            Ok(()) => {}
            Err(FilesError::Failed) => return Err(Fault::WriteFault),
            Err(FilesError::Memory) => return Err(Fault::Memory),
        }
    }
    Ok(())
}
