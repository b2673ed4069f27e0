//! The devices opened, and the image scattered to them.

ghost use Rattle.std.specs.Prelude.{◌≡◌, ◌≤◌, ℕ, List, [], IfSome, OnOk, Some, length};
ghost use Rattle.std.specs.Option.{ForSome};
ghost use Rattle.mr_devices.specs.Writing.{Shelf};
ghost use Rattle.mr_io.specs.Counts.{Rose};
ghost use Rattle.mr_scatter.specs.Parts.{HasOpen};
ghost use Rattle.mr_scatter_run.specs.Ends.{Ends, HasEndCauses, scatter_fault};
ghost use Rattle.mr_scatter_run.specs.Ready.{IsReady};
ghost use Rattle.mr_scatter_run.specs.Tasks.{opening_all, task_in};

use crate::end::End;
use crate::opening::open_all;
use crate::task::Ready;
use mr_devices::Devices;
use mr_form::ImageKind;
use mr_io::{Source, Text};
use mr_scatter::{ScatterFault, Scattering, Stopped, scatter};
use mr_steps::Fault;

/// Opens the files of the lost devices, and scatters what is left of the source to them.
pub(crate) fn scatter_ready<S: Source, D: Devices>(
    names: &[Text],
    ready: &mut Ready,
    source: &mut S,
    devices: &mut D,
) -> Result<(), End>
    requires none_open { IfSome (D.told devices.old) (λ shelf. shelf.opened ≡ []) }
    requires names { length names.now ≡ length ready.old.lost.items }
    requires ready { IsReady ready.old }
    ensures same { task_in ready.new ≡ task_in ready.old }
    ensures ends { ForSome (S.left source.old) (λ body. ForSome (D.told devices.old) (λ shelf.
        Ends names.now (task_in ready.old) body shelf (D.told devices.new) result)) }
    ensures causes { HasEndCauses (Rose (S.faults source.old) (S.faults source.new))
        (Rose (D.faults devices.old) (D.faults devices.new)) result }
    ensures source_later { S.faults source.old ≤ S.faults source.new }
    ensures source_quiet { OnOk result (S.faults source.new ≡ S.faults source.old) }
    ensures later { D.faults devices.old ≤ D.faults devices.new }
    ensures quiet { OnOk result (D.faults devices.new ≡ D.faults devices.old) }
{
    match open_all(names, devices) {
        Ok(()) => scatter_open(ready, source, devices),
        Err(fault) => Err(End {
            stripes: None,
            fault,
        }),
    }
}

/// Scatters what is left of the source to the files that are open.
fn scatter_open<S: Source, D: Devices>(
    ready: &mut Ready,
    source: &mut S,
    devices: &mut D,
) -> Result<(), End>
    requires there { HasOpen (D.told devices.old) (length ready.old.lost.items) }
    requires ready { IsReady ready.old }
    ensures same { task_in ready.new ≡ task_in ready.old }
    ensures ends { (names : List (List ℕ)) (shelf : Shelf)
        → D.told devices.old ≡ Some (opening_all names shelf)
        → ForSome (S.left source.old) (λ body.
        Ends names (task_in ready.old) body shelf (D.told devices.new) result) }
    ensures causes { HasEndCauses (Rose (S.faults source.old) (S.faults source.new))
        (Rose (D.faults devices.old) (D.faults devices.new)) result }
    ensures source_later { S.faults source.old ≤ S.faults source.new }
    ensures source_quiet { OnOk result (S.faults source.new ≡ S.faults source.old) }
    ensures later { D.faults devices.old ≤ D.faults devices.new }
    ensures quiet { OnOk result (D.faults devices.new ≡ D.faults devices.old) }
{
    let scattering = Scattering {
        head: ready.head,
        first: ready.first,
        lost: &ready.lost,
    };
    match scatter(source, devices, &scattering, &mut ready.stripe) {
        Ok(()) => Ok(()),
        Err(stopped) => Err(end_of(stopped)),
    }
}

/// The end of a run whose scattering stopped.
fn end_of(stopped: Stopped) -> End
    ensures { result ≡ record { stripes = Some stopped.stripes; fault = scatter_fault stopped.fault } }
{
    End {
        stripes: Some(stopped.stripes),
        fault: match stopped.fault {
            ScatterFault::Read => Fault::ReadFault,
            ScatterFault::Length => Fault::BadImage {
                kind: ImageKind::Length,
            },
            ScatterFault::Write => Fault::WriteFault,
        },
    }
}
