//! Eyes on the device files of an array, asked for one after another and given back together.

ghost use Rattle.std.specs.Prelude.{◌≡◌, ◌≤◌, [], ◌∷◌, All, IfOk, IfSome, IsErrOf, None, OnErr, OnOk, length, map, option_map, sum_by, take, vec_capacity, vec_len};
ghost use Rattle.std.specs.Option.{ForSome};
ghost use Rattle.mr_io.specs.Counts.{Rose, counted};
ghost use Rattle.mr_io.specs.Growth.{grown, taken_by};
ghost use Rattle.mr_io.specs.Telling.{AsksFront, LendsFront, told_lending, told_returning};
ghost use Rattle.mr_gather_run.specs.Slots.{device_eyes, fresh_on, fresh_slots, present};

use mr_io::{Duty, Files, FilesError, Text};

/// Asks for an eye on each device file that there is, in the order of the devices; there is room for them. After a refusal
/// those that were lent so far are there.
pub(crate) fn lend_slots<F: Files>(
    files: &mut F,
    devices: &[Option<Text>],
    slots: &mut Vec<Option<F::E>>,
) -> Result<(), FilesError>
    requires empty { (slots.old.items ≡ []) × (vec_len slots.old ≡ 0) }
    requires room { length devices.now ≤ vec_capacity slots.old }
    ensures fresh { map (option_map F.E.sight) slots.new.items
        ≡ fresh_slots (F.told files.old) (take (length slots.new.items) devices.now) }
    ensures no_faults { All (λ eye. F.E.faults eye ≡ 0) (present slots.new.items) }
    ensures few { length slots.new.items ≤ length devices.now }
    ensures count { OnOk result (length slots.new.items ≡ length devices.now) }
    ensures told { OnOk result (F.told files.new ≡ option_map
        (told_lending (device_eyes devices.now) (length (present slots.new.items)))
        (F.told files.old)) }
    ensures refused { OnErr result (ForSome (F.told files.old) (λ told.
        LendsFront told (F.told files.new) (device_eyes devices.now)
        (length (present slots.new.items)))) }
    ensures untold { F.told files.old ≡ None → F.told files.new ≡ None }
    ensures totals { F.totals files.new ≡ F.totals files.old }
    ensures later { F.faults files.old ≤ F.faults files.new }
    ensures quiet { OnOk result (F.faults files.new ≡ F.faults files.old) }
    ensures failed { IsErrOf result FilesError.Failed
        → Rose (F.faults files.old) (F.faults files.new) }
{
    for device in devices {
        let slot = lend_slot(files, device)?;
        slots.push_reserved(slot);
    }
    Ok(())
}

/// An eye on a device file, if there is one.
fn lend_slot<F: Files>(files: &mut F, device: &Option<Text>) -> Result<Option<F::E>, FilesError>
    ensures fresh { IfOk result (λ slot. option_map F.E.sight slot
        ≡ option_map (fresh_on (F.told files.old)) device.now) }
    ensures no_faults { IfOk result (λ slot. All (λ eye. F.E.faults eye ≡ 0) (present (slot ∷ []))) }
    ensures told { IfOk result (λ slot. F.told files.new ≡ option_map
        (told_lending (device_eyes (device.now ∷ [])) (length (present (slot ∷ []))))
        (F.told files.old)) }
    ensures refused { OnErr result (ForSome (F.told files.old) (λ told.
        AsksFront told (F.told files.new) (device_eyes (device.now ∷ [])))) }
    ensures untold { F.told files.old ≡ None → F.told files.new ≡ None }
    ensures totals { F.totals files.new ≡ F.totals files.old }
    ensures later { F.faults files.old ≤ F.faults files.new }
    ensures quiet { OnOk result (F.faults files.new ≡ F.faults files.old) }
    ensures failed { IsErrOf result FilesError.Failed
        → Rose (F.faults files.old) (F.faults files.new) }
{
    match device {
        Some(name) => Ok(Some(files.eye(name.as_str(), Duty::Copy)?)),
        None => Ok(None),
    }
}

/// Gives the eyes back that are there.
pub(crate) fn retire_slots<F: Files>(files: &mut F, slots: Vec<Option<F::E>>)
    requires { IfSome (F.told files.old) (λ told. length (present slots.items) ≤ told.lent) }
    ensures told { F.told files.new
        ≡ option_map (told_returning (length (present slots.items))) (F.told files.old) }
    ensures totals { F.totals files.new
        ≡ grown (F.totals files.old) (taken_by (map F.E.sight (present slots.items))) }
    ensures faults { F.faults files.new
        ≡ counted (F.faults files.old) (sum_by F.E.faults (present slots.items)) }
{
    let mut rest = slots.into_iter();
    while let Some(slot) = rest.next() {
        retire_slot(files, slot);
    }
    rest.destroy_empty();
}

/// Gives the eye back, if there is one.
fn retire_slot<F: Files>(files: &mut F, slot: Option<F::E>)
    requires { IfSome (F.told files.old) (λ told. length (present (slot ∷ [])) ≤ told.lent) }
    ensures told { F.told files.new
        ≡ option_map (told_returning (length (present (slot ∷ [])))) (F.told files.old) }
    ensures totals { F.totals files.new
        ≡ grown (F.totals files.old) (taken_by (map F.E.sight (present (slot ∷ [])))) }
    ensures faults { F.faults files.new
        ≡ counted (F.faults files.old) (sum_by F.E.faults (present (slot ∷ []))) }
{
    if let Some(eye) = slot {
        files.retire(eye);
    }
}
