//! The device files: they are opened, looked at and read.

ghost use Rattle.std.specs.Prelude.{◌≡◌, ◌≢◌, ◌⊎◌, ◌+◌, ◌*◌, ◌≤◌, ◌^◌, ◌<◌, ℕ, List, None, Ok, Err, IfOk, IfSome, IsErrOf, OnErr, OnOk, false, length, true};
ghost use Rattle.std.specs.Option.{ForSome};
ghost use Rattle.mr_model.specs.Sets.{count_below};
ghost use Rattle.mr_io.specs.Counts.{HasCause, Rose};
ghost use Rattle.mr_io.specs.Taking.{Takes};
ghost use Rattle.mr_image.specs.Heads.{image_bytes};
ghost use Rattle.mr_image.specs.Images.{stripe_symbols};
ghost use Rattle.mr_devices.specs.Places.{part_bytes};
ghost use Rattle.mr_gather.specs.Arrays.{gathered, is_read_of};
ghost use Rattle.mr_gather.specs.Slots.{AreLong, Fails, FailsOf, Holds, Keeps, KeepsOf, Tells, Took, TookOf};
ghost use Rattle.mr_steps.specs.Sinks.{TakesFront};
ghost use Rattle.mr_steps.specs.Steps.{Grows, IsPastWords, Reads};
ghost use Rattle.mr_gather_run.specs.Slots.{HasCauses, HasShort, IsLong, IsShort, IsUntouched};
ghost use Rattle.mr_gather_run.specs.Tasks.{CanGather, devices_read, end_of, gathered_file, task_in};

use crate::slots::{lend_slots, retire_slots};
use mr_gather::{Broken, Gathering, gather};
use mr_image::ImageKind;
use mr_io::{Eye, Failed, Files, Sink, Text};
use mr_steps::Fault;
use std::alloc::Global;

/// Puts the image file, of the device files that there are. All memory is taken before a device is opened, and all devices
/// are opened and reach to the end of the stripes before a byte is put. The eyes are given back on each way out.
pub(crate) fn gather_devices<F: Files, O: Sink>(
    alloc: Global,
    files: &mut F,
    devices: &[Option<Text>],
    task: &Gathering,
    out: &mut O,
) -> Result<(), Fault>
    requires fits { CanGather devices.now (task_in task.now) }
    ensures reads { Reads (λ _. task_in task.now) (F.told files.old) (F.told files.new) result
        (λ contents. devices_read contents devices.now (task_in task.now)) }
    ensures totals { Grows (F.told files.old) (F.totals files.old) (F.totals files.new) result
        (λ contents. devices_read contents devices.now (task_in task.now)) }
    ensures put { OnOk result (ForSome (F.told files.old) (λ told.
        Takes (O.held out.old) (O.held out.new)
        (gathered_file told.contents devices.now (task_in task.now)))) }
    ensures cut { OnErr result ((out.new ≡ out.old) ⊎ ForSome (F.told files.old) (λ told.
        ((devices_read told.contents devices.now (task_in task.now)).result ≡ Ok (task_in task.now))
        × TakesFront (O.held out.old) (O.held out.new)
        (gathered_file told.contents devices.now (task_in task.now)))) }
    ensures untouched { IsUntouched result out.old out.new }
    ensures cause { HasCauses (F.faults files.old) (F.faults files.new) (O.faults out.old)
        (O.faults out.new) result }
    ensures past_words { IsPastWords result }
{
    let size = task.head.symbols() as usize * task.head.bytes() as usize;
    let mut stripe = vec![in alloc; 0; size]?;
    let mut slots = Vec::with_capacity(alloc, devices.len())?;
    match lend_slots(files, devices, &mut slots) {
        Ok(()) => {
            let gathered = gather_slots(&mut slots, task, &mut stripe, out);
            retire_slots(files, slots);
            gathered
        }
        Err(error) => {
            retire_slots(files, slots);
            Err(Fault::from(error))
        }
    }
}

/// Puts the image file, of the devices that these eyes are on, where each reaches to the end of the stripes.
fn gather_slots<E: Eye, O: Sink>(
    slots: &mut [Option<E>],
    task: &Gathering,
    stripe: &mut [u8],
    out: &mut O,
) -> Result<(), Fault>
    requires devices { length slots.old ≡ task.now.head.devices }
    requires present { Holds task.now.head task.now.set slots.old }
    requires stripe { length stripe.old
        ≡ stripe_symbols task.now.head * task.now.head.symbol_bytes }
    ensures long { OnOk result (AreLong E.sight (end_of (task_in task.now)) slots.old) }
    ensures short { IsErrOf result (Fault.BadImage ImageKind.Length)
        → HasShort E.sight (end_of (task_in task.now)) slots.old }
    ensures put { OnOk result ((devices : ℕ → List ℕ) → Tells E.sight devices slots.old
        → Takes (O.held out.old) (O.held out.new) (image_bytes task.now.head
        (gathered task.now.head devices task.now.set task.now.first))) }
    ensures cut { OnErr result ((out.new ≡ out.old)
        ⊎ (AreLong E.sight (end_of (task_in task.now)) slots.old
        × ((devices : ℕ → List ℕ) → Tells E.sight devices slots.old
        → TakesFront (O.held out.old) (O.held out.new) (image_bytes task.now.head
        (gathered task.now.head devices task.now.set task.now.first))))) }
    ensures untouched { IsUntouched result out.old out.new }
    ensures taken { OnOk result (Took E.sight E.faults (λ d. task.now.head.stripes
        * (count_below (stripe_symbols task.now.head)
        (is_read_of task.now.head task.now.set d) * task.now.head.symbol_bytes))
        slots.old slots.new) }
    ensures kept { Keeps E.sight E.faults slots.old slots.new }
    ensures faults { (fault : Fault) → result ≡ Err fault → (fault ≡ Fault.ReadFault)
        ⊎ ((fault ≡ Fault.WriteFault) ⊎ (fault ≡ Fault.BadImage ImageKind.Length)) }
    ensures failed { IsErrOf result Fault.ReadFault → Fails E.faults slots.old slots.new }
    ensures written { IsErrOf result Fault.WriteFault
        → Rose (O.faults out.old) (O.faults out.new) }
    ensures later { O.faults out.old ≤ O.faults out.new }
    ensures quiet { OnOk result (O.faults out.new ≡ O.faults out.old) }
{
    if !reach(slots, end_of_stripes(task))? {
        return Err(Fault::BadImage {
            kind: ImageKind::Length,
        });
    }
    match gather(slots, task, stripe, out) {
        Ok(()) => Ok(()),
        Err(Broken::Read) => Err(Fault::ReadFault),
        Err(Broken::Write) => Err(Fault::WriteFault),
    }
}

/// Where the stripes end on each device.
fn end_of_stripes(task: &Gathering) -> u64
    ensures { result ≡ end_of (task_in task.now) }
{
    let stripes = u64::from(task.first) + u64::from(task.head.stripes());
    stripes * (u64::from(task.head.w()) * u64::from(task.head.bytes()))
}

/// Whether each device that is there has so many bytes. Takes none of them.
fn reach<E: Eye>(slots: &mut [Option<E>], end: u64) -> Result<bool, Failed>
    ensures long { IfOk result (λ long. long ≡ true → AreLong E.sight end slots.old) }
    ensures short { IfOk result (λ long. long ≡ false → HasShort E.sight end slots.old) }
    ensures taken { OnOk result (Took E.sight E.faults (λ _. 0) slots.old slots.new) }
    ensures kept { Keeps E.sight E.faults slots.old slots.new }
    ensures failed { OnErr result (Fails E.faults slots.old slots.new) }
{
    for device in 0..slots.len() {
        if !reaches(&mut slots[device], end)? {
            return Ok(false);
        }
    }
    Ok(true)
}

/// Whether the device has so many bytes, if it is there. Takes none of them.
fn reaches<E: Eye>(slot: &mut Option<E>, end: u64) -> Result<bool, Failed>
    ensures long { IfOk result (λ long. long ≡ true → IsLong E.sight end slot.old) }
    ensures short { IfOk result (λ long. long ≡ false → IsShort E.sight end slot.old) }
    ensures taken { OnOk result (TookOf E.sight E.faults 0 slot.old slot.new) }
    ensures kept { KeepsOf E.sight E.faults slot.old slot.new }
    ensures failed { OnErr result (FailsOf E.faults slot.old slot.new) }
{
    match slot {
        Some(eye) => Ok(eye.len()? >= end),
        None => Ok(true),
    }
}
