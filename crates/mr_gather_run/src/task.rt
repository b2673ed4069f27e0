//! What is gathered: the steps before a device is opened.

ghost use Rattle.std.specs.Prelude.{◌≡◌, ◌≤◌, ◌<◌, ◌^◌, ℕ, Ok, true, IfOk, OnOk, length};
ghost use Rattle.mr_bits.specs.Matrices.{IsMatrixCode};
ghost use Rattle.mr_choices.specs.Handed.{sound_given};
ghost use Rattle.mr_losses.specs.Losses.{symbols_of_devices};
ghost use Rattle.mr_model.specs.Sets.{has};
ghost use Rattle.mr_plan.specs.Plans.{survivors};
ghost use Rattle.mr_steps.specs.Refusals.{followed_by};
ghost use Rattle.mr_steps.specs.Steps.{Gives, Grows, HasReadCause, IsPastWords, Reads};
ghost use Rattle.mr_array_words.specs.Gather.{gather_asked};
ghost use Rattle.mr_gather_run.specs.Tasks.{CanGather, layout_given, lost_devices, lost_given, plan_set, set_read, task_for, task_in, task_of};

use mr_array_words::GatherWords;
use mr_bits::{Mask, Matrix, What};
use mr_choices::sound_plan;
use mr_gather::Gathering;
use mr_image::ImageHead;
use mr_io::{Files, Text};
use mr_losses::symbols_of;
use mr_steps::{Fault, file_text, matrix_text};
use std::alloc::Global;

/// The task that the words name: the steps before a device is opened.
pub(crate) fn read_task<F: Files>(
    alloc: Global,
    files: &mut F,
    words: &GatherWords,
) -> Result<Gathering, Fault>
    ensures reads { Reads task_in (F.told files.old) (F.told files.new) result
        (λ contents. task_of contents (gather_asked words.now)) }
    ensures totals { Grows (F.told files.old) (F.totals files.old) (F.totals files.new) result
        (λ contents. task_of contents (gather_asked words.now)) }
    ensures fits { IfOk result (λ task. CanGather words.now.devices.items (task_in task)) }
    ensures cause { HasReadCause (F.faults files.old) (F.faults files.new) result }
    ensures past_words { IsPastWords result }
{
    let matrix = matrix_text(alloc, files, &words.matrix)?;
    task_with(alloc, files, words, &matrix)
}

/// The same for a matrix.
fn task_with<F: Files>(
    alloc: Global,
    files: &mut F,
    words: &GatherWords,
    matrix: &Matrix,
) -> Result<Gathering, Fault>
    requires code { IsMatrixCode matrix.now }
    ensures reads { Reads task_in (F.told files.old) (F.told files.new) result
        (λ contents. task_for contents (gather_asked words.now) matrix.now) }
    ensures totals { Grows (F.told files.old) (F.totals files.old) (F.totals files.new) result
        (λ contents. task_for contents (gather_asked words.now) matrix.now) }
    ensures fits { IfOk result (λ task. CanGather words.now.devices.items (task_in task)) }
    ensures cause { HasReadCause (F.faults files.old) (F.faults files.new) result }
    ensures past_words { IsPastWords result }
{
    let head = head_for(matrix, words)?;
    let lost = lost_symbols(matrix, &words.devices)?;
    let set = set_to_read(alloc, files, matrix, lost, &words.plan)?;
    Ok(Gathering {
        head,
        set,
        first: words.first,
    })
}

/// The head of the image.
fn head_for(matrix: &Matrix, words: &GatherWords) -> Result<ImageHead, Fault>
    ensures given { Gives (λ head. head) result (layout_given matrix.now (gather_asked words.now)) }
    ensures devices { IfOk result (λ head. head.devices ≡ matrix.now.devices) }
    ensures symbols { IfOk result
        (λ head. head.symbols_per_device ≡ matrix.now.symbols_per_device) }
    ensures cause { HasReadCause 0 0 result }
    ensures past_words { IsPastWords result }
{
    let head = ImageHead::new(matrix.shape(), words.bytes, words.stripes)?;
    Ok(head)
}

/// The symbols of the devices without a file. `NoDevice` names the first device that not both the matrix and the words
/// have.
#[tactic(auto, unfolding(crate::specs::Tasks::lost_given))]
fn lost_symbols(matrix: &Matrix, devices: &[Option<Text>]) -> Result<Mask, Fault>
    ensures given { Gives (λ lost. lost) result (lost_given matrix.now devices.now) }
    ensures count { OnOk result (length devices.now ≡ matrix.now.devices) }
    ensures lost { IfOk result
        (λ lost. lost ≡ symbols_of_devices matrix.now (lost_devices devices.now)) }
    ensures below { IfOk result (λ lost. lost < 2 ^ length matrix.now.rows) }
    ensures cause { HasReadCause 0 0 result }
    ensures past_words { IsPastWords result }
{
    let count = matrix.shape().n() as usize;
    if devices.len() != count {
        return Err(Fault::NoDevice {
            device: devices.len().min(count) as u32,
        });
    }
    Ok(symbols_of(matrix, lost_devices(devices)))
}

/// The devices without a file, of at most 128.
fn lost_devices(devices: &[Option<Text>]) -> Mask
    requires { length devices.now ≤ 128 }
    ensures { result ≡ lost_devices devices.now }
{
    let mut lost = Mask::EMPTY;
    for (number, device) in devices.iter().enumerate() {
        if device.is_none() {
            lost = lost.with(number as u8);
        }
    }
    lost
}

/// The set of the plan in a file, which must be valid for the lost symbols, or all survivors where no plan is named.
fn set_to_read<F: Files>(
    alloc: Global,
    files: &mut F,
    matrix: &Matrix,
    lost: Mask,
    plan: &Option<Text>,
) -> Result<Mask, Fault>
    requires { lost < 2 ^ length matrix.now.rows }
    ensures reads { Reads (λ set. set) (F.told files.old) (F.told files.new) result
        (λ contents. set_read contents plan.now matrix.now lost) }
    ensures totals { Grows (F.told files.old) (F.totals files.old) (F.totals files.new) result
        (λ contents. set_read contents plan.now matrix.now lost) }
    ensures survive { IfOk result (λ set. (i : ℕ) → has set i ≡ true
        → has (survivors matrix.now lost) i ≡ true) }
    ensures cause { HasReadCause (F.faults files.old) (F.faults files.new) result }
    ensures past_words { IsPastWords result }
{
    match plan {
        Some(name) => set_in_file(alloc, files, matrix, lost, name),
        None => Ok(matrix.all().minus(lost)),
    }
}

/// The set of the plan in a file.
fn set_in_file<F: Files>(
    alloc: Global,
    files: &mut F,
    matrix: &Matrix,
    lost: Mask,
    name: &Text,
) -> Result<Mask, Fault>
    requires { lost < 2 ^ length matrix.now.rows }
    ensures reads { Reads (λ set. set) (F.told files.old) (F.told files.new) result
        (λ contents. plan_set contents name.now matrix.now lost) }
    ensures totals { Grows (F.told files.old) (F.totals files.old) (F.totals files.new) result
        (λ contents. plan_set contents name.now matrix.now lost) }
    ensures survive { IfOk result (λ set. (i : ℕ) → has set i ≡ true
        → has (survivors matrix.now lost) i ≡ true) }
    ensures cause { HasReadCause (F.faults files.old) (F.faults files.new) result }
    ensures past_words { IsPastWords result }
{
    let bytes = file_text(alloc, files, name, What::PlanBytes)?;
    set_of_text(matrix, lost, &bytes)
}

/// The set of the plan of a text, where it is valid for the lost symbols.
fn set_of_text(matrix: &Matrix, lost: Mask, bytes: &[u8]) -> Result<Mask, Fault>
    requires { lost < 2 ^ length matrix.now.rows }
    ensures given { Gives (λ set. set) result
        (followed_by (sound_given matrix.now lost bytes.now) (λ plan. Ok plan.set)) }
    ensures survive { IfOk result (λ set. (i : ℕ) → has set i ≡ true
        → has (survivors matrix.now lost) i ≡ true) }
    ensures cause { HasReadCause 0 0 result }
    ensures past_words { IsPastWords result }
{
    let plan = sound_plan(matrix, lost, bytes)?;
    Ok(plan.set())
}
