//! The eyes of a rebuild, asked for one after another.

ghost use Rattle.std.specs.Prelude.{◌≡◌, ◌≤◌, [], All, IfOk, IsErrOf, None, OnErr, OnOk, chars, length, map, option_map, take, vec_capacity, vec_len};
ghost use Rattle.std.specs.Option.{ForSome};
ghost use Rattle.mr_io.specs.Counts.{Rose};
ghost use Rattle.mr_io.specs.Sights.{fresh_sight};
ghost use Rattle.mr_io.specs.Telling.{AsksFront, LendsFront, told_lending};
ghost use Rattle.mr_ready.specs.Duties.{duties_of, eyes_on};

use mr_io::{Duty, Files, FilesError, retire_all};
use std::alloc::{AllocError, Global};

/// What the eyes of a rebuild are for, in the order in which they are asked for.
pub(crate) fn duties_for(alloc: Global, workers: u32, live: bool) -> Result<Vec<Duty>, AllocError>
    ensures { IfOk result (λ duties. duties.items ≡ duties_of workers live) }
{
    let menders = workers as usize;
    let readers = if live { menders } else { 1 };
    let mut duties = vec![in alloc; Duty::Mend; menders]?;
    duties.resize(menders + readers, Duty::Live)?;
    duties.push(Duty::Copy)?;
    Ok(duties)
}

/// An eye of each duty, asked for in their order. After a refusal those that were lent are given back.
pub(crate) fn lend_eyes<F: Files>(
    alloc: Global,
    files: &mut F,
    image: &str,
    duties: &[Duty],
) -> Result<Vec<F::E>, FilesError>
    ensures no_faults { IfOk result (λ eyes. All (λ eye. F.E.faults eye ≡ 0) eyes.items) }
    ensures sights { IfOk result (λ eyes. map F.E.sight eyes.items ≡ map (fresh_sight
        (option_map (λ told. told.contents (chars image.now)) (F.told files.old))) duties.now) }
    ensures told { OnOk result (F.told files.new ≡ option_map
        (told_lending (eyes_on (chars image.now) duties.now) (length duties.now))
        (F.told files.old)) }
    ensures refused { OnErr result (ForSome (F.told files.old) (λ told.
        AsksFront told (F.told files.new) (eyes_on (chars image.now) duties.now))) }
    ensures untold { F.told files.old ≡ None → F.told files.new ≡ None }
    ensures totals { F.totals files.new ≡ F.totals files.old }
    ensures later { F.faults files.old ≤ F.faults files.new }
    ensures quiet { OnOk result (F.faults files.new ≡ F.faults files.old) }
    ensures failed { IsErrOf result FilesError.Failed
        → Rose (F.faults files.old) (F.faults files.new) }
{
    let mut eyes = Vec::with_capacity(alloc, duties.len())?;
    match ask_eyes(files, image, duties, &mut eyes) {
        Ok(()) => Ok(eyes),
        Err(refused) => {
            retire_all(files, eyes);
            Err(refused)
        }
    }
}

/// Asks for an eye of each duty, in their order; there is room for them. After a refusal those that were lent so far
/// are there.
pub(crate) fn ask_eyes<F: Files>(
    files: &mut F,
    image: &str,
    duties: &[Duty],
    eyes: &mut Vec<F::E>,
) -> Result<(), FilesError>
    requires empty { (eyes.old.items ≡ []) × (vec_len eyes.old ≡ 0) }
    requires room { length duties.now ≤ vec_capacity eyes.old }
    ensures fresh { map F.E.sight eyes.new.items
        ≡ map (fresh_sight (option_map (λ told. told.contents (chars image.now)) (F.told files.old)))
        (take (length eyes.new.items) duties.now) }
    ensures no_faults { All (λ eye. F.E.faults eye ≡ 0) eyes.new.items }
    ensures count { OnOk result (length eyes.new.items ≡ length duties.now) }
    ensures room { vec_capacity eyes.new ≡ vec_capacity eyes.old }
    ensures told { OnOk result (F.told files.new ≡ option_map
        (told_lending (eyes_on (chars image.now) duties.now) (length duties.now))
        (F.told files.old)) }
    ensures refused { OnErr result (ForSome (F.told files.old) (λ told.
        LendsFront told (F.told files.new) (eyes_on (chars image.now) duties.now)
        (length eyes.new.items))) }
    ensures untold { F.told files.old ≡ None → F.told files.new ≡ None }
    ensures totals { F.totals files.new ≡ F.totals files.old }
    ensures later { F.faults files.old ≤ F.faults files.new }
    ensures quiet { OnOk result (F.faults files.new ≡ F.faults files.old) }
    ensures failed { IsErrOf result FilesError.Failed
        → Rose (F.faults files.old) (F.faults files.new) }
{
    for duty in duties {
        let eye = files.eye(image, *duty)?;
        eyes.push_reserved(eye);
    }
    Ok(())
}
