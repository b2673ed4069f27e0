//! Files in memory.

ghost use Rattle.std.specs.Prelude.{◌≡◌, ◌+◌, ◌<◌, ◌≤◌, ◌⊎◌, Some, None, [], ◌∷◌, ◌++◌, chars, false, map, true, vec_len, IfOk, IsErrOf, IsSome, MatchOption, OnErr, OnOk};
ghost use Rattle.std.specs.Arc.{arc_value};
ghost use Rattle.mr_io.specs.Counts.{Rose, counted};
ghost use Rattle.mr_io.specs.Sights.{fresh_sight};
ghost use Rattle.mr_io.specs.Telling.{told_asking, told_giving, told_retiring};
ghost use Rattle.mr_io.specs.TotalsBy.{total_of, totals_with};
ghost use Rattle.mr_io.specs.EyeStates.{is_failing};
ghost use Rattle.mr_io.specs.FilesStates.{contents_of, entry_of, file_of, files_asked, files_called, files_lending, files_refusing, files_retiring, lent_bytes, lent_eye, told_of};

use crate::asked::Asked;
use crate::counts::add_count;
use crate::duty::Duty;
use crate::errors::FilesError;
use crate::eyes::Files;
use crate::mem_eye::{MemEye, is_listed};
use crate::text::Text;
use crate::totals::Totals;
use mr_bits::NoMemory;
use std::alloc::Global;
use std::marker::Model;
use std::sync::Arc;

// A file: its name and its bytes, which its eyes share.
#[derive(Drop)]
pub(crate) struct MemFile {
    name: Text,
    bytes: Arc<Vec<u8>>,
}

/// Files in memory, which fail where they are told to.
#[derive(Drop)]
pub struct MemFiles {
    alloc: Global,
    files: Vec<MemFile>,
    fails: Arc<Vec<(u64, u64)>>,
    asked: Vec<Asked>,
    calls: u64,
    lent: usize,
    totals: Totals,
    faults: u64,
}

impl Model for MemFiles {
    ghost use Rattle.std.specs.Prelude.{◌≤◌, map, vec_len};
    ghost use Rattle.std.specs.Arc.{arc_value};
    ghost use Rattle.mr_io.specs.FilesStates.{FilesState, entry_of};

    ghost Value = { FilesState };

    ghost view = { λ m. record {
      files = map entry_of m.files.items;
      fails = (arc_value m.fails).items;
      asked = m.asked.items;
      calls = m.calls;
      lent = m.lent;
      totals = m.totals;
      faults = m.faults;
    } };

    ghost invariant = { λ m. m.lent ≤ vec_len m.asked };
}

impl MemFiles {
    /// Files of these names and bytes. Of two equal names the first counts. A pair in `fails` is an eye
    /// and a call: eyes are numbered from 1 in the order of the `eye` calls, an eye's calls are numbered
    /// from 1, and its call 0 is the `eye` call itself.
    pub fn new(
        alloc: Global,
        files: Vec<(Text, Vec<u8>)>,
        fails: Vec<(u64, u64)>,
    ) -> Result<MemFiles, NoMemory>
        ensures { IfOk result (λ m. m ≡ record {
          files = map (λ file. (file.0, file.1.items)) files.items;
          fails = fails.items;
          asked = [];
          calls = 0;
          lent = 0;
          totals = Totals.NONE;
          faults = 0;
        }) }
    {
        let files = shared(alloc, files)?;
        let fails = Arc::new(alloc, fails)?;
        Ok(MemFiles {
            alloc,
            files,
            fails,
            asked: Vec::new(alloc),
            calls: 0,
            lent: 0,
            totals: Totals::NONE,
            faults: 0,
        })
    }

    /// The bytes taken by the eyes of this duty that were retired.
    pub fn total(&self, duty: Duty) -> u64
        ensures { result ≡ total_of self.now.totals duty }
    {
        self.totals.of(duty)
    }

    /// How many calls failed, of the files and of the eyes that were retired.
    pub fn faults(&self) -> u64
        ensures { result ≡ self.now.faults }
    {
        self.faults
    }
}

/// The files with bytes that eyes can share.
pub(crate) fn shared(alloc: Global, files: Vec<(Text, Vec<u8>)>) -> Result<Vec<MemFile>, NoMemory>
    ensures { IfOk result (λ made.
        map entry_of made.items ≡ map (λ file. (file.0, file.1.items)) files.items) }
{
    let mut made = Vec::new(alloc);
    for (name, bytes) in files {
        let bytes = Arc::new(alloc, bytes)?;
        made.push(MemFile { name, bytes })?;
    }
    Ok(made)
}

/// The bytes of the first file of this name.
pub(crate) fn bytes_of<'a>(files: &'a [MemFile], name: &str) -> Option<&'a Arc<Vec<u8>>>
    ensures { MatchOption result (file_of (map entry_of files.now) (chars name.now) ≡ None)
        (λ bytes. file_of (map entry_of files.now) (chars name.now)
        ≡ Some (arc_value bytes.now).items) }
{
    for file in files {
        if file.name.is(name) {
            return Some(&file.bytes);
        }
    }
    None
}

/// Writes down an `eye` call.
pub(crate) fn ask(
    asked: &mut Vec<Asked>,
    alloc: Global,
    name: &str,
    duty: Duty,
) -> Result<(), FilesError>
    ensures ok { OnOk result (asked.new.items
        ≡ asked.old.items ++ record { name = chars name.now; duty = duty } ∷ []) }
    ensures len { OnOk result (vec_len asked.new ≡ vec_len asked.old + 1) }
    ensures err { OnErr result (asked.new.items ≡ asked.old.items) }
    ensures same_len { OnErr result (vec_len asked.new ≡ vec_len asked.old) }
    ensures memory { OnErr result (IsErrOf result FilesError.Memory) }
{
    let name = Text::of(String::from_str(alloc, name)?);
    asked.push(Asked { name, duty })?;
    Ok(())
}

// An eye on the file of this name, as the eye `number`.
fn look(
    files: &[MemFile],
    fails: &Arc<Vec<(u64, u64)>>,
    number: u64,
    name: &str,
    duty: Duty,
) -> Result<MemEye, FilesError>
    ensures given { IfOk result (λ eye. eye ≡ record {
      sight = fresh_sight (file_of (map entry_of files.now) (chars name.now)) duty;
      number = number;
      calls = 0;
      fails = (arc_value fails.now).items;
      faults = 0;
    }) }
    ensures there { OnOk result (IsSome (file_of (map entry_of files.now) (chars name.now))) }
    ensures heard { OnOk result (is_failing (arc_value fails.now).items number 0 ≡ false) }
    ensures failed { IsErrOf result FilesError.Failed
        → (is_failing (arc_value fails.now).items number 0 ≡ true)
        ⊎ (file_of (map entry_of files.now) (chars name.now) ≡ None) }
{
    if is_listed(fails, number, 0) {
        return Err(FilesError::Failed);
    }
    let Some(bytes) = bytes_of(files, name) else {
        return Err(FilesError::Failed);
    };
    Ok(MemEye::new(bytes.clone()?, duty, number, fails.clone()?))
}

impl Files for MemFiles {
    type E = MemEye;

    ghost told = { λ m. Some (told_of m) };

    ghost totals = { λ m. m.totals };

    ghost faults = { λ m. m.faults };

    fn eye(&mut self, name: &str, duty: Duty) -> Result<MemEye, FilesError>
        ensures given { OnOk result (Some (told_of self.new)
            ≡ Some (told_giving (chars name.now) duty (told_of self.old))) }
        ensures fresh { IfOk result (λ eye. (eye.sight
            ≡ fresh_sight (Some (contents_of self.old.files (chars name.now))) duty)
            × (eye.faults ≡ 0)) }
        ensures failed { IsErrOf result FilesError.Failed
            → Some (told_of self.new) ≡ Some
            (told_asking (record { name = chars name.now; duty = duty } ∷ []) (told_of self.old)) }
        ensures memory { IsErrOf result FilesError.Memory
            → (Some (told_of self.new) ≡ Some (told_of self.old))
            ⊎ (Some (told_of self.new) ≡ Some
            (told_asking (record { name = chars name.now; duty = duty } ∷ []) (told_of self.old))) }
        ensures totals { self.new.totals ≡ self.old.totals }
        ensures later { self.old.faults ≤ self.new.faults }
        ensures quiet { OnOk result (self.new.faults ≡ self.old.faults) }
        ensures cause { IsErrOf result FilesError.Failed → Rose self.old.faults self.new.faults }

        // Which calls fail, which eye the others lend, and what the files are then.
        ensures eye { IfOk result (λ eye. eye ≡ lent_eye self.old (chars name.now) duty) }
        ensures lent { OnOk result (IsSome (lent_bytes self.old (chars name.now))
            × (self.new ≡ files_lending self.old (chars name.now) duty)) }
        ensures refused { IsErrOf result FilesError.Failed
            → (lent_bytes self.old (chars name.now) ≡ None)
            × (self.new ≡ files_refusing self.old (chars name.now) duty) }
        ensures wanting { IsErrOf result FilesError.Memory
            → (self.new ≡ files_called self.old)
            ⊎ (self.new ≡ files_asked self.old (chars name.now) duty) }
    {
        self.calls = add_count(self.calls, 1);
        ask(&mut self.asked, self.alloc, name, duty)?;
        match look(&self.files, &self.fails, self.calls, name, duty) {
            Ok(eye) => {
                self.lent += 1;
                Ok(eye)
            }
            Err(FilesError::Failed) => {
                self.faults = add_count(self.faults, 1);
                Err(FilesError::Failed)
            }
            Err(FilesError::Memory) => Err(FilesError::Memory),
        }
    }

    fn retire(&mut self, eye: MemEye)
        requires { 0 < self.old.lent }
        ensures told { Some (told_of self.new) ≡ Some (told_retiring (told_of self.old)) }
        ensures totals { self.new.totals
            ≡ totals_with self.old.totals eye.sight.duty eye.sight.taken }
        ensures faults { self.new.faults ≡ counted self.old.faults eye.faults }
        ensures state { self.new ≡ files_retiring self.old eye }
    {
        let (duty, taken, faults) = eye.into_counts();
        self.totals = self.totals.with(duty, taken);
        self.faults = add_count(self.faults, faults);
        self.lent -= 1;
    }
}
