//! Files in memory that never fail.

ghost use Rattle.std.specs.Prelude.{◌≡◌, ◌<◌, ◌≤◌, ◌⊎◌, ℕ, Some, [], ◌∷◌, chars, map, IfOk, IsErrOf, OnErr, OnOk};
ghost use Rattle.std.specs.Arc.{arc_value};
ghost use Rattle.mr_io.specs.Counts.{Rose, counted};
ghost use Rattle.mr_io.specs.FilesStates.{contents_of, entry_of};
ghost use Rattle.mr_io.specs.Sights.{fresh_sight};
ghost use Rattle.mr_io.specs.Telling.{told_asking, told_giving, told_retiring};
ghost use Rattle.mr_io.specs.TotalsBy.{total_of, totals_with};
ghost use Rattle.mr_io.specs.SureStates.{sure_asked, sure_lending, sure_retiring, sure_told};

use crate::asked::Asked;
use crate::duty::Duty;
use crate::errors::FilesError;
use crate::eyes::Files;
use crate::mem_files::{MemFile, ask, bytes_of, shared};
use crate::sure_eye::SureEye;
use crate::text::Text;
use crate::totals::Totals;
use mr_bits::NoMemory;
use std::alloc::Global;
use std::marker::Model;
use std::sync::Arc;

/// Files in memory that never fail: a name that is not there is an empty file.
#[derive(Drop)]
pub struct SureFiles {
    alloc: Global,
    files: Vec<MemFile>,
    asked: Vec<Asked>,
    lent: usize,
    totals: Totals,
}

impl Model for SureFiles {
    ghost use Rattle.std.specs.Prelude.{◌≤◌, map, vec_len};
    ghost use Rattle.mr_io.specs.FilesStates.{entry_of};
    ghost use Rattle.mr_io.specs.SureStates.{SureFilesState};

    ghost Value = { SureFilesState };

    ghost view = { λ m. record {
      files = map entry_of m.files.items;
      asked = m.asked.items;
      lent = m.lent;
      totals = m.totals;
    } };

    ghost invariant = { λ m. m.lent ≤ vec_len m.asked };
}

impl SureFiles {
    /// Files of these names and bytes. Of two equal names the first counts.
    pub fn new(alloc: Global, files: Vec<(Text, Vec<u8>)>) -> Result<SureFiles, NoMemory>
        ensures { IfOk result (λ m. m ≡ record {
          files = map (λ file. (file.0, file.1.items)) files.items;
          asked = [];
          lent = 0;
          totals = Totals.NONE;
        }) }
    {
        Ok(SureFiles {
            alloc,
            files: shared(alloc, files)?,
            asked: Vec::new(alloc),
            lent: 0,
            totals: Totals::NONE,
        })
    }

    /// The bytes taken by the eyes of this duty that were retired.
    pub fn total(&self, duty: Duty) -> u64
        ensures { result ≡ total_of self.now.totals duty }
    {
        self.totals.of(duty)
    }
}

// The bytes of the first file of this name, or no bytes.
fn contents(alloc: Global, files: &[MemFile], name: &str) -> Result<Arc<Vec<u8>>, FilesError>
    ensures bytes { IfOk result (λ bytes.
        (arc_value bytes).items ≡ contents_of (map entry_of files.now) (chars name.now)) }
    ensures memory { OnErr result (IsErrOf result FilesError.Memory) }
{
    match bytes_of(files, name) {
        Some(bytes) => Ok(bytes.clone()?),
        None => Ok(Arc::new(alloc, Vec::new(alloc))?),
    }
}

impl Files for SureFiles {
    type E = SureEye;

    ghost told = { λ m. Some (sure_told m) };

    ghost totals = { λ m. m.totals };

    ghost faults = { λ _. 0 };

    fn eye(&mut self, name: &str, duty: Duty) -> Result<SureEye, FilesError>
        ensures given { OnOk result (Some (sure_told self.new)
            ≡ Some (told_giving (chars name.now) duty (sure_told self.old))) }
        ensures fresh { let faults : ℕ = 0 in IfOk result (λ eye.
            (eye ≡ fresh_sight (Some (contents_of self.old.files (chars name.now))) duty)
            × (faults ≡ 0)) }
        ensures failed { IsErrOf result FilesError.Failed
            → Some (sure_told self.new) ≡ Some
            (told_asking (record { name = chars name.now; duty = duty } ∷ [])
            (sure_told self.old)) }
        ensures memory { IsErrOf result FilesError.Memory
            → (Some (sure_told self.new) ≡ Some (sure_told self.old))
            ⊎ (Some (sure_told self.new) ≡ Some
            (told_asking (record { name = chars name.now; duty = duty } ∷ [])
            (sure_told self.old))) }
        ensures totals { self.new.totals ≡ self.old.totals }
        ensures later { 0 ≤ 0 }
        ensures quiet { let faults : ℕ = 0 in OnOk result (faults ≡ faults) }
        ensures cause { IsErrOf result FilesError.Failed → Rose 0 0 }

        // The only refusal is want of memory, and what the files are then.
        ensures sure { OnErr result (IsErrOf result FilesError.Memory) }
        ensures lent { OnOk result (self.new ≡ sure_lending self.old (chars name.now) duty) }
        ensures wanting { OnErr result ((self.new ≡ self.old)
            ⊎ (self.new ≡ sure_asked self.old (chars name.now) duty)) }
    {
        ask(&mut self.asked, self.alloc, name, duty)?;
        let bytes = contents(self.alloc, &self.files, name)?;
        self.lent += 1;
        Ok(SureEye::new(bytes, duty))
    }

    fn retire(&mut self, eye: SureEye)
        requires { 0 < self.old.lent }
        ensures told { Some (sure_told self.new) ≡ Some (told_retiring (sure_told self.old)) }
        ensures totals { self.new.totals ≡ totals_with self.old.totals eye.duty eye.taken }
        ensures faults { 0 ≡ counted 0 0 }
        ensures state { self.new ≡ sure_retiring self.old eye }
    {
        let (duty, taken) = eye.into_counts();
        self.totals = self.totals.with(duty, taken);
        self.lent -= 1;
    }
}
