//! What a repair reads before the symbols: the steps up to the list of those that cannot be read.

ghost use Rattle.std.specs.Prelude.{◌≡◌, ◌≤◌, length, IfOk, OnOk};
ghost use Rattle.mr_patch.specs.Damages.{IsDamage};
ghost use Rattle.mr_sector.specs.Sectors.{AreSectors, sectors_of};
ghost use Rattle.mr_sector.specs.declared.sectors.TheConstants.{SECTORS_LIMIT};
ghost use Rattle.mr_steps.specs.Steps.{Gives, Grows, HasReadCause, IsPastWords, KeepsContents, Reads};
ghost use Rattle.mr_top.specs.ImagesRead.{HasFile};
ghost use Rattle.mr_top.specs.Sectors.{or_bad_sectors};
ghost use Rattle.mr_top.specs.SectorsSteps.{damage_file, damage_in, sectors_file};

use crate::image_head::image_head;
use mr_bits::{Mask, Matrix, What};
use mr_form::ImageHead;
use mr_io::{Files, Text};
use mr_mend::Ask;
use mr_sector::{SECTORS_LIMIT, SectorsFault, read_sectors};
use mr_steps::{Fault, file_within, lost_in, matrix_text};
use mr_words::SectorsWords;
use std::alloc::Global;

/// What a repair reads before the symbols.
#[derive(Drop)]
pub(crate) struct DamageRead {
    /// The matrix.
    pub matrix: Matrix,
    /// The symbols of the lost devices.
    pub lost: Mask,
    /// The head of the image.
    pub head: ImageHead,
    /// The symbols that cannot be read besides.
    pub sectors: Vec<Ask>,
}

/// Reads the matrix, the lost devices, the head of the image, and the list of the symbols that cannot be read.
pub(crate) fn read_damage<F: Files>(
    alloc: Global,
    files: &mut F,
    words: &SectorsWords,
) -> Result<DamageRead, Fault>
    ensures reads { Reads damage_in (F.told files.old) (F.told files.new) result
        (λ contents. damage_file contents words.now) }
    ensures totals { Grows (F.told files.old) (F.totals files.old) (F.totals files.new) result
        (λ contents. damage_file contents words.now) }
    ensures damage { IfOk result (λ read. IsDamage (damage_in read)) }
    ensures long { IfOk result
        (λ read. HasFile (F.told files.new) words.now.image read.head) }
    ensures cause { HasReadCause (F.faults files.old) (F.faults files.new) result }
    ensures past_words { IsPastWords result }
{
    let matrix = matrix_text(alloc, files, &words.matrix)?;
    let lost = lost_in(&matrix, &words.lost)?;
    let head = image_head(files, &words.image, &matrix)?;
    let sectors = sectors_text(alloc, files, &words.bad, &head, lost)?;
    Ok(DamageRead {
        matrix,
        lost,
        head,
        sectors,
    })
}

/// The symbols that a file lists.
fn sectors_text<F: Files>(
    alloc: Global,
    files: &mut F,
    bad: &Text,
    head: &ImageHead,
    lost: Mask,
) -> Result<Vec<Ask>, Fault>
    ensures reads { Reads (λ sectors. sectors.items) (F.told files.old) (F.told files.new) result
        (λ contents. sectors_file contents bad.now lost head.now) }
    ensures totals { Grows (F.told files.old) (F.totals files.old) (F.totals files.new) result
        (λ contents. sectors_file contents bad.now lost head.now) }
    ensures kept { OnOk result (KeepsContents (F.told files.old) (F.told files.new)) }
    ensures sectors { IfOk result (λ sectors. AreSectors head.now lost sectors.items) }
    ensures cause { HasReadCause (F.faults files.old) (F.faults files.new) result }
    ensures past_words { IsPastWords result }
{
    let bytes = file_within(alloc, files, bad, What::SectorBytes, SECTORS_LIMIT as u32)?;
    sectors_in(alloc, &bytes, head, lost)
}

/// The symbols that the bytes of a text list.
fn sectors_in(alloc: Global, bytes: &[u8], head: &ImageHead, lost: Mask) -> Result<Vec<Ask>, Fault>
    requires { length bytes.now ≤ SECTORS_LIMIT }
    ensures given { Gives (λ sectors. sectors.items) result
        (or_bad_sectors (sectors_of head.now lost bytes.now)) }
    ensures sectors { IfOk result (λ sectors. AreSectors head.now lost sectors.items) }
    ensures cause { HasReadCause 0 0 result }
    ensures past_words { IsPastWords result }
{
    match read_sectors(alloc, bytes, head, lost) {
        Ok(sectors) => Ok(sectors),
        Err(SectorsFault::Line { line }) => Err(Fault::BadSectors { line }),
        Err(SectorsFault::Memory) => Err(Fault::Memory),
    }
}
