//! The texts that a command reads: whole files of at most 65,536 bytes, or of at most so many as are named.

ghost use Rattle.std.specs.Prelude.{◌≡◌, ℕ, ◌≤◌, List, chars, length, Option, OnOk, IfOk};
ghost use Rattle.std.specs.Option.{ForSome};
ghost use Rattle.mr_bits.specs.Matrices.{IsMatrixCode};
ghost use Rattle.mr_form.specs.MatrixText.{matrix_of};
ghost use Rattle.mr_io.specs.Sights.{Sight, sight_with};
ghost use Rattle.mr_steps.specs.TextFiles.{matrix_file, text_file, text_within};
ghost use Rattle.mr_steps.specs.Texts.{or_matrix_fault, text_limit, within};
ghost use Rattle.mr_steps.specs.Steps.{Gives, Grows, HasReadCause, IsPastWords, IsUnread, KeepsContents, Reads};

use crate::fault::Fault;
use mr_bits::{Matrix, What};
use mr_form::read_matrix;
use mr_io::{Duty, Eye, Files, Text};
use std::alloc::Global;

/// The most bytes of a text file.
const TEXT_LIMIT: u32 = 65_536;

/// The bytes of a text file of at most `limit` bytes. The eye is given back on each way out.
pub fn file_within<F: Files>(
    alloc: Global,
    files: &mut F,
    name: &Text,
    what: What,
    limit: u32,
) -> Result<Vec<u8>, Fault>
    ensures reads { Reads (λ bytes. bytes.items) (F.told files.old) (F.told files.new) result
        (λ contents. text_within limit contents name.now what) }
    ensures totals { Grows (F.told files.old) (F.totals files.old) (F.totals files.new) result
        (λ contents. text_within limit contents name.now what) }
    ensures unread { IsUnread (F.totals files.old) (F.totals files.new) }
    ensures kept { OnOk result (KeepsContents (F.told files.old) (F.told files.new)) }
    ensures short { IfOk result (λ bytes. length bytes.items ≤ limit) }
    ensures cause { HasReadCause (F.faults files.old) (F.faults files.new) result }
    ensures past_words { IsPastWords result }
{
    let mut eye = files.eye(name.as_str(), Duty::Text)?;
    let bytes = all_bytes(alloc, &mut eye, what, limit);
    files.retire(eye);
    bytes
}

/// The bytes of a text file. The eye is given back on each way out.
pub fn file_text<F: Files>(
    alloc: Global,
    files: &mut F,
    name: &Text,
    what: What,
) -> Result<Vec<u8>, Fault>
    ensures reads { Reads (λ bytes. bytes.items) (F.told files.old) (F.told files.new) result
        (λ contents. text_file contents name.now what) }
    ensures totals { Grows (F.told files.old) (F.totals files.old) (F.totals files.new) result
        (λ contents. text_file contents name.now what) }
    ensures unread { IsUnread (F.totals files.old) (F.totals files.new) }
    ensures short { IfOk result (λ bytes. length bytes.items ≤ text_limit) }
    ensures cause { HasReadCause (F.faults files.old) (F.faults files.new) result }
    ensures past_words { IsPastWords result }
{
    file_within(alloc, files, name, what, TEXT_LIMIT)
}

/// The bytes behind an eye, where they are not too many.
fn all_bytes<E: Eye>(alloc: Global, eye: &mut E, what: What, limit: u32) -> Result<Vec<u8>, Fault>
    ensures given { ForSome (E.sight eye.old).bytes (λ bytes. Gives (λ v. v.items) result
        (within limit what bytes)) }
    ensures short { IfOk result (λ bytes. length bytes.items ≤ limit) }
    ensures taken { OnOk result (ForSome (E.sight eye.old).bytes
        (λ bytes. E.sight eye.new ≡ sight_with (E.sight eye.old) (length bytes))) }
    ensures duty { (E.sight eye.new).duty ≡ (E.sight eye.old).duty }
    ensures cause { HasReadCause (E.faults eye.old) (E.faults eye.new) result }
    ensures past_words { IsPastWords result }
{
    let length = eye.len()?;
    if length > u64::from(limit) {
        return Err(Fault::TooLarge {
            what,
            number: length,
        });
    }
    let mut bytes = vec![in alloc; 0; length as usize]?;
    eye.read_at(0, &mut bytes)?;
    Ok(bytes)
}

/// The matrix that a file spells.
pub fn matrix_text<F: Files>(alloc: Global, files: &mut F, name: &Text) -> Result<Matrix, Fault>
    ensures reads { Reads (λ m. m) (F.told files.old) (F.told files.new) result
        (λ contents. matrix_file contents name.now) }
    ensures totals { Grows (F.told files.old) (F.totals files.old) (F.totals files.new) result
        (λ contents. matrix_file contents name.now) }
    ensures unread { IsUnread (F.totals files.old) (F.totals files.new) }
    ensures code { IfOk result IsMatrixCode }
    ensures cause { HasReadCause (F.faults files.old) (F.faults files.new) result }
    ensures past_words { IsPastWords result }
{
    let bytes = file_text(alloc, files, name, What::MatrixBytes)?;
    matrix_in(&bytes)
}

/// The matrix that the bytes of a text spell.
fn matrix_in(bytes: &[u8]) -> Result<Matrix, Fault>
    requires { length bytes.now ≤ text_limit }
    ensures given { Gives (λ m. m) result (or_matrix_fault (matrix_of bytes.now)) }
    ensures code { IfOk result IsMatrixCode }
    ensures cause { HasReadCause 0 0 result }
    ensures past_words { IsPastWords result }
{
    let matrix = read_matrix(bytes)?;
    // The shape tells the proof that the matrix is within its limits.
    let _within_limits = matrix.shape();
    Ok(matrix)
}
