//! The lost devices, as a list.

ghost use Rattle.std.specs.Prelude.{◌≡◌, ◌<◌, All, IfOk};
ghost use Rattle.mr_words.specs.Lost.{lost_numbers};
ghost use Rattle.mr_steps.specs.Steps.{Gives, HasReadCause, IsPastWords};
ghost use Rattle.mr_scatter_run.specs.Tasks.{lost_given, numbers_in};

use mr_bits::{Matrix, NoMemory};
use mr_io::Text;
use mr_steps::{Fault, lost_in};
use mr_text::read_number;
use std::alloc::Global;

/// The lost devices in the order of the word. `NoDevice` names the first number that is no device of the matrix.
pub(crate) fn lost_list(alloc: Global, matrix: &Matrix, lost: &Text) -> Result<Vec<u8>, Fault>
    ensures given { Gives (λ list. list.items) result (lost_given matrix.now lost.now) }
    ensures numbers { IfOk result (λ list. list.items ≡ numbers_in lost.now) }
    ensures low { IfOk result (λ list. All (λ d. d < matrix.now.devices) list.items) }
    ensures cause { HasReadCause 0 0 result }
    ensures past_words { IsPastWords result }
{
    let _symbols = lost_in(matrix, lost)?;
    let _few = matrix.shape();
    let list = numbers_of(alloc, lost.as_str())?;
    Ok(list)
}

/// The numbers that a LOST word lists, each of which is below 128.
fn numbers_of(alloc: Global, word: &str) -> Result<Vec<u8>, NoMemory>
    requires { All (λ number. number < 128) (lost_numbers word.now) }
    ensures { IfOk result (λ list. list.items ≡ lost_numbers word.now) }
{
    let mut list = Vec::new(alloc);
    for part in word.split(',') {
        if let Some(number) = read_number(part.as_bytes()) {
            list.push(number as u8)?;
        }
    }
    Ok(list)
}
