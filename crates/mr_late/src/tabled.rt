//! The command `table`.

ghost use Rattle.std.specs.Prelude.{◌≡◌, IfOk};
ghost use Rattle.mr_words.specs.Texts.{IsWorkers};
ghost use Rattle.mr_steps.specs.Steps.{HasReadCause, IsPastWords, Reads};
ghost use Rattle.mr_late.specs.Tables.{CanPrint, output_of, table_answer};

use crate::words::TableWords;
use mr_bits::{Mask, Matrix};
use mr_io::{Files, Gate};
use mr_steps::{Fault, matrix_text};
use mr_table::{Row, losses_of, table};
use std::alloc::Global;
use std::sync::Wait;
use std::thread::Threads;

/// The answer of `table`: the matrix, the budget of each search, the devices that are lost in each
/// job, and the rows.
#[derive(Drop)]
pub(crate) struct Tabled {
    pub matrix: Matrix,
    pub budget: u32,
    pub losses: Vec<Mask>,
    pub rows: Vec<Row>,
}

/// The table of a matrix file, by the words' workers and within their budget.
pub(crate) fn make_table<T: Threads + Wait + Sync, F: Files, G: Gate + Sync>(
    rt: &T,
    alloc: Global,
    files: &mut F,
    gate: &G,
    words: &TableWords,
) -> Result<Tabled, Fault>
    requires workers { IsWorkers words.now.workers }
    ensures reads { Reads output_of (F.told files.old) (F.told files.new) result
        (λ contents. table_answer words.now contents) }
    ensures ready { IfOk result CanPrint }
    ensures cause { HasReadCause (F.faults files.old) (F.faults files.new) result }
    ensures past_words { IsPastWords result }
{
    let matrix = matrix_text(alloc, files, &words.matrix)?;
    let losses = losses_of(alloc, matrix.shape().n())?;
    let rows = table(rt, alloc, &matrix, words.budget, words.workers, gate)?;
    Ok(Tabled {
        matrix,
        budget: words.budget,
        losses,
        rows,
    })
}
