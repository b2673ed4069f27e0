//! The words of `table MATRIX [--workers W] [--budget C]`.

ghost use Rattle.std.specs.Prelude.{◌≡◌, IfOk, codes, drop, map, string_bytes};
ghost use Rattle.clap.specs.Words.{app_of, first_value, found_of};
ghost use Rattle.mr_words.specs.Clap.{app_for};
ghost use Rattle.mr_words.specs.Reads.{Reads};
ghost use Rattle.mr_words.specs.Texts.{IsWorkers};
ghost use Rattle.mr_late.specs.Words.{command_words, late_words_of, table_from, table_words_of, table_syntax};

use clap::{ArgMatches, Command};
use mr_io::Text;
use mr_words::values::{file, number_or, workers};
use mr_words::{WordsError, command_for, parse};
use std::alloc::{AllocError, Global};

/// The greatest budget of each search of a table.
pub const TABLE_BUDGET_LIMIT: u32 = 524_288;

/// The budget of each search of a table where none is given.
pub const DEFAULT_TABLE_BUDGET: u32 = 65_536;

/// What the words of `table` ask.
#[derive(Debug, Drop)]
pub struct TableWords {
    /// The name of the matrix file.
    pub matrix: Text,
    /// The number of workers, 1 to 64.
    pub workers: u32,
    /// The budget of each search, 0 to 524,288.
    pub budget: u32,
}

/// Reads the words after the program's name. `Usage` comes exactly where they are not those of
/// `table`.
#[tactic(auto, unfolding(crate::specs::Words::late_words_of))]
pub fn read_late_words(alloc: Global, words: &[String]) -> Result<TableWords, WordsError>
    ensures reads { Reads (late_words_of (map string_bytes words.now)) result }
    ensures workers { IfOk result (λ words. IsWorkers words.workers) }
{
    match words {
        [command, ..] => read_command(alloc, command.as_str(), words),
        [] => Err(WordsError::Usage),
    }
}

/// Reads the words, of which the first is the command.
fn read_command(alloc: Global, command: &str, words: &[String]) -> Result<TableWords, WordsError>
    ensures reads { Reads (command_words command.now (map string_bytes words.now)) result }
    ensures workers { IfOk result (λ words. IsWorkers words.workers) }
{
    match command {
        "table" => read_table(alloc, words),
        _ => Err(WordsError::Usage),
    }
}

/// Reads the words of `table`, of which the first is `table` itself and is not looked at.
fn read_table(alloc: Global, words: &[String]) -> Result<TableWords, WordsError>
    ensures reads { Reads (table_words_of (drop 1 (map string_bytes words.now))) result }
    ensures workers { IfOk result (λ words. IsWorkers words.workers) }
{
    let command = table_command(alloc)?;
    let matches = parse(command, words)?;
    table_values(alloc, &matches)
}

fn table_values(alloc: Global, matches: &ArgMatches) -> Result<TableWords, WordsError>
    ensures reads { Reads (table_from (first_value (found_of matches.now))) result }
    ensures workers { IfOk result (λ words. IsWorkers words.workers) }
{
    let matrix = file(alloc, matches, "matrix")?;
    let workers = workers(matches)?;
    let budget = number_or(
        matches,
        "budget",
        DEFAULT_TABLE_BUDGET,
        0,
        TABLE_BUDGET_LIMIT,
    )?;
    Ok(TableWords {
        matrix,
        workers,
        budget,
    })
}

fn table_command<'a>(alloc: Global) -> Result<Command<'a>, AllocError>
    ensures { IfOk result (λ command. app_of command ≡ app_for (codes "table") table_syntax) }
{
    let places = ["matrix"];
    let valued = ["workers", "budget"];
    command_for(alloc, "table", &places, &valued, &[])
}
