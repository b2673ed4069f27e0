//! The words of `leastplan`.

ghost use Rattle.std.specs.Prelude.{◌≡◌, IfOk, codes, drop, map, string_bytes};
ghost use Rattle.clap.specs.Words.{app_of, first_value, found_of};
ghost use Rattle.mr_words.specs.Clap.{app_for};
ghost use Rattle.mr_words.specs.Plan.{plan_syntax};
ghost use Rattle.mr_words.specs.Reads.{Reads};
ghost use Rattle.mr_words.specs.Texts.{IsWorkers};
ghost use Rattle.mr_least_words.specs.Words.{budget_of, least_from, least_of};

use crate::budgets::{GREATEST_BUDGET, read_budget};
use clap::{ArgMatches, Command};
use mr_io::Text;
use mr_words::values::{file, lost, workers};
use mr_words::{WordsError, command_for, parse};
use std::alloc::{AllocError, Global};

/// What the words of `leastplan` ask.
#[derive(Debug, Drop)]
pub struct LeastWords {
    /// The name of the matrix file.
    pub matrix: Text,
    /// The LOST word.
    pub lost: Text,
    /// The number of workers, 1 to 64.
    pub workers: u32,
    /// The budget, 0 to 4,294,967,295.
    pub budget: u32,
}

/// Reads the words of `leastplan`, of which the first is the program's name and is not looked at.
pub fn read_least(alloc: Global, words: &[String]) -> Result<LeastWords, WordsError>
    ensures reads { Reads (least_of (drop 1 (map string_bytes words.now))) result }
    ensures workers { IfOk result (λ words. IsWorkers words.workers) }
{
    let command = least_command(alloc)?;
    let matches = parse(command, words)?;
    least_values(alloc, &matches)
}

fn least_values(alloc: Global, matches: &ArgMatches) -> Result<LeastWords, WordsError>
    ensures reads { Reads (least_from (first_value (found_of matches.now))) result }
    ensures workers { IfOk result (λ words. IsWorkers words.workers) }
{
    let matrix = file(alloc, matches, "matrix")?;
    let lost = lost(alloc, matches, "lost")?;
    let workers = workers(matches)?;
    let budget = budget(matches)?;
    Ok(LeastWords {
        matrix,
        lost,
        workers,
        budget,
    })
}

/// The budget, of `--budget`: 0 to 4,294,967,295, and the greatest where it is not given.
fn budget(matches: &ArgMatches) -> Result<u32, WordsError>
    ensures { Reads (budget_of (first_value (found_of matches.now) (codes "budget"))) result }
{
    match matches.get_str("budget") {
        None => Ok(GREATEST_BUDGET),
        Some(text) => read_budget(text).ok_or(WordsError::Usage),
    }
}

fn least_command<'a>(alloc: Global) -> Result<Command<'a>, AllocError>
    ensures { IfOk result (λ command. app_of command ≡ app_for (codes "leastplan") plan_syntax) }
{
    let places = ["matrix", "lost"];
    let valued = ["workers", "budget"];
    command_for(alloc, "leastplan", &places, &valued, &[])
}
