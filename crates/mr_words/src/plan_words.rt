//! The words of `plan MATRIX LOST [--workers W] [--budget C]`.

ghost use Rattle.std.specs.Prelude.{◌≡◌, IfOk, codes, drop, map, string_bytes};
ghost use Rattle.clap.specs.Words.{app_of, first_value, found_of};
ghost use Rattle.mr_words.specs.Clap.{app_for};
ghost use Rattle.mr_words.specs.Plan.{plan_from, plan_of, plan_syntax};
ghost use Rattle.mr_words.specs.Reads.{Reads};
ghost use Rattle.mr_words.specs.Texts.{IsWorkers};

use crate::command::{command_for, parse};
use crate::errors::WordsError;
use crate::values::{budget, file, lost, workers};
use clap::{ArgMatches, Command};
use mr_io::Text;
use std::alloc::{AllocError, Global};

/// What the words of `plan` ask.
#[derive(Debug, Drop)]
pub struct PlanWords {
    /// The name of the matrix file.
    pub matrix: Text,
    /// The LOST word.
    pub lost: Text,
    /// The number of workers, 1 to 64.
    pub workers: u32,
    /// The budget, 0 to 33,554,432.
    pub budget: u32,
}

/// Reads the words of `plan`, of which the first is `plan` itself and is not looked at.
pub fn read_plan(alloc: Global, words: &[String]) -> Result<PlanWords, WordsError>
    ensures reads { Reads (plan_of (drop 1 (map string_bytes words.now))) result }
    ensures workers { IfOk result (λ words. IsWorkers words.workers) }
{
    let command = plan_command(alloc)?;
    let matches = parse(command, words)?;
    plan_values(alloc, &matches)
}

fn plan_values(alloc: Global, matches: &ArgMatches) -> Result<PlanWords, WordsError>
    ensures reads { Reads (plan_from (first_value (found_of matches.now))) result }
    ensures workers { IfOk result (λ words. IsWorkers words.workers) }
{
    let matrix = file(alloc, matches, "matrix")?;
    let lost = lost(alloc, matches, "lost")?;
    let workers = workers(matches)?;
    let budget = budget(matches)?;
    Ok(PlanWords {
        matrix,
        lost,
        workers,
        budget,
    })
}

fn plan_command<'a>(alloc: Global) -> Result<Command<'a>, AllocError>
    ensures { IfOk result (λ command. app_of command ≡ app_for (codes "plan") plan_syntax) }
{
    let places = ["matrix", "lost"];
    let valued = ["workers", "budget"];
    command_for(alloc, "plan", &places, &valued, &[])
}
