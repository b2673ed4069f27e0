//! The words of `check MATRIX LOST PLAN`.

ghost use Rattle.std.specs.Prelude.{◌≡◌, IfOk, codes, drop, map, string_bytes};
ghost use Rattle.clap.specs.Words.{app_of, first_value, found_of};
ghost use Rattle.mr_words.specs.Clap.{app_for};
ghost use Rattle.mr_words.specs.Check.{check_from, check_of, check_syntax};
ghost use Rattle.mr_words.specs.Reads.{Reads};

use crate::command::{command_for, parse};
use crate::errors::WordsError;
use crate::values::{file, lost};
use clap::{ArgMatches, Command};
use mr_io::Text;
use std::alloc::{AllocError, Global};

/// What the words of `check` ask.
#[derive(Debug, Drop)]
pub struct CheckWords {
    /// The name of the matrix file.
    pub matrix: Text,
    /// The LOST word.
    pub lost: Text,
    /// The name of the plan file.
    pub plan: Text,
}

/// Reads the words of `check`, of which the first is `check` itself and is not looked at.
pub fn read_check(alloc: Global, words: &[String]) -> Result<CheckWords, WordsError>
    ensures { Reads (check_of (drop 1 (map string_bytes words.now))) result }
{
    let command = check_command(alloc)?;
    let matches = parse(command, words)?;
    check_values(alloc, &matches)
}

fn check_values(alloc: Global, matches: &ArgMatches) -> Result<CheckWords, WordsError>
    ensures { Reads (check_from (first_value (found_of matches.now))) result }
{
    let matrix = file(alloc, matches, "matrix")?;
    let lost = lost(alloc, matches, "lost")?;
    let plan = file(alloc, matches, "plan")?;
    Ok(CheckWords { matrix, lost, plan })
}

fn check_command<'a>(alloc: Global) -> Result<Command<'a>, AllocError>
    ensures { IfOk result (λ command. app_of command ≡ app_for (codes "check") check_syntax) }
{
    let places = ["matrix", "lost", "plan"];
    command_for(alloc, "check", &places, &[], &[])
}
