//! The words of `drill NUMBER`.

ghost use Rattle.std.specs.Prelude.{◌≡◌, IfOk, codes, drop, map, string_bytes};
ghost use Rattle.clap.specs.Words.{app_of, first_value, found_of};
ghost use Rattle.mr_words.specs.Clap.{app_for};
ghost use Rattle.mr_words.specs.Drill.{drill_from, drill_of, drill_syntax};
ghost use Rattle.mr_words.specs.Reads.{Reads};

use crate::command::{command_for, parse};
use crate::errors::WordsError;
use crate::values::number;
use clap::{ArgMatches, Command};
use std::alloc::{AllocError, Global};

/// What the words of `drill` ask.
#[derive(Clone, Copy, Debug, Drop, PartialEq, Eq)]
pub struct DrillWords {
    /// The number of the drill.
    pub number: u32,
}

/// Reads the words of `drill`, of which the first is `drill` itself and is not looked at.
pub fn read_drill(alloc: Global, words: &[String]) -> Result<DrillWords, WordsError>
    ensures { Reads (drill_of (drop 1 (map string_bytes words.now))) result }
{
    let command = drill_command(alloc)?;
    let matches = parse(command, words)?;
    drill_values(&matches)
}

fn drill_values(matches: &ArgMatches) -> Result<DrillWords, WordsError>
    ensures { Reads (drill_from (first_value (found_of matches.now))) result }
{
    let number = number(matches, "number")?;
    Ok(DrillWords { number })
}

fn drill_command<'a>(alloc: Global) -> Result<Command<'a>, AllocError>
    ensures { IfOk result (λ command. app_of command ≡ app_for (codes "drill") drill_syntax) }
{
    let places = ["number"];
    command_for(alloc, "drill", &places, &[], &[])
}
