//! The words of `scatter`.

ghost use Rattle.std.specs.Prelude.{◌≡◌, ◌≤◌, IfOk, codes, drop, map, string_bytes};
ghost use Rattle.clap.specs.Words.{app_of, first_value, found_of};
ghost use Rattle.mr_words.specs.Clap.{app_for};
ghost use Rattle.mr_words.specs.Reads.{Reads};
ghost use Rattle.mr_array_words.specs.Devices.{asked_with, device_names};
ghost use Rattle.mr_array_words.specs.Reads.{ReadsAs};
ghost use Rattle.mr_array_words.specs.Scatter.{lost_list_of, scatter_asked, scatter_from, scatter_of, scatter_syntax};

use crate::counting::{DEVICE_LIMIT, device_count};
use crate::devices::{all_places, device_names, scatter_devices};
use crate::lists::lists;
use clap::{ArgMatches, Command};
use mr_io::Text;
use mr_words::values::{file, lost, number};
use mr_words::{WordsError, command_for, parse};
use std::alloc::{AllocError, Global};

/// What the words of `scatter` ask.
#[derive(Debug, Drop)]
pub struct ScatterWords {
    /// The name of the matrix file.
    pub matrix: Text,
    /// The first stripe, 0 to 999,999,999.
    pub first: u32,
    /// The LOST word.
    pub lost: Text,
    /// The names of the device files, one for each device that LOST lists, in its order.
    pub devices: Vec<Text>,
}

/// Reads the words of `scatter`, of which the first is `scatter` itself and is not looked at.
pub(crate) fn read_scatter(alloc: Global, words: &[String]) -> Result<ScatterWords, WordsError>
    ensures { ReadsAs scatter_asked (scatter_of (drop 1 (map string_bytes words.now))) result }
{
    match device_count(words, 3, 0) {
        Some(count) => read_devices(alloc, words, count),
        None => Err(WordsError::Usage),
    }
}

/// Reads the words of `scatter` with so many devices.
fn read_devices(alloc: Global, words: &[String], count: usize) -> Result<ScatterWords, WordsError>
    requires { count ≤ DEVICE_LIMIT }
    ensures { ReadsAs scatter_asked
        (asked_with scatter_syntax scatter_from count (drop 1 (map string_bytes words.now))) result }
{
    let names = device_names(alloc, count)?;
    let command = scatter_command(alloc, &names)?;
    let matches = parse(command, words)?;
    scatter_values(alloc, &matches, &names)
}

fn scatter_values(
    alloc: Global,
    matches: &ArgMatches,
    names: &[String],
) -> Result<ScatterWords, WordsError>
    ensures { ReadsAs scatter_asked
        (scatter_from (map string_bytes names.now) (first_value (found_of matches.now))) result }
{
    let matrix = file(alloc, matches, "matrix")?;
    let first = number(matches, "first")?;
    let lost = lost_list(alloc, matches, names.len())?;
    let devices = scatter_devices(alloc, matches, names)?;
    Ok(ScatterWords {
        matrix,
        first,
        lost,
        devices,
    })
}

/// The LOST word, which lists so many devices.
fn lost_list(alloc: Global, matches: &ArgMatches, count: usize) -> Result<Text, WordsError>
    ensures { Reads (lost_list_of count (first_value (found_of matches.now) (codes "lost"))) result }
{
    let lost = lost(alloc, matches, "lost")?;
    if lists(lost.as_str(), count) {
        Ok(lost)
    } else {
        Err(WordsError::Usage)
    }
}

fn scatter_command<'a>(alloc: Global, names: &'a [String]) -> Result<Command<'a>, AllocError>
    ensures { IfOk result (λ command. app_of command
        ≡ app_for (codes "scatter") (scatter_syntax (map string_bytes names.entry.now))) }
{
    let before = ["matrix", "first", "lost"];
    let places = all_places(alloc, &before, names)?;
    command_for(alloc, "scatter", &places, &[], &[])
}
