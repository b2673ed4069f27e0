//! The words of `gather`.

ghost use Rattle.std.specs.Prelude.{◌≡◌, ◌≤◌, IfOk, codes, drop, map, string_bytes};
ghost use Rattle.clap.specs.Words.{app_of, first_value, found_of};
ghost use Rattle.mr_words.specs.Clap.{app_for};
ghost use Rattle.mr_array_words.specs.Devices.{asked_with, device_names};
ghost use Rattle.mr_array_words.specs.Gather.{gather_asked, gather_from, gather_of, gather_syntax};
ghost use Rattle.mr_array_words.specs.Reads.{ReadsAs};

use crate::counting::{DEVICE_LIMIT, device_count};
use crate::devices::{all_places, device_names, gather_devices};
use clap::{ArgMatches, Command};
use mr_io::Text;
use mr_words::values::{file, number, optional_file};
use mr_words::{WordsError, command_for, parse};
use std::alloc::{AllocError, Global};

/// What the words of `gather` ask.
#[derive(Debug, Drop)]
pub struct GatherWords {
    /// The name of the matrix file.
    pub matrix: Text,
    /// The bytes of a symbol, 0 to 999,999,999: whether an image may have them is not asked here.
    pub bytes: u32,
    /// The first stripe, 0 to 999,999,999.
    pub first: u32,
    /// The number of stripes, 0 to 999,999,999.
    pub stripes: u32,
    /// The name of the plan file, where one is given.
    pub plan: Option<Text>,
    /// The names of the device files in order, 1 to 128 of them: None where the device is lost.
    pub devices: Vec<Option<Text>>,
}

/// Reads the words of `gather`, of which the first is `gather` itself and is not looked at.
pub(crate) fn read_gather(alloc: Global, words: &[String]) -> Result<GatherWords, WordsError>
    ensures { ReadsAs gather_asked (gather_of (drop 1 (map string_bytes words.now))) result }
{
    match device_count(words, 4, 1) {
        Some(count) => read_devices(alloc, words, count),
        None => Err(WordsError::Usage),
    }
}

/// Reads the words of `gather` with so many devices.
fn read_devices(alloc: Global, words: &[String], count: usize) -> Result<GatherWords, WordsError>
    requires { count ≤ DEVICE_LIMIT }
    ensures { ReadsAs gather_asked
        (asked_with gather_syntax gather_from count (drop 1 (map string_bytes words.now))) result }
{
    let names = device_names(alloc, count)?;
    let command = gather_command(alloc, &names)?;
    let matches = parse(command, words)?;
    gather_values(alloc, &matches, &names)
}

fn gather_values(
    alloc: Global,
    matches: &ArgMatches,
    names: &[String],
) -> Result<GatherWords, WordsError>
    ensures { ReadsAs gather_asked
        (gather_from (map string_bytes names.now) (first_value (found_of matches.now))) result }
{
    let matrix = file(alloc, matches, "matrix")?;
    let bytes = number(matches, "bytes")?;
    let first = number(matches, "first")?;
    let stripes = number(matches, "stripes")?;
    let plan = optional_file(alloc, matches, "plan")?;
    let devices = gather_devices(alloc, matches, names)?;
    Ok(GatherWords {
        matrix,
        bytes,
        first,
        stripes,
        plan,
        devices,
    })
}

fn gather_command<'a>(alloc: Global, names: &'a [String]) -> Result<Command<'a>, AllocError>
    ensures { IfOk result (λ command. app_of command
        ≡ app_for (codes "gather") (gather_syntax (map string_bytes names.entry.now))) }
{
    let before = ["matrix", "bytes", "first", "stripes"];
    let places = all_places(alloc, &before, names)?;
    command_for(alloc, "gather", &places, &["plan"], &[])
}
