//! The places of devices: their names and their values.

ghost use Rattle.std.specs.Prelude.{◌≡◌, ◌≤◌, ◌++◌, IfOk, decimal, length, map, string_bytes};
ghost use Rattle.clap.specs.Words.{first_value, found_of};
ghost use Rattle.mr_words.specs.Reads.{Reads};
ghost use Rattle.mr_words.specs.Texts.{file_of};
ghost use Rattle.mr_array_words.specs.Devices.{device_names, each_of};
ghost use Rattle.mr_array_words.specs.Gather.{gather_device};
ghost use Rattle.mr_array_words.specs.Reads.{ReadsAs};

use clap::ArgMatches;
use itoa::Buffer;
use mr_io::Text;
use mr_words::WordsError;
use mr_words::values::file;
use std::alloc::{AllocError, Global};

/// The names of the places of so many devices: their numbers from 0 on.
pub(crate) fn device_names(alloc: Global, count: usize) -> Result<Vec<String>, AllocError>
    ensures { IfOk result (λ names. map string_bytes names.items ≡ device_names count) }
{
    let mut names = Vec::new(alloc);
    for number in 0..count {
        names.push(name_of(alloc, number)?)?;
    }
    Ok(names)
}

fn name_of(alloc: Global, number: usize) -> Result<String, AllocError>
    ensures { IfOk result (λ name. string_bytes name ≡ decimal number) }
{
    let mut digits = Buffer::new();
    String::from_str(alloc, digits.format(number))
}

/// The places before those of the devices, and then these.
pub(crate) fn all_places<'a>(
    alloc: Global,
    before: &[&'a str],
    devices: &'a [String],
) -> Result<Vec<&'a str>, AllocError>
    ensures { IfOk result (λ places. map (λ name. name.now) places.items
        ≡ map (λ name. name.now) before.now ++ map string_bytes devices.entry.now) }
{
    let mut places = before.to_vec(alloc)?;
    for name in devices {
        places.push(name.as_str())?;
    }
    Ok(places)
}

/// The devices of `gather` at the places of these names.
pub(crate) fn gather_devices(
    alloc: Global,
    matches: &ArgMatches,
    names: &[String],
) -> Result<Vec<Option<Text>>, WordsError>
    ensures { ReadsAs (λ devices. devices.items)
        (each_of (λ name. gather_device (first_value (found_of matches.now) name))
        (map string_bytes names.now)) result }
{
    let mut devices = Vec::new(alloc);
    for name in names {
        let device = gather_device(alloc, matches, name.as_str())?;
        if devices.push(device).is_err() {
            return Err(WordsError::Memory);
        }
    }
    Ok(devices)
}

/// A device of `gather`: None where it is lost.
fn gather_device(
    alloc: Global,
    matches: &ArgMatches,
    name: &str,
) -> Result<Option<Text>, WordsError>
    ensures { Reads (gather_device (first_value (found_of matches.now) name.now)) result }
{
    let name = file(alloc, matches, name)?;
    if name.is("-") {
        Ok(None)
    } else {
        Ok(Some(name))
    }
}

/// The device files of `scatter` at the places of these names.
pub(crate) fn scatter_devices(
    alloc: Global,
    matches: &ArgMatches,
    names: &[String],
) -> Result<Vec<Text>, WordsError>
    ensures { ReadsAs (λ devices. devices.items)
        (each_of (λ name. file_of (first_value (found_of matches.now) name))
        (map string_bytes names.now)) result }
{
    let mut devices = Vec::new(alloc);
    for name in names {
        let device = file(alloc, matches, name.as_str())?;
        if devices.push(device).is_err() {
            return Err(WordsError::Memory);
        }
    }
    Ok(devices)
}
