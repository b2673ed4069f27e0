//! The words of `encode MATRIX DATA STRIPES BYTES`.

ghost use Rattle.std.specs.Prelude.{◌≡◌, IfOk, codes, drop, map, string_bytes};
ghost use Rattle.clap.specs.Words.{app_of, first_value, found_of};
ghost use Rattle.mr_words.specs.Clap.{app_for};
ghost use Rattle.mr_words.specs.Encode.{encode_from, encode_of, encode_syntax};
ghost use Rattle.mr_words.specs.Reads.{Reads};

use crate::command::{command_for, parse};
use crate::errors::WordsError;
use crate::values::{file, number};
use clap::{ArgMatches, Command};
use mr_io::Text;
use std::alloc::{AllocError, Global};

/// What the words of `encode` ask.
#[derive(Debug, Drop)]
pub struct EncodeWords {
    /// The name of the matrix file.
    pub matrix: Text,
    /// The name of the file of the data symbols.
    pub payload: Text,
    /// The number of stripes, 0 to 999,999,999.
    pub stripes: u32,
    /// The bytes per symbol, 0 to 999,999,999: whether an image may have them is not asked here.
    pub bytes: u32,
}

/// Reads the words of `encode`, of which the first is `encode` itself and is not looked at.
pub fn read_encode(alloc: Global, words: &[String]) -> Result<EncodeWords, WordsError>
    ensures { Reads (encode_of (drop 1 (map string_bytes words.now))) result }
{
    let command = encode_command(alloc)?;
    let matches = parse(command, words)?;
    encode_values(alloc, &matches)
}

fn encode_values(alloc: Global, matches: &ArgMatches) -> Result<EncodeWords, WordsError>
    ensures { Reads (encode_from (first_value (found_of matches.now))) result }
{
    let matrix = file(alloc, matches, "matrix")?;
    let payload = file(alloc, matches, "payload")?;
    let stripes = number(matches, "stripes")?;
    let bytes = number(matches, "bytes")?;
    Ok(EncodeWords {
        matrix,
        payload,
        stripes,
        bytes,
    })
}

fn encode_command<'a>(alloc: Global) -> Result<Command<'a>, AllocError>
    ensures { IfOk result (λ command. app_of command ≡ app_for (codes "encode") encode_syntax) }
{
    let places = ["matrix", "payload", "stripes", "bytes"];
    command_for(alloc, "encode", &places, &[], &[])
}
