//! The words of a command that takes the files of a matrix and of an image alone: `convert MATRIX IMAGE` and
//! `scrub MATRIX IMAGE`.

ghost use Rattle.std.specs.Prelude.{◌≡◌, IfOk, drop, map, string_bytes};
ghost use Rattle.clap.specs.Words.{app_of, first_value, found_of};
ghost use Rattle.mr_words.specs.Clap.{app_for};
ghost use Rattle.mr_words.specs.ImageWords.{image_from, image_syntax, image_words_of};
ghost use Rattle.mr_words.specs.Reads.{Reads};

use crate::command::{command_for, parse};
use crate::errors::WordsError;
use crate::values::file;
use clap::{ArgMatches, Command};
use mr_io::Text;
use std::alloc::{AllocError, Global};

/// What the words of such a command ask.
#[derive(Debug, Drop)]
pub struct ImageWords {
    /// The name of the matrix file.
    pub matrix: Text,
    /// The name of the image file.
    pub image: Text,
}

/// Reads the words of the command of this name, of which the first is the command itself and is not looked at.
pub fn read_image_words(
    alloc: Global,
    name: &str,
    words: &[String],
) -> Result<ImageWords, WordsError>
    ensures { Reads (image_words_of (drop 1 (map string_bytes words.now))) result }
{
    let command = image_command(alloc, name)?;
    let matches = parse(command, words)?;
    image_values(alloc, &matches)
}

fn image_values(alloc: Global, matches: &ArgMatches) -> Result<ImageWords, WordsError>
    ensures { Reads (image_from (first_value (found_of matches.now))) result }
{
    let matrix = file(alloc, matches, "matrix")?;
    let image = file(alloc, matches, "image")?;
    Ok(ImageWords { matrix, image })
}

fn image_command<'a>(alloc: Global, name: &'a str) -> Result<Command<'a>, AllocError>
    ensures { IfOk result (λ command. app_of command ≡ app_for name.now image_syntax) }
{
    let places = ["matrix", "image"];
    command_for(alloc, name, &places, &[], &[])
}
